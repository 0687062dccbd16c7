// What could have stood at a place of a date text: which digits, a `-`, a `+`, the end. Each call answers for any bytes and any place.
// For the crates above.

#![tactic(auto)]

ghost use Rattle.std.specs.Prelude.{◌≡◌, true, false, cond, ◌≤◌, ◌<◌, nat_abs, length, take};
ghost use Rattle.expected.specs.Promise.{Expects};
ghost use Rattle.expected.specs.Numbers.{digits_left_value};
ghost use Rattle.expected.specs.Fronts.{expects};
ghost use Rattle.expected.specs.Faults.{Says, IsYear, year_limit_value};

use datetext::Text;

// The first so many of the digits `0` to `9`, and whether a `-`, a `+` and the end.
#[derive(Clone, Copy)]
pub struct Expected {
    pub digits: u32,
    pub dash: bool,
    pub plus: bool,
    pub ends: bool,
}

// What could have stood at a place, after the bytes before it; a place past the text is its end.
pub fn expected_at(text: &[u8], place: usize) -> Expected
    ensures { Expects (take place text.now) result }
{
    expected_after(&text[..place.min(text.len())])
}

fn expected_after(front: &[u8]) -> Expected
    ensures { Expects front.now result }
{
    match datetext::read_date(front) {
        Ok(Text::Ordinal { ordinal, .. }) => after_number(ordinal, monthdays::is_month(ordinal)),
        Ok(Text::Ymd { day, .. }) => after_number(day, false),
        Err(why) => after_fault(front, why.number),
    }
}

// After a number that the front may end with.
fn after_number(n: u32, dash: bool) -> Expected
    ensures { result ≡ expects (digits_left_value 4_294_967_295 n) dash false true }
{
    Expected {
        digits: digits_left(4_294_967_295, n as u64),
        dash,
        plus: false,
        ends: true,
    }
}

// After a front that the text cannot end with: digits, and perhaps signs.
fn beginning(digits: u32, signs: bool) -> Expected
    ensures { result ≡ expects digits signs signs false }
{
    Expected {
        digits,
        dash: signs,
        plus: signs,
        ends: false,
    }
}

// After a front that is at fault. Where it only ended too soon, something could follow.
fn after_fault(front: &[u8], number: u32) -> Expected
    requires { Says front.now number }
    ensures { Expects front.now result }
{
    if front.len() < 1 {
        return beginning(10, true);
    }
    if number == 8 {
        return beginning(10, false);
    }
    if number == 10 {
        if front.len() < 2 {
            return beginning(10, false);
        }
        return beginning(0, false);
    }
    if number == 13 {
        return after_year(front);
    }
    beginning(0, false)
}

// After a year without its `-`.
fn after_year(front: &[u8]) -> Expected
    requires { IsYear front.now }
    ensures { Expects front.now result }
{
    match numbertext::signed_at(front, 0) {
        Ok((year, _)) => year_digits(year),
        Err(_) => beginning(0, false),
    }
}

fn year_digits(year: i32) -> Expected
    ensures { result ≡ expects (digits_left_value (year_limit_value year) (nat_abs year)) true false false }
{
    let y = whole::widened(year);
    Expected {
        digits: digits_left(year_limit(whole::is_negative(y)), whole::magnitude(y)),
        dash: true,
        plus: false,
        ends: false,
    }
}

// The greatest magnitude of a year.
fn year_limit(negative: bool) -> u64
    ensures { result ≡ cond negative 2_147_483_648 2_147_483_647 }
{
    if negative {
        2_147_483_648
    } else {
        2_147_483_647
    }
}

// How many of the ten digits keep a number in its range, if one comes after it.
fn digits_left(limit: u64, n: u64) -> u32
    requires { (limit < 4_294_967_296) × (n < 4_294_967_296) }
    ensures { result ≡ digits_left_value limit n }
{
    let next = n * 10;
    if limit < next {
        return 0;
    }
    let left = limit - next + 1;
    if 10 < left {
        return 10;
    }
    left as u32
}
