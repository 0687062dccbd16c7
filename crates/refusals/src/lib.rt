// `Refusal`: what every refused call answers.
// For users: `Refusal`. For the crates above: the functions that make one.

#![tactic(auto)]

ghost use Rattle.std.specs.Prelude.{◌≡◌, pos};
ghost use Rattle.refusals.specs.Promise.{refusal};

// Its number, the place in a text that it is about, and the value that was at fault.
#[derive(Clone, Copy)]
pub struct Refusal {
    pub number: u32,
    pub place: usize,
    pub value: i64,
}

// In a call without a text: the place is 0.
pub fn refusal_of(number: u32, value: i64) -> Refusal
    ensures { result ≡ refusal number 0 value }
{
    Refusal {
        number: number,
        place: 0,
        value: value,
    }
}

// The same, of a value that is a count.
pub fn refusal_with(number: u32, count: u32) -> Refusal
    ensures { result ≡ refusal number 0 (pos count) }
{
    refusal_of(number, whole::counted(count))
}

// In a text, at a place of it, and of a value that is a count.
pub fn refusal_at(number: u32, place: usize, count: u32) -> Refusal
    ensures { result ≡ refusal number place (pos count) }
{
    let value = whole::counted(count);
    Refusal {
        number: number,
        place: place,
        value: value,
    }
}

// The same, of a byte.
pub fn byte_refusal(number: u32, place: usize, b: u8) -> Refusal
    ensures { result ≡ refusal number place (pos b) }
{
    refusal_at(number, place, b as u32)
}

// A date exists, and 32 bits do not hold its day number. This is about the date and not about a field, so it has no place in a text.
pub fn outside_32_bits(year: i32) -> Refusal
    ensures { result ≡ refusal 7 0 year }
{
    refusal_of(7, whole::widened(year))
}
