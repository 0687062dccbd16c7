// The text of a date, the usual one first: a year of three or four digits, a month and a day of one or two. Most texts are so, and are read without
// the questions that only the others need. Where a part is not so, the text is read from there on part by part, as any text is.

ghost use Rattle.std.specs.Prelude.{◌≡◌, ◌≤◌, ◌<◌, length};
ghost use Rattle.numbertext.specs.Reading.{the_number};
ghost use Rattle.datetext.specs.Promise.{ReadDate};
ghost use Rattle.datetext.specs.Reading.{after_second};
ghost use Rattle.datetext.specs.Usual.{IfAt, Hundreds, YearRead, MonthRead, DayRead};

use crate::Text;
use refusals::Refusal;

// ---- a part that is found: its number, and the place after its dash

// The last two digits of the year are to stand at `at`, where a `-` is known to come after them.
#[tactic(auto, using(crate::specs::Usual::nothing_found))]
fn year_at(text: &[u8], hundreds: u32, at: usize) -> Option<(u32, usize)>
    requires { Hundreds text.now hundreds at }
    ensures { IfAt (YearRead text.now) result }
{
    if 99 < hundreds {
        return None;
    }
    let rest = digits::pair_at(text, at);
    if 99 < rest {
        return None;
    }
    Some((hundreds * 100 + rest, at + 3))
}

#[tactic(auto, using(crate::specs::Usual::nothing_found))]
fn usual_year(text: &[u8]) -> Option<(u32, usize)>
    ensures { IfAt (YearRead text.now) result }
{
    if text.len() < 5 {
        return None;
    }
    if text[4] == b'-' {
        let hundreds = digits::pair_at(text, 0);
        return year_at(text, hundreds, 2);
    }
    if text[3] == b'-' {
        let hundreds = digits::digit_at(text, 0);
        if hundreds < 10 {
            return year_at(text, hundreds, 1);
        }
    }
    None
}

// The month is to stand at `at`.
#[tactic(auto, using(crate::specs::Usual::nothing_found))]
fn usual_month(text: &[u8], at: usize) -> Option<(u32, usize)>
    requires { at ≤ length text.now }
    ensures { IfAt (MonthRead text.now at) result }
{
    if text.len() - at < 3 {
        return None;
    }
    if text[at + 2] == b'-' {
        let month = digits::pair_at(text, at);
        if crate::is_month(month) {
            return Some((month, at + 3));
        }
        return None;
    }
    if text[at + 1] == b'-' {
        let month = digits::digit_at(text, at);
        if 9 < month {
            return None;
        }
        if crate::is_month(month) {
            return Some((month, at + 2));
        }
    }
    None
}

// The day is to stand at `at` and to end the text: 100 says that it does not.
#[tactic(auto, using(crate::specs::Usual::two_digits_read))]
fn usual_day(text: &[u8], at: usize) -> u32
    requires { at ≤ length text.now }
    ensures { result < 100 → DayRead text.now at result }
{
    let left = text.len() - at;
    if left == 2 {
        return digits::pair_at(text, at);
    }
    if left == 1 {
        let day = digits::digit_at(text, at);
        if day < 10 {
            return day;
        }
    }
    100
}

// A text that is no usual one from some part on is read part by part from there.
fn usual_on(text: &[u8], year: i32, at: usize) -> Result<Text, Refusal>
    requires { at ≤ length text.now }
    ensures { result ≡ after_second text.now year at (the_number text.now at) }
{
    let Some((month, third)) = usual_month(text, at) else {
        return crate::second_on(text, year, at);
    };
    let day = usual_day(text, third);
    if day < 100 {
        Ok(Text::Ymd {
            year,
            month,
            day,
            place: third,
        })
    } else {
        crate::day_on(text, year, month, third)
    }
}

pub fn read_date(text: &[u8]) -> Result<Text, Refusal>
    ensures { ReadDate text.now result }
{
    let Some((year, second)) = usual_year(text) else {
        return crate::any_date(text);
    };
    usual_on(text, whole::lowered(2_147_483_648 + year), second)
}
