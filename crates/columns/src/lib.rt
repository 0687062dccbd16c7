// The columns of the listing: the numbers that stand in the line of an answer, and the header over them.
// For the crates above; `listing` passes `put_header` on to users.

#![tactic(auto)]

ghost use Rattle.std.specs.Prelude.{◌≡◌};
ghost use Rattle.columns.specs.Columns.{style_letters_value, numbers_of_value, line_of};
ghost use Rattle.columns.specs.Promise.{PutsHeader};

use calendar::{Date, Style};
use linetext::LineNumbers;
use refusals::Refusal;
use writer::buffer;

// The letters of a style, `OS`, `NS` and `SV`: the first, and 256 times the second.
fn style_letters(style: Style) -> u64
    ensures { result ≡ style_letters_value style }
{
    match style {
        Style::Julian => 21_327,
        Style::Gregorian => 21_326,
        Style::Swedish => 22_099,
    }
}

// The numbers in the line of a date.
fn numbers_of(date: Date) -> LineNumbers
    ensures { result ≡ numbers_of_value date }
{
    let day = date.day;
    let weekday = weekday::for_jdn(date.jdn);
    let style = date.style;
    LineNumbers {
        jdn: whole::widened(date.jdn),
        year: whole::widened(date.year),
        ordinal: date.ordinal as u64,
        month: date.month as u64,
        day: day as u64,
        weekday: weekday as u64,
        style: style_letters(style),
    }
}

// The line of an answer.
pub fn line_of(answer: Result<Date, Refusal>) -> Result<LineNumbers, Refusal>
    ensures { result ≡ line_of answer }
{
    answer.map(numbers_of)
}

const HEADER: &[u8] = b"jdn\tyear\tordinal\tmonth\tday\tweekday\tstyle\n";

// The header, from `at` on.
pub fn put_header(out: &mut [u8], at: usize) -> Result<usize, Refusal>
    ensures { PutsHeader out.old at out.new result }
{
    buffer::copy_text(out, at, HEADER).ok_or(refusals::refusal_with(18, HEADER.len() as u32))
}
