// A sum over all fields of dates, so that each of them has to be there, and the calendar that an order names.
// For the programs that count instructions.

#![tactic(auto)]

ghost use Rattle.std.specs.Prelude.{◌≡◌};
ghost use Rattle.benchsum.specs.Promise.{Adds, IsFields, calendar_value, plus_value, style_bit_value};

use calendar::{Calendar, Date, Refusal, Style};

pub fn plus(a: u64, b: u64) -> u64
    ensures { result ≡ plus_value a b }
{
    a.wrapping_add(b)
}

pub fn style_bit(style: Style) -> u32
    ensures { result ≡ style_bit_value style }
{
    match style {
        Style::Julian | Style::Swedish => 0,
        Style::Gregorian => 1,
    }
}

// The fields at places of their own in 64 bits, so that each of them has to be there.
pub fn fields(d: Date) -> u64
    ensures { IsFields d result }
{
    let low = whole::raised(d.jdn) as u64 ^ ((d.ordinal as u64) << 32) ^ ((d.month as u64) << 44);
    let high = ((d.day as u64) << 50)
        ^ ((d.day_ordinal as u64) << 56)
        ^ ((whole::raised(d.year) as u64) << 12);
    low ^ high ^ ((style_bit(d.style) as u64) << 62)
}

pub fn added(sum: u64, answer: Result<Date, Refusal>) -> u64
    ensures { Adds sum answer result }
{
    match answer {
        Ok(d) => plus(sum, fields(d)),
        Err(f) => plus(sum, f.number as u64),
    }
}

pub fn calendar_of(letter: u8) -> Calendar
    ensures { result ≡ calendar_value letter }
{
    match letter {
        b'J' => Calendar::Julian,
        b'G' => Calendar::Gregorian,
        _ => Calendar::REFORM1582,
    }
}
