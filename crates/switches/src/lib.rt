// Calendars that switch from Julian to Gregorian dates on some day, with days and years as biased natural numbers: which day bears a label, and where
// a year or a month begins and ends. A calendar of one reckoning is one that switches after every day in question, or before all of them.
// For the crates above.
#![tactic(auto)]

pub mod reformation;

ghost use Rattle.std.specs.Prelude.{◌≡◌, ◌<◌};
ghost use Rattle.days.specs.ClosedRuns.{first_day_value};
ghost use Rattle.days.specs.DayByDay.{Month};
ghost use Rattle.inner.specs.Natural.{biased_year_value};
ghost use Rattle.switches.specs.Private.{Reads, ReadsBelow, MonthIn};
ghost use Rattle.switches.specs.Promise.{NoneBelow, Finds, RefusesNonGregorian, YearSpan, YearIn, SpansMonth};

use inner::Spot;
use refusals::{Refusal, refusal_with};

// ---- The days of a year

// The first day of a year or a month, whose first label is on day `julian` in the one reckoning and on day `gregorian` in the other.
pub fn first_day(switch: u64, julian: u64, gregorian: u64) -> u64
    ensures { result ≡ first_day_value switch julian gregorian }
{
    if julian < switch {
        return julian;
    }
    if gregorian < switch {
        return switch;
    }
    gregorian
}

// The first day of a raised year, and the first day past it. They are one day where the year has no day.
#[derive(Clone, Copy)]
pub struct Span {
    pub first: u64,
    pub past: u64,
}

pub fn year_span(switch: u64, year: u32) -> Span
    ensures { YearSpan switch (biased_year_value year) result.first result.past }
{
    let julian = inner::julian_start(year);
    let gregorian = inner::gregorian_start(year);
    let julian_days = inner::days_in_year(inner::is_julian_leap(year)) as u64;
    let gregorian_days = inner::days_in_year(inner::is_gregorian_leap(year)) as u64;
    Span {
        first: first_day(switch, julian, gregorian),
        past: first_day(switch, julian + julian_days, gregorian + gregorian_days),
    }
}

// A year in the reckoning in which it begins: its first day, whether it is leap, and whether it is wholly in that reckoning: 366 days from the
// first on, and the day after them, are before the switch, or the first one is not.
#[derive(Clone, Copy)]
pub struct PlainYear {
    pub first: u64,
    pub leap: bool,
    pub whole: bool,
}

pub fn year_in(switch: u64, year: u32) -> PlainYear
    ensures { YearIn switch (biased_year_value year) result }
{
    let old = inner::julian_start(year);
    if old < switch {
        return PlainYear {
            first: old,
            leap: inner::is_julian_leap(year),
            whole: old + 366 < switch,
        };
    }
    let new = inner::gregorian_start(year);
    PlainYear {
        first: new,
        leap: inner::is_gregorian_leap(year),
        whole: switch <= new,
    }
}

// ---- The days of a month

// A month of a calendar that switches on day `switch`: its first day, the first day past it, and its first day in the Gregorian reckoning,
// from which its Gregorian days count. The first two are one day where the month has no day.
#[derive(Clone, Copy)]
pub struct MonthSpan {
    pub switch: u64,
    pub first: u64,
    pub past: u64,
    pub gregorian: u64,
}

// A month that is not from 1 to 12 is refused 3.
#[tactic(auto, using(crate::proofs::Months::refused_past_12))]
pub fn month_span(switch: u64, year: u32, month: u32) -> Result<MonthSpan, Refusal>
    ensures { SpansMonth switch (biased_year_value year) month result }
{
    if month < 1 {
        return Err(refusal_with(3, month));
    }
    if 12 < month {
        return Err(refusal_with(3, month));
    }
    let old = month_in(
        inner::is_julian_leap(year),
        inner::julian_start(year),
        month,
    );
    let new = month_in(
        inner::is_gregorian_leap(year),
        inner::gregorian_start(year),
        month,
    );
    Ok(MonthSpan {
        switch: switch,
        first: first_day(switch, old.first, new.first),
        past: first_day(
            switch,
            old.first + old.days as u64,
            new.first + new.days as u64,
        ),
        gregorian: new.first,
    })
}

// A month in one reckoning.
#[derive(Clone, Copy)]
struct PlainMonth {
    first: u64,
    days: u32,
}

// By the first day of the year, and whether that is leap.
fn month_in(leap: bool, start: u64, month: u32) -> PlainMonth
    requires { Month month × (start < 2_000_000_000_000) }
    ensures { MonthIn leap start month result }
{
    let days = monthdays::days_in_month(leap, month);
    match monthdays::md2ordinal(leap, month, 1) {
        Some(ordinal) => PlainMonth {
            first: start + ordinal as u64 - 1,
            days: days,
        },
        None => PlainMonth {
            first: start,
            days: days,
        },
    }
}

// ---- The day of a label

// A label is on its Julian day where that is before the switch, and on its Gregorian day where that is not before it. One that is skipped is
// refused 5, and one that is nowhere 4, with the day of the month. What the Julian calendar does not have the Gregorian one does not have either.
pub fn find(switch: u64, year: u32, month: u32, day: u32) -> Result<Spot, Refusal>
    ensures { Finds switch year month day result }
{
    match julian_below(switch, year, month, day) {
        Some(answer) => answer,
        None => find_later(switch, year, month, day),
    }
}

// The day of a label in the Julian reckoning, where that is before the switch, or its refusal, where this reckoning does not have it. Else it is to
// be looked for from the switch on. A year that begins from the switch on has no Julian day before it.
fn julian_below(switch: u64, year: u32, month: u32, day: u32) -> Option<Result<Spot, Refusal>>
    ensures { ReadsBelow switch year month day result }
{
    let start = inner::julian_start(year);
    if switch <= start {
        return None;
    }
    match reading(inner::is_julian_leap(year), start, year, month, day) {
        None => Some(Err(refusal_with(4, day))),
        Some(s) => {
            if s.biased < switch {
                return Some(Ok(s));
            }
            None
        }
    }
}

// From the switch on.
fn find_later(switch: u64, year: u32, month: u32, day: u32) -> Result<Spot, Refusal>
    requires { NoneBelow switch year month day }
    ensures { Finds switch year month day result }
{
    let start = inner::gregorian_start(year);
    match reading(inner::is_gregorian_leap(year), start, year, month, day) {
        None => {
            let number = non_gregorian_refusal(switch, year, month, day);
            Err(refusal_with(number, day))
        }
        Some(t) => {
            if switch <= t.biased {
                return Ok(t);
            }
            Err(refusal_with(5, day))
        }
    }
}

// The number of the refusal of a label that the Gregorian calendar does not have and no Julian day before the switch bears. It is skipped where
// the Julian calendar has it, and its month is over by the switch in the Gregorian one: so is 29 February of 1700 where 1 March is the first
// Gregorian date, or a later day.
pub fn non_gregorian_refusal(switch: u64, year: u32, month: u32, day: u32) -> u32
    ensures { RefusesNonGregorian switch year month day result }
{
    let start = inner::gregorian_start(year);
    if switch <= start {
        return 4;
    }
    match monthdays::md2ordinal(inner::is_julian_leap(year), month, day) {
        None => 4,
        Some(_) => {
            let new = month_in(inner::is_gregorian_leap(year), start, month);
            if new.first + new.days as u64 <= switch {
                return 5;
            }
            4
        }
    }
}

// The day of a label in a reckoning, by the first day of the year and whether that is leap.
fn reading(leap: bool, start: u64, year: u32, month: u32, day: u32) -> Option<Spot>
    requires { start < 2_000_000_000_000 }
    ensures { Reads leap start year month day result }
{
    match monthdays::md2ordinal(leap, month, day) {
        None => None,
        Some(ordinal) => Some(Spot {
            biased: start + ordinal as u64 - 1,
            year: year,
            ordinal: ordinal,
            month: month,
            day: day,
        }),
    }
}
