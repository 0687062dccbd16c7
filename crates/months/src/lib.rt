// The years and months of a calendar: how many days they have, and the place of a day in its month. Days outside 32 bits count too.
// The days of a month are consecutive: Julian days before the switch, and Gregorian days from the switch on.
// For users: all but `span_of`, which is for the crates above.

#![tactic(auto)]

ghost use Rattle.std.specs.Prelude.{◌≡◌};
ghost use Rattle.months.specs.Promise.{YearLengthOf, Len, FirstDayOf, LastDayOf, Contains, DayOrdinalOf, NthDay, NthDate};
ghost use Rattle.months.specs.Natural.{Spans, Inside, day_in_value};

use calendar::{Calendar, Date, switch_of};
use refusals::{Refusal, refusal_with};
use switches::{MonthSpan, find, month_span, year_span};
use whole::raised;

// ---- Years

// The number of days of a year, 0 where no day is of that year.
pub fn year_length(calendar: Calendar, year: i32) -> Result<u32, Refusal>
    ensures { YearLengthOf calendar year result }
{
    let switch = switch_of(calendar)?;
    let span = year_span(switch, raised(year));
    Ok((span.past - span.first) as u32)
}

// ---- Months

// The number of days of a month, 0 where no day is of that month.
pub fn len(calendar: Calendar, year: i32, month: u32) -> Result<u32, Refusal>
    ensures { Len calendar year month result }
{
    let s = span_of(calendar, year, month)?;
    Ok((s.past - s.first) as u32)
}

// The day of the month that its first day has, and its last one; 0 where no day is of that month.
pub fn first_day(calendar: Calendar, year: i32, month: u32) -> Result<u32, Refusal>
    ensures { FirstDayOf calendar year month result }
{
    let s = span_of(calendar, year, month)?;
    if s.past <= s.first {
        return Ok(0);
    }
    Ok(day_in(s, s.first))
}

pub fn last_day(calendar: Calendar, year: i32, month: u32) -> Result<u32, Refusal>
    ensures { LastDayOf calendar year month result }
{
    let s = span_of(calendar, year, month)?;
    if s.past <= s.first {
        return Ok(0);
    }
    Ok(day_in(s, s.past - 1))
}

// Whether a day of the calendar has this year, month and day of the month.
pub fn contains(calendar: Calendar, year: i32, month: u32, day: u32) -> Result<bool, Refusal>
    ensures { Contains calendar year month day result }
{
    let s = span_of(calendar, year, month)?;
    Ok(find(s.switch, raised(year), month, day).is_ok())
}

// The place, from 1, of a day of the month among the days of the month.
pub fn day_ordinal(calendar: Calendar, year: i32, month: u32, day: u32) -> Result<u32, Refusal>
    ensures { DayOrdinalOf calendar year month day result }
{
    let s = span_of(calendar, year, month)?;
    let spot = find(s.switch, raised(year), month, day)?;
    Ok((spot.biased + 1 - s.first) as u32)
}

// The day of the month that the month's k-th day has.
pub fn nth_day(calendar: Calendar, year: i32, month: u32, k: u32) -> Result<u32, Refusal>
    ensures { NthDay calendar year month k result }
{
    let s = span_of(calendar, year, month)?;
    if k < 1 {
        return Err(refusal_with(21, k));
    }
    let biased = s.first + k as u64 - 1;
    if s.past <= biased {
        return Err(refusal_with(21, k));
    }
    Ok(day_in(s, biased))
}

// The record of the month's k-th day.
pub fn nth_date(calendar: Calendar, year: i32, month: u32, k: u32) -> Result<Date, Refusal>
    ensures { NthDate calendar year month k result }
{
    let day = nth_day(calendar, year, month, k)?;
    calendar.at_ymd(year, month, day)
}

// ---- The run of days of a month

// Its first day and the first day past it, by numbers of days.
pub fn span_of(calendar: Calendar, year: i32, month: u32) -> Result<MonthSpan, Refusal>
    ensures { Spans calendar year month result }
{
    let switch = switch_of(calendar)?;
    month_span(switch, raised(year), month)
}

// The day of the month that a day of the month has. A month with a Julian day begins in that reckoning, so such a day has its place in it;
// a Gregorian one counts from the month's first Gregorian day.
fn day_in(s: MonthSpan, biased: u64) -> u32
    requires { Inside s biased }
    ensures { result ≡ day_in_value s biased }
{
    if biased < s.switch {
        return (biased + 1 - s.first) as u32;
    }
    (biased + 1 - s.gregorian) as u32
}
