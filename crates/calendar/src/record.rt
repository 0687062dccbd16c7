// The record of a day, and the day of a label, computed on days and years that are biased as naturals.

ghost use Rattle.std.specs.Prelude.{◌≡◌, ◌+◌, ◌-◌, ◌≤◌, ◌<◌};
ghost use Rattle.days.specs.BiasedDays.{day};
ghost use Rattle.days.specs.ClosedRuns.{Runs, top, julian_month_value, month_first_value};
ghost use Rattle.days.specs.DayByDay.{Month};
ghost use Rattle.inner.specs.Natural.{biased_year_value};
ghost use Rattle.calendar.specs.Calendars.{definition_of, IsRecord};
ghost use Rattle.calendar.specs.Promise.{Given, AtYmd, AtOrdinal};
ghost use Rattle.calendar.specs.Natural.{SpotAt, OnSpot, plain_record_value, plain_place_value, record_at, ReadsLabel, SomeSwitch, PlacesLabel, PlacesEarly, LaterLabel, PlacesOrdinal, LaterOrdinal, Turns, TurnsLabel, TurnsOrdinal};

use crate::{Calendar, Date, Style};
use inner::Spot;
use refusals::Refusal;

// ---- From a day to its record

pub fn on_day(calendar: Calendar, switch: u64, jdn: i32) -> Date
    requires { Runs (definition_of calendar) switch }
    ensures { IsRecord calendar jdn result }
{
    let x = whole::raised(jdn);
    let today = x as u64 + inner::LEAST_DAY;
    if today < switch {
        let old = inner::julian_place(x);
        let s = spot_at(
            today,
            old.year,
            old.ordinal,
            inner::is_julian_leap(old.year),
        );
        return record_of(calendar, switch, s, jdn);
    }
    let new = inner::gregorian_place(x);
    let s = spot_at(
        today,
        new.year,
        new.ordinal,
        inner::is_gregorian_leap(new.year),
    );
    record_of(calendar, switch, s, jdn)
}

// The month and the day of the month from the ordinal.
fn spot_at(biased: u64, year: u32, ordinal: u32, leap: bool) -> Spot
    requires { 1 ≤ ordinal }
    ensures { SpotAt biased year ordinal leap result }
{
    let at = monthdays::month_day(leap, ordinal - 1);
    Spot {
        biased,
        year,
        ordinal,
        month: at.month,
        day: at.day,
    }
}

// A Julian day has its places in the Julian year, and so has a Gregorian day in a year that begins from the switch on.
fn record_of(calendar: Calendar, switch: u64, s: Spot, jdn: i32) -> Date
    requires { Runs (definition_of calendar) switch × OnSpot switch s × (day s.biased ≡ jdn) }
    ensures { IsRecord calendar jdn result }
{
    if s.biased < switch {
        return plain_record(calendar, Style::Julian, s, jdn);
    }
    if switch + s.ordinal as u64 - 1 <= s.biased {
        return plain_record(calendar, Style::Gregorian, s, jdn);
    }
    reform_record(calendar, switch, s, jdn)
}

fn plain_record(calendar: Calendar, style: Style, s: Spot, jdn: i32) -> Date
    ensures { result ≡ plain_record_value calendar style s jdn }
{
    Date {
        calendar,
        style,
        year: whole::lowered(s.year),
        ordinal: s.ordinal,
        month: s.month,
        day: s.day,
        day_ordinal: s.day,
        jdn,
    }
}

// A Gregorian day of a year that began before the switch: its places count the Julian days of that year and month too.
fn reform_record(calendar: Calendar, switch: u64, s: Spot, jdn: i32) -> Date
    requires { Runs (definition_of calendar) switch × OnSpot switch s × (day s.biased ≡ jdn) × (switch ≤ s.biased) }
    ensures { IsRecord calendar jdn result }
{
    let past = s.biased + 1;
    let year_first = switches::first_day(
        switch,
        inner::julian_start(s.year),
        past - s.ordinal as u64,
    );
    let month_first = switches::first_day(
        switch,
        julian_month(s.year, s.month),
        past - s.day as u64,
    );
    Date {
        calendar,
        style: Style::Gregorian,
        year: whole::lowered(s.year),
        ordinal: (past - year_first) as u32,
        month: s.month,
        day: s.day,
        day_ordinal: (past - month_first) as u32,
        jdn,
    }
}

// The first day of a month in the Julian reckoning.
fn julian_month(year: u32, month: u32) -> u64
    requires { Month month }
    ensures { result ≡ julian_month_value (biased_year_value year) month }
{
    match monthdays::md2ordinal(inner::is_julian_leap(year), month, 1) {
        Some(ordinal) => inner::julian_start(year) + ordinal as u64 - 1,
        None => 0,
    }
}

// ---- Where a day stands

// What is usual, the Julian days before a switch and most refusals are found in line. The days from a switch on, in its year, and the labels
// that are refused there, are found out of line, by `turning`.

// The biased day past it, its label, its places in its year and its month, and its style.
#[derive(Clone, Copy)]
struct DayInYear {
    past: u64,
    ordinal: u32,
    month: u32,
    day: u32,
    day_ordinal: u32,
    style: Style,
}

// The record of a day, or that 32 bits do not hold its number.
fn given(calendar: Calendar, year: i32, p: DayInYear) -> Result<Date, Refusal>
    requires { (1 ≤ p.past) × IsRecord calendar (day (p.past - 1)) (record_at calendar year p) }
    ensures { Given calendar year (day (p.past - 1)) result }
{
    match inner::day_number(p.past - 1) {
        Some(jdn) => Ok(Date {
            calendar,
            style: p.style,
            year,
            ordinal: p.ordinal,
            month: p.month,
            day: p.day,
            day_ordinal: p.day_ordinal,
            jdn,
        }),
        None => Err(refusals::outside_32_bits(year)),
    }
}

// The places of a day in its own reckoning.
fn plain_place(style: Style, s: Spot) -> DayInYear
    requires { s.biased < top }
    ensures { result ≡ plain_place_value style s }
{
    DayInYear {
        past: s.biased + 1,
        ordinal: s.ordinal,
        month: s.month,
        day: s.day,
        day_ordinal: s.day,
        style,
    }
}

// The day of a label in a reckoning, by the first day of the year and whether that is leap.
fn reading(leap: bool, start: u64, year: u32, month: u32, day: u32) -> Option<Spot>
    requires { start < 2_000_000_000_000 }
    ensures { ReadsLabel leap start year month day result }
{
    match monthdays::md2ordinal(leap, month, day) {
        None => None,
        Some(ordinal) => Some(Spot {
            biased: start + ordinal as u64 - 1,
            year,
            ordinal,
            month,
            day,
        }),
    }
}

// ---- From a label to its day

pub fn on_label(
    calendar: Calendar,
    switch: u64,
    year: i32,
    month: u32,
    day: u32,
) -> Result<Date, Refusal>
    requires { Runs (definition_of calendar) switch }
    ensures { AtYmd calendar year month day result }
{
    if monthdays::is_month(month) {
        let p = label_place(switch, whole::raised(year), month, day)?;
        return given(calendar, year, p);
    }
    Err(refusals::refusal_with(3, month))
}

fn label_place(switch: u64, year: u32, month: u32, day: u32) -> Result<DayInYear, Refusal>
    requires { SomeSwitch switch × Month month }
    ensures { PlacesLabel switch year month day result }
{
    match plain_label(switch, year, month, day) {
        Some(answer) => answer,
        None => later_label(switch, year, month, day),
    }
}

// What is answered in line: a Julian day before the switch, and a day of a year that is wholly in one reckoning. Any other label is looked for from
// the switch on, in its year.
fn plain_label(switch: u64, year: u32, month: u32, day: u32) -> Option<Result<DayInYear, Refusal>>
    requires { SomeSwitch switch }
    ensures { PlacesEarly switch year month day result }
{
    let old = inner::julian_start(year);
    if old < switch {
        return match reading(inner::is_julian_leap(year), old, year, month, day) {
            None => {
                if old + 366 < switch {
                    return Some(Err(refusals::refusal_with(4, day)));
                }
                None
            }
            Some(s) => {
                if s.biased < switch {
                    return Some(Ok(plain_place(Style::Julian, s)));
                }
                None
            }
        };
    }
    let new = inner::gregorian_start(year);
    if switch <= new {
        return match reading(inner::is_gregorian_leap(year), new, year, month, day) {
            None => Some(Err(refusals::refusal_with(4, day))),
            Some(s) => Some(Ok(plain_place(Style::Gregorian, s))),
        };
    }
    None
}

// The label from the switch on; its year begins on its first Julian day or on the switch.
fn later_label(switch: u64, year: u32, month: u32, day: u32) -> Result<DayInYear, Refusal>
    requires { Month month × LaterLabel switch year month day }
    ensures { PlacesLabel switch year month day result }
{
    let t = turning(switch, year, month, day);
    if t < PAIR {
        return Err(refusals::refusal_with(t as u32, day));
    }
    let first = earlier(inner::julian_start(year), switch);
    Ok(DayInYear {
        past: first + t / PAIR,
        ordinal: (t / PAIR) as u32,
        month,
        day,
        day_ordinal: (t % PAIR) as u32,
        style: Style::Gregorian,
    })
}

fn earlier(a: u64, b: u64) -> u64
    ensures { (a < b → result ≡ a) × (b ≤ a → result ≡ b) }
{
    if a < b {
        return a;
    }
    b
}

// ---- From a place in a year to its day

pub fn on_ordinal(calendar: Calendar, switch: u64, year: i32, ordinal: u32) -> Result<Date, Refusal>
    requires { Runs (definition_of calendar) switch }
    ensures { AtOrdinal calendar year ordinal result }
{
    let p = ordinal_place(switch, whole::raised(year), ordinal)?;
    given(calendar, year, p)
}

// A year that is wholly in one reckoning comes first, then the Julian days of the year of a switch.
fn ordinal_place(switch: u64, year: u32, ordinal: u32) -> Result<DayInYear, Refusal>
    requires { SomeSwitch switch }
    ensures { PlacesOrdinal switch year ordinal result }
{
    if ordinal < 1 {
        return Err(refusals::refusal_with(6, ordinal));
    }
    let at = switches::year_in(switch, year);
    if at.whole {
        if inner::days_in_year(at.leap) < ordinal {
            return Err(refusals::refusal_with(6, ordinal));
        }
        let biased = at.first + ordinal as u64 - 1;
        let s = spot_at(biased, year, ordinal, at.leap);
        return Ok(plain_place(crate::style_at(switch, biased), s));
    }
    let span = switches::year_span(switch, year);
    let past = span.first + ordinal as u64;
    if span.past < past {
        return Err(refusals::refusal_with(6, ordinal));
    }
    if past <= switch {
        let s = spot_at(past - 1, year, ordinal, inner::is_julian_leap(year));
        return Ok(plain_place(Style::Julian, s));
    }
    let t = turning(switch, year, 0, ordinal);
    Ok(DayInYear {
        past,
        ordinal,
        month: (t / PAIR / 32) as u32,
        day: (t / PAIR % 32) as u32,
        day_ordinal: (t % PAIR) as u32,
        style: Style::Gregorian,
    })
}

// ---- From the switch on, in its year

// Two numbers below it come back as one, which a register holds: a struct comes back through memory.
const PAIR: u64 = 4_294_967_296;

// Of a day of a month, or with month 0 of a day of the whole year. It has two callers, and so the compiler leaves it out of the way of the
// usual dates.
fn turning(switch: u64, year: u32, month: u32, number: u32) -> u64
    requires { month ≡ 0 → LaterOrdinal switch year number }
    ensures { Turns switch year month number result }
{
    if month == 0 {
        return turned_ordinal(switch, year, number);
    }
    turned_label(switch, year, month, number)
}

// The places of a label in its year and its month, which count the Julian days too; 4 where it is nowhere, and 5 where it is skipped.
fn turned_label(switch: u64, year: u32, month: u32, day: u32) -> u64
    ensures { TurnsLabel switch year month day result }
{
    let start = inner::gregorian_start(year);
    match reading(inner::is_gregorian_leap(year), start, year, month, day) {
        None => switches::non_gregorian_refusal(switch, year, month, day) as u64,
        Some(s) => {
            if s.biased < switch {
                return 5;
            }
            let first = switches::first_day(switch, inner::julian_start(year), start);
            (s.biased + 1 - first) * PAIR + month_place(switch, s)
        }
    }
}

// The month and the day of an ordinal, 32 times the one and the other, and the place in the month.
fn turned_ordinal(switch: u64, year: u32, ordinal: u32) -> u64
    requires { LaterOrdinal switch year ordinal }
    ensures { TurnsOrdinal switch year ordinal result }
{
    let start = inner::gregorian_start(year);
    let first = switches::first_day(switch, inner::julian_start(year), start);
    let past = first + ordinal as u64;
    let s = spot_at(
        past - 1,
        year,
        (past - start) as u32,
        inner::is_gregorian_leap(year),
    );
    (s.month as u64 * 32 + s.day as u64) * PAIR + month_place(switch, s)
}

// The place in its month of a Gregorian day from the switch on.
fn month_place(switch: u64, s: Spot) -> u64
    requires { OnSpot switch s × (switch ≤ s.biased) }
    ensures { (result < 4_294_967_296) × (s.biased + 1 - month_first_value switch (biased_year_value s.year) s.month ≡ result) }
{
    let past = s.biased + 1;
    let first = switches::first_day(switch, julian_month(s.year, s.month), past - s.day as u64);
    past - first
}
