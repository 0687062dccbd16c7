// The conversions of one reckoning, Julian or Gregorian: leap years, and day numbers to year and ordinal and back.
// Days and years are natural numbers inside: a 32-bit number is raised by 2147483648 on the way in, so that no sum has a sign.
// For users: the leap years, `jdn2julian`, `jdn2gregorian`, `julian2jdn`, `gregorian2jdn`, and the days that have names. For the crates above: the same on
// biased days and years.

#![tactic(auto)]

ghost use Rattle.std.specs.Prelude.{◌≡◌, ◌<◌};
ghost use Rattle.days.specs.DayByDay.{julian, gregorian, julian_leap, gregorian_leap, label_of};
ghost use Rattle.days.specs.KnownDays.{NamedDays};
ghost use Rattle.days.specs.ClosedYear.{year_length};
ghost use Rattle.days.specs.ClosedStarts.{InYear};
ghost use Rattle.days.specs.ClosedCenturies.{WholeParts};
ghost use Rattle.days.specs.ClosedJulian as J;
ghost use Rattle.days.specs.ClosedGregorian as G;
ghost use Rattle.inner.specs.Promise.{YearAndOrdinal, DayOfOrdinal};
ghost use Rattle.inner.specs.Natural.{biased_day, biased_year_value, Lowers, OrdinalNumber};

use whole::{lowered, raised};

// Day -2147483648, as it is biased: every day of every year of 32 bits is a natural then. A raised day is biased as so much more.
pub const LEAST_DAY: u64 = 782_219_326_294;

// Year -2147483648, as it is biased: a biased year is a multiple of 400 exactly when the year is one.
const LEAST_YEAR: u64 = 352;

// The biased day on which biased year 0 begins in the Gregorian reckoning. In the Julian one it is day 0.
const YEAR_0: u64 = 16_106_132;

// The rule of the Gregorian calendar, in days. Of four years the last is leap: 1461 days. A century has 25 times four years and a day less, since
// its last year is common: 36524 days. A cycle has four centuries and a day more, since its last year is leap: 146097 days.
const DAYS_IN_COMMON_YEAR: u64 = 365;

const DAYS_IN_LEAP_YEAR: u64 = DAYS_IN_COMMON_YEAR + 1;

const DAYS_IN_FOUR_YEARS: u64 = 3 * DAYS_IN_COMMON_YEAR + DAYS_IN_LEAP_YEAR;

const DAYS_IN_CENTURY: u64 = 25 * DAYS_IN_FOUR_YEARS - 1;

const DAYS_IN_CYCLE: u64 = 4 * DAYS_IN_CENTURY + 1;

const YEARS_IN_CENTURY: u64 = 100;

const YEARS_IN_CYCLE: u64 = 4 * YEARS_IN_CENTURY;

// The biased day on which the first cycle begins, with biased year 1.
const FIRST_CYCLE: u64 = YEAR_0 + DAYS_IN_LEAP_YEAR;

// ---- Days that have names

// The first day of the Gregorian calendar as it was decreed in 1582; day 0 of Unix time; and the day before 1 January of year 1.
pub const REFORM1582_JDN: i32 = 2299161;

pub const UNIX_EPOCH_JDN: i32 = 2440588;

pub const RATA_DIE_ZERO_JDN: i32 = 1721425;

#[derive(Clone, Copy)]
struct Named {
    reform1582: i32,
    unix_epoch: i32,
    rata_die_zero: i32,
}

// Nobody calls it: its promise holds the three numbers to their dates.
fn named_days() -> Named
    ensures { NamedDays result.reform1582 result.unix_epoch result.rata_die_zero }
{
    Named {
        reform1582: REFORM1582_JDN,
        unix_epoch: UNIX_EPOCH_JDN,
        rata_die_zero: RATA_DIE_ZERO_JDN,
    }
}

// ---- Leap years

pub fn is_julian_leap_year(year: i32) -> bool
    ensures { result ≡ julian_leap year }
{
    is_julian_leap(raised(year))
}

pub fn is_gregorian_leap_year(year: i32) -> bool
    ensures { result ≡ gregorian_leap year }
{
    is_gregorian_leap(raised(year))
}

// The same of a raised year. Of a multiple of 4, 100 divides it exactly if 25 does, and then 400 does exactly if 16 does.
pub fn is_julian_leap(year: u32) -> bool
    ensures { result ≡ J.leap_at (biased_year_value year) }
{
    let y = year as u64 + LEAST_YEAR;
    y % 4 == 0
}

pub fn is_gregorian_leap(year: u32) -> bool
    ensures { result ≡ G.leap_at (biased_year_value year) }
{
    let y = year as u64 + LEAST_YEAR;
    if y % 25 != 0 {
        return y % 4 == 0;
    }
    y % 16 == 0
}

pub fn days_in_year(leap: bool) -> u32
    ensures { result ≡ year_length leap }
{
    if leap { 366 } else { 365 }
}

// ---- From a day number to its year and ordinal

#[derive(Clone, Copy)]
pub struct YearDay {
    pub year: i32,
    pub ordinal: u32,
}

pub fn jdn2julian(jdn: i32) -> YearDay
    ensures { YearAndOrdinal (label_of julian) jdn result.year result.ordinal }
{
    let place = julian_place(raised(jdn));
    YearDay {
        year: lowered(place.year),
        ordinal: place.ordinal,
    }
}

pub fn jdn2gregorian(jdn: i32) -> YearDay
    ensures { YearAndOrdinal (label_of gregorian) jdn result.year result.ordinal }
{
    let place = gregorian_place(raised(jdn));
    YearDay {
        year: lowered(place.year),
        ordinal: place.ordinal,
    }
}

// The same of a raised day, with the raised year.
#[derive(Clone, Copy)]
pub struct RaisedYearDay {
    pub year: u32,
    pub ordinal: u32,
}

pub fn julian_place(day: u32) -> RaisedYearDay
    ensures { InYear J.leap_at J.start (biased_day day) (biased_year_value result.year) result.ordinal }
{
    let place = decompose_julian(day as u64 + LEAST_DAY);
    RaisedYearDay {
        year: (place.year - LEAST_YEAR) as u32,
        ordinal: place.ordinal as u32,
    }
}

// The rule of the calendar, counted off: whole cycles, whole centuries of the cycle, whole years of the century. The days that are left tell the
// ordinal.
pub fn gregorian_place(day: u32) -> RaisedYearDay
    ensures { InYear G.leap_at G.start (biased_day day) (biased_year_value result.year) result.ordinal }
{
    let days = day as u64 + LEAST_DAY - FIRST_CYCLE;
    let cycles = days / DAYS_IN_CYCLE;
    // Of the four centuries of a cycle the last is a day longer than the others.
    let centuries = whole_parts(days % DAYS_IN_CYCLE, DAYS_IN_CENTURY);
    // Of four years the last is a day longer than the others. In its hundredth year a century ends before that day, unless it is the longer one.
    let years = whole_parts(centuries.rest, DAYS_IN_COMMON_YEAR);
    let years_before = YEARS_IN_CYCLE * cycles + YEARS_IN_CENTURY * centuries.whole + years.whole;
    RaisedYearDay {
        year: (years_before + 1 - LEAST_YEAR) as u32,
        ordinal: (years.rest + 1) as u32,
    }
}

// So many whole parts, and so many days of the next.
#[derive(Clone, Copy)]
struct Parts {
    whole: u64,
    rest: u64,
}

// Parts of so many days, each fourth of which is a day longer. Every part has a quarter of a day beyond its whole days, and a day belongs to the
// part into which its last quarter falls: so the four quarters come together as the one day more of the fourth.
fn whole_parts(days: u64, length: u64) -> Parts
    requires { (days < 4_000_000_000) × (0 < length) × (length < 4_000_000_000) }
    ensures { WholeParts length days result.whole result.rest }
{
    let days_in_four = 4 * length + 1;
    let last_quarter = 4 * days + 3;
    Parts {
        whole: last_quarter / days_in_four,
        rest: last_quarter % days_in_four / 4,
    }
}

#[derive(Clone, Copy)]
struct LongPlace {
    year: u64,
    ordinal: u64,
}

// Year and ordinal in a count of days in which every fourth year is leap, beginning with the first. Four years have 1461 days, so a year
// has 1461 quarters of a day: the quarters that a whole number of years leaves over are those of the ordinal.
fn decompose_julian(days: u64) -> LongPlace
    requires { days < 4_000_000_000_000 }
    ensures { InYear J.leap_at J.start days result.year result.ordinal }
{
    let quarters = 4 * days;
    LongPlace {
        year: quarters / 1461,
        ordinal: quarters % 1461 / 4 + 1,
    }
}

// ---- From a year and an ordinal to the day number

// Why a year and an ordinal have no day number: there is no such day, or 32 bits do not hold its number.
#[derive(Clone, Copy)]
pub enum NoNumber {
    Nothing,
    Outside32,
}

pub fn julian2jdn(year: i32, ordinal: u32) -> Result<i32, NoNumber>
    ensures { DayOfOrdinal (label_of julian) year ordinal result }
{
    let y = raised(year);
    ordinal_number(is_julian_leap(y), julian_start(y), ordinal)
}

pub fn gregorian2jdn(year: i32, ordinal: u32) -> Result<i32, NoNumber>
    ensures { DayOfOrdinal (label_of gregorian) year ordinal result }
{
    let y = raised(year);
    ordinal_number(is_gregorian_leap(y), gregorian_start(y), ordinal)
}

// The day with this place in a year that starts on a biased day.
fn ordinal_number(leap: bool, start: u64, ordinal: u32) -> Result<i32, NoNumber>
    requires { start < 4_000_000_000_000 }
    ensures { OrdinalNumber leap start ordinal result }
{
    if ordinal < 1 {
        return Err(NoNumber::Nothing);
    }
    if days_in_year(leap) < ordinal {
        return Err(NoNumber::Nothing);
    }
    day_number(start + ordinal as u64 - 1).ok_or(NoNumber::Outside32)
}

// The first day of a raised year, 784366809942 above its number.
pub fn julian_start(year: u32) -> u64
    ensures { result ≡ J.start (biased_year_value year) }
{
    let y = year as u64 + LEAST_YEAR;
    365 * y + (y + 3) / 4
}

pub fn gregorian_start(year: u32) -> u64
    ensures { result ≡ G.start (biased_year_value year) }
{
    let y = year as u64 + LEAST_YEAR;
    let centuries = (y + 99) / 100;
    365 * y + (y + 3) / 4 + (centuries + 3) / 4 + YEAR_0 - centuries
}

// The number of a day that is biased as so much more, where 32 bits hold it.
pub fn day_number(day: u64) -> Option<i32>
    ensures { Lowers day result }
{
    if day < LEAST_DAY {
        return None;
    }
    if 786_514_293_590 <= day {
        return None;
    }
    Some(lowered((day - LEAST_DAY) as u32))
}

// ---- A day with its label

// A biased day, with its raised year, and the ordinal, the month and the day of the month that it has in its own reckoning. In this order its
// fields overlap those of a refusal so that an answer which is either costs no more than the spot alone.
#[derive(Clone, Copy)]
pub struct Spot {
    pub ordinal: u32,
    pub biased: u64,
    pub year: u32,
    pub month: u32,
    pub day: u32,
}
