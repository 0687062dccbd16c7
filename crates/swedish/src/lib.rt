// The Swedish calendar, with days and years as biased natural numbers: where a month and a year begin and end, which day bears a label, and the
// label of a day. For the crates above.

#![tactic(auto)]

ghost use Rattle.std.specs.Prelude.{◌≡◌, ◌<◌};
ghost use Rattle.days.specs.BiasedDays.{day};
ghost use Rattle.days.specs.DayByDay.{Month, Swedish, labels, julian, label_of};
ghost use Rattle.inner.specs.Natural.{biased_day, biased_year_value};
ghost use Rattle.swedish.specs.Promise.{MonthIs, SpansMonth, YearSpan, Finds, SpotOn};
ghost use Rattle.swedish.specs.Private.{Plain, Refuses, Labelled};

use inner::Spot;
use refusals::{Refusal, refusal_with};
use switches::{MonthSpan, Span};

// March of 1700, of 1712 and of 1753, with the months of the biased years counted through.
const MARCH_1700: u64 = 25_769_828_403;

const MARCH_1712: u64 = 25_769_828_547;

const MARCH_1753: u64 = 25_769_829_039;

// A calendar that switches on this day is Julian on every day in question, and one that switches on day 0 Gregorian.
const NEVER: u64 = 4_000_000_000_000;

// The years 1700 and 1753, raised.
const IN_1700: u32 = 2_147_485_348;

const IN_1753: u32 = 2_147_485_401;

// ---- The days of a month

// A month in one reckoning.
fn plain(switch: u64, year: u32, month: u32) -> Span
    requires { Month month }
    ensures { Plain switch (biased_year_value year) month result.first result.past }
{
    match switches::month_span(switch, year, month) {
        Ok(m) => Span {
            first: m.first,
            past: m.past,
        },
        Err(_) => Span { first: 0, past: 0 },
    }
}

// Up to February 1700, and from March 1712 up to February 1753, months begin as the Julian ones, between these a day before them, and from
// March 1753 on as the Gregorian ones. The last February of each stretch has a length of its own.
fn days_of(year: u32, month: u32) -> Span
    requires { Month month }
    ensures { MonthIs (biased_year_value year) month result.first result.past }
{
    let count = 12 * (year as u64 + 352) + month as u64;
    if MARCH_1753 <= count {
        return plain(0, year, month);
    }
    let old = plain(NEVER, year, month);
    if count < MARCH_1700 - 1 {
        return old;
    }
    if count < MARCH_1700 {
        return Span {
            first: old.first,
            past: old.first + 28,
        };
    }
    if count < MARCH_1712 - 1 {
        return Span {
            first: old.first - 1,
            past: old.past - 1,
        };
    }
    if count < MARCH_1712 {
        return Span {
            first: old.first - 1,
            past: old.first + 29,
        };
    }
    if count < MARCH_1753 - 1 {
        return old;
    }
    Span {
        first: old.first,
        past: old.first + 17,
    }
}

// A month is one run of days. One that is not from 1 to 12 is refused 3.
pub fn month_span(year: u32, month: u32) -> Result<MonthSpan, Refusal>
    ensures { SpansMonth (biased_year_value year) month result }
{
    if month < 1 || 12 < month {
        return Err(refusal_with(3, month));
    }
    let m = days_of(year, month);
    Ok(MonthSpan {
        switch: m.past,
        first: m.first,
        past: m.past,
        gregorian: m.first,
    })
}

// ---- The days of a year

pub fn year_span(year: u32) -> Span
    ensures { YearSpan (biased_year_value year) result.first result.past }
{
    let january = days_of(year, 1);
    let december = days_of(year, 12);
    Span {
        first: january.first,
        past: december.past,
    }
}

// ---- The day of a label

// One that is skipped is refused 5, and one that is nowhere 4, with the day of the month.
pub fn find(year: u32, month: u32, day: u32) -> Result<Spot, Refusal>
    ensures { Finds year month day result }
{
    if month < 1 || 12 < month || day < 1 {
        return Err(refusal_with(4, day));
    }
    let m = days_of(year, month);
    let biased = m.first + day as u64 - 1;
    if biased < m.past {
        let january = days_of(year, 1);
        return Ok(Spot {
            ordinal: (biased + 1 - january.first) as u32,
            biased,
            year,
            month,
            day,
        });
    }
    Err(refusal_with(refusal_number(year, month, day), day))
}

// Of a label that no day bears: 29 February 1700 and 18 to 28 February 1753 are skipped.
#[tactic(auto, using(crate::specs::Laws::no_gap, crate::specs::Laws::gap_1700, crate::specs::Laws::gap_1753))]
fn refusal_number(year: u32, month: u32, day: u32) -> u32
    ensures { Refuses (biased_year_value year) month day result }
{
    match (year, month, day) {
        (IN_1700, 2, 29) => 5,
        (IN_1753, 2, 18..=28) => 5,
        _ => 4,
    }
}

// ---- The label of a day

// The biased days from which on labels are a day ahead, of 30 February 1712, and of the first Gregorian date.
const AHEAD: u64 = 784_369_151_984;

const THIRTIETH: u64 = 784_369_156_367;

const REFORMED: u64 = 784_369_171_332;

pub fn spot_on(raised: u32) -> Spot
    ensures { SpotOn (biased_day raised) result }
{
    let biased = raised as u64 + inner::LEAST_DAY;
    if REFORMED <= biased {
        let new = inner::gregorian_place(raised);
        return labelled(
            biased,
            new.year,
            new.ordinal,
            inner::is_gregorian_leap(new.year),
        );
    }
    if biased < AHEAD {
        return old_label(biased, raised);
    }
    if biased < THIRTIETH {
        return old_label(biased, raised + 1);
    }
    if THIRTIETH < biased {
        return old_label(biased, raised);
    }
    Spot {
        ordinal: 61,
        biased,
        year: 2_147_485_360,
        month: 2,
        day: 30,
    }
}

// By the Julian label of a day.
fn old_label(biased: u64, raised: u32) -> Spot
    requires { (biased < 1_000_000_000_000) × (labels Swedish (day biased) ≡ label_of julian (day (biased_day raised))) }
    ensures { SpotOn biased result }
{
    let old = inner::julian_place(raised);
    labelled(
        biased,
        old.year,
        old.ordinal,
        inner::is_julian_leap(old.year),
    )
}

// By the place in a year, which is leap or not.
fn labelled(biased: u64, year: u32, ordinal: u32, leap: bool) -> Spot
    requires { (biased < 1_000_000_000_000) × Labelled biased year ordinal leap }
    ensures { SpotOn biased result }
{
    let at = monthdays::month_day(leap, ordinal - 1);
    let january = days_of(year, 1);
    Spot {
        ordinal: (biased + 1 - january.first) as u32,
        biased,
        year,
        month: at.month,
        day: at.day,
    }
}
