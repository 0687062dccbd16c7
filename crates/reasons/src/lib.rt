// Why a date text is accepted or refused: the answer of `parse_date` with the facts that belong to it, from the calendar or from the grammar.
// For users.

#![tactic(auto)]

ghost use Rattle.std.specs.Prelude.{◌≡◌, not, pos};
ghost use Rattle.whole.specs.Promise.{is_negative_value};
ghost use Rattle.refusals.specs.Promise.{refusal};
ghost use Rattle.datetext.specs.Grammar.{Fault};
ghost use Rattle.days.specs.DayByDay.{Month, label, MissingIn};
ghost use Rattle.calendar.specs.Calendars.{timeline, Accepted};
ghost use Rattle.reasons.specs.declared.Reason.TheVariants as Reason';
ghost use Rattle.reasons.specs.Promise.{rule_of, OfYmd, OfOrdinal, mended_at_value, OfFault, Explains};
ghost use Rattle.reasons.specs.Laws.{YearFault, SkipsSome, AroundGap};
ghost use Rattle.calendar.specs.Promise.{OffYear};

use calendar::{Calendar, Date, Refusal, Style};
use datetext::Text;
use expected::Expected;
use monthruns::Runs;

// One case for each reason. A refusal has the number, place and value that `parse_date` gives.
#[derive(Clone, Copy)]
pub enum Reason {
    // The style of the date is that of the rule that applied; whether its year is leap under that rule.
    Accepted {
        date: Date,
        leap: bool,
    },
    // 16: the calendar is made up.
    MadeUp,
    // 3, 8 to 14 and 28: whether the fault is one of the year, the place where something else could have stood, which for 10 is the one after the
    // sign, and what could have stood there.
    Faulty {
        why: Refusal,
        in_year: bool,
        place: usize,
        expected: Expected,
    },
    // 4: the days that the month has.
    Missing {
        why: Refusal,
        year: i32,
        month: u32,
        days: Runs,
    },
    // 5: the last day before the gap and the first one after it.
    Skipped {
        why: Refusal,
        before: Date,
        after: Date,
    },
    // 6: the length of the year.
    OffYear {
        why: Refusal,
        year: i32,
        length: u32,
    },
    // 7: whether the day is above the 32-bit days, or below them.
    Outside {
        why: Refusal,
        above: bool,
    },
}

// Why the text is a date of the calendar, or none.
pub fn explain(calendar: Calendar, text: &[u8]) -> Reason
    ensures { Explains calendar text.now result }
{
    match calendar::switch_of(calendar) {
        Err(_) => Reason::MadeUp,
        Ok(_) => match datetext::read_date(text) {
            Err(why) => of_fault(text, why),
            Ok(
                Text::Ordinal {
                    year,
                    ordinal,
                    place,
                },
            ) => of_ordinal(calendar, year, ordinal, place),
            Ok(
                Text::Ymd {
                    year,
                    month,
                    day,
                    place,
                },
            ) => of_ymd(calendar, year, month, day, place),
        },
    }
}

// ---- A text that is no date

fn of_fault(text: &[u8], why: Refusal) -> Reason
    requires { Fault text.now why }
    ensures { OfFault text.now result }
{
    let place = mended_at(why.number, why.place);
    Reason::Faulty {
        why,
        in_year: is_in_year(text),
        place,
        expected: expected::expected_at(text, place),
    }
}

// Where something else could have stood.
fn mended_at(number: u32, place: usize) -> usize
    requires { number ≡ 10 → place ≡ 0 }
    ensures { result ≡ mended_at_value (refusal number place (pos 0)) }
{
    if number == 10 {
        return place + 1;
    }
    place
}

// Whether the text is at fault in its year.
fn is_in_year(text: &[u8]) -> bool
    ensures { YearFault text.now result }
{
    numbertext::signed_at(text, 0).is_err()
}

// ---- A year, a month and a day

fn of_ymd(calendar: Calendar, year: i32, month: u32, day: u32, place: usize) -> Reason
    requires { Accepted calendar × Month month }
    ensures { OfYmd (timeline calendar) calendar year month day place result }
{
    match calendar.at_ymd(year, month, day) {
        Ok(date) => accepted(date),
        Err(why) => {
            if why.number == 4 {
                return missing(calendar, year, month, day, place);
            }
            if why.number == 5 {
                return skipped(calendar, day, place);
            }
            outside(year)
        }
    }
}

fn missing(calendar: Calendar, year: i32, month: u32, day: u32, place: usize) -> Reason
    requires { Accepted calendar × Month month × MissingIn (timeline calendar) (label year month day) }
    ensures { OfYmd (timeline calendar) calendar year month day place result }
{
    Reason::Missing {
        why: refusals::refusal_at(4, place, day),
        year,
        month,
        days: monthruns::runs_of(calendar, year, month).unwrap(),
    }
}

// The gap is at the one day on which the calendar switches.
fn skipped(calendar: Calendar, day: u32, place: usize) -> Reason
    requires { Accepted calendar × SkipsSome calendar }
    ensures { AroundGap calendar day place result }
{
    let before = calendar.last_julian_date().unwrap().unwrap();
    let after = calendar.first_gregorian_date().unwrap().unwrap();
    Reason::Skipped {
        why: refusals::refusal_at(5, place, day),
        before,
        after,
    }
}

// ---- A year and an ordinal

fn of_ordinal(calendar: Calendar, year: i32, ordinal: u32, place: usize) -> Reason
    requires { Accepted calendar }
    ensures { OfOrdinal (timeline calendar) calendar year ordinal place result }
{
    match calendar.at_ordinal_date(year, ordinal) {
        Ok(date) => accepted(date),
        Err(why) => {
            if why.number == 6 {
                return off_year(calendar, year, ordinal, place);
            }
            outside(year)
        }
    }
}

fn off_year(calendar: Calendar, year: i32, ordinal: u32, place: usize) -> Reason
    requires { Accepted calendar × OffYear calendar year ordinal }
    ensures { OfOrdinal (timeline calendar) calendar year ordinal place result }
{
    Reason::OffYear {
        why: refusals::refusal_at(6, place, ordinal),
        year,
        length: months::year_length(calendar, year).unwrap(),
    }
}

// ---- A day that is found

fn accepted(date: Date) -> Reason
    ensures { result ≡ Reason'.Accepted date (rule_of date.style date.year) }
{
    Reason::Accepted {
        date,
        leap: is_leap(date.style, date.year),
    }
}

// Whether a year is leap under the rule of a style.
fn is_leap(style: Style, year: i32) -> bool
    ensures { result ≡ rule_of style year }
{
    let old = inner::is_julian_leap_year(year);
    let new = inner::is_gregorian_leap_year(year);
    match style {
        Style::Julian => old,
        Style::Gregorian => new,
        Style::Swedish => old,
    }
}

// Outside 32 bits a year that is negative lies below, and any other above.
fn outside(year: i32) -> Reason
    ensures { result ≡ Reason'.Outside (refusal 7 0 year) (not (is_negative_value year)) }
{
    Reason::Outside {
        why: refusals::outside_32_bits(year),
        above: !whole::is_negative(whole::widened(year)),
    }
}
