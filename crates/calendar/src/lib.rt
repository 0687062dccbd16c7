// Calendars and dates: the Julian calendar, the Gregorian calendar, and those that switch from one to the other on some day.
// Every call answers or refuses, for all numbers and records, made-up ones included.
// For users: all but `switch_of`, `next_in_month` and `refusal_of`, which are for the crates above.

#![tactic(auto)]

ghost use Rattle.std.specs.Prelude.{◌≡◌, pos, not, ◌-◌, ◌≤◌};
ghost use Rattle.std.proofs.Math.IntN.{suc_ℤ, pred_ℤ};
ghost use Rattle.ways.specs.Promise.{toward};
ghost use Rattle.days.specs.DayByDay.{weekday, JulianStyle, GregorianStyle};
ghost use Rattle.calendar.specs.Calendars.{is_reforming_value, style_is_value};
ghost use Rattle.calendar.specs.Promise.{made_up, Reforms, AtJdn, AtYmd, AtOrdinal, Next, ConvertsTo, IsGenuine, TellsCalendar, TellsDate, CountsDate, ReformationOf, reform_day_value, LastJulian, FirstGregorian};
ghost use Rattle.calendar.specs.One.{whole};
ghost use Rattle.calendar.specs.InMonth.{NextInMonth, IsUsual, IsOn, Movable, moved_by, OneOn, one_on_value};
ghost use Rattle.calendar.specs.Natural.{SwitchIs, ReformDateOf, fields_of, style_number_value, style_at_value, is_of_style};

use fields::Fields;
pub use inner::{RATA_DIE_ZERO_JDN, REFORM1582_JDN, UNIX_EPOCH_JDN};
pub use refusals::{Refusal, refusal_of};
use ways::Kind;
use whole::{lowered, raised, widened};

mod record;

// A calendar that is reforming at a day has Julian dates below it, and Gregorian ones from it on.
#[derive(Clone, Copy)]
pub enum Calendar {
    Julian,
    Gregorian,
    Reforming(i32),
}

// The calendar by which a day is labelled: printed lists call the Julian one old style, the Gregorian one new style. Swedish is
// that of the days 1700-03-01 to 1712-02-30 of Sweden.
#[derive(Clone, Copy)]
pub enum Style {
    Julian,
    Gregorian,
    Swedish,
}

// The record of a day in a calendar.
#[derive(Clone, Copy)]
pub struct Date {
    pub calendar: Calendar,
    pub style: Style,
    pub year: i32,
    pub ordinal: u32,
    pub month: u32,
    pub day: u32,
    pub day_ordinal: u32,
    pub jdn: i32,
}

// ---- Where a calendar switches

// The biased day below which a calendar is Julian, and from which on it is Gregorian. The Julian one switches after every day that is looked at, the
// Gregorian one before.
pub fn switch_of(calendar: Calendar) -> Result<u64, Refusal>
    ensures { SwitchIs calendar result }
{
    match calendar {
        Calendar::Julian => Ok(4_000_000_000_000),
        Calendar::Gregorian => Ok(0),
        Calendar::Reforming(r) => match switches::reformation::judge(r) {
            Ok(day) => Ok(day),
            Err(_) => Err(made_up()),
        },
    }
}

// What a call answers that is given a record or a calendar that no accepted call gives.
fn made_up() -> Refusal
    ensures { result ≡ made_up }
{
    refusal_of(16, 0)
}

// ---- Calendars

impl Calendar {
    pub const JULIAN: Calendar = Calendar::Julian;

    pub const GREGORIAN: Calendar = Calendar::Gregorian;

    // The calendar as it was reformed first, in 1582.
    pub const REFORM1582: Calendar = Calendar::Reforming(REFORM1582_JDN);

    // The calendar that is reforming at day r.
    pub fn reforming(r: i32) -> Result<Calendar, Refusal>
        ensures { Reforms r result }
    {
        match switches::reformation::judge(r) {
            Ok(_) => Ok(Calendar::Reforming(r)),
            Err(why) => Err(refusal_of(why.number(), widened(r))),
        }
    }

    // The date of a day number.
    pub fn at_jdn(self, jdn: i32) -> Result<Date, Refusal>
        ensures { AtJdn self jdn result }
    {
        let switch = switch_of(self)?;
        Ok(record::on_day(self, switch, jdn))
    }

    // The date of a year, a month and a day of the month.
    pub fn at_ymd(self, year: i32, month: u32, day: u32) -> Result<Date, Refusal>
        ensures { AtYmd self year month day result }
    {
        let switch = switch_of(self)?;
        record::on_label(self, switch, year, month, day)
    }

    // The date of a year and a place in it, from 1.
    pub fn at_ordinal_date(self, year: i32, ordinal: u32) -> Result<Date, Refusal>
        ensures { AtOrdinal self year ordinal result }
    {
        let switch = switch_of(self)?;
        record::on_ordinal(self, switch, year, ordinal)
    }

    pub fn is_reforming(self) -> Result<bool, Refusal>
        ensures { TellsCalendar self (is_reforming_value self) result }
    {
        switch_of(self)?;
        Ok(reforms(self))
    }

    // A calendar is proleptic that has one reckoning throughout.
    pub fn is_proleptic(self) -> Result<bool, Refusal>
        ensures { TellsCalendar self (not (is_reforming_value self)) result }
    {
        switch_of(self)?;
        Ok(!reforms(self))
    }

    // The first day with a Gregorian date.
    pub fn reformation(self) -> Result<Option<i32>, Refusal>
        ensures { ReformationOf self result }
    {
        switch_of(self)?;
        Ok(reform_day(self))
    }

    pub fn last_julian_date(self) -> Result<Option<Date>, Refusal>
        ensures { LastJulian self result }
    {
        self.reform_date(1)
    }

    pub fn first_gregorian_date(self) -> Result<Option<Date>, Refusal>
        ensures { FirstGregorian self result }
    {
        self.reform_date(0)
    }

    // The date so many days before the first Gregorian one.
    fn reform_date(self, before: u32) -> Result<Option<Date>, Refusal>
        requires { before ≤ 1 }
        ensures { ReformDateOf self before result }
    {
        let switch = switch_of(self)?;
        match self {
            Calendar::Julian => Ok(None),
            Calendar::Gregorian => Ok(None),
            Calendar::Reforming(r) => {
                let jdn = lowered(raised(r) - before);
                Ok(Some(record::on_day(self, switch, jdn)))
            }
        }
    }
}

fn reforms(calendar: Calendar) -> bool
    ensures { result ≡ is_reforming_value calendar }
{
    match calendar {
        Calendar::Julian => false,
        Calendar::Gregorian => false,
        Calendar::Reforming(_) => true,
    }
}

fn reform_day(calendar: Calendar) -> Option<i32>
    ensures { result ≡ reform_day_value calendar }
{
    match calendar {
        Calendar::Julian => None,
        Calendar::Gregorian => None,
        Calendar::Reforming(r) => Some(r),
    }
}

// ---- Dates

impl Date {
    // Whether the record is one that an accepted call gives: that of its day number in its calendar.
    pub fn is_genuine(self) -> bool
        ensures { IsGenuine self result }
    {
        match self.calendar.at_jdn(self.jdn) {
            Err(_) => false,
            Ok(given) => fields::same_fields(fields_of(self), fields_of(given)),
        }
    }

    pub fn weekday(self) -> Result<u32, Refusal>
        ensures { CountsDate self (weekday self.jdn) result }
    {
        if self.is_genuine() {
            return Ok(weekday::for_jdn(self.jdn));
        }
        Err(made_up())
    }

    // The ordinal and the day ordinal, counted from 0.
    pub fn ordinal0(self) -> Result<u32, Refusal>
        ensures { CountsDate self (self.ordinal - 1) result }
    {
        from_0(self, self.ordinal)
    }

    pub fn day_ordinal0(self) -> Result<u32, Refusal>
        ensures { CountsDate self (self.day_ordinal - 1) result }
    {
        from_0(self, self.day_ordinal)
    }

    pub fn is_julian(self) -> Result<bool, Refusal>
        ensures { TellsDate self (style_is_value JulianStyle self) result }
    {
        has_style(self, Style::Julian)
    }

    pub fn is_gregorian(self) -> Result<bool, Refusal>
        ensures { TellsDate self (style_is_value GregorianStyle self) result }
    {
        has_style(self, Style::Gregorian)
    }

    // The date of the same day in another calendar.
    pub fn convert_to(self, calendar: Calendar) -> Result<Date, Refusal>
        ensures { ConvertsTo self calendar result }
    {
        if self.is_genuine() {
            return calendar.at_jdn(self.jdn);
        }
        Err(made_up())
    }

    // The date of the next day, and of the day before.
    pub fn succ(self) -> Result<Date, Refusal>
        ensures { Next self (suc_ℤ self.jdn) result }
    {
        ahead(self, Kind::Later)
    }

    pub fn pred(self) -> Result<Date, Refusal>
        ensures { Next self (pred_ℤ self.jdn) result }
    {
        ahead(self, Kind::Earlier)
    }
}

// ---- The next day of a month

// The date of the next day, or of the day before, where it is found from the date alone: the date is genuine, its year is wholly in one
// reckoning, and its day is none with which a month can end or begin.
pub fn next_in_month(date: Date, later: bool) -> Option<Date>
    ensures { NextInMonth later date result }
{
    // The two ways are written apart: each is then in line with its own numbers.
    if later {
        if ways::stays(true, date.day, date.jdn) {
            if is_usual(
                date.calendar,
                date.style,
                date.year,
                date.ordinal,
                date.month,
                date.day,
                date.day_ordinal,
                date.jdn,
            ) {
                return Some(moved(date, true));
            }
        }
        return None;
    }
    if ways::stays(false, date.day, date.jdn) {
        if is_usual(
            date.calendar,
            date.style,
            date.year,
            date.ordinal,
            date.month,
            date.day,
            date.day_ordinal,
            date.jdn,
        ) {
            return Some(moved(date, false));
        }
    }
    None
}

// Whether a date is genuine and its year wholly in one reckoning. Its fields come one by one: a struct would come through memory.
fn is_usual(
    calendar: Calendar,
    style: Style,
    year: i32,
    ordinal: u32,
    month: u32,
    day: u32,
    day_ordinal: u32,
    jdn: i32,
) -> bool
    ensures { IsUsual (whole calendar year ordinal month day day_ordinal jdn style) result }
{
    is_usual_date(Date {
        calendar,
        style,
        year,
        ordinal,
        month,
        day,
        day_ordinal,
        jdn,
    })
}

fn is_usual_date(date: Date) -> bool
    ensures { IsUsual date result }
{
    match switch_of(date.calendar) {
        Err(_) => false,
        Ok(switch) => {
            let at = switches::year_in(switch, raised(date.year));
            if at.whole {
                return match monthdays::md2ordinal(at.leap, date.month, date.day) {
                    None => false,
                    Some(ordinal) => is_on(date, switch, at.first + ordinal as u64, ordinal),
                };
            }
            false
        }
    }
}

// Whether a date has this ordinal, the day ordinal that its day has, the day number that is biased before `past`, and the style of that day.
fn is_on(date: Date, switch: u64, past: u64, ordinal: u32) -> bool
    ensures { IsOn date switch past ordinal result }
{
    if date.ordinal != ordinal {
        return false;
    }
    if date.day_ordinal != date.day {
        return false;
    }
    let today = raised(date.jdn) as u64 + inner::LEAST_DAY;
    if today + 1 != past {
        return false;
    }
    style_number(date.style) == style_number(style_at(switch, today))
}

// The record with its day one further.
fn moved(date: Date, later: bool) -> Date
    requires { Movable later date }
    ensures { result ≡ moved_by later date }
{
    Date {
        calendar: date.calendar,
        style: date.style,
        year: date.year,
        ordinal: one_on(later, date.ordinal),
        month: date.month,
        day: one_on(later, date.day),
        day_ordinal: one_on(later, date.day_ordinal),
        jdn: lowered(one_on(later, raised(date.jdn))),
    }
}

fn one_on(later: bool, n: u32) -> u32
    requires { OneOn later n }
    ensures { result ≡ one_on_value later n }
{
    if later {
        return n + 1;
    }
    n - 1
}

// The date of the day that lies ahead of a date on a way: in its month, or by its day number.
fn ahead(date: Date, way: Kind) -> Result<Date, Refusal>
    ensures { Next date (toward way date.jdn) result }
{
    match next_in_month(date, ways::goes_later(way)) {
        Some(next) => Ok(next),
        None => beside(date, way),
    }
}

fn beside(date: Date, way: Kind) -> Result<Date, Refusal>
    ensures { Next date (toward way date.jdn) result }
{
    if date.is_genuine() {
        return match ways::day_ahead(way, date.jdn) {
            None => Err(refusals::refusal_with(15, 0)),
            Some(jdn) => date.calendar.at_jdn(jdn),
        };
    }
    Err(made_up())
}

// A number of a record, which has to be genuine, counted from 0 in place of 1.
fn from_0(date: Date, number: u32) -> Result<u32, Refusal>
    ensures { CountsDate date (number - 1) result }
{
    if date.is_genuine() {
        return Ok(one_less(number));
    }
    Err(made_up())
}

fn one_less(n: u32) -> u32
    ensures { result ≡ n - 1 }
{
    n.saturating_sub(1)
}

// What the day number and the calendar of a genuine record determine.
fn fields_of(date: Date) -> Fields
    ensures { result ≡ fields_of date }
{
    Fields {
        year: date.year,
        ordinal: date.ordinal,
        month: date.month,
        day: date.day,
        day_ordinal: date.day_ordinal,
        style: style_number(date.style),
    }
}

// ---- Styles

fn style_number(style: Style) -> u32
    ensures { result ≡ style_number_value style }
{
    match style {
        Style::Julian => 0,
        Style::Gregorian => 1,
        Style::Swedish => 2,
    }
}

// The style of a biased day.
fn style_at(switch: u64, biased: u64) -> Style
    ensures { result ≡ style_at_value switch biased }
{
    if biased < switch {
        return Style::Julian;
    }
    Style::Gregorian
}

// Whether a record, which has to be genuine, is of this style.
fn has_style(date: Date, style: Style) -> Result<bool, Refusal>
    ensures { TellsDate date (is_of_style date style) result }
{
    if date.is_genuine() {
        return Ok(style_number(date.style) == style_number(style));
    }
    Err(made_up())
}
