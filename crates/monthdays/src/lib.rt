// The months of a year: from an ordinal to month and day, and back.
// For the crates above.

#![tactic(auto)]

ghost use Rattle.std.specs.Prelude.{◌≡◌, true, false, ◌+◌, ◌≤◌, ◌<◌};
ghost use Rattle.whole.specs.Whether.{Whether};
ghost use Rattle.days.specs.DayByDay.{month_length, Month};
ghost use Rattle.days.specs.ClosedNumbers.{days_before_value, to_thirty_value};
ghost use Rattle.monthdays.specs.Promise.{MonthDayOf, OrdinalOf, MonthDayAt};

pub fn is_month(month: u32) -> bool
    ensures { Whether (Month month) result }
{
    if month < 1 {
        return false;
    }
    month <= 12
}

// Month and day of a place in a year.
pub fn ordinal2md(leap: bool, ordinal: u32) -> Option<(u32, u32)>
    ensures { MonthDayOf leap ordinal result }
{
    if ordinal < 1 {
        return None;
    }
    let at = month_day(leap, ordinal - 1);
    if 12 < at.month {
        return None;
    }
    Some((at.month, at.day))
}

// And back.
pub fn md2ordinal(leap: bool, month: u32, day: u32) -> Option<u32>
    ensures { OrdinalOf leap month day result }
{
    if day < 1 {
        return None;
    }
    if month < 1 {
        return None;
    }
    if 12 < month {
        return None;
    }
    if is_past(leap, month, day) {
        return None;
    }
    Some(days_before(leap, month) + day)
}

// Whether a day comes after the last one of a month. No month ends before its 28th, so most days need no look at its length.
fn is_past(leap: bool, month: u32, day: u32) -> bool
    requires { Month month }
    ensures { (result ≡ true → month_length leap month < day) × (result ≡ false → day ≤ month_length leap month) }
{
    if day <= 28 {
        return false;
    }
    days_in_month(leap, month) < day
}

// No day where there is no such month.
pub fn days_in_month(leap: bool, month: u32) -> u32
    ensures { result ≡ month_length leap month }
{
    if month < 1 {
        return 0;
    }
    if 12 < month {
        return 0;
    }
    match month {
        2 => { if leap { 29 } else { 28 } }
        4 | 6 | 9 | 11 => 30,
        _ => 31,
    }
}

// If February had 30 days, the months would go by 367 / 12 days.
fn days_before(leap: bool, month: u32) -> u32
    requires { Month month }
    ensures { result ≡ days_before_value leap month }
{
    let days = (367 * month - 362) / 12;
    if month < 3 {
        return days;
    }
    if leap {
        return days - 1;
    }
    days - 2
}

// Month and day so many days after 1 January; past the year's end, in months that would follow.
#[derive(Clone, Copy)]
pub struct MonthAndDay {
    pub month: u32,
    pub day: u32,
}

pub fn month_day(leap: bool, days: u32) -> MonthAndDay
    ensures { MonthDayAt leap (days + 1) result.month result.day }
{
    let place = days as u64 + 1 + to_thirty(leap, days);
    let month = (12 * place + 361) / 367;
    MonthAndDay {
        month: month as u32,
        day: (place - (367 * month - 362) / 12) as u32,
    }
}

// How many days later a day would stand if February had 30.
fn to_thirty(leap: bool, days: u32) -> u64
    ensures { (result ≡ to_thirty_value leap (days + 1)) × (result ≤ 2) }
{
    if leap {
        if 60 <= days {
            return 1;
        }
        return 0;
    }
    if 59 <= days {
        return 2;
    }
    0
}
