// The fields of a query, which tabs part. A number that is missing counts as 0.
use calendar::{Calendar, Date, Refusal, Style};

// The date of a query and where the fields after it begin.
#[derive(Clone, Copy)]
pub struct Asked {
    pub answer: Result<Date, Refusal>,
    pub next: usize,
}

// A signed number and two unsigned ones: what most queries ask about.
#[derive(Clone, Copy)]
pub struct Numbers {
    pub first: i32,
    pub second: u32,
    pub third: u32,
}

pub fn byte_at(line: &[u8], at: usize) -> u8 {
    line.get(at).copied().unwrap_or(0)
}

// The place after the next tab, or the end of the line.
pub fn after_tab(line: &[u8], from: usize) -> usize {
    for i in from..line.len() {
        if line[i] == b'\t' {
            return i + 1;
        }
    }
    line.len()
}

// The bytes up to a place, and those from a place on.
pub fn front(line: &[u8], n: usize) -> &[u8] {
    line.get(..n).unwrap_or(line)
}

pub fn tail(line: &[u8], from: usize) -> &[u8] {
    line.get(from..).unwrap_or(line)
}

pub fn signed_at(line: &[u8], at: usize) -> i32 {
    numbertext::signed_at(line, at).map_or(0, |(x, _)| x)
}

pub fn number_at(line: &[u8], at: usize) -> u32 {
    numbertext::number_at(line, at).map_or(0, |(n, _)| n)
}

pub fn numbers_at(line: &[u8], at: usize) -> Numbers {
    let second = after_tab(line, at);
    let third = after_tab(line, second);
    Numbers {
        first: signed_at(line, at),
        second: number_at(line, second),
        third: number_at(line, third),
    }
}

// ---- Calendars and dates

fn reforming_at(line: &[u8], at: usize) -> Result<Calendar, Refusal> {
    let (r, _) = numbertext::signed_at(line, at)?;
    Calendar::reforming(r)
}

// The day of a reformation that nothing has looked at, after its mark.
fn made_up_calendar(line: &[u8], at: usize) -> Calendar {
    if at < line.len() {
        return Calendar::Reforming(signed_at(line, at + 1));
    }
    Calendar::JULIAN
}

// A calendar is `J`, `G`, or the day of its reformation.
fn only_calendar_at(line: &[u8], at: usize) -> Result<Calendar, Refusal> {
    match byte_at(line, at) {
        b'J' => Ok(Calendar::JULIAN),
        b'G' => Ok(Calendar::GREGORIAN),
        b'?' => Ok(made_up_calendar(line, at)),
        _ => reforming_at(line, at),
    }
}

// The calendar, and where the next field begins.
pub fn calendar_at(line: &[u8], at: usize) -> Result<(Calendar, usize), Refusal> {
    let calendar = only_calendar_at(line, at)?;
    Ok((calendar, after_tab(line, at)))
}

fn style_at(line: &[u8], at: usize) -> Style {
    match byte_at(line, at) {
        b'J' => Style::Julian,
        _ => Style::Gregorian,
    }
}

// A record by its fields, which may be made up.
fn record_at(calendar: Calendar, line: &[u8], at: usize) -> Asked {
    let jdn = signed_at(line, at);
    let year = after_tab(line, at);
    let ordinal = after_tab(line, year);
    let month = after_tab(line, ordinal);
    let day = after_tab(line, month);
    let day_ordinal = after_tab(line, day);
    let style = after_tab(line, day_ordinal);
    let date = Date {
        calendar,
        style: style_at(line, style),
        year: signed_at(line, year),
        ordinal: number_at(line, ordinal),
        month: number_at(line, month),
        day: number_at(line, day),
        day_ordinal: number_at(line, day_ordinal),
        jdn,
    };
    Asked {
        answer: Ok(date),
        next: after_tab(line, style),
    }
}

// A date is a day number, or `=` and the fields of a record.
pub fn date_at(calendar: Calendar, line: &[u8], at: usize) -> Asked {
    let next = after_tab(line, at);
    if byte_at(line, at) == b'=' {
        return record_at(calendar, line, next);
    }
    Asked {
        answer: calendar.at_jdn(signed_at(line, at)),
        next,
    }
}

// ---- Seconds, which have 64 bits, and are the last field of their query

// The code of a digit is 48 and the digit, so that its remainder by 16 is the digit.
fn longer(n: u64, b: u8) -> u64 {
    (n % 1_000_000_000_000_000_000) * 10 + u64::from(b) % 16
}

fn magnitude_at(line: &[u8], from: usize) -> u64 {
    line.iter().skip(from).fold(0, |n, b| longer(n, *b))
}

fn signed_long(negative: bool, n: u64) -> i64 {
    if 9_223_372_036_854_775_808 < n {
        return 0;
    }
    if negative {
        return whole::lowered64(9_223_372_036_854_775_808 - n);
    }
    if n < 9_223_372_036_854_775_808 {
        return whole::lowered64(9_223_372_036_854_775_808 + n);
    }
    0
}

pub fn long_at(line: &[u8], at: usize) -> i64 {
    if at < line.len() && line[at] == b'-' {
        return signed_long(true, magnitude_at(line, at + 1));
    }
    signed_long(false, magnitude_at(line, at))
}
