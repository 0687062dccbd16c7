// The text of a date: YEAR-ORDINAL or YEAR-MONTH-DAY, read. Each call answers for any bytes. `usual` reads the texts that most are, and any text by what
// is here.
// For users: `read_date`, for texts without a calendar.
#![tactic(auto)]

mod usual;

ghost use Rattle.std.specs.Prelude.{◌≡◌};
ghost use Rattle.numbertext.specs.Reading.{the_number, the_dash};
ghost use Rattle.datetext.specs.Promise.{ReadDate};
ghost use Rattle.datetext.specs.Reading.{is_month_value, after_day, after_month_value, after_second, after_dash_value};

use refusals::Refusal;
pub use usual::read_date;

// What a text writes. The place is that of the number which a later refusal may name, the ordinal or the day.
#[derive(Clone, Copy)]
pub enum Text {
    Ordinal {
        year: i32,
        ordinal: u32,
        place: usize,
    },
    Ymd {
        year: i32,
        month: u32,
        day: u32,
        place: usize,
    },
}

// ---- reading: a part at a time, each going on from the part before it, for any year or month that it is told. The first fault is the refusal.

// The day is to stand at `at`.
fn day_on(text: &[u8], year: i32, month: u32, at: usize) -> Result<Text, Refusal>
    ensures { result ≡ after_day text.now year month at (the_number text.now at) }
{
    let (day, next) = numbertext::number_at(text, at)?;
    numbertext::end_at(text, next)?;
    Ok(Text::Ymd {
        year,
        month,
        day,
        place: at,
    })
}

// The `-` after the month is to stand at `at`.
fn month_on(text: &[u8], year: i32, month: u32, at: usize) -> Result<Text, Refusal>
    ensures { result ≡ after_month_value text.now year month (the_dash text.now at) }
{
    let next = numbertext::dash_at(text, at)?;
    day_on(text, year, month, next)
}

fn is_month(m: u32) -> bool
    ensures { result ≡ is_month_value m }
{
    1 <= m && m <= 12
}

// The second number is to stand at `at`.
fn second_on(text: &[u8], year: i32, at: usize) -> Result<Text, Refusal>
    ensures { result ≡ after_second text.now year at (the_number text.now at) }
{
    let (n, next) = numbertext::number_at(text, at)?;
    if text.len() <= next {
        return Ok(Text::Ordinal {
            year,
            ordinal: n,
            place: at,
        });
    }
    if is_month(n) {
        month_on(text, year, n, next)
    } else {
        Err(refusals::refusal_at(3, at, n))
    }
}

// The `-` after the year is to stand at `at`.
fn year_on(text: &[u8], year: i32, at: usize) -> Result<Text, Refusal>
    ensures { result ≡ after_dash_value text.now year (the_dash text.now at) }
{
    let next = numbertext::dash_at(text, at)?;
    second_on(text, year, next)
}

// The text part by part, from its front on.
fn any_date(text: &[u8]) -> Result<Text, Refusal>
    ensures { ReadDate text.now result }
{
    let (year, next) = numbertext::signed_at(text, 0)?;
    year_on(text, year, next)
}
