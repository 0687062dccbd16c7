// Dates from text and text from dates. A text is read whole before the calendar is asked, and a refusal about one of its numbers has that
// number's place.
// For users.

#![tactic(auto)]

ghost use Rattle.std.specs.Prelude.{◌≡◌};
ghost use Rattle.dateparse.specs.Promise.{placed_at, ParseDate, WriteDate};

use calendar::{Calendar, Date, Refusal};
use datetext::Text;

pub fn parse_date(calendar: Calendar, text: &[u8]) -> Result<Date, Refusal>
    ensures { ParseDate calendar text.now result }
{
    calendar::switch_of(calendar)?;
    let written = datetext::read_date(text)?;
    match written {
        Text::Ordinal {
            year,
            ordinal,
            place,
        } => placed(calendar.at_ordinal_date(year, ordinal), place),
        Text::Ymd {
            year,
            month,
            day,
            place,
        } => placed(calendar.at_ymd(year, month, day), place),
    }
}

// A refusal gets the place of the field that it is about. 7 is about the date and not about a field.
fn placed(answer: Result<Date, Refusal>, place: usize) -> Result<Date, Refusal>
    ensures { result ≡ placed_at place answer }
{
    answer.map_err(|why| {
        if why.number == 7 {
            why
        } else {
            Refusal { place, ..why }
        }
    })
}

// The year-month-day text of a date at the front of the buffer; the answer tells its length.
pub fn write_date(date: Date, buf: &mut [u8]) -> Result<usize, Refusal>
    ensures { WriteDate date buf.old (buf.new, result) }
{
    if date.is_genuine() {
        return writer::write_ymd(buf, date.year, date.month, date.day);
    }
    Err(calendar::refusal_of(16, 0))
}
