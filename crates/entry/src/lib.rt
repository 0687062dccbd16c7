// A line of a register: a calendar name, a tab and a date text. The answer to it is the day that it names, or its refusal. A name is built in, or
// a catalogue in lent memory has it.
// For users: `line_answer` and `LONGEST_ENTRY`. For the crates above: `parts_of`.

#![tactic(auto)]

ghost use Rattle.catalogue.specs.Promise.{NamesIn};
ghost use Rattle.entry.specs.Promise.{LineAnswer, IsParted};

use calendar::Date;
use catalogue::Names;
use refusals::Refusal;

// The longest line of a register is the longest line that is read.
pub const LONGEST_ENTRY: usize = textlines::LONGEST_READ;

// Where the name of a line ends, and where its text begins: after the tab, or at the line's end.
#[derive(Clone, Copy)]
pub struct Parts {
    pub name_end: usize,
    pub text_from: usize,
}

pub fn parts_of(line: &[u8]) -> Parts
    ensures { IsParted line.now result }
{
    let name_end = bytesearch::by_eights(line, 0, b'\t');
    Parts {
        name_end,
        text_from: (name_end + 1).min(line.len()),
    }
}

// The day that a line names, or why it names none.
#[tactic(auto, using(crate::specs::Laws::too_long))]
pub fn line_answer(names: &Names, line: &[u8]) -> Result<Date, Refusal>
    ensures { LineAnswer (NamesIn names.now) line.now result }
{
    if LONGEST_ENTRY < line.len() {
        return Err(refusals::refusal_of(20, 0));
    }
    let Parts {
        name_end,
        text_from,
    } = parts_of(line);
    let calendar = catalogue::named(names, &line[..name_end])?;
    dateparse::parse_date(calendar, &line[text_from..])
}
