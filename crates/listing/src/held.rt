// The answer to the line that is held from one block of input to the next, once it has ended.

ghost use Rattle.writer.specs.Promise.{Writes};
ghost use Rattle.catalogue.specs.Promise.{NamesIn};
ghost use Rattle.listing.specs.Promise.{HeldAs, LastLine};

use catalogue::Names;
use entry::LONGEST_ENTRY;
use linetext::LineNumbers;
use refusals::Refusal;
use writer::buffer;

// The answer to it, as a line of the listing.
#[tactic(auto, using(crate::specs::Laws::answered_long))]
pub fn held_line(
    names: &Names,
    line: &[u8; LONGEST_ENTRY],
    held: usize,
) -> Result<LineNumbers, Refusal>
    ensures { HeldAs (NamesIn names.now) line.now held result }
{
    if LONGEST_ENTRY < held {
        return Err(refusals::refusal_of(20, 0));
    }
    columns::line_of(entry::line_answer(names, &line[..held]))
}

// The last line of the input, which needs no newline.
pub fn list_last(
    names: &Names,
    line: &[u8; LONGEST_ENTRY],
    held: usize,
    out: &mut [u8],
    at: usize,
) -> Result<usize, Refusal>
    ensures { Writes (LastLine (NamesIn names.now) line.now held) out.old at out.new result }
{
    if 0 < held {
        return linetext::put_line(out, at, held_line(names, line, held));
    }
    buffer::copy_text(out, at, &[]).ok_or(refusals::refusal_with(18, 0))
}
