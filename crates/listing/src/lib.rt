// The listing: lines of a register in, lines of numbers out. A line is a calendar name, a tab and a date text; what is written for it is the day that
// it comes to, or its refusal. The catalogue that was read before is in lent memory. Input comes in blocks that end anywhere. What is left of a line
// between two blocks is held: `held`.
// For users: all that is public.
#![tactic(auto)]

mod held;

ghost use Rattle.std.specs.Prelude.{◌+◌, ◌<◌, ◌≤◌, length};
ghost use Rattle.writer.specs.Promise.{Writes};
ghost use Rattle.catalogue.specs.Promise.{NamesIn};
ghost use Rattle.linetext.specs.Line.{longest_line};
ghost use Rattle.linetext.specs.Promise.{LineOut};
ghost use Rattle.listing.specs.Lines.{Listed};
ghost use Rattle.listing.specs.Promise.{HeldLine, block_state, NextLine, Lists};
ghost use Rattle.listing.specs.Laws.{Wrote};

use catalogue::Names;
pub use columns::put_header;
pub use entry::LONGEST_ENTRY;
use held::held_line;
pub use held::list_last;
use linetext::LONGEST_LINE;
use refusals::Refusal;
use textlines::add_to_line;
use writer::buffer;

// The text of its answer, with a newline.
pub fn list_line(names: &Names, line: &[u8], out: &mut [u8], at: usize) -> Result<usize, Refusal>
    ensures { Writes (Listed (NamesIn names.now) line.now) out.old at out.new result }
{
    let answer = entry::line_answer(names, line);
    linetext::put_line(out, at, columns::line_of(answer))
}

// The line of a catalogue that is refused. It stands under the header, and nothing else is listed.
pub fn put_refused(out: &mut [u8], at: usize, why: Refusal) -> Result<usize, Refusal>
    ensures { Writes (LineOut (Err why)) out.old at out.new result }
{
    linetext::put_line(out, at, Err(why))
}

// How far a block is read, how many bytes of an unfinished line are held, and how far the output is written.
#[derive(Clone, Copy)]
pub struct Progress {
    pub at: usize,
    pub held: usize,
    pub used: usize,
}

// What is written for the line that is held, where there is room for it.
fn put_held(
    names: &Names,
    line: &[u8; LONGEST_ENTRY],
    held: usize,
    out: &mut [u8],
    at: usize,
) -> usize
    requires { at + longest_line ≤ length out.old }
    ensures { Wrote (HeldLine (NamesIn names.now) line.now held) out.old at out.new result }
{
    linetext::put_line(out, at, held_line(names, line, held)).unwrap_or(at)
}

// Lists one line of the block, or holds what the block has of it.
fn list_next(
    names: &Names,
    block: &[u8],
    line: &mut [u8; LONGEST_ENTRY],
    out: &mut [u8],
    from: Progress,
) -> Progress
    requires { (from.at < length block.now) × (from.used + longest_line ≤ length out.old) }
    ensures { NextLine (NamesIn names.now) block.now (block_state from.at line.old from.held out.old from.used) (block_state result.at line.new result.held out.new result.used) }
{
    let at = from.at;
    let end = bytesearch::up_to(block, at, b'\n');
    let n = add_to_line(line, from.held, &block[at..end]);
    if end < block.len() {
        let used = put_held(names, line, n, out, from.used);
        return Progress {
            at: end + 1,
            held: 0,
            used,
        };
    }
    Progress {
        at: end,
        held: n,
        used: from.used,
    }
}

// Lists the lines of a block from an offset on, as long as the output has room. A line that is held goes on in the next block.
pub fn list_block(
    names: &Names,
    block: &[u8],
    from: usize,
    line: &mut [u8; LONGEST_ENTRY],
    held: usize,
    out: &mut [u8],
    used: usize,
) -> Progress
    ensures { Lists (NamesIn names.now) block.now (block_state from line.old held out.old used) (block_state result.at line.new result.held out.new result.used) }
{
    let mut p = Progress {
        at: from,
        held,
        used,
    };
    while p.at < block.len() && buffer::has_room(out.len(), p.used, LONGEST_LINE) {
        p = list_next(names, block, line, out, p);
    }
    p
}
