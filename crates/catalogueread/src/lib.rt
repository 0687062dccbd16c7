// A catalogue read in blocks, which end anywhere. What has been read is plain lent memory, the count of the lines that it holds, and what is held of
// an unfinished line. Each call answers for any contents of it.
// For users: all that is public.

#![tactic(auto)]

ghost use Rattle.std.specs.Prelude.{◌<◌, length};
ghost use Rattle.catalogueread.specs.Promise.{AddsHeld, read_state, reached, ReadsNext, ReadsBlock, ReadsLast};

use catalogue::{LINES, Names};
use refusals::{Refusal, refusal_at};
pub use textlines::LONGEST_READ;

// How far a block is read, how many lines are held, and how many bytes of an unfinished line.
#[derive(Clone, Copy)]
pub struct Progress {
    pub at: usize,
    pub lines: usize,
    pub held: usize,
}

// The line that is held has ended.
fn add_held(
    names: &mut Names,
    lines: usize,
    line: &[u8; LONGEST_READ],
    held: usize,
) -> Result<usize, Refusal>
    ensures { AddsHeld names.old lines line.now held names.new result }
{
    if LINES < lines {
        return Err(refusal_at(16, 0, 0));
    }
    if held <= LONGEST_READ {
        return catalogue::add_line(names, lines, &line[..held]);
    }
    Err(refusal_at(22, lines + 1, 0))
}

// Reads one line of the block, or holds what the block has of it.
fn read_next(
    names: &mut Names,
    line: &mut [u8; LONGEST_READ],
    block: &[u8],
    from: Progress,
) -> Result<Progress, Refusal>
    requires { from.at < length block.now }
    ensures { ReadsNext block.now (read_state from.at names.old from.lines line.old from.held) (reached result names.new line.new) }
{
    let at = from.at;
    let end = bytesearch::by_eights(block, at, b'\n');
    let n = textlines::add_to_line(line, from.held, &block[at..end]);
    if end < block.len() {
        return match add_held(names, from.lines, line, n) {
            Ok(lines) => Ok(Progress {
                at: end + 1,
                lines,
                held: 0,
            }),
            Err(why) => Err(why),
        };
    }
    Ok(Progress {
        at: end,
        lines: from.lines,
        held: n,
    })
}

// Reads the lines that end in a block, from an offset on, up to the first that is refused: then the catalogue is refused, and nothing more is to be
// read. A line that is held goes on in the next block.
pub fn read_block(
    names: &mut Names,
    line: &mut [u8; LONGEST_READ],
    block: &[u8],
    from: Progress,
) -> Result<Progress, Refusal>
    ensures { ReadsBlock block.now (read_state from.at names.old from.lines line.old from.held) (reached result names.new line.new) }
{
    let mut p = from;
    while p.at < block.len() {
        p = read_next(names, line, block, p)?;
    }
    Ok(p)
}

// The end of the file: the last line, which needs no newline, and how many lines the catalogue has.
#[tactic(auto, using(crate::specs::Laws::last_more))]
pub fn read_last(
    names: &mut Names,
    line: &[u8; LONGEST_READ],
    lines: usize,
    held: usize,
) -> Result<usize, Refusal>
    ensures { ReadsLast names.old lines line.now held names.new result }
{
    if 0 < held {
        return add_held(names, lines, line, held);
    }
    if LINES < lines {
        return Err(refusal_at(16, 0, 0));
    }
    Ok(lines)
}
