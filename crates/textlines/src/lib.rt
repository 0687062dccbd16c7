// The lines of a text that comes in blocks, which end anywhere: what a block has of a line is added to what is held of it in a line buffer. How a
// block is cut into lines is said in `specs`, and done by the crates that read: a search that two of them called would not go in line.
// For the crates above.

#![tactic(auto)]

ghost use Rattle.textlines.specs.Promise.{AddsToLine};

use writer::buffer;

// The longest line that is read.
pub const LONGEST_READ: usize = 512;

// What is told of a line that is too long to be held: more bytes than it can have.
const TOO_LONG: usize = LONGEST_READ + 1;

// Adds bytes to the line that is held, and answers how many are held then. Of a line that is too long nothing in the buffer matters any more.
pub fn add_to_line(line: &mut [u8; LONGEST_READ], held: usize, part: &[u8]) -> usize
    ensures { AddsToLine line.old held part.now line.new result }
{
    buffer::copy_text(line, held, part).unwrap_or(TOO_LONG)
}
