// The lines of a program's input, one a turn, for a program that answers each line by itself: which line has ended, and where the program is then. What
// is written for a line is the program's own.
// For the crates above: all that is public.

#![tactic(auto)]

ghost use Rattle.std.specs.Prelude.{◌<◌, ◌≡◌, length};
ghost use Rattle.filter.specs.Promise.{event_of};
ghost use Rattle.linerun.specs.Promise.{state_at_value, with_output_value, last_of, EndsAt, TakesNext, Advances, NextTurn};

use filter::{BLOCK_SIZE, Event, Phase, State};
pub use textlines::LONGEST_READ;
use textlines::add_to_line;

// What a turn comes to.
#[derive(Clone, Copy)]
pub enum Turn {
    // A line has ended. So many bytes of it stand in the line buffer; or the number is above LONGEST_READ, and the line is too long. With the state the
    // program goes on, once the line is answered.
    Line(usize, State),
    // There is nothing to write.
    Nothing(State),
    // The input could not be read.
    Unread,
    // The output could not be written.
    Unwritten,
}

// The next turn, once the output was written or not, and a read has answered.
pub fn next(
    state: State,
    written: bool,
    got: Option<usize>,
    block: &[u8; BLOCK_SIZE],
    line: &mut [u8; LONGEST_READ],
) -> Turn
    ensures { NextTurn block.now line.old state (event_of state written got) line.new result }
{
    match filter::happened(state, written, got, block) {
        Event::Block(from, count) => advance(block, from, count, line, state.held),
        Event::InputEnds => last_turn(state.held),
        Event::Unread => Turn::Unread,
        Event::Unwritten => Turn::Unwritten,
        Event::Finished => Turn::Nothing(filter::state_with(Phase::Ended, 0)),
    }
}

// The state, with so many bytes of output.
pub fn with_output(state: State, used: usize) -> State
    ensures { result ≡ with_output_value state used }
{
    State { used, ..state }
}

// The next line of the block's first bytes, from an offset on.
fn advance(
    block: &[u8; BLOCK_SIZE],
    from: usize,
    count: usize,
    line: &mut [u8; LONGEST_READ],
    held: usize,
) -> Turn
    ensures { Advances block.now line.old from count held line.new result }
{
    let part = filter::front(block, count);
    if from < part.len() {
        return take_next(part, from, count, line, held);
    }
    Turn::Nothing(state_at(Phase::Reading, from, count, held))
}

// Takes the bytes up to a newline, or all.
fn take_next(
    part: &[u8],
    from: usize,
    count: usize,
    line: &mut [u8; LONGEST_READ],
    held: usize,
) -> Turn
    requires { from < length part.now }
    ensures { TakesNext part.now line.old from count held line.new result }
{
    let end = bytesearch::up_to(part, from, b'\n');
    let n = add_to_line(line, held, &part[from..end]);
    if end < part.len() {
        return ended_at(n, end + 1, count);
    }
    Turn::Nothing(state_at(Phase::Reading, end, count, n))
}

// A line has ended before an offset.
fn ended_at(size: usize, at: usize, count: usize) -> Turn
    ensures { EndsAt size at count result }
{
    if at < count {
        return Turn::Line(size, state_at(Phase::Midway, at, count, 0));
    }
    Turn::Line(size, state_at(Phase::Reading, at, count, 0))
}

fn state_at(phase: Phase, at: usize, count: usize, held: usize) -> State
    ensures { result ≡ state_at_value phase at count held }
{
    State {
        phase,
        at,
        count,
        held,
        used: 0,
    }
}

// The last line of the input, which needs no newline.
fn last_turn(held: usize) -> Turn
    ensures { result ≡ last_of held }
{
    let state = filter::state_with(Phase::Closing, 0);
    if 0 < held {
        return Turn::Line(held, state);
    }
    Turn::Nothing(state)
}
