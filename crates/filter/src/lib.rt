// A program that reads its input block by block and writes as it goes. What it does next is decided here and in the crates above, so that its
// loop decides nothing: it writes the front of its output, reads into its block, and calls.
// For programs: `goes_on`, `output`, `room`, `front`, `State`, `Stream` and `BLOCK_SIZE`. For the crates above: all else.

#![tactic(auto)]

ghost use Rattle.std.specs.Prelude.{◌≡◌, min, length, take};
ghost use Rattle.filter.specs.Promise.{goes_on_value, output_of, room_of, arrived_of, event_of, state_with_value, PutsMessage};

use writer::buffer;

// The bytes of a block, and of the output.
pub const BLOCK_SIZE: usize = 65536;

// What comes next, once the output is written.
#[derive(Clone, Copy)]
pub enum Phase {
    // All of the block is used up: read the next one.
    Reading,
    // The block is not used up: the output was full, or one of its lines is answered. Go on in the block.
    Midway,
    // The input has ended, and this was the last of the output.
    Closing,
    // Something failed, and the output is the message that says so.
    Failing,
    Ended,
}

#[derive(Clone, Copy)]
pub struct State {
    pub phase: Phase,
    // How far the block is used up, and how many bytes were read into it.
    pub at: usize,
    pub count: usize,
    // How many bytes of an unfinished line are held.
    pub held: usize,
    // How many bytes of the output are to be written.
    pub used: usize,
}

// The standard output, and the standard error.
#[derive(Clone, Copy)]
pub enum Stream {
    Output,
    Error,
}

// What has happened since the last call.
#[derive(Clone, Copy)]
pub enum Event {
    // The bytes of the block from one offset up to another are there to work on.
    Block(usize, usize),
    InputEnds,
    Unread,
    Unwritten,
    Finished,
}

// ---- What a program asks of a state

pub fn goes_on(state: State) -> bool
    ensures { result ≡ goes_on_value state.phase }
{
    !matches!(state.phase, Phase::Ended)
}

// Where the output is written to.
pub fn output(state: State) -> Stream
    ensures { result ≡ output_of state.phase }
{
    match state.phase {
        Phase::Failing => Stream::Error,
        Phase::Reading | Phase::Midway | Phase::Closing | Phase::Ended => Stream::Output,
    }
}

// How many bytes are to be read, once it is known whether the output was written: a whole block, or none.
pub fn room(state: State, written: bool) -> usize
    ensures { result ≡ room_of state.phase written }
{
    match state.phase {
        Phase::Reading if written => BLOCK_SIZE,
        _ => 0,
    }
}

// The first bytes of a buffer; all of them where it has fewer.
pub fn front(s: &[u8], size: usize) -> &[u8]
    ensures { result.now ≡ take size s.now }
{
    s.get(..size).unwrap_or(s)
}

// ---- What the crates above ask

// What has happened, by whether the output was written and what the read answered.
pub fn happened(state: State, written: bool, got: Option<usize>, block: &[u8; BLOCK_SIZE]) -> Event
    ensures { result ≡ event_of state written got }
{
    match state.phase {
        Phase::Failing | Phase::Ended => Event::Finished,
        _ if !written => Event::Unwritten,
        Phase::Reading => arrived(got, block),
        Phase::Midway => Event::Block(state.at, state.count),
        Phase::Closing => Event::Finished,
    }
}

// What a read answered: how many bytes of the block it gave, and nothing where it failed.
pub fn arrived(got: Option<usize>, block: &[u8; BLOCK_SIZE]) -> Event
    ensures { result ≡ arrived_of got }
{
    match got {
        None => Event::Unread,
        Some(0) => Event::InputEnds,
        Some(count) => Event::Block(0, count.min(block.len())),
    }
}

// The message is put into the output, and the program ends once it is written.
pub fn say(text: &[u8], out: &mut [u8; BLOCK_SIZE]) -> State
    ensures { PutsMessage text.now out.old out.new result }
{
    let used = buffer::copy_text(out, 0, text).unwrap_or(0);
    state_with(Phase::Failing, used)
}

// A state in which nothing of a block and of a line is left.
pub fn state_with(phase: Phase, used: usize) -> State
    ensures { result ≡ state_with_value phase used }
{
    State {
        phase,
        at: 0,
        count: 0,
        held: 0,
        used,
    }
}
