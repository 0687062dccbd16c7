// A run of the listing, turn by turn: what is to be written next, by what has happened since the last turn. The catalogue was read before. A program
// around it decides nothing.
// For programs.

#![tactic(auto)]

ghost use Rattle.std.specs.Prelude.{◌≡◌};
ghost use Rattle.filter.specs.Promise.{event_of};
ghost use Rattle.listrun.specs.Promise.{Begins, Refuses, Starts, GoesOn, Advances, Closes, state_at_value};

use catalogue::Names;
use cataloguerun::CatalogueRun;
use filter::{BLOCK_SIZE, Event, Phase, State};
pub use listing::LONGEST_ENTRY;
use listing::Progress;
use refusals::Refusal;

const UNREAD: &[u8] =
    b"list: standard input could not be read to its end; the listing is not complete\n";

const UNWRITTEN: &[u8] =
    b"list: standard output could not be written; the listing is not complete\n";

// By what the catalogue came to. The header stands in the output, and the input is to be read; or the catalogue's line stands under it, and nothing is.
// A catalogue that could not be read lists nothing.
pub fn start(run: CatalogueRun, out: &mut [u8; BLOCK_SIZE]) -> State
    ensures { Starts run out.old out.new result }
{
    match run {
        CatalogueRun::Ready => begin(out),
        CatalogueRun::Refused(why) => refuse(why, out),
        CatalogueRun::Unread | CatalogueRun::Reading(..) => filter::state_with(Phase::Ended, 0),
    }
}

fn begin(out: &mut [u8; BLOCK_SIZE]) -> State
    ensures { Begins out.old out.new result }
{
    let used = listing::put_header(out, 0).unwrap_or(0);
    filter::state_with(Phase::Reading, used)
}

fn refuse(why: Refusal, out: &mut [u8; BLOCK_SIZE]) -> State
    ensures { Refuses why out.old out.new result }
{
    let at = listing::put_header(out, 0).unwrap_or(0);
    let used = listing::put_refused(out, at, why).unwrap_or(0);
    filter::state_with(Phase::Closing, used)
}

// The next turn, once the output was written or not, and a read has answered.
pub fn go_on(
    names: &Names,
    state: State,
    written: bool,
    got: Option<usize>,
    block: &[u8; BLOCK_SIZE],
    line: &mut [u8; LONGEST_ENTRY],
    out: &mut [u8; BLOCK_SIZE],
) -> State
    ensures { GoesOn names.now block.now line.old out.old state (event_of state written got) line.new out.new result }
{
    match filter::happened(state, written, got, block) {
        Event::Block(from, count) => advance(names, block, from, count, line, state.held, out),
        Event::InputEnds => close(names, line, state.held, out),
        Event::Unread => filter::say(UNREAD, out),
        Event::Unwritten => filter::say(UNWRITTEN, out),
        Event::Finished => filter::state_with(Phase::Ended, 0),
    }
}

// Lines of the block, from an offset on.
fn advance(
    names: &Names,
    block: &[u8; BLOCK_SIZE],
    from: usize,
    count: usize,
    line: &mut [u8; LONGEST_ENTRY],
    held: usize,
    out: &mut [u8; BLOCK_SIZE],
) -> State
    ensures { Advances names.now block.now line.old out.old from count held line.new out.new result }
{
    let p = listing::list_block(names, filter::front(block, count), from, line, held, out, 0);
    if p.at < count {
        return state_at(Phase::Midway, p, count);
    }
    state_at(Phase::Reading, p, count)
}

fn state_at(phase: Phase, p: Progress, count: usize) -> State
    ensures { result ≡ state_at_value phase p.at count p.held p.used }
{
    State {
        phase,
        at: p.at,
        count,
        held: p.held,
        used: p.used,
    }
}

// The last line, where it had no newline.
fn close(
    names: &Names,
    line: &[u8; LONGEST_ENTRY],
    held: usize,
    out: &mut [u8; BLOCK_SIZE],
) -> State
    ensures { Closes names.now line.now held out.old out.new result }
{
    let used = listing::list_last(names, line, held, out, 0).unwrap_or(0);
    filter::state_with(Phase::Closing, used)
}
