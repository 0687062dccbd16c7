// A run of the import, turn by turn: what is to be written next, by what has happened since the last turn. The catalogue was read before. A record that
// a block cuts is moved to the front of the block, and the next read goes after it. A program around it decides nothing.
// For programs.

#![tactic(auto)]

ghost use Rattle.std.specs.Prelude.{◌≡◌, ◌≤◌, min, length};
ghost use Rattle.filter.specs.Promise.{event_of};
ghost use Rattle.listrun.specs.Promise.{state_at_value};
ghost use Rattle.importrun.specs.Promise.{run_with_value, kept_of, room_left, Starts, Keeps, Advances, GoesOn};

use catalogue::Names;
use cataloguerun::CatalogueRun;
use filter::{BLOCK_SIZE, Event, Phase, State};
pub use importing::LONGEST_RECORD;
use importing::{Stopped, later_place};

const UNREAD: [u8; 80] =
    *b"import: standard input could not be read to its end; the import is not complete\n";

const UNWRITTEN: [u8; 73] =
    *b"import: standard output could not be written; the import is not complete\n";

// What the program does next, and where in the file the block begins. `held` of the state is how many bytes at the front of the block are the beginning
// of a record.
#[derive(Clone, Copy)]
pub struct ImportRun {
    pub state: State,
    pub offset: usize,
}

fn run_with(state: State, offset: usize) -> ImportRun
    ensures { result ≡ run_with_value state offset }
{
    ImportRun { state, offset }
}

// By what the catalogue came to, as the listing starts.
pub fn start(run: CatalogueRun, out: &mut [u8; BLOCK_SIZE]) -> ImportRun
    ensures { Starts run out.old out.new result }
{
    run_with(listrun::start(run, out), 0)
}

// ---- what a program asks of a run, beside what it asks of its state

// How many bytes at the front of the block are kept: the next read goes after them.
pub fn kept(run: ImportRun) -> usize
    ensures { result ≡ kept_of run.state }
{
    run.state.held.min(BLOCK_SIZE)
}

// How many bytes are to be read, once it is known whether the output was written.
pub fn room(run: ImportRun, written: bool) -> usize
    ensures { result ≡ room_left run.state written }
{
    filter::room(run.state, written).saturating_sub(kept(run))
}

// ---- a turn

// Moves the bytes from one offset up to another to the front, and tells how many they are.
fn keep(block: &mut [u8], at: usize, end: usize) -> usize
    requires { end ≤ length block.old }
    ensures { Keeps block.old at end block.new result }
{
    if end < at {
        return 0;
    }
    block.copy_within(at..end, 0);
    end - at
}

// Records of the block, from an offset on, up to another.
fn advance(
    names: &Names,
    block: &mut [u8; BLOCK_SIZE],
    from: usize,
    count: usize,
    ends: bool,
    offset: usize,
    line: &mut [u8; LONGEST_RECORD],
    out: &mut [u8; BLOCK_SIZE],
) -> ImportRun
    ensures { Advances names.now block.old line.old out.old from count ends offset block.new line.new out.new result }
{
    let p = importing::import_text(
        names,
        filter::front(block, count),
        from,
        ends,
        offset,
        line,
        out,
        0,
    );
    match p.stopped {
        Stopped::Ended => run_with(filter::state_with(Phase::Closing, p.used), offset),
        Stopped::Full => run_with(state_at(Phase::Midway, p.at, count, 0, p.used), offset),
        Stopped::Spent => {
            if ends {
                return run_with(filter::state_with(Phase::Closing, p.used), offset);
            }
            let held = keep(block, p.at, count.min(BLOCK_SIZE));
            run_with(
                state_at(Phase::Reading, 0, 0, held, p.used),
                later_place(offset, p.at),
            )
        }
    }
}

fn state_at(phase: Phase, at: usize, count: usize, held: usize, used: usize) -> State
    ensures { result ≡ state_at_value phase at count held used }
{
    State {
        phase,
        at,
        count,
        held,
        used,
    }
}

// The next turn, once the output was written or not, and a read has answered.
pub fn go_on(
    names: &Names,
    run: ImportRun,
    written: bool,
    got: Option<usize>,
    block: &mut [u8; BLOCK_SIZE],
    line: &mut [u8; LONGEST_RECORD],
    out: &mut [u8; BLOCK_SIZE],
) -> ImportRun
    ensures { GoesOn names.now block.old line.old out.old run (event_of run.state written got) block.new line.new out.new result }
{
    let ImportRun { state, offset } = run;
    let front = kept(run);
    match filter::happened(state, written, got, block) {
        Event::Block(from, count) => {
            let all = later_place(front, count);
            advance(names, block, from, all, false, offset, line, out)
        }
        Event::InputEnds => advance(names, block, 0, front, true, offset, line, out),
        Event::Unread => run_with(filter::say(&UNREAD, out), offset),
        Event::Unwritten => run_with(filter::say(&UNWRITTEN, out), offset),
        Event::Finished => run_with(filter::state_with(Phase::Ended, 0), offset),
    }
}
