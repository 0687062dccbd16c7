// A run of the explanation, turn by turn: what is to be written next, by what has happened since the last turn. The catalogue was read before. A program
// around it decides nothing.
// For programs.

#![tactic(auto)]

ghost use Rattle.filter.specs.Promise.{event_of};
ghost use Rattle.writer.specs.Promise.{Writes};
ghost use Rattle.catalogue.specs.Promise.{NamesIn};
ghost use Rattle.explaining.specs.Paragraph.{Paragraph};
ghost use Rattle.linerun.specs.declared.Turn.TheVariants.{Line as EndedLine};
ghost use Rattle.linerun.specs.Promise.{HeldOut, Answers};
ghost use Rattle.std.specs.Prelude.{◌≤◌, length, take, ◌≡◌};
ghost use Rattle.explainrun.specs.Promise.{start_of, unread, unwritten, GoesOn};

use catalogue::Names;
use cataloguerun::CatalogueRun;
use filter::{BLOCK_SIZE, Phase, State};
pub use linerun::LONGEST_READ;
use linerun::Turn;
use refusals::Refusal;

const UNREAD: [u8; 86] =
    *b"explain: standard input could not be read to its end; the explanation is not complete\n";

const UNWRITTEN: [u8; 79] =
    *b"explain: standard output could not be written; the explanation is not complete\n";

// By what the catalogue came to: the input is to be read, or nothing is.
pub fn start(run: CatalogueRun) -> State
    ensures { result ≡ start_of run }
{
    match run {
        CatalogueRun::Ready => filter::state_with(Phase::Reading, 0),
        _ => filter::state_with(Phase::Ended, 0),
    }
}

// The next turn, once the output was written or not, and a read has answered.
pub fn go_on(
    names: &Names,
    state: State,
    written: bool,
    got: Option<usize>,
    block: &[u8; BLOCK_SIZE],
    line: &mut [u8; LONGEST_READ],
    out: &mut [u8; BLOCK_SIZE],
) -> State
    ensures { GoesOn names.now block.now line.old out.old state (event_of state written got) line.new out.new result }
{
    match linerun::next(state, written, got, block, line) {
        Turn::Line(held, after) => answer(names, line, held, after, out),
        Turn::Nothing(after) => after,
        Turn::Unread => filter::say(&UNREAD, out),
        Turn::Unwritten => filter::say(&UNWRITTEN, out),
    }
}

// The paragraph for the line that has ended, at the front of the output.
fn answer(
    names: &Names,
    line: &[u8; LONGEST_READ],
    held: usize,
    after: State,
    out: &mut [u8; BLOCK_SIZE],
) -> State
    ensures { Answers (Paragraph (NamesIn names.now)) unread unwritten line.now out.old (EndedLine held after) out.new result }
{
    match put_held(names, line, held, out) {
        Ok(used) => linerun::with_output(after, used),
        Err(_) => after,
    }
}

fn put_held(
    names: &Names,
    line: &[u8; LONGEST_READ],
    held: usize,
    out: &mut [u8],
) -> Result<usize, Refusal>
    ensures { Writes (HeldOut (Paragraph (NamesIn names.now)) line.now held) out.old 0 out.new result }
{
    let short = held <= LONGEST_READ;
    if short {
        return explaining::explain_line(names, &line[..held], out, 0);
    }
    explaining::explain_too_long(out, 0)
}
