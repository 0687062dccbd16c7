// The catalogue of a program, which is read before its input, block by block. What it comes to is told to the program's run; one that is refused, or
// cannot be read, is told on standard error. A program around it decides nothing.
// For programs: `start`, `reads_on`, `go_on`, `complain` and `Opened`. For the crates above: `CatalogueRun`.

#![tactic(auto)]

ghost use Rattle.std.specs.Prelude.{◌≡◌, false, ◌+◌, ◌≤◌, length};
ghost use Rattle.filter.specs.Promise.{arrived_of, block_size};
ghost use Rattle.writer.specs.Laws.{PutText};
ghost use Rattle.writer.specs.Promise.{Signs};
ghost use Rattle.linetext.specs.Laws.{Text};
ghost use Rattle.cataloguerun.specs.Promise.{start_of, reads_on_value, Advances, Closes, GoesOn, words_of, Reasons, Complains};

use catalogue::Names;
pub use catalogueread::LONGEST_READ;
use catalogueread::Progress;
use filter::{BLOCK_SIZE, Event, Phase, State};
use refusals::Refusal;
use writer::buffer;

// What opening the file came to.
#[derive(Clone, Copy)]
pub enum Opened {
    Open,
    // There is no such file.
    Missing,
    // It is there, or may be, and could not be opened.
    Failed,
}

// How far it is read, or what it came to.
#[derive(Clone, Copy)]
pub enum CatalogueRun {
    // So many lines are held, and so many bytes of an unfinished one.
    Reading(usize, usize),
    // All its lines are held.
    Ready,
    Refused(Refusal),
    Unread,
}

// ---- Reading it

// By what opening the file came to. One that is missing counts as empty.
pub fn start(opened: Opened) -> CatalogueRun
    ensures { result ≡ start_of opened }
{
    match opened {
        Opened::Open => CatalogueRun::Reading(0, 0),
        Opened::Missing => CatalogueRun::Ready,
        Opened::Failed => CatalogueRun::Unread,
    }
}

// Whether a block is to be read.
pub fn reads_on(run: CatalogueRun) -> bool
    ensures { result ≡ reads_on_value run }
{
    matches!(run, CatalogueRun::Reading(..))
}

// Once a read has answered.
pub fn go_on(
    run: CatalogueRun,
    got: Option<usize>,
    block: &[u8; BLOCK_SIZE],
    names: &mut Names,
    line: &mut [u8; LONGEST_READ],
) -> CatalogueRun
    ensures { GoesOn block.now names.old line.old run (arrived_of got) names.new line.new result }
{
    let CatalogueRun::Reading(lines, held) = run else {
        return run;
    };
    match filter::arrived(got, block) {
        Event::Block(at, count) => {
            let from = Progress { at, lines, held };
            advance(block, count, names, line, from)
        }
        Event::InputEnds => close(names, line, lines, held),
        Event::Unread => CatalogueRun::Unread,
        Event::Unwritten | Event::Finished => run,
    }
}

fn advance(
    block: &[u8; BLOCK_SIZE],
    count: usize,
    names: &mut Names,
    line: &mut [u8; LONGEST_READ],
    from: Progress,
) -> CatalogueRun
    ensures { Advances block.now from.at count names.old from.lines line.old from.held names.new line.new result }
{
    match catalogueread::read_block(names, line, filter::front(block, count), from) {
        Ok(p) => CatalogueRun::Reading(p.lines, p.held),
        Err(why) => CatalogueRun::Refused(why),
    }
}

// The last line, where it had no newline.
fn close(names: &mut Names, line: &[u8; LONGEST_READ], lines: usize, held: usize) -> CatalogueRun
    ensures { Closes names.old lines line.now held names.new result }
{
    match catalogueread::read_last(names, line, lines, held) {
        Ok(_) => CatalogueRun::Ready,
        Err(why) => CatalogueRun::Refused(why),
    }
}

// ---- What is said of it on standard error

// The message stands in the output, where there is one, and the program ends once it is written.
pub fn complain(run: CatalogueRun, out: &mut [u8; BLOCK_SIZE]) -> State
    ensures { Complains out.old run out.new result }
{
    match run {
        CatalogueRun::Reading(..) | CatalogueRun::Ready => filter::state_with(Phase::Ended, 0),
        CatalogueRun::Refused(why) => {
            let used = put_reason(out, why.number, why.place);
            filter::state_with(Phase::Failing, used)
        }
        CatalogueRun::Unread => filter::say(
            b"catalogue: the file could not be read; it is not used\n",
            out,
        ),
    }
}

// Which line is refused, and why.
fn put_reason(out: &mut [u8], number: u32, place: usize) -> usize
    requires { length out.old ≡ block_size }
    ensures { Reasons number place out.old out.new result }
{
    let first = put_text(out, 0, b"catalogue: refused at line ");
    let second = put_decimal(out, first, place);
    put_text(out, second, words(number))
}

fn put_text(out: &mut [u8], at: usize, text: &[u8]) -> usize
    requires { at + length text.now ≤ length out.old }
    ensures { PutText out.old at text.now out.new result }
{
    buffer::copy_text(out, at, text).unwrap_or(at)
}

fn put_decimal(out: &mut [u8], at: usize, n: usize) -> usize
    requires { at + 20 ≤ length out.old }
    ensures { Text (Signs false n) 20 out.old at out.new result }
{
    writer::put_at(out, at, false, n as u64).unwrap_or(at)
}

// The reason in words.
#[tactic(auto, unfolding(crate::specs::Promise::words_of, whole::specs::Text::bytes))]
fn words(number: u32) -> &'static [u8]
    ensures { result.now ≡ words_of number }
{
    match number {
        22 => b": not a name, a tab and a day number (22)\n",
        11 => b": the day number is above 2147483647 (11)\n",
        28 => b": the day number is below -2147483648 (28)\n",
        23 => b": the name is taken (23)\n",
        24 => b": there are too many lines (24)\n",
        1 => b": no calendar can switch on that day (1)\n",
        2 => b": the dates around that day do not fit 32 bits (2)\n",
        _ => b": the state was made up (16)\n",
    }
}
