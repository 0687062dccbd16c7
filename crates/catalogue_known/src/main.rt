// Reads catalogues, and looks names up in them. Standard input is one piece after the other: `c` for a catalogue or `n` for a name, how many bytes it
// has, a newline, the bytes, a newline. A catalogue is read whole, and again cut in two at many places, each time into cleared memory. It gives a
// line with the count of its lines, or `!` and the numbers of its refusal; then how many of the ways to cut it gave the same answer and left the same
// memory. A name, looked up in the catalogue before it, gives a line with its calendar, or `!` and the numbers of the refusal.

#![tactic(auto)]

ghost use Rattle.std.specs.Prelude.{◌<◌, ◌≤◌, length};

use calendar::Calendar;
use catalogue::Names;
use catalogueread::{LONGEST_READ, Progress};
use refusals::Refusal;

const INPUT: usize = 262_144;

// ---- A catalogue that is read

fn read_rest(
    rest: &[u8],
    reached: Progress,
    names: &mut Names,
    line: &mut [u8; LONGEST_READ],
) -> Result<usize, Refusal> {
    let from = Progress {
        at: 0,
        lines: reached.lines,
        held: reached.held,
    };
    let p = catalogueread::read_block(names, line, rest, from)?;
    catalogueread::read_last(names, line, p.lines, p.held)
}

// As two blocks, the first of `cut` bytes.
fn read_cut(file: &[u8], cut: usize, names: &mut Names) -> Result<usize, Refusal>
    requires { cut ≤ length file.now }
{
    let mut line = [0u8; LONGEST_READ];
    let start = Progress {
        at: 0,
        lines: 0,
        held: 0,
    };
    let p = catalogueread::read_block(names, &mut line, &file[..cut], start)?;
    read_rest(&file[cut..], p, names, &mut line)
}

// ---- The same catalogue cut in two

fn same_answer(a: Result<usize, Refusal>, b: Result<usize, Refusal>) -> bool {
    match (a, b) {
        (Ok(n), Ok(m)) => n == m,
        (Err(why), Err(other)) => {
            why.number == other.number && why.place == other.place && why.value == other.value
        }
        _ => false,
    }
}

fn same_memory(names: &Names, other: &Names) -> bool {
    names.slots == other.slots && names.links == other.links
}

fn is_same(file: &[u8], cut: usize, names: &Names, expected: Result<usize, Refusal>) -> bool
    requires { cut ≤ length file.now }
{
    let mut other = Names::new();
    let answer = read_cut(file, cut, &mut other);
    same_answer(answer, expected) && same_memory(names, &other)
}

// A short catalogue is cut before each of its bytes; a long one before some, and before each of the last.
fn is_cut(size: usize, cut: usize) -> bool
    requires { cut < size }
{
    cut % (size / 96 + 1) == 0 || size - cut <= 16
}

// How many of the ways to cut a catalogue come to the same.
fn same_ways(file: &[u8], names: &Names, expected: Result<usize, Refusal>) -> u64 {
    let mut same: u64 = 0;
    for cut in 0..file.len() {
        if is_cut(file.len(), cut) && is_same(file, cut, names, expected) {
            same += 1;
        }
    }
    same
}

// ---- What is written

fn write_whole(rt: &HostRuntime, x: i64) {
    if whole::is_negative(x) {
        streams::print(rt, b"-");
    }
    streams::print_decimal(rt, whole::magnitude(x));
}

fn write_refusal(rt: &HostRuntime, why: Refusal) {
    streams::print(rt, b"!\t");
    streams::print_decimal(rt, why.number as u64);
    streams::print(rt, b"\t");
    streams::print_decimal(rt, why.place as u64);
    streams::print(rt, b"\t");
    write_whole(rt, why.value);
}

fn write_answer(rt: &HostRuntime, answer: Result<usize, Refusal>) {
    match answer {
        Ok(n) => {
            streams::print_decimal(rt, n as u64);
        }
        Err(why) => write_refusal(rt, why),
    }
}

fn write_calendar(rt: &HostRuntime, calendar: Calendar) {
    match calendar {
        Calendar::Julian => {
            streams::print(rt, b"J");
        }
        Calendar::Gregorian => {
            streams::print(rt, b"G");
        }
        Calendar::Reforming(r) => write_whole(rt, whole::widened(r)),
    }
}

fn write_named(rt: &HostRuntime, answer: Result<Calendar, Refusal>) {
    match answer {
        Ok(calendar) => write_calendar(rt, calendar),
        Err(why) => write_refusal(rt, why),
    }
}

// ---- The pieces of the input

fn answer_catalogue(rt: &HostRuntime, file: &[u8], names: &mut Names) {
    let answer = read_cut(file, file.len(), names);
    write_answer(rt, answer);
    streams::print(rt, b"\t");
    streams::print_decimal(rt, same_ways(file, names, answer));
}

fn answer_piece(rt: &HostRuntime, kind: u8, bytes: &[u8], names: &mut Names) {
    if kind == b'c' {
        answer_catalogue(rt, bytes, names);
    } else {
        write_named(rt, catalogue::named(names, bytes));
    }
    streams::print(rt, b"\n");
}

fn answer_all(rt: &HostRuntime, input: &[u8]) {
    let mut names = Names::new();
    let mut at: usize = 0;
    while at < input.len() {
        let kind = input[at];
        if kind == b'c' {
            names = Names::new();
        }
        let piece = pieces::piece_at(input, at + 1);
        answer_piece(rt, kind, &input[piece.from..piece.to], &mut names);
        at = piece.next;
    }
}

fn main(rt: HostRuntime) {
    let mut input = [0u8; INPUT];
    let size = streams::read_full(&mut rt.stdin(), &mut input);
    answer_all(&rt, &input[..size]);
}
