// A program: imports comma-separated texts, with an empty catalogue. First all strings of up to seven bytes over an alphabet of six: for each size
// a line with the size, how many strings have it, and the hash of their imports, one after another. Then the texts of standard input, each the
// number of its bytes, a newline, the bytes, a newline. Such a text is imported whole, and again cut in two at every byte. It gives its import, and
// a line with `=` and how many of the ways to cut it came to the same.

#![tactic(auto)]

ghost use Rattle.std.specs.Prelude.{◌≤◌};

use catalogue::Names;
use filter::BLOCK_SIZE;
use importing::{LONGEST_RECORD, Progress, Stopped};

// The longest strings of which all are imported.
const LONGEST: usize = 7;

// ---- Imports

fn put_header(out: &mut [u8; BLOCK_SIZE]) -> usize {
    importing::put_header(out, 0).unwrap_or(0)
}

// A text whole: how many bytes its import has.
fn import_whole(
    names: &Names,
    text: &[u8],
    line: &mut [u8; LONGEST_RECORD],
    out: &mut [u8; BLOCK_SIZE],
) -> usize {
    let used = put_header(out);
    let reached = importing::import_text(names, text, 0, true, 0, line, out, used);
    reached.used
}

// What an import has left of a text; nothing where it is past the end.
fn rest<'a>(text: &'a [u8], at: usize) -> &'a [u8] {
    text.get(at..).unwrap_or(b"")
}

// After the first of two parts: what it left comes again, in front of the second. Where a refusal has ended the import, nothing comes.
fn import_rest(
    names: &Names,
    text: &[u8],
    reached: Progress,
    line: &mut [u8; LONGEST_RECORD],
    out: &mut [u8; BLOCK_SIZE],
) -> usize {
    if let Stopped::Ended = reached.stopped {
        return reached.used;
    }
    let left = rest(text, reached.at);
    let offset = importing::later_place(0, reached.at);
    let last = importing::import_text(names, left, 0, true, offset, line, out, reached.used);
    last.used
}

// A text in two parts, the first of `cut` bytes: how many bytes its import has.
fn import_cut(
    names: &Names,
    text: &[u8],
    cut: usize,
    line: &mut [u8; LONGEST_RECORD],
    out: &mut [u8; BLOCK_SIZE],
) -> usize {
    let used = put_header(out);
    let first = filter::front(text, cut);
    let reached = importing::import_text(names, first, 0, false, 0, line, out, used);
    import_rest(names, text, reached, line, out)
}

// ---- The hash FNV-1a of 64 bits

// The hash of no bytes.
const EMPTY_HASH: u64 = 14_695_981_039_346_656_037;

// The prime of the hash, 2^40 + 435.
const PRIME: u64 = 1_099_511_628_211;

fn hash_bytes(bytes: &[u8], before: u64) -> u64 {
    bytes.iter().fold(before, |hash, b| (hash ^ u64::from(*b)).wrapping_mul(PRIME))
}

// ---- All short strings

// The alphabet. NUL is a byte that no text may have.
fn letter(n: usize) -> u8 {
    match n {
        0 => b'A',
        1 => b',',
        2 => b'"',
        3 => b'\r',
        4 => b'\n',
        _ => 0,
    }
}

// How many strings of a size there are.
fn string_count(size: usize) -> usize {
    match size {
        0 => 1,
        1 => 6,
        2 => 36,
        3 => 216,
        4 => 1296,
        5 => 7776,
        6 => 46_656,
        _ => 279_936,
    }
}

// The string of a number: its last letter is the last digit to the base six.
fn put_string(number: usize, size: usize, text: &mut [u8; LONGEST])
    requires { size ≤ 7 }
{
    let mut digits = number;
    for b in text[..size].iter_mut().rev() {
        *b = letter(digits % 6);
        digits /= 6;
    }
}

fn hash_string(
    names: &Names,
    number: usize,
    size: usize,
    before: u64,
    text: &mut [u8; LONGEST],
    line: &mut [u8; LONGEST_RECORD],
    out: &mut [u8; BLOCK_SIZE],
) -> u64
    requires { size ≤ 7 }
{
    put_string(number, size, text);
    let used = import_whole(names, filter::front(text, size), line, out);
    hash_bytes(filter::front(out, used), before)
}

fn hash_strings(
    names: &Names,
    size: usize,
    line: &mut [u8; LONGEST_RECORD],
    out: &mut [u8; BLOCK_SIZE],
) -> u64
    requires { size ≤ 7 }
{
    let mut text = [0u8; LONGEST];
    let mut hash = EMPTY_HASH;
    for number in 0..string_count(size) {
        hash = hash_string(names, number, size, hash, &mut text, line, out);
    }
    hash
}

fn write_counts(rt: &HostRuntime, size: usize, hash: u64) {
    streams::print_decimal(rt, size as u64);
    streams::print(rt, b" ");
    streams::print_decimal(rt, string_count(size) as u64);
    streams::print(rt, b" ");
    streams::print_decimal(rt, hash);
    streams::print(rt, b"\n");
}

fn answer_strings(
    rt: &HostRuntime,
    names: &Names,
    line: &mut [u8; LONGEST_RECORD],
    out: &mut [u8; BLOCK_SIZE],
) {
    for size in 0..=LONGEST {
        let hash = hash_strings(names, size, line, out);
        write_counts(rt, size, hash);
    }
}

// ---- A text whole, and cut in two

fn is_same(
    names: &Names,
    text: &[u8],
    cut: usize,
    line: &mut [u8; LONGEST_RECORD],
    out: &mut [u8; BLOCK_SIZE],
    expected: &[u8],
) -> bool {
    let used = import_cut(names, text, cut, line, out);
    filter::front(out, used) == expected
}

// How many of the ways to cut a text come to the same. The last way cuts it after its last byte.
fn same_ways(
    names: &Names,
    text: &[u8],
    line: &mut [u8; LONGEST_RECORD],
    out: &mut [u8; BLOCK_SIZE],
    expected: &[u8],
) -> u64 {
    let mut same: u64 = 0;
    for cut in 0..=text.len() {
        if is_same(names, text, cut, line, out, expected) {
            same = same.wrapping_add(1);
        }
    }
    same
}

fn answer_text(
    rt: &HostRuntime,
    names: &Names,
    text: &[u8],
    line: &mut [u8; LONGEST_RECORD],
    out: &mut [u8; BLOCK_SIZE],
    other: &mut [u8; BLOCK_SIZE],
) {
    let used = import_whole(names, text, line, out);
    let expected = filter::front(out, used);
    streams::print(rt, expected);
    streams::print(rt, b"= ");
    streams::print_decimal(rt, same_ways(names, text, line, other, expected));
    streams::print(rt, b"\n");
}

// ---- The texts of the input

fn answer_texts(
    rt: &HostRuntime,
    names: &Names,
    input: &[u8],
    line: &mut [u8; LONGEST_RECORD],
    out: &mut [u8; BLOCK_SIZE],
    other: &mut [u8; BLOCK_SIZE],
) {
    let mut at: usize = 0;
    while at < input.len() {
        let piece = pieces::piece_at(input, at);
        answer_text(rt, names, &input[piece.from..piece.to], line, out, other);
        at = piece.next;
    }
}

fn main(rt: HostRuntime) {
    let mut input = [0u8; BLOCK_SIZE];
    let mut out = [0u8; BLOCK_SIZE];
    let mut other = [0u8; BLOCK_SIZE];
    let mut line = [0u8; LONGEST_RECORD];
    let names = Names::new();
    let size = streams::read_full(&mut rt.stdin(), &mut input);
    answer_strings(&rt, &names, &mut line, &mut out);
    answer_texts(&rt, &names, &input[..size], &mut line, &mut out, &mut other);
}
