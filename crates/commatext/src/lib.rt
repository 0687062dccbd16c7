// A record of comma-separated text, as RFC 4180 has it: the reading inside quotes and the reading outside quotes hand over to each other until the
// record ends, a byte does not fit, or the bytes run out. A record of two fields becomes a line: both fields unquoted, with a tab between them.
// For the crates above: all that is public.
#![tactic(auto)]

mod unquote;

ghost use Rattle.std.specs.Prelude.{◌≡◌, ◌≤◌, ◌<◌, min, length, drop};
ghost use Rattle.commatext.specs.Grammar.{TextData};
ghost use Rattle.commatext.specs.Promise.{Scans};
ghost use Rattle.commatext.specs.Private.{Tells, Stands, Run, FieldEnd, NextIs, OtherAt, AfterReturn, OutsideAt, InsideAt, Finds, first_comma_value, EndsUsual, QuoteAt, FindsUsual};

use unquote::{put_line, put_usual_line};

// The longest record that is read.
pub const LONGEST_RECORD: usize = 512;

// What stands at the front of some bytes.
#[derive(Clone, Copy)]
pub enum Scan {
    // A record of two fields: the bytes of its line, and the offset after its line end.
    Entry(usize, usize),
    // A record with another number of fields: the offset after its line end.
    Miscounted(usize),
    // A refusal: its number, and its offset.
    Stops(u32, usize),
    // The bytes end before the record does.
    Undecided,
}

// The same, with the comma between the two fields and the offset after them.
#[derive(Clone, Copy)]
enum Found {
    Pair(usize, usize, usize),
    Other(usize),
    Stops(u32, usize),
    Undecided,
}

// ---- bytes that go on in a field

// TEXTDATA = %x20-21 / %x23-2B / %x2D-7E
fn is_text(b: u8) -> bool
    ensures { Tells (TextData b) result }
{
    if 0x2D <= b {
        if b <= 0x7E {
            return true;
        }
        return false;
    }
    if b < 0x20 {
        return false;
    }
    if b <= 0x21 {
        return true;
    }
    if b < 0x23 {
        return false;
    }
    if b <= 0x2B {
        return true;
    }
    false
}

fn stands(b: u8, quoted: bool) -> bool
    ensures { Tells (Stands quoted b) result }
{
    if is_text(b) {
        return true;
    }
    if quoted {
        if b == b',' {
            return true;
        }
        if b == b'\r' {
            return true;
        }
        if b == b'\n' {
            return true;
        }
        return false;
    }
    false
}

// The offset after the bytes that go on in the field, from an offset on; no record goes on past its longest length.
fn run_end(s: &[u8], from: usize, quoted: bool) -> usize
    requires { from ≤ length s.now }
    ensures { Run quoted s.now from result }
{
    let limit = s.len().min(LONGEST_RECORD);
    let mut i = from;
    while i < limit {
        if stands(s[i], quoted) {
            i += 1;
        } else {
            return i;
        }
    }
    i
}

// Where the field ends: a quoted one has, after its quote.
fn field_end(s: &[u8], at: usize, quoted: bool) -> usize
    requires { at ≤ length s.now }
    ensures { FieldEnd s.now at quoted result }
{
    if quoted {
        return at;
    }
    run_end(s, at, false)
}

// ---- what comes next outside quotes

#[derive(Clone, Copy)]
enum Next {
    // The record ends here: the offset after its line end.
    Ends(usize),
    Undecided,
    TooLong,
    Comma,
    Quote,
    Other,
}

// A byte that is no line end and has no other meaning.
fn other_byte(at: usize) -> Next
    ensures { OtherAt at result }
{
    if LONGEST_RECORD <= at {
        return Next::TooLong;
    }
    Next::Other
}

// After a CR.
#[tactic(auto, using(crate::specs::Laws::return_text_ends, crate::specs::Laws::return_bytes_end, crate::specs::Laws::return_feed, crate::specs::Laws::return_other))]
fn after_return(s: &[u8], ends: bool, at: usize) -> Next
    requires { at < length s.now }
    ensures { AfterReturn ends s.now at result }
{
    let next = at + 1;
    if next == s.len() {
        if ends {
            return other_byte(at);
        }
        return Next::Undecided;
    }
    if s[next] == b'\n' {
        return Next::Ends(at + 2);
    }
    other_byte(at)
}

#[tactic(auto, using(crate::specs::Laws::next_text_ends, crate::specs::Laws::next_bytes_end, crate::specs::Laws::next_feed, crate::specs::Laws::next_comma, crate::specs::Laws::next_quote, crate::specs::Laws::next_long, crate::specs::Laws::next_other))]
fn next_outside(s: &[u8], ends: bool, at: usize) -> Next
    requires { at ≤ length s.now }
    ensures { NextIs ends at (drop at s.now) result }
{
    if at == s.len() {
        if ends {
            return Next::Ends(at);
        }
        return Next::Undecided;
    }
    let b = s[at];
    if b == b'\n' {
        return Next::Ends(at + 1);
    }
    if b == b'\r' {
        return after_return(s, ends, at);
    }
    if LONGEST_RECORD <= at {
        return Next::TooLong;
    }
    if b == b',' {
        return Next::Comma;
    }
    if b == b'"' {
        return Next::Quote;
    }
    Next::Other
}

// ---- the two readings

fn first_comma(commas: usize, first: usize, at: usize) -> usize
    ensures { result ≡ first_comma_value commas first at }
{
    if commas == 0 {
        return at;
    }
    first
}

// From an offset on, at the beginning of a field, or after a quote of the field that begins at `opened`. So many commas came before it, the first of
// them at `first`.
#[cycle(inside_quotes_outside_quotes)]
#[tactic(auto, using(crate::specs::Laws::here, crate::specs::Laws::piece, crate::specs::Laws::finds_pair, crate::specs::Laws::finds_other))]
fn outside_quotes(
    s: &[u8],
    ends: bool,
    at: usize,
    quoted: bool,
    opened: usize,
    commas: usize,
    first: usize,
) -> Found
    requires { OutsideAt s.now at quoted opened commas first }
    ensures { Finds ends s.now result }
{
    let end = field_end(s, at, quoted);
    match next_outside(s, ends, end) {
        Next::Ends(next) => {
            if commas == 1 {
                return Found::Pair(first, end, next);
            }
            Found::Other(next)
        }
        Next::Undecided => Found::Undecided,
        Next::TooLong => Found::Stops(20, end),
        Next::Comma => {
            let comma = first_comma(commas, first, end);
            outside_quotes(s, ends, end + 1, false, end + 1, commas + 1, comma)
        }
        Next::Quote => {
            if end == at {
                return inside_quotes(s, ends, end + 1, opened, commas, first);
            }
            Found::Stops(35, end)
        }
        Next::Other => {
            if quoted {
                return Found::Stops(26, end);
            }
            Found::Stops(35, end)
        }
    }
}

// From an offset on, inside the quotes of the field that begins at `opened`.
#[cycle(inside_quotes_outside_quotes)]
fn inside_quotes(
    s: &[u8],
    ends: bool,
    at: usize,
    opened: usize,
    commas: usize,
    first: usize,
) -> Found
    requires { InsideAt s.now at opened commas first }
    ensures { Finds ends s.now result }
{
    let end = run_end(s, at, true);
    if end == s.len() {
        if ends {
            return Found::Stops(25, opened);
        }
        return Found::Undecided;
    }
    let long = LONGEST_RECORD <= end;
    if long {
        return Found::Stops(20, end);
    }
    if s[end] == b'"' {
        return outside_quotes(s, ends, end + 1, true, opened, commas, first);
    }
    Found::Stops(35, end)
}

// ---- the usual record: two fields, each of text, or of text in quotes

// Where a usual field ends, which begins at an offset; of any other quoted field nothing is taken.
fn usual_end(s: &[u8], from: usize) -> usize
    requires { from ≤ length s.now }
    ensures { EndsUsual s.now from result }
{
    if from == s.len() {
        return from;
    }
    if s[from] == b'"' {
        return quoted_end(s, from);
    }
    run_end(s, from, false)
}

fn quoted_end(s: &[u8], from: usize) -> usize
    requires { QuoteAt s.now from }
    ensures { EndsUsual s.now from result }
{
    let end = run_end(s, from + 1, false);
    if end == s.len() {
        return from;
    }
    if s[end] == b'"' {
        return end + 1;
    }
    from
}

// Of a usual record the comma between the fields, the offset after them, and that after the line end.
fn usual_pair(s: &[u8], ends: bool) -> Option<(usize, usize, usize)>
    ensures { FindsUsual ends s.now result }
{
    let comma = usual_end(s, 0);
    if comma == s.len() {
        return None;
    }
    if s[comma] == b',' {
        let end = usual_end(s, comma + 1);
        if LONGEST_RECORD < end {
            return None;
        }
        if let Next::Ends(next) = next_outside(s, ends, end) {
            return Some((comma, end, next));
        }
    }
    None
}

// ---- any record

// The record at the front of the bytes. A line buffer gets its line, where it has two fields.
pub fn read_record(s: &[u8], ends: bool, line: &mut [u8; LONGEST_RECORD]) -> Scan
    ensures { Scans ends s.now line.old line.new result }
{
    if let Some((comma, end, next)) = usual_pair(s, ends) {
        let size = put_usual_line(s, comma, end, line);
        return Scan::Entry(size, next);
    }
    match outside_quotes(s, ends, 0, false, 0, 0, 0) {
        Found::Pair(comma, end, next) => {
            let size = put_line(s, comma, end, line);
            Scan::Entry(size, next)
        }
        Found::Other(next) => Scan::Miscounted(next),
        Found::Stops(number, place) => Scan::Stops(number, place),
        Found::Undecided => Scan::Undecided,
    }
}
