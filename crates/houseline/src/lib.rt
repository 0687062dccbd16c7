// A line of a catalogue: a name, a tab and a whole number. Here is its form alone: whether it is such a line, where its name ends, and its number.
// For the crates above: all that is public.

#![tactic(auto)]

ghost use Rattle.std.specs.Prelude.{◌≡◌, ◌+◌, ◌<◌, ◌≤◌, length, take, drop};
ghost use Rattle.whole.specs.Whether.{Whether};
ghost use Rattle.houseline.specs.Form.{Letter, Name};
ghost use Rattle.houseline.specs.Promise.{Reads};
ghost use Rattle.houseline.specs.Laws.{Lettered, DigitsFrom, Numerals, IsWritten, Outcome};

use refusals::Refusal;
use textlines::LONGEST_READ;

// A line that has the form: where its name ends, and its number.
#[derive(Clone, Copy)]
pub struct House {
    pub name_end: usize,
    pub number: i32,
}

// Why a line gives no calendar: its number is outside 32 bits, with its refusal as a number in the line; or it is no such line.
#[derive(Clone, Copy)]
pub enum NoHouse {
    Outside(Refusal),
    Malformed,
}

fn is_letter(b: u8) -> bool
    ensures { Whether (Letter b) result }
{
    matches!(b, b'0'..=b'9' | b'A'..=b'Z' | b'_')
}

fn only_letters(line: &[u8], end: usize) -> bool
    requires { end ≤ length line.now }
    ensures { Whether (Lettered line.now end) result }
{
    line[..end].iter().all(|b| is_letter(*b))
}

fn is_name(line: &[u8], end: usize) -> bool
    requires { end ≤ length line.now }
    ensures { Whether (Name (take end line.now)) result }
{
    0 < end && end <= nametable::NAME && only_letters(line, end)
}

// The place after a `-`, if one stands there.
fn after_dash(line: &[u8], at: usize) -> usize
    requires { at ≤ length line.now }
    ensures { (DigitsFrom (drop at line.now) (drop result line.now)) × (result ≤ length line.now) }
{
    if at < line.len() && line[at] == b'-' {
        return at + 1;
    }
    at
}

// One digit or more, and nothing else, up to the end.
fn only_digits(line: &[u8], from: usize) -> bool
    requires { from ≤ length line.now }
    ensures { Whether (Numerals (drop from line.now)) result }
{
    if line.len() <= from {
        return false;
    }
    line[from..].iter().all(|b| b.is_ascii_digit())
}

fn is_number(line: &[u8], at: usize) -> bool
    requires { at ≤ length line.now }
    ensures { Whether (IsWritten (drop at line.now)) result }
{
    only_digits(line, after_dash(line, at))
}

// The name ends at `end`, and the number is written after the tab there.
fn house_of(line: &[u8], end: usize) -> Result<House, NoHouse>
    requires { (end < length line.now) × (IsWritten (drop (end + 1) line.now)) }
    ensures { Outcome (drop (end + 1) line.now) end result }
{
    let (number, _) = numbertext::signed_at(line, end + 1).map_err(NoHouse::Outside)?;
    Ok(House {
        name_end: end,
        number,
    })
}

pub fn read_line(line: &[u8]) -> Result<House, NoHouse>
    ensures { Reads line.now result }
{
    if LONGEST_READ < line.len() {
        return Err(NoHouse::Malformed);
    }
    let tab = bytesearch::by_eights(line, 0, b'\t');
    if line.len() <= tab {
        return Err(NoHouse::Malformed);
    }
    if is_name(line, tab) && is_number(line, tab + 1) {
        return house_of(line, tab);
    }
    Err(NoHouse::Malformed)
}
