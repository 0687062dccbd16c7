// Numbers in text: what stands at an offset of the bytes. A number is read here and nowhere else; its digits are read by `digits`.
// Each call answers for any bytes and any offset.
// For the crates above: the reads at an offset. For users there is `Reader`.

#![tactic(auto)]

ghost use Rattle.std.specs.Prelude.{◌≡◌, drop};
ghost use Rattle.numbertext.specs.Promise.{NumberAt, SignedAt, DashAt, EndAt};
ghost use Rattle.numbertext.specs.Reading.{ended_at_value, signed_run_value, limit_of, way_out_value};

use digits::NoRun;
use refusals::{Refusal, byte_refusal, refusal_at};

// ---- what stands at a place

// The text ends where something is expected, or the place is past it.
fn ended_at(s: &[u8], at: usize, number: u32) -> Refusal
    ensures { result ≡ ended_at_value number s.now at }
{
    if s.len() < at {
        return refusal_at(16, 0, 0);
    }
    refusal_at(number, at, 0)
}

// An unsigned number of 32 bits, and the place after it.
pub fn number_at(s: &[u8], at: usize) -> Result<(u32, usize), Refusal>
    ensures { NumberAt s.now at result }
{
    match digits::run_at(s, at, 4_294_967_295) {
        Ok((n, next)) => Ok((n as u32, next)),
        Err(NoRun::Over(i)) => Err(refusal_at(11, i, 0)),
        Err(NoRun::Empty) if at < s.len() => Err(byte_refusal(9, at, s[at])),
        Err(NoRun::Empty) => Err(ended_at(s, at, 8)),
    }
}

// The greatest magnitude that fits signed 32 bits.
fn limit(negative: bool) -> u32
    ensures { result ≡ limit_of negative }
{
    if negative {
        2_147_483_648
    } else {
        2_147_483_647
    }
}

// Outside 32 bits: below them after a `-`, and above them without one.
fn way_out(negative: bool) -> u32
    ensures { result ≡ way_out_value negative }
{
    if negative { 28 } else { 11 }
}

// The digits of a signed number stand at `first`; `none` is the refusal where there is no digit. A magnitude that the run tells always fits.
fn signed_run(
    s: &[u8],
    negative: bool,
    first: usize,
    none: Refusal,
) -> Result<(i32, usize), Refusal>
    ensures { result ≡ signed_run_value negative first none (drop first s.now) }
{
    match digits::run_at(s, first, limit(negative)) {
        Ok((n, next)) => match whole::signed(negative, n) {
            Ok(y) => Ok((y, next)),
            Err(_) => Err(none),
        },
        Err(NoRun::Over(i)) => Err(refusal_at(way_out(negative), i, 0)),
        Err(NoRun::Empty) => Err(none),
    }
}

// A number of signed 32 bits, with a sign before it or none, and the place after it.
pub fn signed_at(s: &[u8], at: usize) -> Result<(i32, usize), Refusal>
    ensures { SignedAt s.now at result }
{
    if at < s.len() {
        let b = s[at];
        if b == b'-' {
            return signed_run(s, true, at + 1, refusal_at(10, at, 0));
        }
        if b == b'+' {
            return signed_run(s, false, at + 1, refusal_at(10, at, 0));
        }
        return signed_run(s, false, at, byte_refusal(9, at, b));
    }
    Err(ended_at(s, at, 8))
}

// A `-`: the place after it.
pub fn dash_at(s: &[u8], at: usize) -> Result<usize, Refusal>
    ensures { DashAt s.now at result }
{
    if at < s.len() {
        let b = s[at];
        if b == b'-' {
            return Ok(at + 1);
        }
        return Err(byte_refusal(12, at, b));
    }
    Err(ended_at(s, at, 13))
}

// The end of the text.
pub fn end_at(s: &[u8], at: usize) -> Result<(), Refusal>
    ensures { EndAt s.now at result }
{
    if s.len() < at {
        return Err(refusal_at(16, 0, 0));
    }
    if s.len() <= at {
        return Ok(());
    }
    Err(byte_refusal(14, at, s[at]))
}
