// What could have stood at a place, in words. Each function writes from `at` on, where it has room, and answers the offset after what it wrote.

ghost use Rattle.std.specs.Prelude.{◌+◌, ◌≤◌, length};
ghost use Rattle.linetext.specs.Laws.{Text};
ghost use Rattle.explaining.specs.Wording.{digit_words, further, choices};
ghost use Rattle.explaining.specs.Laws.{Is};

use crate::fill;
use expected::Expected;

// The first so many digits.
fn put_digits(out: &mut [u8], at: usize, digits: u32) -> usize
    requires { at + 14 ≤ length out.old }
    ensures { Text (Is (digit_words digits)) 14 out.old at out.new result }
{
    if digits == 0 {
        return at;
    }
    if digits == 1 {
        return fill::put_text(out, at, b"the digit 0");
    }
    if digits < 10 {
        let last = fill::put_text(out, at, b"a digit 0 to ");
        return fill::put_byte(out, last, (47 + digits) as u8);
    }
    fill::put_text(out, at, b"a digit")
}

// A further choice, where it holds.
fn put_further(out: &mut [u8], at: usize, named: bool, holds: bool, word: &[u8]) -> usize
    requires { at + (4 + length word.now) ≤ length out.old }
    ensures { Text (Is (further named holds word.now)) (4 + length word.now) out.old at out.new result }
{
    if holds {
        if named {
            let next = fill::put_text(out, at, b" or ");
            return fill::put_text(out, next, word);
        }
        return fill::put_text(out, at, word);
    }
    at
}

// All of them.
pub fn put_choices(out: &mut [u8], at: usize, e: Expected) -> usize
    requires { at + 39 ≤ length out.old }
    ensures { Text (Is (choices e)) 39 out.old at out.new result }
{
    let first = put_digits(out, at, e.digits);
    let digits = 0 < e.digits;
    let second = put_further(out, first, digits, e.dash, b"\"-\"");
    let signs = digits || e.dash;
    let third = put_further(out, second, signs, e.plus, b"\"+\"");
    put_further(out, third, signs || e.plus, e.ends, b"the end")
}
