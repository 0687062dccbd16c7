// A pattern filled with numbers, a name and a text. Each function writes from `at` on, where it has room, and answers the offset after what it wrote.

ghost use Rattle.std.specs.Prelude.{◌≡◌, [], ◌∷◌, ◌+◌, ◌≤◌, ◌<◌, length, drop};
ghost use Rattle.writer.specs.Laws.{PutText};
ghost use Rattle.linetext.specs.Laws.{Text};
ghost use Rattle.explaining.specs.Patterns.{shown_byte_value, shown, cost_of, cost, Filled};
ghost use Rattle.explaining.specs.Laws.{Decimals, Piece, used_after_value};

use writer::buffer;

pub fn put_byte(out: &mut [u8], at: usize, b: u8) -> usize
    requires { at < length out.old }
    ensures { PutText out.old at (b ∷ []) out.new result }
{
    out[at] = b;
    at + 1
}

// Bytes as they stand.
pub fn put_text(out: &mut [u8], at: usize, text: &[u8]) -> usize
    requires { at + length text.now ≤ length out.old }
    ensures { PutText out.old at text.now out.new result }
{
    buffer::copy_text(out, at, text).unwrap_or(at)
}

fn shown_byte(b: u8) -> u8
    ensures { result ≡ shown_byte_value b }
{
    match b {
        b' '..=b'~' => b,
        _ => b'?',
    }
}

// Bytes, with a `?` for each that is no letter, sign or space of ASCII.
pub fn put_shown(out: &mut [u8], at: usize, text: &[u8]) -> usize
    requires { at + length text.now ≤ length out.old }
    ensures { PutText out.old at (shown text.now) out.new result }
{
    for (i, b) in text.iter().enumerate() {
        out[at + i] = shown_byte(*b);
    }
    at + text.len()
}

pub fn put_number(out: &mut [u8], at: usize, x: i64) -> usize
    requires { at + 21 ≤ length out.old }
    ensures { Text (Decimals x) 21 out.old at out.new result }
{
    let negative = whole::is_negative(x);
    let n = whole::magnitude(x);
    writer::put_at(out, at, negative, n).unwrap()
}

// What stands for one byte of a pattern, where `used` numbers are used up.
fn put_piece(
    out: &mut [u8],
    at: usize,
    b: u8,
    numbers: &[i64],
    used: usize,
    name: &[u8],
    text: &[u8],
) -> usize
    requires { at + cost_of (length name.now) (length text.now) b ≤ length out.old }
    ensures { Text (Piece name.now text.now (drop used numbers.now) b) (cost_of (length name.now) (length text.now) b) out.old at out.new result }
{
    match b {
        b'#' => {
            if used < numbers.len() {
                put_number(out, at, numbers[used])
            } else {
                at
            }
        }
        b'@' => put_shown(out, at, name),
        b'~' => put_shown(out, at, text),
        _ => {
            out[at] = b;
            at + 1
        }
    }
}

fn used_after(b: u8, used: usize) -> usize
    requires { used < 18_446_744_073_709_551_615 }
    ensures { result ≡ used_after_value b used }
{
    if b == b'#' {
        return used + 1;
    }
    used
}

// A whole pattern.
pub fn fill(
    out: &mut [u8],
    at: usize,
    pattern: &[u8],
    numbers: &[i64],
    name: &[u8],
    text: &[u8],
) -> usize
    requires { at + cost (length name.now) (length text.now) pattern.now ≤ length out.old }
    ensures { Text (Filled name.now text.now pattern.now numbers.now) (cost (length name.now) (length text.now) pattern.now) out.old at out.new result }
{
    let mut end = at;
    let mut used: usize = 0;
    for b in pattern {
        end = put_piece(out, end, *b, numbers, used, name, text);
        used = used_after(*b, used);
    }
    end
}
