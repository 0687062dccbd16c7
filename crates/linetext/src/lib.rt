// A line of the listing: the numbers of a day or of a refusal in columns, written into a lent buffer. Each public call writes its text and
// tells the offset after it, or says that it has no room and leaves the buffer as it was.
// For the crates above.

#![tactic(auto)]

ghost use Rattle.std.specs.Prelude.{◌≡◌, [], ◌∷◌, false, ◌+◌, ◌<◌, ◌≤◌, length, pos};
ghost use Rattle.whole.specs.Text.{tab};
ghost use Rattle.writer.specs.Laws.{PutText};
ghost use Rattle.writer.specs.Promise.{digits_of, Writes, Signs};
ghost use Rattle.linetext.specs.Line.{longest_line};
ghost use Rattle.linetext.specs.Promise.{LineOut};
ghost use Rattle.linetext.specs.Laws.{Text, Column, CellsOf, last_letters, LinePut};

use refusals::Refusal;
use writer::buffer;

// The longest line of output: six columns of at most 20 digits, a sign and the byte after them, two letters and a newline.
pub const LONGEST_LINE: usize = 135;

// The numbers in the line of a day, whatever they are: that they are those of one day is said where they come from. The style is two letters as one
// number, the first and 256 times the second.
#[derive(Clone, Copy)]
pub struct LineNumbers {
    pub jdn: i64,
    pub year: i64,
    pub ordinal: u64,
    pub month: u64,
    pub day: u64,
    pub weekday: u64,
    pub style: u64,
}

// ---- numbers in columns. Each function writes from `at` on, and answers the offset after what it wrote.

fn put_byte(out: &mut [u8], at: usize, b: u8) -> usize
    requires { at < length out.old }
    ensures { PutText out.old at (b ∷ []) out.new result }
{
    out[at] = b;
    at + 1
}

// The last digit of n.
fn put_digit(out: &mut [u8], at: usize, n: u64) -> usize
    requires { at < length out.old }
    ensures { PutText out.old at (digits_of 1 n) out.new result }
{
    put_byte(out, at, (48 + n % 10) as u8)
}

// Two digits as a number of two bytes, which the compiler stores at once.
fn put_two(out: &mut [u8], at: usize, n: u64) -> usize
    requires { (at + 2 ≤ length out.old) × (n < 100) }
    ensures { PutText out.old at (digits_of 2 n) out.new result }
{
    let tens = 103 * n / 1024;
    let word = 12_336 + 256 * n - 2_559 * tens;
    let next = put_byte(out, at, (word % 256) as u8);
    put_byte(out, next, (word / 256) as u8)
}

fn put_three(out: &mut [u8], at: usize, n: u64) -> usize
    requires { at + 3 ≤ length out.old }
    ensures { PutText out.old at (digits_of 3 n) out.new result }
{
    let next = put_digit(out, at, n / 100);
    put_two(out, next, n % 100)
}

fn put_four(out: &mut [u8], at: usize, n: u64) -> usize
    requires { (at + 4 ≤ length out.old) × (n < 10000) }
    ensures { PutText out.old at (digits_of 4 n) out.new result }
{
    let next = put_two(out, at, n / 100);
    put_two(out, next, n % 100)
}

// A number below ten thousand.
fn put_small(out: &mut [u8], at: usize, n: u64) -> usize
    requires { (at + 4 ≤ length out.old) × (n < 10000) }
    ensures { Text (Signs false n) 4 out.old at out.new result }
{
    if 1000 <= n {
        return put_four(out, at, n);
    }
    if 100 <= n {
        return put_three(out, at, n);
    }
    if 10 <= n {
        return put_two(out, at, n);
    }
    put_digit(out, at, n)
}

// A number of any size, whose digits `writer` counts first.
fn put_large(out: &mut [u8], at: usize, n: u64) -> usize
    requires { at + 20 ≤ length out.old }
    ensures { Text (Signs false n) 20 out.old at out.new result }
{
    writer::put_at(out, at, false, n).unwrap_or(at)
}

// Most numbers of a listing have fewer than nine digits.
fn put_natural(out: &mut [u8], at: usize, n: u64) -> usize
    requires { at + 20 ≤ length out.old }
    ensures { Text (Signs false n) 20 out.old at out.new result }
{
    if n < 10_000 {
        return put_small(out, at, n);
    }
    if n < 100_000_000 {
        let next = put_small(out, at, n / 10_000);
        return put_four(out, next, n % 10_000);
    }
    put_large(out, at, n)
}

// Ordinals, months, days and weekdays have at most three digits.
#[tactic(auto, using(crate::specs::Laws::put_of_two))]
fn put_few(out: &mut [u8], at: usize, n: u64) -> usize
    requires { at + 20 ≤ length out.old }
    ensures { Text (Signs false n) 20 out.old at out.new result }
{
    if n < 10 {
        return put_digit(out, at, n);
    }
    if n < 100 {
        return put_two(out, at, n);
    }
    if n < 1000 {
        return put_three(out, at, n);
    }
    put_natural(out, at, n)
}

// A magnitude, with a `-` before it where the number is negative.
fn put_with_sign(out: &mut [u8], at: usize, negative: bool, n: u64) -> usize
    requires { at + 21 ≤ length out.old }
    ensures { Text (Signs negative n) 21 out.old at out.new result }
{
    if negative {
        let next = put_byte(out, at, b'-');
        return put_natural(out, next, n);
    }
    put_natural(out, at, n)
}

// A number without a sign, and the byte after it.
fn put_count(out: &mut [u8], at: usize, n: u64, after: u8) -> usize
    requires { at + 22 ≤ length out.old }
    ensures { Column (pos n) after out.old at out.new result }
{
    let next = put_few(out, at, n);
    put_byte(out, next, after)
}

// A number with its sign, and the byte after it.
fn put_integer(out: &mut [u8], at: usize, x: i64, after: u8) -> usize
    requires { at + 22 ≤ length out.old }
    ensures { Column x after out.old at out.new result }
{
    let negative = whole::is_negative(x);
    let n = whole::magnitude(x);
    let next = put_with_sign(out, at, negative, n);
    put_byte(out, next, after)
}

// Most years have at most four digits and no sign, and are written in line.
fn put_year(out: &mut [u8], at: usize, x: i64, after: u8) -> usize
    requires { at + 22 ≤ length out.old }
    ensures { Column x after out.old at out.new result }
{
    if whole::is_negative(x) {
        return put_integer(out, at, x, after);
    }
    let n = whole::magnitude(x);
    if n < 10_000 {
        let next = put_small(out, at, n);
        return put_byte(out, next, after);
    }
    put_integer(out, at, x, after)
}

// ---- a line of output, with its newline

// Two letters, and the newline.
fn put_style(out: &mut [u8], at: usize, style: u64) -> usize
    requires { at + 3 ≤ length out.old }
    ensures { PutText out.old at (last_letters style) out.new result }
{
    let second = put_byte(out, at, (style % 256) as u8);
    let third = put_byte(out, second, (style / 256 % 256) as u8);
    put_byte(out, third, b'\n')
}

// The last five columns of a day.
fn put_last_five(
    out: &mut [u8],
    at: usize,
    ordinal: u64,
    month: u64,
    day: u64,
    weekday: u64,
    style: u64,
) -> usize
    requires { at + 91 ≤ length out.old }
    ensures { CellsOf (tab ∷ last_letters style) (pos ordinal ∷ pos month ∷ pos day ∷ pos weekday ∷ []) 91 out.old at out.new result }
{
    let second = put_count(out, at, ordinal, b'\t');
    let third = put_count(out, second, month, b'\t');
    let fourth = put_count(out, third, day, b'\t');
    let fifth = put_count(out, fourth, weekday, b'\t');
    put_style(out, fifth, style)
}

// The line of a day.
fn put_numbers(out: &mut [u8], at: usize, numbers: LineNumbers) -> usize
    requires { at + longest_line ≤ length out.old }
    ensures { LinePut (Ok numbers) out.old at out.new result }
{
    let second = put_integer(out, at, numbers.jdn, b'\t');
    let third = put_year(out, second, numbers.year, b'\t');
    put_last_five(
        out,
        third,
        numbers.ordinal,
        numbers.month,
        numbers.day,
        numbers.weekday,
        numbers.style,
    )
}

// The line of a refusal, with its mark.
fn put_refusal(out: &mut [u8], at: usize, why: Refusal) -> usize
    requires { at + longest_line ≤ length out.old }
    ensures { LinePut (Err why) out.old at out.new result }
{
    let mark = put_byte(out, at, b'!');
    let number = put_byte(out, mark, b'\t');
    let place = put_count(out, number, why.number as u64, b'\t');
    let value = put_count(out, place, why.place as u64, b'\t');
    put_integer(out, value, why.value, b'\n')
}

fn put_either(out: &mut [u8], at: usize, line: Result<LineNumbers, Refusal>) -> usize
    requires { at + longest_line ≤ length out.old }
    ensures { LinePut line out.old at out.new result }
{
    match line {
        Ok(numbers) => put_numbers(out, at, numbers),
        Err(why) => put_refusal(out, at, why),
    }
}

// ---- a line with or without room for it

// Where there may be no room, the text is made in a buffer of its own first, so that a buffer too short for it stays as it was.
fn put_apart(
    out: &mut [u8],
    at: usize,
    line: Result<LineNumbers, Refusal>,
) -> Result<usize, Refusal>
    ensures { Writes (LineOut line) out.old at out.new result }
{
    let mut apart = [0u8; LONGEST_LINE];
    let size = put_either(&mut apart, 0, line);
    buffer::copy_text(out, at, &apart[..size]).ok_or(refusals::refusal_with(18, size as u32))
}

// The line, with its newline.
pub fn put_line(
    out: &mut [u8],
    at: usize,
    line: Result<LineNumbers, Refusal>,
) -> Result<usize, Refusal>
    ensures { Writes (LineOut line) out.old at out.new result }
{
    if buffer::has_room(out.len(), at, LONGEST_LINE) {
        let end = put_either(out, at, line);
        return Ok(end);
    }
    put_apart(out, at, line)
}
