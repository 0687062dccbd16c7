// Numbers and year-month-day texts, written into a buffer that is lent. Each call answers for any buffer and any offset.
// For users: `write_ymd`, `put_number` and `put_whole`. For the crates above: all else.
#![tactic(auto)]

pub mod buffer;
pub mod decimals;

ghost use Rattle.std.specs.Prelude.{◌≡◌, true, ◌+◌, ◌≤◌, length};
ghost use Rattle.writer.specs.Promise.{Writes, PutNumber, PutWhole, WriteYmd, digits_of, whole_text, Signs};
ghost use Rattle.writer.specs.Laws.{PutText};
ghost use Rattle.writer.specs.Laws.{whole_width};

use refusals::Refusal;

// The last k digits of n from `at` on, and the offset after them.
fn put_digits(buf: &mut [u8], at: usize, n: u64, k: usize) -> usize
    requires { at + k ≤ length buf.old }
    ensures { PutText buf.old at (digits_of k n) buf.new result }
{
    let mut rest = n;
    for i in (0..k).rev() {
        buf[at + i] = b'0' + (rest % 10) as u8;
        rest /= 10;
    }
    at + k
}

// A `-` and the last k digits of n, as in a negative number, or in a date before the month and the day.
fn put_dashed(buf: &mut [u8], at: usize, n: u64, k: usize) -> usize
    requires { at + 1 + k ≤ length buf.old }
    ensures { PutText buf.old at (whole_text true k n) buf.new result }
{
    buf[at] = b'-';
    put_digits(buf, at + 1, n, k)
}

// A number with its sign: k is the width of its magnitude n.
fn put_signed(buf: &mut [u8], at: usize, negative: bool, n: u64, k: usize) -> usize
    requires { at + whole_width negative k ≤ length buf.old }
    ensures { PutText buf.old at (whole_text negative k n) buf.new result }
{
    if negative {
        put_dashed(buf, at, n, k)
    } else {
        put_digits(buf, at, n, k)
    }
}

fn signed_width(negative: bool, k: usize) -> usize
    requires { k ≤ 20 }
    ensures { (result ≡ whole_width negative k) × (result ≤ 21) }
{
    if negative { k + 1 } else { k }
}

// A sign and a magnitude, with no padding, from `at` on: the answer tells the offset after it.
pub fn put_at(buf: &mut [u8], at: usize, negative: bool, n: u64) -> Result<usize, Refusal>
    ensures { Writes (Signs negative n) buf.old at buf.new result }
{
    let k = decimals::width(n);
    let size = signed_width(negative, k);
    if buffer::has_room(buf.len(), at, size) {
        Ok(put_signed(buf, at, negative, n, k))
    } else {
        Err(refusals::refusal_with(18, size as u32))
    }
}

// A number likewise.
pub fn put_number(buf: &mut [u8], at: usize, n: u32) -> Result<usize, Refusal>
    ensures { PutNumber n buf.old at buf.new result }
{
    put_at(buf, at, false, n as u64)
}

// A whole number, with a `-` where it is negative.
pub fn put_whole(buf: &mut [u8], at: usize, x: i64) -> Result<usize, Refusal>
    ensures { PutWhole x buf.old at buf.new result }
{
    let negative = whole::is_negative(x);
    let n = whole::magnitude(x);
    put_at(buf, at, negative, n)
}

// The text of a date at the front of the buffer: the answer tells its length.
pub fn write_ymd(buf: &mut [u8], year: i32, month: u32, day: u32) -> Result<usize, Refusal>
    ensures { WriteYmd year month day buf.old buf.new result }
{
    let x = whole::widened(year);
    let negative = whole::is_negative(x);
    let n = whole::magnitude(x);
    let ky = decimals::width(n);
    let m = month as u64;
    let km = decimals::width(m);
    let d = day as u64;
    let kd = decimals::width(d);
    let size = signed_width(negative, ky) + km + kd + 2;
    if buf.len() < size {
        return Err(refusals::refusal_with(18, size as u32));
    }
    let second = put_signed(buf, 0, negative, n, ky);
    let third = put_dashed(buf, second, m, km);
    let end = put_dashed(buf, third, d, kd);
    Ok(end)
}
