// Digits in text: the run of digits at an offset of the bytes, and one or two of them. Each call answers for any bytes and any offset.
// For the crates above.

#![tactic(auto)]

ghost use Rattle.std.specs.Prelude.{◌≡◌, drop};
ghost use Rattle.digits.specs.Promise.{is_digit_value, digit_of, pair_of, run_of, ends_of};

// ---- a run of digits

// `0` is 48, and `9` is 57.
fn is_digit(b: u64) -> bool
    ensures { result ≡ is_digit_value b }
{
    48 <= b && b <= 57
}

// Why the digits at a place write no number: there are none; or they leave the range of the field, at this place first.
#[derive(Clone, Copy)]
pub enum NoRun {
    Empty,
    Over(usize),
}

// A run that goes from `at` to i and has written n.
fn run_ends(n: u64, at: usize, i: usize) -> Result<(u64, usize), NoRun>
    ensures { result ≡ ends_of n at i }
{
    if i == at {
        Err(NoRun::Empty)
    } else {
        Ok((n, i))
    }
}

// The number that the digits at a place write, and the place after them. The range is 0 to `limit`. A number only grows with its digits, so the first
// digit that takes it out of the range decides.
#[tactic(auto, using(crate::specs::Runs::along_over, crate::specs::Runs::along_step, crate::specs::Runs::digit_is))]
pub fn run_at(s: &[u8], at: usize, limit: u32) -> Result<(u64, usize), NoRun>
    ensures { result ≡ run_of limit at (drop at s.now) }
{
    let most = limit as u64;
    let mut n: u64 = 0;
    let mut i = at;
    while i < s.len() {
        let b = s[i] as u64;
        if is_digit(b) {
            let next = i + 1;
            n = n * 10 + (b - 48);
            if most < n {
                return Err(NoRun::Over(i));
            }
            i = next;
        } else {
            return run_ends(n, at, i);
        }
    }
    run_ends(n, at, i)
}

// ---- one digit and two, without a refusal: for a reader that goes the long way where they do not stand

// The byte at a place less 48, which is `0`; below that it wraps. So it is below 10 exactly where a digit stands there, and one test tells.
// 10 where the bytes end.
pub fn digit_at(s: &[u8], at: usize) -> u32
    ensures { result ≡ digit_of s.now at }
{
    if at >= s.len() {
        return 10;
    }
    let b = s[at];
    std::num::wrapping_sub_u32(b as u32, 48)
}

// The number that two digits write, or 100 where one of the two does not stand there.
#[tactic(auto, using(crate::specs::Few::pair_first, crate::specs::Few::pair_second, crate::specs::Few::pair_yes))]
pub fn pair_at(s: &[u8], at: usize) -> u32
    ensures { result ≡ pair_of s.now at }
{
    let tens = digit_at(s, at);
    if 9 < tens {
        return 100;
    }
    let ones = digit_at(s, at + 1);
    if 9 < ones {
        return 100;
    }
    tens * 10 + ones
}
