// The search for a byte.
// For the crates above.

#![tactic(auto)]

ghost use Rattle.std.specs.Prelude.{◌+◌, ◌<◌, ◌≤◌, length, ◌≡◌, ◌==◌, position};
ghost use Rattle.bytesearch.specs.Promise.{UpTo};
ghost use Rattle.bytesearch.specs.Laws.{InFour, Eights, Going, Sixteens};

// The offset of the first `b` from `from` on, or of the end.
fn next_to(s: &[u8], from: usize, b: u8) -> usize
    ensures { UpTo b s.now from result }
{
    let mut i = from;
    while i < s.len() {
        if s[i] == b {
            return i;
        }
        i += 1;
    }
    i
}

// Where the first `b` is.
fn first(s: &[u8], b: u8) -> Option<usize>
    ensures { result ≡ position (λ x. x == b) s.now }
{
    s.iter().position(|x| *x == b)
}

// How many of the four bytes from `at` on come before the first `b`.
fn in_four(s: &[u8], at: usize, b: u8) -> usize
    requires { at + 4 ≤ length s.now }
    ensures { InFour b s.now at result }
{
    first(&s[at..at + 4], b).unwrap_or(4)
}

// Every offset before this one has eight bytes from there on.
fn eights_end(len: usize) -> usize
    ensures { Eights len result }
{
    len.saturating_sub(7)
}

// The offset of the first `b` from `from` on, or of the end; `from` itself where that lies past the end. Eight bytes are looked at together.
pub fn by_eights(s: &[u8], from: usize, b: u8) -> usize
    ensures { UpTo b s.now from result }
{
    let end = eights_end(s.len());
    let mut i = from;
    while i < end {
        let near = in_four(s, i, b);
        if near < 4 {
            return i + near;
        }
        let far = in_four(s, i + 4, b);
        if far < 4 {
            return i + 4 + far;
        }
        i += 8;
    }
    next_to(s, i, b)
}

// ---- sixteen bytes at once, for long texts

// 0 where the byte is not `b`.
fn one(x: u8, b: u8) -> u8
    ensures { result ≡ 0 → x ≡ b → ⊥ }
{
    u8::from(x == b)
}

// 0 where `b` is not among the four bytes from `at` on.
fn any_four(s: &[u8], at: usize, b: u8) -> u8
    requires { at + 4 ≤ length s.now }
    ensures { result ≡ 0 → Going b s.now at (at + 4) }
{
    one(s[at], b) | one(s[at + 1], b) | one(s[at + 2], b) | one(s[at + 3], b)
}

// 0 where it is not among the sixteen. The compiler makes one comparison of them.
fn any_sixteen(s: &[u8], at: usize, b: u8) -> u8
    requires { at + 16 ≤ length s.now }
    ensures { result ≡ 0 → Going b s.now at (at + 16) }
{
    any_four(s, at, b) | any_four(s, at + 4, b) | any_four(s, at + 8, b) | any_four(s, at + 12, b)
}

// Every offset before this one has sixteen bytes from there on.
fn sixteens_end(len: usize) -> usize
    ensures { Sixteens len result }
{
    len.saturating_sub(15)
}

// The same as `by_eights`, for a byte that may be far: sixteen are looked at together.
pub fn up_to(s: &[u8], from: usize, b: u8) -> usize
    ensures { UpTo b s.now from result }
{
    let end = sixteens_end(s.len());
    let mut i = from;
    while i < end {
        if any_sixteen(s, i, b) != 0 {
            return by_eights(s, i, b);
        }
        i += 16;
    }
    by_eights(s, i, b)
}
