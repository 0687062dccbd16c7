// An input that is one piece after the other: how many bytes a piece has, a newline, the bytes, a newline.
// For programs.

#![tactic(auto)]

ghost use Rattle.std.specs.Prelude.{◌+◌, ◌<◌, ◌≤◌, length};

// The bytes of a piece, and where the next one begins.
#[derive(Clone, Copy)]
pub struct Piece {
    pub from: usize,
    pub to: usize,
    pub next: usize,
}

// A piece of `size` bytes, with a newline after them; nothing at the end of the input where there are fewer.
fn piece_from(from: usize, size: usize, end: usize) -> Piece
    requires { from ≤ end }
    ensures order { result.from ≤ result.to }
    ensures within { result.to ≤ end }
    ensures onward { from ≤ result.next }
{
    if size < end - from {
        let to = from + size;
        return Piece {
            from,
            to,
            next: to + 1,
        };
    }
    Piece {
        from: end,
        to: end,
        next: end,
    }
}

// The piece whose size stands at a place of the input; nothing at its end where no number and newline stand there.
pub fn piece_at(input: &[u8], at: usize) -> Piece
    ensures order { result.from ≤ result.to }
    ensures within { result.to ≤ length input.now }
    ensures onward { at ≤ length input.now → at ≤ result.next }
    ensures further { at < length input.now → at < result.next }
{
    if let Ok((size, after)) = numbertext::number_at(input, at) {
        if at < after && after < input.len() {
            return piece_from(after + 1, size as usize, input.len());
        }
    }
    piece_from(input.len(), 0, input.len())
}
