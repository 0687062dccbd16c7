// Bytes put into a buffer that is lent. Each call answers for any buffer and any offset.

ghost use Rattle.std.specs.Prelude.{◌≡◌, ◌+◌, ◌≤◌, length, leb};
ghost use Rattle.writer.specs.Promise.{Copies};
ghost use Rattle.writer.specs.Laws.{PutText};

// Whether a text of `size` bytes has room from `at` on.
pub fn has_room(len: usize, at: usize, size: usize) -> bool
    ensures { result ≡ leb (at + size) len }
{
    if len < at {
        return false;
    }
    size <= len - at
}

// All of a text.
fn put_bytes(out: &mut [u8], at: usize, text: &[u8]) -> usize
    requires { at + length text.now ≤ length out.old }
    ensures { PutText out.old at text.now out.new result }
{
    let end = at + text.len();
    out[at..end].copy_from_slice(text);
    end
}

// Bytes as they stand: the answer tells the offset after them, or there is no room.
pub fn copy_text(out: &mut [u8], at: usize, text: &[u8]) -> Option<usize>
    ensures { Copies text.now out.old at out.new result }
{
    if has_room(out.len(), at, text.len()) {
        Some(put_bytes(out, at, text))
    } else {
        None
    }
}
