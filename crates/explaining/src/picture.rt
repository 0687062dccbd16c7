// The picture of a text at fault: the text, and under it a mark at the place.

ghost use Rattle.std.specs.Prelude.{◌+◌, ◌≤◌, length};
ghost use Rattle.writer.specs.Laws.{PutText};
ghost use Rattle.linetext.specs.Laws.{Text};
ghost use Rattle.explaining.specs.Wording.{spaces, picture};
ghost use Rattle.explaining.specs.Laws.{Is};

use crate::fill;

fn put_spaces(out: &mut [u8], at: usize, n: usize) -> usize
    requires { at + n ≤ length out.old }
    ensures { PutText out.old at (spaces n) out.new result }
{
    for i in 0..n {
        out[at + i] = b' ';
    }
    at + n
}

pub fn put_picture(out: &mut [u8], at: usize, text: &[u8], place: usize) -> usize
    requires { at + (11 + length text.now + place) ≤ length out.old }
    ensures { Text (Is (picture text.now place)) (11 + length text.now + place) out.old at out.new result }
{
    let first = put_spaces(out, at, 4);
    let second = fill::put_shown(out, first, text);
    let third = fill::put_byte(out, second, b'\n');
    let fourth = put_spaces(out, third, 4 + place);
    fill::put_text(out, fourth, b"^\n")
}
