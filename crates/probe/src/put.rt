// Writes the fields of an answer into the output from a place on, each with a tab after it, and tells the place after them. What the output
// has no room for is left out; the program sees that there is room.
use crate::reply::{Field, Reply};

fn byte(out: &mut [u8], at: usize, b: u8) -> usize {
    if at < out.len() {
        out[at] = b;
        return at + 1;
    }
    at
}

// The tab after the last field becomes the end of the line.
pub fn line_end(out: &mut [u8], at: usize) -> usize {
    if at < 1 {
        return at;
    }
    let last = at - 1;
    if last < out.len() {
        out[last] = b'\n';
    }
    at
}

pub fn word(out: &mut [u8], at: usize, w: &[u8]) -> usize {
    let mut end = at;
    for b in w {
        end = byte(out, end, *b);
    }
    byte(out, end, b'\t')
}

fn number(out: &mut [u8], at: usize, x: i64) -> usize {
    match writer::put_whole(out, at, x) {
        Ok(end) => byte(out, end, b'\t'),
        Err(_) => at,
    }
}

fn field(out: &mut [u8], at: usize, field: Field) -> usize {
    match field {
        Field::Number(x) => number(out, at, x),
        Field::Letter(b) => word(out, at, &[b]),
        Field::Byte(b) => byte(out, at, b),
    }
}

pub fn reply(out: &mut [u8], at: usize, r: &Reply) -> usize {
    let mut end = at;
    for f in r.fields.iter().take(r.n) {
        end = field(out, end, *f);
    }
    end
}
