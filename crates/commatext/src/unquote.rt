// Two fields of a record as a line: each unquoted, with a tab between them.

ghost use Rattle.std.specs.Prelude.{◌≡◌, ◌+◌, ◌≤◌, ◌<◌, length};
ghost use Rattle.commatext.specs.Grammar.{Field};
ghost use Rattle.commatext.specs.Private.{bytes_of, UsualField, PutsField, PutsQuoted, PutsLine};
ghost use Rattle.writer.specs.Laws.{PutText};

use writer::buffer;

// How many bytes of a quoted field stand for one that it holds: two for a quote.
fn bytes_of(b: u8) -> usize
    ensures { result ≡ bytes_of b }
{
    if b == b'"' {
        return 2;
    }
    1
}

// What a quoted field holds: the bytes between its quotes, and of a doubled quote one.
fn put_quoted(field: &[u8], line: &mut [u8], at: usize) -> usize
    requires { at + length field.now ≤ length line.old }
    ensures { PutsQuoted field.now line.old at line.new result }
{
    let mut i: usize = 1;
    let mut n = at;
    while i + 1 < field.len() {
        let b = field[i];
        line[n] = b;
        n += 1;
        i += bytes_of(b);
    }
    n
}

fn put_plain(field: &[u8], line: &mut [u8], at: usize) -> usize
    requires { at + length field.now ≤ length line.old }
    ensures { PutText line.old at field.now line.new result }
{
    buffer::copy_text(line, at, field).unwrap_or(at)
}

fn put_field(field: &[u8], line: &mut [u8], at: usize) -> usize
    requires { at + length field.now ≤ length line.old }
    ensures { PutsField Field field.now line.old at line.new result }
{
    if field.len() == 0 {
        return at;
    }
    if field[0] == b'"' {
        return put_quoted(field, line, at);
    }
    put_plain(field, line, at)
}

// The two fields of the record in the first bytes of s, which end at `end`, with a comma between them.
pub fn put_line(s: &[u8], comma: usize, end: usize, line: &mut [u8]) -> usize
    requires { (comma < end) × (end ≤ length s.now) × (end ≤ length line.old) }
    ensures { PutsLine Field s.now comma end line.old line.new result }
{
    let n = put_field(&s[..comma], line, 0);
    line[n] = b'\t';
    put_field(&s[comma + 1..end], line, n + 1)
}

// ---- usual fields, in which no quote is doubled

fn put_usual(field: &[u8], line: &mut [u8], at: usize) -> usize
    requires { at + length field.now ≤ length line.old }
    ensures { PutsField UsualField field.now line.old at line.new result }
{
    if field.len() < 2 {
        return put_plain(field, line, at);
    }
    if field[0] == b'"' {
        return put_plain(&field[1..field.len() - 1], line, at);
    }
    put_plain(field, line, at)
}

pub fn put_usual_line(s: &[u8], comma: usize, end: usize, line: &mut [u8]) -> usize
    requires { (comma < end) × (end ≤ length s.now) × (end ≤ length line.old) }
    ensures { PutsLine UsualField s.now comma end line.old line.new result }
{
    let n = put_usual(&s[..comma], line, 0);
    line[n] = b'\t';
    put_usual(&s[comma + 1..end], line, n + 1)
}
