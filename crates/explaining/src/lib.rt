// An answer explained: for a line of a register a paragraph of English, written into a lent buffer. A paragraph is a pattern that a name, a text and
// numbers fill (`fill`), in the words of its reason (`sentences`).
// For users: `explain_line`. For the crates above: `explain_too_long` and `LONGEST_PARAGRAPH`.
#![tactic(auto)]

mod choices;
mod fill;
mod picture;
mod sentences;

ghost use Rattle.std.specs.Prelude.{◌≤◌, length};
ghost use Rattle.writer.specs.Promise.{Puts, Writes};
ghost use Rattle.linetext.specs.Laws.{Text};
ghost use Rattle.catalogue.specs.Promise.{NamesIn};
ghost use Rattle.explaining.specs.Wording.{long_line};
ghost use Rattle.explaining.specs.Promise.{longest_paragraph};
ghost use Rattle.explaining.specs.Paragraph.{Unnamed, Paragraph};
ghost use Rattle.explaining.specs.Laws.{Is};

use catalogue::Names;
pub use entry::LONGEST_ENTRY;
use reasons::Reason;
use refusals::Refusal;
pub use sentences::LONGEST_PARAGRAPH;
use writer::buffer;

// The paragraph of its answer, from `at` on.
pub fn explain_line(names: &Names, line: &[u8], out: &mut [u8], at: usize) -> Result<usize, Refusal>
    ensures { Writes (Paragraph (NamesIn names.now) line.now) out.old at out.new result }
{
    let mut apart = [0u8; LONGEST_PARAGRAPH];
    let size = put_paragraph(names, line, &mut apart);
    put_front(out, at, &apart[..size])
}

// That of a line that is too long, whatever its bytes are.
pub fn explain_too_long(out: &mut [u8], at: usize) -> Result<usize, Refusal>
    ensures { Writes (Is long_line) out.old at out.new result }
{
    let mut apart = [0u8; LONGEST_PARAGRAPH];
    let size = sentences::put_long(&mut apart, 0);
    put_front(out, at, &apart[..size])
}

// A whole text, or nothing of it.
fn put_front(out: &mut [u8], at: usize, text: &[u8]) -> Result<usize, Refusal>
    requires { length text.now ≤ longest_paragraph }
    ensures { Puts text.now out.old at out.new result }
{
    buffer::copy_text(out, at, text).ok_or(refusals::refusal_with(18, text.len() as u32))
}

// At the front of a buffer of its own, so that a buffer too short for it stays as it was.
fn put_paragraph(names: &Names, line: &[u8], apart: &mut [u8; LONGEST_PARAGRAPH]) -> usize
    ensures { Text (Paragraph (NamesIn names.now) line.now) longest_paragraph apart.old 0 apart.new result }
{
    if LONGEST_ENTRY < line.len() {
        return sentences::put_long(apart, 0);
    }
    let parts = entry::parts_of(line);
    let name = &line[..parts.name_end];
    let text = &line[parts.text_from..];
    match catalogue::named(names, name) {
        Ok(calendar) => {
            let reason = reasons::explain(calendar, text);
            sentences::put_reason(apart, 0, name, text, reason)
        }
        Err(why) => {
            if why.number == 19 {
                sentences::put_unknown(apart, 0, name)
            } else {
                sentences::put_reason(apart, 0, name, text, Reason::MadeUp)
            }
        }
    }
}
