// The import: comma-separated text in, the lines of the listing out. A record is a calendar name and a date text; what is written for it is what the
// listing writes for the line of the two. Text comes in blocks that end anywhere: a record that a block cuts is left to the next call, which gets it
// from its beginning.
// For users: all that is public.

#![tactic(auto)]

ghost use Rattle.std.specs.Prelude.{◌≡◌, ◌+◌, ◌≤◌, ◌<◌, length, pos};
ghost use Rattle.refusals.specs.Promise.{refusal};
ghost use Rattle.catalogue.specs.Promise.{NamesIn};
ghost use Rattle.linetext.specs.Line.{longest_line};
ghost use Rattle.linetext.specs.Promise.{LineOut};
ghost use Rattle.listing.specs.Promise.{HeldLine};
ghost use Rattle.listing.specs.Laws.{Wrote};
ghost use Rattle.importing.specs.Promise.{place_of, import_state, TakesRecord, Imports, progress_of};

use catalogue::Names;
pub use commatext::LONGEST_RECORD;
use commatext::Scan;
use linetext::LONGEST_LINE;
pub use listing::{put_header, put_refused};
use writer::buffer;

// An offset in the file, so many bytes after another. Past the greatest number that an offset can be it stays there; no file is so long.
pub fn later_place(place: usize, by: usize) -> usize
    ensures { result ≡ place_of place by }
{
    place.saturating_add(by)
}

// ---- what is written for a record, where there is room for it

// The line of its two fields stands in the line buffer, and is listed as a last line is.
fn put_entry(
    names: &Names,
    line: &[u8; LONGEST_RECORD],
    size: usize,
    out: &mut [u8],
    used: usize,
) -> usize
    requires { (0 < size) × (used + longest_line ≤ length out.old) }
    ensures { Wrote (HeldLine (NamesIn names.now) line.now size) out.old used out.new result }
{
    listing::list_last(names, line, size, out, used).unwrap()
}

fn put_fault(number: u32, place: usize, out: &mut [u8], used: usize) -> usize
    requires { used + longest_line ≤ length out.old }
    ensures { Wrote (LineOut (Err (refusal number place (pos 0)))) out.old used out.new result }
{
    put_refused(out, used, refusals::refusal_at(number, place, 0)).unwrap()
}

// ---- record after record

// What came of a record: it is written, and the offset after it; or it goes on past the bytes that are there; or a refusal ended the import.
#[derive(Clone, Copy)]
enum Taken {
    Written(usize, usize),
    Cut,
    Ended(usize),
}

fn take_record(
    names: &Names,
    text: &[u8],
    at: usize,
    ends: bool,
    offset: usize,
    line: &mut [u8; LONGEST_RECORD],
    out: &mut [u8],
    used: usize,
) -> Taken
    requires { (at < length text.now) × (used + longest_line ≤ length out.old) }
    ensures { TakesRecord (NamesIn names.now) ends offset text.now (import_state at line.old out.old used) line.new out.new result }
{
    match commatext::read_record(&text[at..], ends, line) {
        Scan::Entry(size, next) => {
            let end = put_entry(names, line, size, out, used);
            Taken::Written(at + next, end)
        }
        Scan::Miscounted(next) => {
            let end = put_fault(27, later_place(offset, at), out, used);
            Taken::Written(at + next, end)
        }
        Scan::Stops(number, place) => {
            let end = put_fault(
                number,
                later_place(later_place(offset, at), place),
                out,
                used,
            );
            Taken::Ended(end)
        }
        Scan::Undecided => Taken::Cut,
    }
}

// Why a call stopped.
#[derive(Clone, Copy)]
pub enum Stopped {
    // The output has no room for another line.
    Full,
    // What is left of the text is at most the beginning of a record.
    Spent,
    // A refusal has ended the import.
    Ended,
}

// How far the text is read, how far the output is written, and why no further.
#[derive(Clone, Copy)]
pub struct Progress {
    pub at: usize,
    pub used: usize,
    pub stopped: Stopped,
}

// Imports the records of a text from an offset on, as long as the output has room. `ends` tells whether the file ends after this text; `offset` is where
// in the file it begins.
pub fn import_text(
    names: &Names,
    text: &[u8],
    from: usize,
    ends: bool,
    offset: usize,
    line: &mut [u8; LONGEST_RECORD],
    out: &mut [u8],
    used: usize,
) -> Progress
    ensures { Imports (NamesIn names.now) ends offset text.now (import_state from line.old out.old used) (import_state result.at line.new out.new result.used) result.stopped }
{
    let mut at = from;
    let mut end = used;
    while at < text.len() {
        if buffer::has_room(out.len(), end, LONGEST_LINE) {
            match take_record(names, text, at, ends, offset, line, out, end) {
                Taken::Written(next, written) => {
                    at = next;
                    end = written;
                }
                Taken::Cut => return stopped_at(at, end, Stopped::Spent),
                Taken::Ended(written) => return stopped_at(at, written, Stopped::Ended),
            }
        } else {
            return stopped_at(at, end, Stopped::Full);
        }
    }
    stopped_at(at, end, Stopped::Spent)
}

fn stopped_at(at: usize, used: usize, stopped: Stopped) -> Progress
    ensures { result ≡ progress_of at used stopped }
{
    Progress { at, used, stopped }
}
