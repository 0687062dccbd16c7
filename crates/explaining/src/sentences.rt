// The paragraph of each reason. Each function writes from `at` on, where it has room, and answers the offset after what it wrote.

ghost use Rattle.std.specs.Prelude.{◌≡◌, [], ◌++◌, ◌+◌, ◌≤◌, length};
ghost use Rattle.whole.specs.Text.{bytes};
ghost use Rattle.linetext.specs.Laws.{Text};
ghost use Rattle.reasons.specs.declared.Reason.TheVariants.{Accepted, MadeUp, Faulty, Missing, Skipped, OffYear, Outside};
ghost use Rattle.explaining.specs.Patterns.{Filled, cost};
ghost use Rattle.explaining.specs.Wording.{accepted_pattern, fault_pattern, picture, fault_end, Says, unknown_pattern, long_line};
ghost use Rattle.explaining.specs.Promise.{longest_paragraph, Room, place_of};
ghost use Rattle.explaining.specs.Laws.{Is};

use crate::{choices, fill, picture};
use calendar::{Date, Style};
use expected::Expected;
use monthruns::Runs;
use reasons::Reason;
use refusals::Refusal;

// A paragraph has room in so many bytes, where name and text have at most 512 each.
pub const LONGEST_PARAGRAPH: usize = 4096;

// One sentence.
fn say(
    out: &mut [u8],
    at: usize,
    pattern: &[u8],
    numbers: &[i64],
    name: &[u8],
    text: &[u8],
) -> usize
    requires { Room out.old at name.now text.now × (cost 512 512 pattern.now ≤ 2048) }
    ensures { Text (Filled name.now text.now pattern.now numbers.now) 2048 out.old at out.new result }
{
    fill::fill(out, at, pattern, numbers, name, text)
}

// ---- A date

// By the rule that applied, and by whether the year is leap under it.
#[tactic(auto, unfolding(crate::specs::Wording::accepted_pattern, crate::specs::Patterns::cost, whole::specs::Text::bytes))]
fn accepted_words(style: Style, leap: bool) -> &'static [u8]
    ensures { (result.now ≡ accepted_pattern style leap) × (cost 512 512 result.now ≤ 2048) }
{
    match (style, leap) {
        (Style::Julian | Style::Swedish, true) =>
            b"~ in @ is #-#-#, day #. The Julian rule applied, and # is a leap year under that rule.\n",
        (Style::Julian | Style::Swedish, false) =>
            b"~ in @ is #-#-#, day #. The Julian rule applied, and # is no leap year under that rule.\n",
        (Style::Gregorian, true) =>
            b"~ in @ is #-#-#, day #. The Gregorian rule applied, and # is a leap year under that rule.\n",
        (Style::Gregorian, false) =>
            b"~ in @ is #-#-#, day #. The Gregorian rule applied, and # is no leap year under that rule.\n",
    }
}

fn put_accepted(
    out: &mut [u8],
    at: usize,
    name: &[u8],
    text: &[u8],
    date: Date,
    leap: bool,
) -> usize
    requires { Room out.old at name.now text.now }
    ensures { Text (Says name.now text.now (Accepted date leap)) longest_paragraph out.old at out.new result }
{
    let year = whole::widened(date.year);
    let month = whole::counted(date.month);
    let day = whole::counted(date.day);
    let jdn = whole::widened(date.jdn);
    let numbers = [year, month, day, jdn, year];
    say(
        out,
        at,
        accepted_words(date.style, leap),
        &numbers,
        name,
        text,
    )
}

// ---- A calendar that was made up

fn put_made_up(out: &mut [u8], at: usize, name: &[u8], text: &[u8]) -> usize
    requires { Room out.old at name.now text.now }
    ensures { Text (Says name.now text.now (MadeUp)) longest_paragraph out.old at out.new result }
{
    say(
        out,
        at,
        b"~ was not read: the calendar @ was made up.\n",
        &[],
        name,
        text,
    )
}

// ---- A date that the calendar does not have

const NO_DAYS: &[u8] = b"~ is no date in @: the month #-# has no days there.\n";

const ONE_RUN: &[u8] = b"~ is no date in @: the month #-# has the days # to # there.\n";

const TWO_RUNS: &[u8] = b"~ is no date in @: the month #-# has the days # to # and # to # there.\n";

fn put_missing(
    out: &mut [u8],
    at: usize,
    name: &[u8],
    text: &[u8],
    why: Refusal,
    year: i32,
    month: u32,
    days: Runs,
) -> usize
    requires { Room out.old at name.now text.now }
    ensures { Text (Says name.now text.now (Missing why year month days)) longest_paragraph out.old at out.new result }
{
    let y = whole::widened(year);
    let m = whole::counted(month);
    match days {
        Runs::Nothing => {
            let numbers = [y, m];
            say(out, at, NO_DAYS, &numbers, name, text)
        }
        Runs::One(a) => {
            let numbers = [y, m, whole::counted(a.first), whole::counted(a.last)];
            say(out, at, ONE_RUN, &numbers, name, text)
        }
        Runs::Two(a, b) => {
            let numbers = [
                y,
                m,
                whole::counted(a.first),
                whole::counted(a.last),
                whole::counted(b.first),
                whole::counted(b.last),
            ];
            say(out, at, TWO_RUNS, &numbers, name, text)
        }
    }
}

fn put_skipped(
    out: &mut [u8],
    at: usize,
    name: &[u8],
    text: &[u8],
    why: Refusal,
    before: Date,
    after: Date,
) -> usize
    requires { Room out.old at name.now text.now }
    ensures { Text (Says name.now text.now (Skipped why before after)) longest_paragraph out.old at out.new result }
{
    let numbers = [
        whole::widened(before.year),
        whole::counted(before.month),
        whole::counted(before.day),
        whole::widened(before.jdn),
        whole::widened(after.year),
        whole::counted(after.month),
        whole::counted(after.day),
        whole::widened(after.jdn),
    ];
    say(
        out,
        at,
        b"~ was skipped in @: #-#-# (day #) was followed by #-#-# (day #).\n",
        &numbers,
        name,
        text,
    )
}

fn put_off_year(
    out: &mut [u8],
    at: usize,
    name: &[u8],
    text: &[u8],
    why: Refusal,
    year: i32,
    length: u32,
) -> usize
    requires { Room out.old at name.now text.now }
    ensures { Text (Says name.now text.now (OffYear why year length)) longest_paragraph out.old at out.new result }
{
    let numbers = [whole::widened(year), whole::counted(length)];
    say(
        out,
        at,
        b"~ is no date in @: a single number after the year counts its days, and the year # has # days there.\n",
        &numbers,
        name,
        text,
    )
}

fn put_outside(
    out: &mut [u8],
    at: usize,
    name: &[u8],
    text: &[u8],
    why: Refusal,
    above: bool,
) -> usize
    requires { Room out.old at name.now text.now }
    ensures { Text (Says name.now text.now (Outside why above)) longest_paragraph out.old at out.new result }
{
    if above {
        return say(
            out,
            at,
            b"~ is too late in @: its day number would be above 2147483647.\n",
            &[],
            name,
            text,
        );
    }
    say(
        out,
        at,
        b"~ is too early in @: its day number would be below -2147483648.\n",
        &[],
        name,
        text,
    )
}

// ---- A text that is no date text

// By the number of the refusal, and by whether the fault is one of the year.
#[tactic(auto, unfolding(crate::specs::Wording::fault_pattern, crate::specs::Wording::other_fault_pattern, crate::specs::Wording::range_pattern, crate::specs::Patterns::cost, whole::specs::Text::bytes))]
fn fault_words(number: u32, in_year: bool) -> &'static [u8]
    ensures { (result.now ≡ fault_pattern number in_year) × (cost 512 512 result.now ≤ 2048) }
{
    match number {
        3 => b"\"~\" is no date in @: the month at place # is #, and a month is 1 to 12",
        8 => b"\"~\" is no date in @: it ends at place #, where a number has to stand",
        9 => b"\"~\" is no date in @: a number has to stand at place #",
        10 => b"\"~\" is no date in @: a digit has to follow the sign, at place #",
        11 | 28 => {
            if in_year {
                b"\"~\" is no date in @: the year leaves its range, -2147483648 to 2147483647, at place #"
            } else {
                b"\"~\" is no date in @: the number leaves its range, 0 to 4294967295, at place #"
            }
        }
        12 => b"\"~\" is no date in @: no \"-\" stands at place #",
        13 => b"\"~\" is no date in @: it ends after the year, at place #",
        _ => b"\"~\" is no date in @: it goes on after the day, at place #",
    }
}

// The full stop, and the picture.
fn put_stop(out: &mut [u8], at: usize, text: &[u8], place: usize) -> usize
    requires { (at + 1038 ≤ length out.old) × ((length text.now ≤ 512) × (place ≤ 513)) }
    ensures { Text (Is (bytes ".\n" ++ picture text.now place)) 1038 out.old at out.new result }
{
    let next = fill::put_text(out, at, b".\n");
    picture::put_picture(out, next, text, place)
}

// What follows the sentence.
fn put_end(
    out: &mut [u8],
    at: usize,
    text: &[u8],
    number: u32,
    place: usize,
    expected: Expected,
) -> usize
    requires { (at + 1097 ≤ length out.old) × ((length text.now ≤ 512) × (place ≤ 513)) }
    ensures { Text (Is (fault_end text.now number place expected)) 1097 out.old at out.new result }
{
    if number == 3 {
        return put_stop(out, at, text, place);
    }
    let first = fill::put_text(out, at, b"; there could stand ");
    let second = choices::put_choices(out, first, expected);
    put_stop(out, second, text, place)
}

fn put_faulty(
    out: &mut [u8],
    at: usize,
    name: &[u8],
    text: &[u8],
    why: Refusal,
    in_year: bool,
    place: usize,
    expected: Expected,
) -> usize
    requires { Room out.old at name.now text.now × (place ≤ 513) }
    ensures { Text (Says name.now text.now (Faulty why in_year place expected)) longest_paragraph out.old at out.new result }
{
    let numbers = [whole::counted(place as u32), why.value];
    let pattern = fault_words(why.number, in_year);
    let next = say(out, at, pattern, &numbers, name, text);
    put_end(out, next, text, why.number, place, expected)
}

// ---- All reasons

pub fn put_reason(out: &mut [u8], at: usize, name: &[u8], text: &[u8], reason: Reason) -> usize
    requires { Room out.old at name.now text.now × (place_of reason ≤ 513) }
    ensures { Text (Says name.now text.now reason) longest_paragraph out.old at out.new result }
{
    match reason {
        Reason::Accepted { date, leap } => put_accepted(out, at, name, text, date, leap),
        Reason::MadeUp => put_made_up(out, at, name, text),
        Reason::Faulty {
            why,
            in_year,
            place,
            expected,
        } => put_faulty(out, at, name, text, why, in_year, place, expected),
        Reason::Missing {
            why,
            year,
            month,
            days,
        } => put_missing(out, at, name, text, why, year, month, days),
        Reason::Skipped { why, before, after } => {
            put_skipped(out, at, name, text, why, before, after)
        }
        Reason::OffYear { why, year, length } => {
            put_off_year(out, at, name, text, why, year, length)
        }
        Reason::Outside { why, above } => put_outside(out, at, name, text, why, above),
    }
}

// ---- Without a reason

// A name that no calendar has.
pub fn put_unknown(out: &mut [u8], at: usize, name: &[u8]) -> usize
    requires { Room out.old at name.now [] }
    ensures { Text (Filled name.now [] unknown_pattern []) longest_paragraph out.old at out.new result }
{
    say(
        out,
        at,
        b"\"@\" is not the name of a calendar, neither of a built-in one nor of one in the catalogue. A name is all that stands before the first tab of a line.\n",
        &[],
        name,
        &[],
    )
}

// A line that is too long.
pub fn put_long(out: &mut [u8], at: usize) -> usize
    requires { at + longest_paragraph ≤ length out.old }
    ensures { Text (Is long_line) longest_paragraph out.old at out.new result }
{
    fill::put_text(
        out,
        at,
        b"The line has more than 512 bytes, and is not read.\n",
    )
}
