// Answers queries about the calendar with the library: a query a line from standard input, an answer a line to standard output.
// oracle/PROTOCOL.md has the queries and their answers. A query is known by its first two letters.
#![tactic(auto)]

mod buffer;
mod digest;
mod put;
mod query;
mod reply;
mod text;
mod walk;

use calendar::{Calendar, Date};
use query::Numbers;
use refusals::Refusal;
use reply::Reply;

// ---- Queries about a calendar

fn ref_day(r: &mut Reply, answer: Result<Option<i32>, Refusal>) {
    match answer {
        Ok(Some(day)) => reply::number(r, whole::widened(day)),
        Ok(None) => reply::letter(r, b'-'),
        Err(why) => reply::refusal(r, why),
    }
}

fn ref_date(r: &mut Reply, answer: Result<Option<Date>, Refusal>) {
    match answer {
        Ok(Some(date)) => reply::date(r, date),
        Ok(None) => reply::letter(r, b'-'),
        Err(why) => reply::refusal(r, why),
    }
}

fn reformation(r: &mut Reply, calendar: Calendar) {
    reply::told(r, calendar.is_reforming());
    reply::told(r, calendar.is_proleptic());
    ref_day(r, calendar.reformation());
    ref_date(r, calendar.last_julian_date());
    ref_date(r, calendar.first_gregorian_date());
}

fn name(answer: Result<Calendar, Refusal>) -> Reply {
    answer.map_or_else(reply::refused, |calendar| {
        let mut r = reply::none();
        reply::calendar(&mut r, calendar);
        r
    })
}

// ---- Queries about a date

// What a record that may be made up tells of itself.
fn genuine(date: Date) -> Reply {
    let mut r = reply::none();
    reply::count(&mut r, reply::bit(date.is_genuine()));
    reply::counted(&mut r, date.weekday());
    reply::told(&mut r, date.is_julian());
    reply::told(&mut r, date.is_gregorian());
    r
}

fn zero(date: Date) -> Reply {
    let mut r = reply::none();
    reply::counted(&mut r, date.ordinal0());
    reply::counted(&mut r, date.day_ordinal0());
    r
}

// The first n bytes of a text, and a tab after them.
fn text_reply(text: [u8; 14], n: usize) -> Reply {
    let mut r = reply::none();
    for b in text.iter().take(n) {
        reply::byte(&mut r, *b);
    }
    reply::byte(&mut r, b'\t');
    r
}

fn written(date: Date) -> Reply {
    let mut text = [0u8; 14];
    let size = dateparse::write_date(date, &mut text);
    size.map_or_else(reply::refused, |n| text_reply(text, n))
}

// ---- Queries about a month

fn month(r: &mut Reply, calendar: Calendar, year: i32, month: u32) {
    reply::counted(r, months::len(calendar, year, month));
    reply::counted(r, months::first_day(calendar, year, month));
    reply::counted(r, months::last_day(calendar, year, month));
}

// ---- Queries about seconds

fn time(answer: Result<(i32, u32), Refusal>) -> Reply {
    answer.map_or_else(reply::refused, |(jdn, seconds)| {
        let mut r = reply::none();
        reply::number(&mut r, whole::widened(jdn));
        reply::count(&mut r, seconds);
        r
    })
}

fn unix(answer: Result<(Date, u32), Refusal>) -> Reply {
    answer.map_or_else(reply::refused, |(date, seconds)| {
        let mut r = reply::none();
        reply::date(&mut r, date);
        reply::count(&mut r, seconds);
        r
    })
}

// ---- The query of a line

// The second calendar of a query stands after its date.
fn to_calendar(date: Date, line: &[u8], at: usize) -> Reply {
    query::calendar_at(line, at).map_or_else(reply::refused, |(to, _)| {
        reply::dated(date.convert_to(to))
    })
}

// `walk` and `view`: the numbers after the date are the steps and the walker.
fn walker(date: Date, line: &[u8], at: usize, by_days: bool) -> Reply {
    let way = query::number_at(line, query::after_tab(line, at));
    digest::walk(date, query::number_at(line, at), way, by_days)
}

fn with_w(second: u8, date: Date, line: &[u8], at: usize) -> Reply {
    if second == b'r' {
        return written(date);
    }
    walker(date, line, at, true)
}

fn of_date(line: &[u8], date: Date, at: usize) -> Reply {
    match query::byte_at(line, 0) {
        b's' => reply::dated(date.succ()),
        b'p' => reply::dated(date.pred()),
        b'w' => with_w(query::byte_at(line, 1), date, line, at),
        b'v' => walker(date, line, at, false),
        b'z' => zero(date),
        b'g' => genuine(date),
        b'c' => to_calendar(date, line, at),
        _ => reply::dated(Ok(date)),
    }
}

fn about_months(r: &mut Reply, letter: u8, calendar: Calendar, q: Numbers) {
    match letter {
        b'm' => month(r, calendar, q.first, q.second),
        b'h' => reply::told(r, months::contains(calendar, q.first, q.second, q.third)),
        b'i' => reply::counted(r, months::day_ordinal(calendar, q.first, q.second, q.third)),
        b'k' => reply::counted(r, months::nth_day(calendar, q.first, q.second, q.third)),
        _ => reply::dated_on(r, months::nth_date(calendar, q.first, q.second, q.third)),
    }
}

fn with_y(r: &mut Reply, second: u8, calendar: Calendar, q: Numbers) {
    if second == b'e' {
        reply::digest(r, digest::year(calendar, q.first));
    } else {
        reply::dated_on(r, calendar.at_ymd(q.first, q.second, q.third));
    }
}

fn about_years(letter: u8, second: u8, calendar: Calendar, q: Numbers) -> Reply {
    let mut r = reply::none();
    match letter {
        b'y' => with_y(&mut r, second, calendar, q),
        b'o' => reply::dated_on(&mut r, calendar.at_ordinal_date(q.first, q.second)),
        b'l' => reply::counted(&mut r, months::year_length(calendar, q.first)),
        b'd' => digest::days(&mut r, calendar, q.first, q.second, q.third),
        b'p' => reply::digest(&mut r, digest::places(calendar, q.first)),
        b'r' => reformation(&mut r, calendar),
        _ => about_months(&mut r, letter, calendar, q),
    }
    r
}

// Queries about a date begin with one of these letters, but for `parse` and `places`.
fn is_about_date(letter: u8, second: u8) -> bool {
    match letter {
        b'j' | b's' | b'w' | b'v' | b'z' | b'g' | b'c' => true,
        b'p' => second == b'r',
        _ => false,
    }
}

fn with_calendar(calendar: Calendar, line: &[u8], from: usize) -> Reply {
    let letter = query::byte_at(line, 0);
    let second = query::byte_at(line, 1);
    if is_about_date(letter, second) {
        let asked = query::date_at(calendar, line, from);
        return asked
            .answer
            .map_or_else(reply::refused, |date| of_date(line, date, asked.next));
    }
    if letter == b'u' {
        return unix(unixtime::at_unix_time(calendar, query::long_at(line, from)));
    }
    if second == b'a' && letter == b'p' {
        return reply::dated(dateparse::parse_date(calendar, query::tail(line, from)));
    }
    about_years(letter, second, calendar, query::numbers_at(line, from))
}

fn of_calendar(line: &[u8], from: usize) -> Reply {
    query::calendar_at(line, from).map_or_else(reply::refused, |(calendar, next)| {
        with_calendar(calendar, line, next)
    })
}

// Queries about a day number alone: `wd` and `sec`.
fn of_day(letter: u8, jdn: i32) -> Reply {
    let mut r = reply::none();
    if letter == b'w' {
        reply::count(&mut r, weekday::for_jdn(jdn));
    } else {
        reply::number(&mut r, unixtime::jdn2unix(jdn));
    }
    r
}

fn is_of_day(letter: u8, second: u8) -> bool {
    if letter == b'w' {
        return second == b'd';
    }
    letter == b's' && second == b'e'
}

fn with_t(second: u8, line: &[u8], from: usize) -> Reply {
    if second == b'i' {
        return time(unixtime::unix2jdn(query::long_at(line, from)));
    }
    text::whole_text(line, from)
}

fn answer_to(line: &[u8]) -> Reply {
    let letter = query::byte_at(line, 0);
    let second = query::byte_at(line, 1);
    let from = query::after_tab(line, 0);
    if is_of_day(letter, second) {
        return of_day(letter, query::signed_at(line, from));
    }
    match letter {
        b'n' => name(ncal::named(query::tail(line, from))),
        b't' => with_t(second, line, from),
        b'a' => text::at(line, from),
        _ => of_calendar(line, from),
    }
}

// ---- Lines and blocks

fn flush(rt: &HostRuntime, out: &[u8], n: usize) {
    streams::print(rt, query::front(out, n));
}

// An answer has at most as many bytes as a line.
fn room(rt: &HostRuntime, out: &[u8], n: usize) -> usize {
    if n < 63_000 {
        return n;
    }
    flush(rt, out, n);
    0
}

// A line that begins with `#` is a heading and answers itself.
fn answer(line: &[u8], out: &mut [u8], at: usize) -> usize {
    match query::byte_at(line, 0) {
        b'#' => put::word(out, at, line),
        b'b' => buffer::answer(line, out, at),
        _ => put::reply(out, at, &answer_to(line)),
    }
}

// The newline of a line that begins with `+` belongs to its query, and the `+` does not.
fn query_of(line: &[u8]) -> &[u8] {
    if query::byte_at(line, 0) == b'+' {
        return query::tail(line, 1);
    }
    query::front(line, line.len().saturating_sub(1))
}

// The answer to the n bytes of a line, where the last of them ends it.
fn answer_line(
    rt: &HostRuntime,
    line: &[u8],
    n: usize,
    last: u8,
    out: &mut [u8],
    used: usize,
) -> usize {
    if last == b'\n' {
        let at = room(rt, out, used);
        let end = answer(query_of(query::front(line, n)), out, at);
        return put::line_end(out, end);
    }
    used
}

// Of a line above 2048 bytes the rest is left out.
fn kept(line: &mut [u8], n: usize, b: u8) -> usize {
    if n < line.len() {
        line[n] = b;
        return n + 1;
    }
    n
}

fn held_after(n: usize, last: u8) -> usize {
    if last == b'\n' {
        return 0;
    }
    n
}

// Tells how many bytes of the next line are kept. The answers of a block are written before the next one is read, so that both sides can be
// run by one program over pipes.
fn feed(rt: &HostRuntime, block: &[u8], line: &mut [u8], held: usize, out: &mut [u8]) -> usize {
    let mut n = held;
    let mut used: usize = 0;
    for b in block {
        n = kept(line, n, *b);
        used = answer_line(rt, line, n, *b, out, used);
        n = held_after(n, *b);
    }
    flush(rt, out, used);
    n
}

// The bytes of a block, and of the output.
const BLOCK_SIZE: usize = 65536;

fn main(rt: HostRuntime) {
    let mut block = [0u8; BLOCK_SIZE];
    let mut out = [0u8; BLOCK_SIZE];
    let mut line = [0u8; 2048];
    let mut n: usize = 0;
    // The number of turns only bounds the loop: no input is so long.
    for _ in 0..u64::MAX {
        match streams::read_some(&mut rt.stdin(), &mut block) {
            None | Some(0) => break,
            Some(count) => n = feed(&rt, query::front(&block, count), &mut line, n, &mut out),
        }
    }
}
