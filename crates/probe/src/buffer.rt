// Queries whose text is put into the output, which is then lent to the call, so that the output shows what the call leaves of it.
use crate::reply::Reply;
use crate::{put, query, reply};
use calendar::Date;
use refusals::Refusal;

fn written(reply: &mut Reply, answer: Result<usize, Refusal>) {
    match answer {
        Ok(n) => reply::place(reply, n),
        Err(why) => reply::refusal(reply, why),
    }
}

// The year of a record from the place of its ordinal on, and its day from the place of its month on.
fn put_both(r: &mut Reply, date: Date, buf: &mut [u8]) {
    let year = whole::widened(date.year);
    written(r, writer::put_whole(buf, date.ordinal as usize, year));
    written(r, writer::put_number(buf, date.month as usize, date.day));
}

fn fill(what: u8, date: Date, buf: &mut [u8]) -> Reply {
    let mut r = reply::none();
    match what {
        b'd' => written(&mut r, dateparse::write_date(date, buf)),
        b'y' => written(
            &mut r,
            writer::write_ymd(buf, date.year, date.month, date.day),
        ),
        _ => put_both(&mut r, date, buf),
    }
    r
}

// Lends so many bytes of the output.
fn lend(out: &mut [u8], at: usize, size: usize, what: u8, date: Date) -> Reply {
    if out.len() < at {
        return reply::unreadable();
    }
    if out.len() - at < size {
        return reply::unreadable();
    }
    let end = at + size;
    fill(what, date, &mut out[at..end])
}

fn date_of(line: &[u8], at: usize) -> Result<Date, Refusal> {
    let (calendar, next) = query::calendar_at(line, at)?;
    query::date_at(calendar, line, next).answer
}

fn lend_for(
    out: &mut [u8],
    at: usize,
    size: u32,
    what: u8,
    answer: Result<Date, Refusal>,
) -> Reply {
    match answer {
        Err(why) => reply::refused(why),
        Ok(date) => lend(out, at, size as usize, what, date),
    }
}

// The line from its text on, the text as the call leaves it, and what the call answers.
pub fn answer(line: &[u8], out: &mut [u8], at: usize) -> usize {
    let size = query::after_tab(line, 0);
    let from = query::after_tab(line, size);
    let date = date_of(line, query::after_tab(line, from));
    let end = put::word(out, at, query::tail(line, from));
    let n = query::number_at(line, size);
    let r = lend_for(out, at, n, query::byte_at(line, 1), date);
    put::reply(out, end, &r)
}
