// Queries about texts: what stands at a place of one, and what a whole one says.
use crate::reply::Reply;
use crate::{query, reply};
use datetext::Text;
use reader::Reader;
use refusals::Refusal;

// ---- What was read, and the place after it

fn number(answer: Result<(u32, usize), Refusal>) -> Reply {
    answer.map_or_else(reply::refused, |(n, next)| {
        let mut r = reply::none();
        reply::count(&mut r, n);
        reply::place(&mut r, next);
        r
    })
}

fn signed(answer: Result<(i32, usize), Refusal>) -> Reply {
    answer.map_or_else(reply::refused, |(x, next)| {
        let mut r = reply::none();
        reply::number(&mut r, whole::widened(x));
        reply::place(&mut r, next);
        r
    })
}

fn dash(answer: Result<usize, Refusal>) -> Reply {
    answer.map_or_else(reply::refused, |next| {
        let mut r = reply::none();
        reply::place(&mut r, next);
        r
    })
}

fn end(answer: Result<(), Refusal>) -> Reply {
    answer.map_or_else(reply::refused, |()| {
        let mut r = reply::none();
        reply::letter(&mut r, b'.');
        r
    })
}

// ---- The same by a reader that stands at the place, and where it stands after the read

fn number_by(text: &[u8], at: usize) -> Reply {
    let mut reader = Reader { src: text, at };
    let mut r = number(reader.number());
    reply::place(&mut r, reader.at);
    r
}

fn signed_by(text: &[u8], at: usize) -> Reply {
    let mut reader = Reader { src: text, at };
    let mut r = signed(reader.signed());
    reply::place(&mut r, reader.at);
    r
}

fn dash_by(text: &[u8], at: usize) -> Reply {
    let mut reader = Reader { src: text, at };
    let mut r = dash(reader.dash());
    reply::place(&mut r, reader.at);
    r
}

fn end_by(text: &[u8], at: usize) -> Result<(), Refusal> {
    let reader = Reader { src: text, at };
    reader.end()
}

fn read(what: u8, text: &[u8], at: usize) -> Reply {
    match what {
        b'n' => number(numbertext::number_at(text, at)),
        b's' => signed(numbertext::signed_at(text, at)),
        b'd' => dash(numbertext::dash_at(text, at)),
        b'N' => number_by(text, at),
        b'S' => signed_by(text, at),
        b'D' => dash_by(text, at),
        b'E' => end(end_by(text, at)),
        _ => end(numbertext::end_at(text, at)),
    }
}

// A place of 64 bits; a negative one counts back from their end, so that -1 is the greatest.
fn place_of(x: i32) -> usize {
    let raised = whole::raised64(whole::widened(x));
    raised.wrapping_sub(9_223_372_036_854_775_808) as usize
}

pub fn at(line: &[u8], from: usize) -> Reply {
    let place = query::after_tab(line, from);
    let text = query::tail(line, query::after_tab(line, place));
    let at = place_of(query::signed_at(line, place));
    read(query::byte_at(line, from), text, at)
}

// ---- A whole text

fn said(text: Text) -> Reply {
    let mut r = reply::none();
    match text {
        Text::Ordinal {
            year,
            ordinal,
            place,
        } => {
            reply::number(&mut r, whole::widened(year));
            reply::count(&mut r, ordinal);
            reply::place(&mut r, place);
        }
        Text::Ymd {
            year,
            month,
            day,
            place,
        } => {
            reply::number(&mut r, whole::widened(year));
            reply::count(&mut r, month);
            reply::count(&mut r, day);
            reply::place(&mut r, place);
        }
    }
    r
}

pub fn whole_text(line: &[u8], from: usize) -> Reply {
    datetext::read_date(query::tail(line, from)).map_or_else(reply::refused, said)
}
