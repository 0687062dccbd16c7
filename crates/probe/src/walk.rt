// The four walkers by number, and what a walker is before a step and after it.

ghost use Rattle.walker.specs.Promise.{Steps};

use crate::reply;
use crate::reply::Reply;
use calendar::Date;
use refusals::Refusal;
use walker::{Kind, Moved, Walker};

// The walker is lent to one step.
pub fn lent(walker: Walker) -> Moved
    ensures { Steps walker result }
{
    let mut w = walker;
    let a = walker::step(&mut w);
    Moved {
        answer: a,
        walker: w,
    }
}

// ---- The four walkers by number: their makers, and what they are

fn made(way: u32, date: Date) -> Result<Walker, Refusal> {
    match way {
        0 => walker::later(date),
        1 => walker::earlier(date),
        2 => walker::and_later(date),
        _ => walker::and_earlier(date),
    }
}

fn kind_of(way: u32) -> Kind {
    match way {
        0 => Kind::Later,
        1 => Kind::Earlier,
        2 => Kind::AndLater,
        _ => Kind::AndEarlier,
    }
}

fn way_of(kind: Kind) -> u32 {
    match kind {
        Kind::Later => 0,
        Kind::Earlier => 1,
        Kind::AndLater => 2,
        Kind::AndEarlier => 3,
    }
}

// From 4 on nothing has looked at the walker: it is one of the four that is not ended, and from 8 on one that is.
pub fn walker_of(way: u32, date: Date) -> Result<Walker, Refusal> {
    if way < 4 {
        return made(way, date);
    }
    let kind = kind_of(way % 4);
    Ok(Walker {
        kind,
        date,
        ended: 7 < way,
    })
}

// ---- Answers

// What a walker is: its number, the calendar and the numbers of its record, and whether it is ended.
fn held(r: &mut Reply, w: Walker) {
    reply::count(r, way_of(w.kind));
    reply::calendar(r, w.date.calendar);
    reply::fields(r, w.date);
    reply::letter(r, reply::style_letter(w.date.style));
    reply::count(r, reply::bit(w.ended));
}

fn taken(r: &mut Reply, m: Moved) {
    reply::dated_on(r, m.answer);
    held(r, m.walker);
}

// A walker, its next step by value, and the same step lent.
pub fn view(w: Walker) -> Reply {
    let mut r = reply::none();
    held(&mut r, w);
    taken(&mut r, walker::stepped(w));
    taken(&mut r, lent(w));
    r
}
