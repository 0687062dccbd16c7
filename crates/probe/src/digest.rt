// Digests of many answers, so that a query can ask for thousands of days. h starts at 0; a value x turns it into
// (h * 1000003 + x + 2^33) mod 2147483647. A refused date counts as x = 1 - 2^33, or 2 - 2^33 where its number is outside 32 bits.
use crate::reply::Reply;
use crate::{reply, walk};
use calendar::{Calendar, Date};
use refusals::Refusal;
use walker::Walker;

// ---- Values

// The value is given with the 2^33 added, and is below 2^34.
fn mixed(h: u64, x: u64) -> u64 {
    ((h % 2_147_483_647) * 1_000_003 + x % 17_179_869_184) % 2_147_483_647
}

fn with_count(h: u64, n: u32) -> u64 {
    mixed(h, n as u64 + 8_589_934_592)
}

fn with_whole(h: u64, x: i32) -> u64 {
    mixed(h, whole::raised(x) as u64 + 6_442_450_944)
}

fn with_number(h: u64, answer: Result<u32, Refusal>) -> u64 {
    match answer {
        Ok(n) => with_count(h, n),
        Err(_) => mixed(h, 1),
    }
}

fn with_refusal(h: u64, number: u32) -> u64 {
    if number == 7 {
        return mixed(h, 2);
    }
    mixed(h, 1)
}

fn with_day(h: u64, answer: Result<Date, Refusal>) -> u64 {
    match answer {
        Ok(date) => with_whole(h, date.jdn),
        Err(why) => with_refusal(h, why.number),
    }
}

fn with_date(h: u64, date: Date) -> u64 {
    let a = with_whole(h, date.jdn);
    let b = with_whole(a, date.year);
    let c = with_count(b, date.ordinal);
    let d = with_count(c, date.month);
    let e = with_count(d, date.day);
    let f = with_count(e, date.day_ordinal);
    let g = with_count(f, reply::julian_bit(date));
    with_number(g, date.weekday())
}

// ---- Every step-th day

#[derive(Clone, Copy)]
struct DaySum {
    hash: u64,
    given: u32,
    // The next day, raised; past 32 bits there is none.
    next: u64,
}

fn one_day(s: DaySum, calendar: Calendar, step: u32) -> DaySum {
    if 4_294_967_295 < s.next {
        return s;
    }
    match calendar.at_jdn(whole::lowered(s.next as u32)) {
        Err(_) => s,
        Ok(date) => DaySum {
            hash: with_date(s.hash, date),
            given: s.given.wrapping_add(1),
            next: s.next + step as u64,
        },
    }
}

fn all_days(calendar: Calendar, jdn: i32, step: u32, count: u32) -> DaySum {
    let mut s = DaySum {
        hash: 0,
        given: 0,
        next: whole::raised(jdn) as u64,
    };
    for _ in 0..count {
        s = one_day(s, calendar, step);
    }
    s
}

pub fn days(r: &mut Reply, calendar: Calendar, jdn: i32, step: u32, count: u32) {
    let s = all_days(calendar, jdn, step, count);
    reply::digest(r, s.hash);
    reply::count(r, s.given);
}

// ---- A year by its months and days

fn one_month_day(h: u64, calendar: Calendar, year: i32, month: u32, day: u32) -> u64 {
    with_day(h, calendar.at_ymd(year, month, day))
}

fn month_days(h: u64, calendar: Calendar, year: i32, month: u32) -> u64 {
    let mut sum = h;
    for day in 0..34 {
        sum = one_month_day(sum, calendar, year, month, day);
    }
    sum
}

fn one_month(h: u64, calendar: Calendar, year: i32, month: u32) -> u64 {
    let a = with_number(h, months::len(calendar, year, month));
    let b = with_number(a, months::first_day(calendar, year, month));
    let c = with_number(b, months::last_day(calendar, year, month));
    month_days(c, calendar, year, month)
}

pub fn year(calendar: Calendar, year: i32) -> u64 {
    let mut sum = with_number(0, months::year_length(calendar, year));
    for month in 1..=12 {
        sum = one_month(sum, calendar, year, month);
    }
    sum
}

// ---- A year by its ordinals

fn one_place(h: u64, calendar: Calendar, year: i32, ordinal: u32) -> u64 {
    match calendar.at_ordinal_date(year, ordinal) {
        Err(why) => with_refusal(h, why.number),
        Ok(date) => {
            let a = with_count(h, date.month);
            let b = with_count(a, date.day);
            let c = with_count(b, date.day_ordinal);
            with_whole(c, date.jdn)
        }
    }
}

pub fn places(calendar: Calendar, year: i32) -> u64 {
    let mut sum: u64 = 0;
    for ordinal in 0..371 {
        sum = one_place(sum, calendar, year, ordinal);
    }
    sum
}

// ---- Walkers

#[derive(Clone, Copy)]
struct Walking {
    walker: Walker,
    last: Date,
    given: u32,
    hash: u64,
}

fn one_step(t: Walking) -> Walking {
    let m = walk::lent(t.walker);
    match m.answer {
        Err(_) => Walking {
            walker: m.walker,
            ..t
        },
        Ok(date) => Walking {
            walker: m.walker,
            last: date,
            given: t.given.wrapping_add(1),
            hash: with_date(t.hash, date),
        },
    }
}

fn steps(mut t: Walking, count: u32) -> Walking {
    for _ in 0..count {
        t = one_step(t);
    }
    t
}

fn trail(t: Walking) -> Reply {
    let mut r = reply::none();
    reply::count(&mut r, t.given);
    reply::digest(&mut r, t.hash);
    if t.given == 0 {
        reply::letter(&mut r, b'-');
    } else {
        reply::date(&mut r, t.last);
    }
    r
}

// The days of a walk, or the walker after them and its next step.
fn told(w: Walker, count: u32, by_days: bool) -> Reply {
    let start = Walking {
        walker: w,
        last: w.date,
        given: 0,
        hash: 0,
    };
    let end = steps(start, count);
    if by_days {
        return trail(end);
    }
    walk::view(end.walker)
}

pub fn walk(date: Date, count: u32, way: u32, by_days: bool) -> Reply {
    walk::walker_of(way, date).map_or_else(reply::refused, |w| told(w, count, by_days))
}
