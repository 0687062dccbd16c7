// The fields of an answer, one after another. A function for a part of an answer adds its fields to those that are there.
use calendar::{Calendar, Date, Refusal, Style};

#[derive(Clone, Copy)]
pub enum Field {
    Number(i64),
    Letter(u8),
    // A byte of a text, with no tab after it.
    Byte(u8),
}

// The longest answer has 43 fields.
#[derive(Clone, Copy)]
pub struct Reply {
    pub n: usize,
    pub fields: [Field; 48],
}

pub fn none() -> Reply {
    Reply {
        n: 0,
        fields: [Field::Number(0); 48],
    }
}

pub fn add(reply: &mut Reply, field: Field) {
    if reply.n < 48 {
        reply.fields[reply.n] = field;
        reply.n += 1;
    }
}

pub fn number(reply: &mut Reply, x: i64) {
    add(reply, Field::Number(x));
}

pub fn count(reply: &mut Reply, n: u32) {
    number(reply, whole::counted(n));
}

// A place in a line.
pub fn place(reply: &mut Reply, n: usize) {
    count(reply, (n % 4_294_967_296) as u32);
}

// A digest is below 2^31.
pub fn digest(reply: &mut Reply, h: u64) {
    count(reply, (h % 4_294_967_296) as u32);
}

pub fn letter(reply: &mut Reply, b: u8) {
    add(reply, Field::Letter(b));
}

pub fn byte(reply: &mut Reply, b: u8) {
    add(reply, Field::Byte(b));
}

pub fn unreadable() -> Reply {
    let mut r = none();
    letter(&mut r, b'?');
    r
}

// ---- Answers of the library

pub fn refusal(reply: &mut Reply, why: Refusal) {
    letter(reply, b'!');
    count(reply, why.number);
    place(reply, why.place);
    number(reply, why.value);
}

pub fn refused(why: Refusal) -> Reply {
    let mut r = none();
    refusal(&mut r, why);
    r
}

pub fn counted(reply: &mut Reply, answer: Result<u32, Refusal>) {
    match answer {
        Ok(n) => count(reply, n),
        Err(why) => refusal(reply, why),
    }
}

// 1 for yes, 0 for no.
pub fn bit(yes: bool) -> u32 {
    u32::from(yes)
}

pub fn told(reply: &mut Reply, answer: Result<bool, Refusal>) {
    counted(reply, answer.map(bit));
}

// As a bit, and 2 for a refusal.
fn truth(answer: Result<bool, Refusal>) -> u32 {
    answer.map_or(2, bit)
}

// 1 for the Julian style, 0 for another.
pub fn julian_bit(date: Date) -> u32 {
    match date.style {
        Style::Julian => 1,
        Style::Gregorian | Style::Swedish => 0,
    }
}

// The style that stands in a record: J for the Julian one, G for the Gregorian one, S for the Swedish one.
pub fn style_letter(style: Style) -> u8 {
    match style {
        Style::Julian => b'J',
        Style::Gregorian => b'G',
        Style::Swedish => b'S',
    }
}

// The same of a genuine record, which has to be what the calls about it say.
fn style(date: Date) -> u8 {
    let letter = style_letter(date.style);
    let julian = truth(date.is_julian());
    let gregorian = truth(date.is_gregorian());
    match (letter, julian, gregorian) {
        (b'J', 1, 0) | (b'G', 0, 1) | (b'S', 0, 0) => letter,
        _ => b'?',
    }
}

pub fn calendar(reply: &mut Reply, calendar: Calendar) {
    match calendar {
        Calendar::Julian => letter(reply, b'J'),
        Calendar::Gregorian => letter(reply, b'G'),
        Calendar::Reforming(r) => number(reply, whole::widened(r)),
    }
}

// The numbers that stand in a record.
pub fn fields(reply: &mut Reply, date: Date) {
    number(reply, whole::widened(date.jdn));
    number(reply, whole::widened(date.year));
    count(reply, date.ordinal);
    count(reply, date.month);
    count(reply, date.day);
    count(reply, date.day_ordinal);
}

pub fn date(reply: &mut Reply, date: Date) {
    fields(reply, date);
    letter(reply, style(date));
    counted(reply, date.weekday());
}

pub fn dated_on(reply: &mut Reply, answer: Result<Date, Refusal>) {
    match answer {
        Ok(d) => date(reply, d),
        Err(why) => refusal(reply, why),
    }
}

pub fn dated(answer: Result<Date, Refusal>) -> Reply {
    let mut r = none();
    dated_on(&mut r, answer);
    r
}
