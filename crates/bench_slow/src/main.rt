// Asks the library one question over and over, and writes a sum over the answers, so that what is not usual can be counted: a refused call, or
// one about the year of a switch. Standard input is an order such as `yR 1582 10 4 16`: the call (`n` none, `j` at_jdn, `y` at_ymd,
// `o` at_ordinal_date), the calendar (`J`, `G`, `R` for the one of 1582, `M` for a made-up one), year, month, day and the number of rounds.
// at_ordinal_date has its ordinal in the place of the day, and at_jdn its day number in the place of the year.
// Each call stands in two places, before its loop and in it, so that the compiler leaves it a call.
#![tactic(auto)]

use benchsum::{added, fields, plus};
use calendar::{Calendar, Date, Style};

// ---- The question

#[derive(Clone, Copy)]
struct Question {
    year: i32,
    month: u32,
    day: u32,
}

// Questions that stand in memory, so that each turn of a loop reads its own.
const QUESTIONS: usize = 256;

fn question_at(questions: &[Question; QUESTIONS], k: u64) -> Question {
    questions[(k % 256) as usize]
}

// ---- The loops that are counted

// The sum alone, of a record that is made of the question.
fn no_calls(calendar: Calendar, questions: &[Question; QUESTIONS], calls: u64) -> u64 {
    let mut sum: u64 = 0;
    for k in 0..calls {
        let q = question_at(questions, k);
        let d = Date {
            calendar,
            style: Style::Julian,
            year: q.year,
            ordinal: q.day,
            month: q.month,
            day: q.day,
            day_ordinal: q.month,
            jdn: q.year,
        };
        sum = plus(sum, fields(d));
    }
    sum
}

fn jdn_calls(calendar: Calendar, questions: &[Question; QUESTIONS], calls: u64) -> u64 {
    let q = question_at(questions, 0);
    let mut sum: u64 = added(0, calendar.at_jdn(q.year));
    for k in 0..calls {
        let q = question_at(questions, k);
        sum = added(sum, calendar.at_jdn(q.year));
    }
    sum
}

fn ymd_calls(calendar: Calendar, questions: &[Question; QUESTIONS], calls: u64) -> u64 {
    let q = question_at(questions, 0);
    let mut sum: u64 = added(0, calendar.at_ymd(q.year, q.month, q.day));
    for k in 0..calls {
        let q = question_at(questions, k);
        sum = added(sum, calendar.at_ymd(q.year, q.month, q.day));
    }
    sum
}

fn ordinal_calls(calendar: Calendar, questions: &[Question; QUESTIONS], calls: u64) -> u64 {
    let q = question_at(questions, 0);
    let mut sum: u64 = added(0, calendar.at_ordinal_date(q.year, q.day));
    for k in 0..calls {
        let q = question_at(questions, k);
        sum = added(sum, calendar.at_ordinal_date(q.year, q.day));
    }
    sum
}

// ---- The order

fn calendar_of(letter: u8) -> Calendar {
    match letter {
        b'J' | b'G' | b'R' => benchsum::calendar_of(letter),
        _ => Calendar::Reforming(0),
    }
}

fn run(call: u8, calendar: Calendar, questions: &[Question; QUESTIONS], calls: u64) -> u64 {
    match call {
        b'j' => jdn_calls(calendar, questions, calls),
        b'y' => ymd_calls(calendar, questions, calls),
        b'o' => ordinal_calls(calendar, questions, calls),
        _ => no_calls(calendar, questions, calls),
    }
}

// A number of the order, and the place of the next.
#[derive(Clone, Copy)]
struct Part {
    value: u32,
    next: usize,
}

// Both are 0 where there is none.
fn part_at(order: &[u8], at: usize) -> Part {
    numbertext::number_at(order, at).map_or(
        Part { value: 0, next: 0 },
        |(value, end)| Part {
            value,
            next: end.wrapping_add(1),
        },
    )
}

fn obey(order: &[u8; 32]) -> u64 {
    let year = part_at(order, 3);
    let month = part_at(order, year.next);
    let day = part_at(order, month.next);
    let rounds = part_at(order, day.next);
    let question = Question {
        year: whole::lowered(year.value.wrapping_add(2_147_483_648)),
        month: month.value,
        day: day.value,
    };
    let questions = [question; QUESTIONS];
    let calls = 256 * u64::from(rounds.value);
    run(order[0], calendar_of(order[1]), &questions, calls)
}

fn main(rt: HostRuntime) {
    let mut order = [0u8; 32];
    streams::read_full(&mut rt.stdin(), &mut order);
    streams::print_decimal(&rt, obey(&order));
    streams::print(&rt, b"\n");
}
