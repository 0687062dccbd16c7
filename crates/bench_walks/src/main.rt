// Walks day by day, and writes a sum over all fields of the dates, so that what a step costs can be counted. Standard input is an order of
// seven bytes: the walker (`l` later, `e` earlier, `a` and_later), the calendar (`J`, `G`, or `R` for the one of 1582), and the number of
// rounds in five digits. In each round a walker is made on day 2298000, which is some three years before the switch of 1582, and gives 4096
// dates.
#![tactic(auto)]

use benchsum::{added, calendar_of};
use calendar::{Calendar, Date};
use refusals::Refusal;
use walker::Walker;

// ---- The walks

fn walker_of(kind: u8, date: Date) -> Result<Walker, Refusal> {
    match kind {
        b'l' => walker::later(date),
        b'e' => walker::earlier(date),
        _ => walker::and_later(date),
    }
}

fn steps(mut walker: Walker, mut sum: u64) -> u64 {
    for _ in 0..4096 {
        let moved = walker::stepped(walker);
        walker = moved.walker;
        sum = added(sum, moved.answer);
    }
    sum
}

fn walk(kind: u8, calendar: Calendar, sum: u64) -> u64 {
    match calendar.at_jdn(2_298_000) {
        Err(_) => sum,
        Ok(date) => match walker_of(kind, date) {
            Err(_) => sum,
            Ok(walker) => steps(walker, sum),
        },
    }
}

fn walks(kind: u8, calendar: Calendar, rounds: u32) -> u64 {
    let mut sum: u64 = 0;
    for _ in 0..rounds {
        sum = walk(kind, calendar, sum);
    }
    sum
}

// ---- The order

fn rounds(order: &[u8]) -> u32 {
    match numbertext::number_at(order, 2) {
        Ok((n, _)) => n,
        Err(_) => 0,
    }
}

fn main(rt: HostRuntime) {
    let mut order = [0u8; 7];
    let n = streams::read_full(&mut rt.stdin(), &mut order);
    if n == 7 {
        let sum = walks(order[0], calendar_of(order[1]), rounds(&order));
        streams::print_decimal(&rt, sum);
        streams::print(&rt, b"\n");
    }
}
