// Runs one call of the library many times over days that are prepared in memory, and writes a sum over all fields of the answers, so that
// what the call costs can be counted. Standard input is a list of orders of eight bytes: the call (`n` none, `j` at_jdn, `y` at_ymd,
// `p` parse_date, `s` succ), the calendar (`J`, `G`, or `R` for the one of 1582), the number of rounds in five digits, and a line end.
#![tactic(auto)]

ghost use Rattle.std.specs.Prelude.{◌<◌, ◌≡◌, length};

use benchsum::{added, calendar_of, fields, plus};
use calendar::{Calendar, Date, Style};

// ---- The inputs: 4096 days of the years 1 to 2100

const DAYS: usize = 4096;

// A day and its text. The length stands beside the text, so that the compiler does not know it.
#[derive(Clone, Copy)]
struct Prepared {
    date: Date,
    text: [u8; 16],
    size: usize,
}

// What the memory holds before the days are prepared.
fn unprepared(calendar: Calendar) -> Prepared {
    Prepared {
        date: Date {
            calendar,
            style: Style::Julian,
            year: 0,
            ordinal: 0,
            month: 0,
            day: 0,
            day_ordinal: 0,
            jdn: 0,
        },
        text: [0; 16],
        size: 0,
    }
}

// The program that runs the crate has the same generator.
fn next(x: u32) -> u32
    ensures { result < 2147483648 }
{
    ((u64::from(x) * 1_103_515_245 + 12_345) % 2_147_483_648) as u32
}

fn day_of(x: u32) -> i32 {
    1_721_428 + ((x / 16) % 767_007) as i32
}

fn digit(n: u32) -> u8 {
    b'0' + (n % 10) as u8
}

// The date as ten bytes, padded with zeros, as in 0901-03-05: all years here are below 10000.
fn padded(d: Date) -> [u8; 16] {
    let year = d.year.rem_euclid(10_000) as u32;
    [
        digit(year / 1000),
        digit(year / 100),
        digit(year / 10),
        digit(year),
        b'-',
        digit(d.month / 10),
        digit(d.month),
        b'-',
        digit(d.day / 10),
        digit(d.day),
        0,
        0,
        0,
        0,
        0,
        0,
    ]
}

fn prepare(calendar: Calendar, days: &mut [Prepared; DAYS]) {
    let mut x: u32 = 1;
    for day in days.iter_mut() {
        x = next(x);
        if let Ok(date) = calendar.at_jdn(day_of(x)) {
            *day = Prepared {
                date,
                text: padded(date),
                size: 10,
            };
        }
    }
}

fn day_at(days: &[Prepared; DAYS], k: u64) -> &Prepared {
    &days[(k % 4096) as usize]
}

// ---- The loops that are counted, with the k-th call over all rounds in each turn

// The sum alone, of the records as they were prepared.
fn no_calls(days: &[Prepared; DAYS], calls: u64) -> u64 {
    let mut sum: u64 = 0;
    for k in 0..calls {
        sum = plus(sum, fields(day_at(days, k).date));
    }
    sum
}

fn jdn_calls(calendar: Calendar, days: &[Prepared; DAYS], calls: u64) -> u64 {
    let mut sum: u64 = 0;
    for k in 0..calls {
        let date = day_at(days, k).date;
        sum = added(sum, calendar.at_jdn(date.jdn));
    }
    sum
}

fn ymd_calls(calendar: Calendar, days: &[Prepared; DAYS], calls: u64) -> u64 {
    let mut sum: u64 = 0;
    for k in 0..calls {
        let date = day_at(days, k).date;
        sum = added(sum, calendar.at_ymd(date.year, date.month, date.day));
    }
    sum
}

fn parse_calls(calendar: Calendar, days: &[Prepared; DAYS], calls: u64) -> u64 {
    let mut sum: u64 = 0;
    for k in 0..calls {
        let day = day_at(days, k);
        let text = &day.text[..day.size % 16];
        sum = added(sum, dateparse::parse_date(calendar, text));
    }
    sum
}

fn succ_calls(days: &[Prepared; DAYS], calls: u64) -> u64 {
    let mut sum: u64 = 0;
    for k in 0..calls {
        sum = added(sum, day_at(days, k).date.succ());
    }
    sum
}

// ---- The orders

fn run(call: u8, calendar: Calendar, days: &[Prepared; DAYS], calls: u64) -> u64 {
    match call {
        b'j' => jdn_calls(calendar, days, calls),
        b'y' => ymd_calls(calendar, days, calls),
        b'p' => parse_calls(calendar, days, calls),
        b's' => succ_calls(days, calls),
        _ => no_calls(days, calls),
    }
}

fn rounds(order: &[u8]) -> u32 {
    numbertext::number_at(order, 2).map_or(0, |(n, _)| n)
}

// One order: the inputs are prepared anew, in the calendar that it names.
fn obey(call: u8, calendar: Calendar, rounds: u32) -> u64 {
    let mut days = [unprepared(calendar); DAYS];
    prepare(calendar, &mut days);
    run(call, calendar, &days, 4096 * u64::from(rounds))
}

fn say(rt: &HostRuntime, sum: u64) {
    streams::print_decimal(rt, sum);
    streams::print(rt, b"\n");
}

fn answer(rt: &HostRuntime, order: &[u8])
    requires { length order.now ≡ 8 }
{
    say(
        rt,
        obey(order[0], calendar_of(order[1]), rounds(&order[..7])),
    );
}

fn main(rt: HostRuntime) {
    // The orders stand in 512 bytes at most.
    let mut orders = [0u8; 512];
    let n = streams::read_full(&mut rt.stdin(), &mut orders);
    for order in orders[..n].chunks_exact(8) {
        answer(&rt, order);
    }
}
