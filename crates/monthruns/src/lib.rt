// The days that a month of a calendar has, as runs: none, one, or two with a gap inside. Days outside 32 bits count too.
// For users.

#![tactic(auto)]

ghost use Rattle.std.specs.Prelude.{◌≡◌};
ghost use Rattle.monthruns.specs.Promise.{RunsOf};
ghost use Rattle.monthruns.specs.Natural.{Few, run_of, AllInside, RunsIn};

use calendar::Calendar;
use months::span_of;
use refusals::Refusal;
use switches::MonthSpan;

// All days of the month from the first to the last.
#[derive(Clone, Copy)]
pub struct Run {
    pub first: u32,
    pub last: u32,
}

#[derive(Clone, Copy)]
pub enum Runs {
    Nothing,
    One(Run),
    Two(Run, Run),
}

// The days that a month has. A month with a gap inside has Julian days before the gap, and Gregorian ones after it.
pub fn runs_of(calendar: Calendar, year: i32, month: u32) -> Result<Runs, Refusal>
    ensures { RunsOf calendar year month result }
{
    let s = span_of(calendar, year, month)?;
    Ok(runs_in(s))
}

// A month with a Julian day begins in that reckoning, so such days count from its first day; Gregorian ones count from the month's first
// Gregorian day.
fn runs_in(s: MonthSpan) -> Runs
    requires { AllInside s }
    ensures { RunsIn s result }
{
    if s.past <= s.first {
        return Runs::Nothing;
    }
    if s.switch <= s.first {
        return Runs::One(run_between(s.gregorian, s.first, s.past - 1));
    }
    if s.past <= s.switch {
        return Runs::One(run_between(s.first, s.first, s.past - 1));
    }
    Runs::Two(
        run_between(s.first, s.first, s.switch - 1),
        run_between(s.gregorian, s.switch, s.past - 1),
    )
}

// The days from one to another, by their days of the month, which count from the day `start`.
fn run_between(start: u64, first: u64, last: u64) -> Run
    requires { Few start first last }
    ensures { result ≡ run_of start first last }
{
    Run {
        first: (first + 1 - start) as u32,
        last: (last + 1 - start) as u32,
    }
}
