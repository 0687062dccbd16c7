// Walkers, which go from a date to later or to earlier dates, one date a step. A walker has ended as soon as it has no date left to give. A refused
// step leaves it as it was.
// For users.

#![tactic(auto)]

ghost use Rattle.std.specs.Prelude.{◌≡◌};
ghost use Rattle.calendar.specs.Calendars.{IsRecord, Genuine};
ghost use Rattle.ways.specs.declared.Kind.TheVariants as Kind';
ghost use Rattle.walker.specs.Promise.{Makes, Steps, unmoved, moved};
ghost use Rattle.walker.specs.Private.{Gave};

use calendar::{Date, Refusal, refusal_of};
pub use ways::Kind;
use ways::{Given, NoStep, ended_when_made};

#[derive(Clone, Copy)]
pub struct Walker {
    pub kind: Kind,
    pub date: Date,
    pub ended: bool,
}

// What a step answers, and the walker after it.
#[derive(Clone, Copy)]
pub struct Moved {
    pub answer: Result<Date, Refusal>,
    pub walker: Walker,
}

// ---- Making a walker

fn made(kind: Kind, date: Date) -> Result<Walker, Refusal>
    ensures { Makes kind date result }
{
    if !date.is_genuine() {
        return Err(refusal_of(16, 0));
    }
    let ended = ended_when_made(kind, date.jdn);
    Ok(Walker { kind, date, ended })
}

// The dates later than this one.
pub fn later(date: Date) -> Result<Walker, Refusal>
    ensures { Makes Kind'.Later date result }
{
    made(Kind::Later, date)
}

// The dates earlier than this one.
pub fn earlier(date: Date) -> Result<Walker, Refusal>
    ensures { Makes Kind'.Earlier date result }
{
    made(Kind::Earlier, date)
}

// This date, and the later ones.
pub fn and_later(date: Date) -> Result<Walker, Refusal>
    ensures { Makes Kind'.AndLater date result }
{
    made(Kind::AndLater, date)
}

// This date, and the earlier ones.
pub fn and_earlier(date: Date) -> Result<Walker, Refusal>
    ensures { Makes Kind'.AndEarlier date result }
{
    made(Kind::AndEarlier, date)
}

// ---- Stepping

fn refused(number: u32, walker: Walker) -> Moved
    ensures { result ≡ unmoved number walker }
{
    Moved {
        answer: Err(refusal_of(number, 0)),
        walker,
    }
}

// The record of a day in the calendar of this date. The calendar of a genuine date is accepted, and has a record of each day.
fn on_day(date: Date, jdn: i32) -> Date
    requires { Genuine date }
    ensures { IsRecord date.calendar jdn result }
{
    if jdn == date.jdn {
        return date;
    }
    date.calendar.at_jdn(jdn).unwrap_or(date)
}

// The record of the day that is given, and a walker that holds the record of another day, or of the same.
fn gave(kind: Kind, date: Date, step: Given) -> Moved
    requires { Genuine date }
    ensures { Gave kind date.calendar step result }
{
    let given = on_day(date, step.given);
    let held = on_day(given, step.held);
    Moved {
        answer: Ok(given),
        walker: Walker {
            kind,
            date: held,
            ended: step.ended,
        },
    }
}

// One step, by value. A date that has its next one in its month is seen to in line.
pub fn stepped(walker: Walker) -> Moved
    ensures { Steps walker result }
{
    let Walker { kind, date, ended } = walker;
    if !ended {
        if let Some(next) = calendar::next_in_month(date, ways::goes_later(kind)) {
            if ways::gives_held(kind) {
                return Moved {
                    answer: Ok(date),
                    walker: Walker {
                        kind,
                        date: next,
                        ended: false,
                    },
                };
            }
            return Moved {
                answer: Ok(next),
                walker: Walker {
                    kind,
                    date: next,
                    ended: ways::is_last(kind, next.jdn),
                },
            };
        }
    }
    any_step(walker)
}

// Any step, by the number of the day.
fn any_step(walker: Walker) -> Moved
    ensures { Steps walker result }
{
    let Walker { kind, date, ended } = walker;
    if date.is_genuine() {
        return match ways::next_step(kind, date.jdn, ended) {
            Err(NoStep::MadeUp) => refused(16, walker),
            Err(NoStep::Ended) => refused(15, walker),
            Ok(step) => gave(kind, date, step),
        };
    }
    refused(16, walker)
}

// The walker is lent, and moves one day.
pub fn step(walker: &mut Walker) -> Result<Date, Refusal>
    ensures { Steps walker.old (moved result walker.new) }
{
    let m = stepped(*walker);
    *walker = m.walker;
    m.answer
}
