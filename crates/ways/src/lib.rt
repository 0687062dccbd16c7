// The four kinds of walkers, on day numbers alone: which day lies ahead, which day a step gives, which day the walker holds after it, and when the
// walker has ended.
// For users: `Kind`, the kind of a walker. For the crates above: all else.

#![tactic(auto)]

ghost use Rattle.std.specs.Prelude.{◌≡◌};
ghost use Rattle.days.specs.DayByDay.{Is32Bit};
ghost use Rattle.ways.specs.Promise.{goes_later_value, toward, IsNeighbour, gives_held_value, gives, EndedAt, IsStaying, NextStep};

use whole::{lowered, raised};

// Where a walker goes, and whether it gives the date first that it was made from. One that does holds the date to give next; one that
// does not holds the date that it gave last.
#[derive(Clone, Copy)]
pub enum Kind {
    Later,
    Earlier,
    AndLater,
    AndEarlier,
}

// The day that a step gives, the day that is held after it, and whether the walker is then ended.
#[derive(Clone, Copy)]
pub struct Given {
    pub given: i32,
    pub held: i32,
    pub ended: bool,
}

// Why a step gives none: no walker on this day has this flag, or no day is left to give.
#[derive(Clone, Copy)]
pub enum NoStep {
    MadeUp,
    Ended,
}

// ---- The kinds of walkers

pub fn goes_later(kind: Kind) -> bool
    ensures { result ≡ goes_later_value kind }
{
    matches!(kind, Kind::Later | Kind::AndLater)
}

pub fn gives_held(kind: Kind) -> bool
    ensures { result ≡ gives_held_value kind }
{
    matches!(kind, Kind::AndLater | Kind::AndEarlier)
}

// ---- The day ahead

// Whether no day lies ahead.
pub fn is_last(kind: Kind, jdn: i32) -> bool
    ensures { EndedAt (toward kind jdn) result }
{
    if goes_later(kind) {
        return raised(jdn) == 4_294_967_295;
    }
    raised(jdn) == 0
}

fn ahead(kind: Kind, jdn: i32) -> i32
    requires { Is32Bit (toward kind jdn) }
    ensures { result ≡ toward kind jdn }
{
    if goes_later(kind) {
        return lowered(raised(jdn) + 1);
    }
    lowered(raised(jdn) - 1)
}

pub fn day_ahead(kind: Kind, jdn: i32) -> Option<i32>
    ensures { IsNeighbour (toward kind jdn) result }
{
    if is_last(kind, jdn) {
        return None;
    }
    Some(ahead(kind, jdn))
}

// ---- The next day of a month

// Whether the day next to a day, later or earlier, is the next one of its month whatever the length of the month, and one of 32 bits.
pub fn stays(later: bool, day: u32, jdn: i32) -> bool
    ensures { IsStaying later day jdn result }
{
    if later {
        if 27 < day {
            return false;
        }
        return raised(jdn) != 4_294_967_295;
    }
    if day < 2 {
        return false;
    }
    raised(jdn) != 0
}

// ---- Making a walker

// A walker that gives the date held has at least that one to give.
pub fn ended_when_made(kind: Kind, jdn: i32) -> bool
    ensures { EndedAt (gives kind jdn) result }
{
    if gives_held(kind) {
        return false;
    }
    is_last(kind, jdn)
}

// ---- Stepping

// A step of a walker that no day lies ahead of.
fn on_the_last(kind: Kind, jdn: i32, ended: bool) -> Result<Given, NoStep>
    requires { ¬ Is32Bit (toward kind jdn) }
    ensures { NextStep kind jdn ended result }
{
    if ended {
        return Err(NoStep::Ended);
    }
    if !gives_held(kind) {
        return Err(NoStep::MadeUp);
    }
    Ok(Given {
        given: jdn,
        held: jdn,
        ended: true,
    })
}

// A step of a walker that a day lies ahead of.
fn on_the_way(kind: Kind, jdn: i32, ended: bool) -> Result<Given, NoStep>
    requires { Is32Bit (toward kind jdn) }
    ensures { NextStep kind jdn ended result }
{
    if ended {
        return Err(NoStep::MadeUp);
    }
    let next = ahead(kind, jdn);
    if gives_held(kind) {
        return Ok(Given {
            given: jdn,
            held: next,
            ended: false,
        });
    }
    Ok(Given {
        given: next,
        held: next,
        ended: is_last(kind, next),
    })
}

// A step of a walker that holds this day and has this flag.
pub fn next_step(kind: Kind, jdn: i32, ended: bool) -> Result<Given, NoStep>
    ensures { NextStep kind jdn ended result }
{
    if is_last(kind, jdn) {
        return on_the_last(kind, jdn, ended);
    }
    on_the_way(kind, jdn, ended)
}
