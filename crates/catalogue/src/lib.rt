// House calendars by name: a catalogue is read line by line into memory that is lent, and a name is looked up in it. Each call answers for any contents
// of the memory and any count of lines.
// For users: all that is public.

#![tactic(auto)]

ghost use Rattle.std.specs.Prelude.{◌≤◌, ◌<◌, ◌^◌, ◌≡◌, pos, length};
ghost use Rattle.refusals.specs.Promise.{refusal};
ghost use Rattle.nametable.specs.Limits.{most_lines, most_name};
ghost use Rattle.catalogue.specs.Promise.{IsTaken, AddsHouse, Adds, HouseCalendar, NamesIn};

use calendar::Calendar;
use houseline::{House, NoHouse};
pub use nametable::{LINES, NAME, Names};
use refusals::{Refusal, refusal_at};

// Whether a name is taken, by a calendar that is built in or by one that is held.
fn is_taken(names: &Names, name: &[u8]) -> bool
    ensures { IsTaken names.now name.now result }
{
    ncal::look_up(name).is_some() || names.find(name).is_some()
}

// 11 or 28, of line n: the place in the line, at which its number leaves 32 bits, is the value.
fn refused_number(n: usize, f: Refusal) -> Refusal
    requires { f.place < 2 ^ 32 }
    ensures { result ≡ refusal f.number n (pos f.place) }
{
    refusal_at(f.number, n, f.place as u32)
}

// 1 or 2, of line n.
fn refused_reformation(number: u32, n: usize, r: i32) -> Refusal
    ensures { result ≡ refusal number n r }
{
    Refusal {
        number,
        place: n,
        value: whole::widened(r),
    }
}

// A line that has the form, and whose number fits.
#[tactic(auto, using(crate::proofs::Laws::house_over_told))]
fn add_house(names: &mut Names, count: usize, name: &[u8], r: i32) -> Result<usize, Refusal>
    requires { (count ≤ most_lines) × (length name.now ≤ most_name) }
    ensures { AddsHouse names.old count name.now r names.new result }
{
    if is_taken(names, name) {
        return Err(refusal_at(23, count + 1, 0));
    }
    if LINES <= count {
        return Err(refusal_at(24, count + 1, 0));
    }
    if let Err(why) = switches::reformation::judge(r) {
        return Err(refused_reformation(why.number(), count + 1, r));
    }
    names.enter(count, name, r);
    Ok(count + 1)
}

// One line more: how many lines are held then, or why the line is refused, in which case the place is its number, from 1. The first that is refused
// refuses the whole catalogue, so every line before this one is held, and `count` tells how many they are.
pub fn add_line(names: &mut Names, count: usize, line: &[u8]) -> Result<usize, Refusal>
    ensures { Adds names.old count line.now names.new result }
{
    if LINES < count {
        return Err(refusal_at(16, 0, 0));
    }
    match houseline::read_line(line) {
        Err(NoHouse::Malformed) => Err(refusal_at(22, count + 1, 0)),
        Err(NoHouse::Outside(f)) => Err(refused_number(count + 1, f)),
        Ok(House { name_end, number }) => add_house(names, count, &line[..name_end], number),
    }
}

// The calendar of a house name. What a catalogue has left in the memory is accepted; anything else is made up.
fn house_calendar(r: i32) -> Result<Calendar, Refusal>
    ensures { HouseCalendar r result }
{
    match switches::reformation::judge(r) {
        Ok(_) => Ok(Calendar::Reforming(r)),
        Err(_) => Err(refusal_at(16, 0, 0)),
    }
}

// The calendar of a name, built in or held.
pub fn named(names: &Names, name: &[u8]) -> Result<Calendar, Refusal>
    ensures { NamesIn names.now name.now result }
{
    match ncal::look_up(name) {
        Some(calendar) => Ok(calendar),
        None => house_calendar(names.find(name).ok_or(refusal_at(19, 0, 0))?),
    }
}
