// The weekday of a day number, from 1 (Monday) to 7 (Sunday).
// For users.

#![tactic(auto)]

ghost use Rattle.weekday.specs.Promise.{IsWeekday};

pub fn for_jdn(jdn: i32) -> u32
    ensures { IsWeekday jdn result }
{
    ((whole::raised(jdn) as u64 + 5) % 7 + 1) as u32
}
