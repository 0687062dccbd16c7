// Unix time: from seconds since 1970 to a day, a date and the seconds into that day, and from a day to the seconds at its start.
// For users: `unix2jdn`, `jdn2unix`, `at_unix_time`. For the crates above: `seconds`.
#![tactic(auto)]

pub mod seconds;

ghost use Rattle.unixtime.specs.Promise.{Unix2Jdn, AtUnixTime};

use calendar::{Calendar, Date, Refusal, refusal_of, switch_of};
use seconds::day_second;
pub use seconds::jdn2unix;

// The day of a time, and the seconds into it.
pub fn unix2jdn(t: i64) -> Result<(i32, u32), Refusal>
    ensures { Unix2Jdn t result }
{
    day_second(t).ok_or(refusal_of(17, t))
}

// The date of a time, and the seconds into its day. A calendar is refused before a time.
pub fn at_unix_time(calendar: Calendar, t: i64) -> Result<(Date, u32), Refusal>
    ensures { AtUnixTime calendar t result }
{
    match switch_of(calendar) {
        Err(_) => return Err(refusal_of(16, 0)),
        Ok(_) => {}
    }
    let (jdn, seconds) = unix2jdn(t)?;
    let date = calendar.at_jdn(jdn)?;
    Ok((date, seconds))
}
