// From seconds since 1970 to a day and the seconds into it, and back. Seconds are counted from the start of the lowest day, so that a quotient rounds
// down on both sides of 1970.

ghost use Rattle.days.specs.DayByDay.{UnixTime};
ghost use Rattle.unixtime.specs.Promise.{DaySecondOf};

use whole::{lowered, lowered64, raised, raised64};

// The lowest day begins 185753453990400 seconds before 1970; raised:
const FIRST_SECOND: u64 = 9_223_186_283_400_785_408;

// The days of 32 bits have one more.
const LAST_ELAPSED: u64 = 371_085_174_374_399;

// The day of a time, and the seconds into it; nothing where that day is outside 32 bits.
pub fn day_second(t: i64) -> Option<(i32, u32)>
    ensures { DaySecondOf t result }
{
    let raised_time = raised64(t);
    if raised_time < FIRST_SECOND {
        return None;
    }
    let elapsed = raised_time - FIRST_SECOND;
    if LAST_ELAPSED < elapsed {
        return None;
    }
    let day = (elapsed / 86_400) as u32;
    let seconds = (elapsed % 86_400) as u32;
    Some((lowered(day), seconds))
}

// The second at which a day begins.
pub fn jdn2unix(jdn: i32) -> i64
    ensures { UnixTime result jdn 0 }
{
    let elapsed = raised(jdn) as u64 * 86_400;
    lowered64(elapsed + FIRST_SECOND)
}
