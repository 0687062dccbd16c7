// On which days a calendar can switch from Julian to Gregorian dates, and why it cannot switch on any other.

ghost use Rattle.std.specs.Prelude.{◌≡◌};
ghost use Rattle.switches.specs.Promise.{Judges, number_of};

// The table of reformations, as biased days. Day -2147483647 is the first with a day of 32 bits before it.
const FIRST_AFTER_A_DAY: u64 = 782_219_326_295;

// Day -2147439514 is the first whose Gregorian label is borne by a Julian day of 32 bits.
const FIRST_TO_FIT: u64 = 782_219_370_428;

// The accepted days are 1830692 to 2147439588.
const FIRST_REFORMATION: u64 = 784_368_640_634;

const LAST_REFORMATION: u64 = 786_514_249_530;

// Why no calendar can switch on a day, by the names that the crate has for it.
#[derive(Clone, Copy)]
pub enum ReformingError {
    InvalidReformation,
    Arithmetic,
}

impl ReformingError {
    // The number of the refusal.
    pub fn number(self) -> u32
        ensures { result ≡ number_of self }
    {
        match self {
            ReformingError::InvalidReformation => 1,
            ReformingError::Arithmetic => 2,
        }
    }
}

// The number that a day of reformation is biased as.
pub fn judge(r: i32) -> Result<u64, ReformingError>
    ensures { Judges r result }
{
    let day = whole::raised(r) as u64 + inner::LEAST_DAY;
    if day < FIRST_AFTER_A_DAY {
        return Err(ReformingError::InvalidReformation);
    }
    if day < FIRST_TO_FIT {
        return Err(ReformingError::Arithmetic);
    }
    if day < FIRST_REFORMATION {
        return Err(ReformingError::InvalidReformation);
    }
    if LAST_REFORMATION < day {
        return Err(ReformingError::Arithmetic);
    }
    Ok(day)
}
