// The calendars of the countries that `ncal.rs` of the crate lists, and calendars by name.
// For users: all that is public but `look_up`, which is for the crates above.

#![tactic(auto)]

ghost use Rattle.std.specs.Prelude.{◌≡◌};
ghost use Rattle.ncal.specs.Promise.{FoundAs, NamesCalendar};
ghost use Rattle.whole.specs.Whether.{Whether};

use calendar::{Calendar, refusal_of};
use refusals::Refusal;

// ---- For each country the calendar that is reforming at its first Gregorian day, with that date and the last Julian one

// 1912-12-14, following 1912-11-30 O.S.
pub const ALBANIA: Calendar = Calendar::Reforming(2_419_751);

// 1752-09-14, following 1752-09-02 O.S.
pub const AUSTRALIA: Calendar = Calendar::Reforming(2_361_222);

// 1583-10-16, following 1583-10-05 O.S.
pub const AUSTRIA: Calendar = Calendar::Reforming(2_299_527);

// 1582-12-25, following 1582-12-14 O.S.
pub const BELGIUM: Calendar = Calendar::Reforming(2_299_232);

// 1916-04-14, following 1916-03-31 O.S.
pub const BULGARIA: Calendar = Calendar::Reforming(2_420_968);

// 1752-09-14, following 1752-09-02 O.S.
pub const CANADA: Calendar = Calendar::Reforming(2_361_222);

// 1912-01-01, following 1911-12-18 O.S.
pub const CHINA: Calendar = Calendar::Reforming(2_419_403);

// 1584-01-17, following 1584-01-06 O.S.
pub const CZECH_REPUBLIC: Calendar = Calendar::Reforming(2_299_620);

// 1700-03-01, following 1700-02-18 O.S.
pub const DENMARK: Calendar = Calendar::Reforming(2_342_032);

// 1753-03-01, following 1753-02-17 O.S.
pub const FINLAND: Calendar = Calendar::Reforming(2_361_390);

// 1582-12-20, following 1582-12-09 O.S.
pub const FRANCE: Calendar = Calendar::Reforming(2_299_227);

// 1700-03-01, following 1700-02-18 O.S.
pub const GERMANY: Calendar = Calendar::Reforming(2_342_032);

// 1924-03-23, following 1924-03-09 O.S.
pub const GREECE: Calendar = Calendar::Reforming(2_423_868);

// 1587-11-01, following 1587-10-21 O.S.
pub const HUNGARY: Calendar = Calendar::Reforming(2_301_004);

// 1700-11-28, following 1700-11-16 O.S.
pub const ICELAND: Calendar = Calendar::Reforming(2_342_304);

// 1582-10-15, following 1582-10-04 O.S.
pub const ITALY: Calendar = Calendar::Reforming(2_299_161);

// 1919-01-01, following 1918-12-18 O.S.
pub const JAPAN: Calendar = Calendar::Reforming(2_421_960);

// 1918-02-15, following 1918-02-01 O.S.
pub const LATVIA: Calendar = Calendar::Reforming(2_421_640);

// 1918-02-15, following 1918-02-01 O.S.
pub const LITHUANIA: Calendar = Calendar::Reforming(2_421_640);

// 1582-12-25, following 1582-12-14 O.S.
pub const LUXEMBOURG: Calendar = Calendar::Reforming(2_299_232);

// 1582-12-25, following 1582-12-14 O.S.
pub const NETHERLANDS: Calendar = Calendar::Reforming(2_299_232);

// 1700-03-01, following 1700-02-18 O.S.
pub const NORWAY: Calendar = Calendar::Reforming(2_342_032);

// 1582-10-15, following 1582-10-04 O.S.
pub const POLAND: Calendar = Calendar::Reforming(2_299_161);

// 1582-10-15, following 1582-10-04 O.S.
pub const PORTUGAL: Calendar = Calendar::Reforming(2_299_161);

// 1919-04-14, following 1919-03-31 O.S.
pub const ROMANIA: Calendar = Calendar::Reforming(2_422_063);

// 1918-02-14, following 1918-01-31 O.S.
pub const RUSSIA: Calendar = Calendar::Reforming(2_421_639);

// 1919-03-18, following 1919-03-04 O.S.
pub const SLOVENIA: Calendar = Calendar::Reforming(2_422_036);

// 1582-10-15, following 1582-10-04 O.S.
pub const SPAIN: Calendar = Calendar::Reforming(2_299_161);

// 1753-03-01, following 1753-02-17 O.S.
pub const SWEDEN: Calendar = Calendar::Reforming(2_361_390);

// 1655-03-11, following 1655-02-28 O.S.
pub const SWITZERLAND: Calendar = Calendar::Reforming(2_325_606);

// 1927-01-01, following 1926-12-18 O.S.
pub const TURKEY: Calendar = Calendar::Reforming(2_424_882);

// 1752-09-14, following 1752-09-02 O.S.
pub const UNITED_KINGDOM: Calendar = Calendar::Reforming(2_361_222);

// 1752-09-14, following 1752-09-02 O.S.
pub const UNITED_STATES: Calendar = Calendar::Reforming(2_361_222);

// 1919-03-18, following 1919-03-04 O.S.
pub const YUGOSLAVIA: Calendar = Calendar::Reforming(2_422_036);

// ---- The names

// The calendar of a name, in capitals.
pub fn named(name: &[u8]) -> Result<Calendar, Refusal>
    ensures { NamesCalendar name.now result }
{
    look_up(name).ok_or(refusal_of(19, 0))
}

// Among all of them. A name is compared with those of its own length. One that is none here may still be one elsewhere, so this is no refusal.
pub fn look_up(name: &[u8]) -> Option<Calendar>
    ensures { FoundAs name.now result }
{
    match name.len() {
        5 if same(name, b"CHINA") => Some(CHINA),
        5 if same(name, b"ITALY") => Some(ITALY),
        5 if same(name, b"JAPAN") => Some(JAPAN),
        5 if same(name, b"SPAIN") => Some(SPAIN),
        6 if same(name, b"JULIAN") => Some(Calendar::JULIAN),
        6 if same(name, b"CANADA") => Some(CANADA),
        6 if same(name, b"FRANCE") => Some(FRANCE),
        6 if same(name, b"GREECE") => Some(GREECE),
        6 if same(name, b"LATVIA") => Some(LATVIA),
        6 if same(name, b"NORWAY") => Some(NORWAY),
        6 if same(name, b"POLAND") => Some(POLAND),
        6 if same(name, b"RUSSIA") => Some(RUSSIA),
        6 if same(name, b"SWEDEN") => Some(SWEDEN),
        6 if same(name, b"TURKEY") => Some(TURKEY),
        7 if same(name, b"ALBANIA") => Some(ALBANIA),
        7 if same(name, b"AUSTRIA") => Some(AUSTRIA),
        7 if same(name, b"BELGIUM") => Some(BELGIUM),
        7 if same(name, b"DENMARK") => Some(DENMARK),
        7 if same(name, b"FINLAND") => Some(FINLAND),
        7 if same(name, b"GERMANY") => Some(GERMANY),
        7 if same(name, b"HUNGARY") => Some(HUNGARY),
        7 if same(name, b"ICELAND") => Some(ICELAND),
        7 if same(name, b"ROMANIA") => Some(ROMANIA),
        8 if same(name, b"BULGARIA") => Some(BULGARIA),
        8 if same(name, b"PORTUGAL") => Some(PORTUGAL),
        8 if same(name, b"SLOVENIA") => Some(SLOVENIA),
        9 if same(name, b"GREGORIAN") => Some(Calendar::GREGORIAN),
        9 if same(name, b"AUSTRALIA") => Some(AUSTRALIA),
        9 if same(name, b"LITHUANIA") => Some(LITHUANIA),
        10 if same(name, b"LUXEMBOURG") => Some(LUXEMBOURG),
        10 if same(name, b"YUGOSLAVIA") => Some(YUGOSLAVIA),
        11 if same(name, b"NETHERLANDS") => Some(NETHERLANDS),
        11 if same(name, b"SWITZERLAND") => Some(SWITZERLAND),
        13 if same(name, b"UNITED_STATES") => Some(UNITED_STATES),
        14 if same(name, b"CZECH_REPUBLIC") => Some(CZECH_REPUBLIC),
        14 if same(name, b"UNITED_KINGDOM") => Some(UNITED_KINGDOM),
        _ => None,
    }
}

fn same(name: &[u8], own: &[u8]) -> bool
    ensures { Whether (name.now ≡ own.now) result }
{
    name.len() == own.len() && name.iter().zip(own).all(|(a, b)| a == b)
}
