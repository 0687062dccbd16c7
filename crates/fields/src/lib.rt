// The numbers of a date that follow from its day and its calendar, its style among them as a number, and whether two dates agree in all of them.
// For the crates above.

#![tactic(auto)]

ghost use Rattle.fields.specs.Promise.{IsSame};

#[derive(Clone, Copy, PartialEq, Eq)]
pub struct Fields {
    pub year: i32,
    pub ordinal: u32,
    pub month: u32,
    pub day: u32,
    pub day_ordinal: u32,
    pub style: u32,
}

pub fn same_fields(a: Fields, b: Fields) -> bool
    ensures { IsSame a b result }
{
    a == b
}
