// A reader that holds the caller's bytes and how far it has read: thin functions over the reads at an offset of `numbertext`.
// For users.

#![tactic(auto)]

ghost use Rattle.std.specs.Prelude.{◌≡◌};
ghost use Rattle.numbertext.specs.Promise.{NumberAt, SignedAt, DashAt, EndAt};
ghost use Rattle.reader.specs.Promise.{pair_end, dash_end, Moves};

use refusals::Refusal;

#[derive(Clone, Copy)]
pub struct Reader<'a> {
    pub src: &'a [u8],
    pub at: usize,
}

// Each read that is accepted goes past what it read; one that is refused does not move the reader.
impl<'a> Reader<'a> {
    pub fn new(src: &'a [u8]) -> Reader<'a>
        ensures { (result.src ≡ src.entry) × (result.at ≡ 0) }
    {
        Reader { src, at: 0 }
    }

    pub fn number(&mut self) -> Result<(u32, usize), Refusal>
        ensures { Moves NumberAt pair_end self.old self.new result }
    {
        let (n, next) = numbertext::number_at(self.src, self.at)?;
        self.at = next;
        Ok((n, next))
    }

    pub fn signed(&mut self) -> Result<(i32, usize), Refusal>
        ensures { Moves SignedAt pair_end self.old self.new result }
    {
        let (y, next) = numbertext::signed_at(self.src, self.at)?;
        self.at = next;
        Ok((y, next))
    }

    pub fn dash(&mut self) -> Result<usize, Refusal>
        ensures { Moves DashAt dash_end self.old self.new result }
    {
        let next = numbertext::dash_at(self.src, self.at)?;
        self.at = next;
        Ok(next)
    }

    // Whether all bytes are read: the first one left over is told.
    pub fn end(self) -> Result<(), Refusal>
        ensures { EndAt self.entry.src.now self.entry.at result }
    {
        numbertext::end_at(self.src, self.at)
    }
}
