// The digits of a number as it is written, with no padding: how many there are.

ghost use Rattle.std.specs.Prelude.{◌≤◌};
ghost use Rattle.writer.specs.Promise.{Width};

// How many digits a number has. They are counted four at a time, since most numbers in a text have fewer than five.
pub fn width(n: u64) -> usize
    ensures { (Width n result) × (result ≤ 20) }
{
    let mut rest = n;
    let mut k: usize = 0;
    while 10_000 <= rest {
        rest /= 10_000;
        k += 4;
    }
    if rest < 10 {
        return k + 1;
    }
    if rest < 100 {
        return k + 2;
    }
    if rest < 1000 {
        return k + 3;
    }
    k + 4
}
