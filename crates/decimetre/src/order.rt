// Where marks stand on their edge.
ghost use Rattle.std.specs.Prelude.{◌≡◌};
ghost use Rattle.decimetre.specs.Exact.{part_of, not_after};

use crate::corner::{Fraction, Mark};

/// A mark as a fraction: start is 0 over 1, end 1 over 1.
impl From<Mark> for Fraction {
    ghost from_gives = { λ m part. part ≡ part_of m };

    fn from(m: Mark) -> Self {
        match m {
            Mark::Start => Fraction { upper: 0, lower: 1 },
            Mark::Inside(part) => part,
            Mark::End => Fraction { upper: 1, lower: 1 },
        }
    }
}

/// Whether m stands before n or level with it, as marks of one edge.
// Not a derived order: a fraction is not reduced and may have 0 below, so the order by cross multiplication breaks the laws of `PartialOrd`.
pub fn not_after(m: Mark, n: Mark) -> bool
    ensures { result ≡ not_after m n }
{
    let first = Fraction::from(m);
    let second = Fraction::from(n);
    first.upper as u64 * second.lower as u64 <= second.upper as u64 * first.lower as u64
}
