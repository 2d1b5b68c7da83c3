// Which pairs are admitted.
ghost use Rattle.std.specs.Prelude.{◌≡◌, true};
ghost use Rattle.decimetre.specs.Exact.{near, Near};
ghost use Rattle.decimetre.specs.Exact.{admitted as the_admitted};

use crate::corner::{Corner, Pair};

/// The farthest that a corner may lie from the origin, on each axis.
pub const FARTHEST: i32 = 16384;

/// Whether a corner is that near to the origin.
pub fn is_near(c: Corner) -> bool
    ensures value { result ≡ near c }
    ensures told { result ≡ true → Near c }
{
    let within = -FARTHEST..=FARTHEST;
    within.contains(&c.x) && within.contains(&c.y)
}

/// The corner that a pair is admitted as, if it is.
// Two lines, as in single precision: shared, they would be handed the test.
pub fn admitted(pair: Pair) -> Option<Corner>
    ensures { result ≡ the_admitted pair }
{
    let corner = Corner::from(pair);
    is_near(corner).then_some(corner)
}
