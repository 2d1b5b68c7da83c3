// Which pairs are admitted.
ghost use Rattle.std.specs.Prelude.{◌≡◌, IfSome};
ghost use Rattle.single.specs.Admitted.{in_reach, is_admitted};
ghost use Rattle.single.specs.Admitted.{admitted as the_admitted};
ghost use Rattle.single.specs.Sane.{FiniteCorner};

use crate::corner::{Corner, Pair};

/// The farthest that a corner may lie from the origin, on each axis: 2^59.
pub const FARTHEST: f32 = 576460752303423488.0;

// By two comparisons: of what a range of floats contains the check finds no proof.
fn within_reach(v: f32) -> bool
    ensures { result ≡ in_reach v }
{
    -FARTHEST <= v && v <= FARTHEST
}

// Whether a corner lies that near to the origin; not-a-number does not.
fn is_admitted(c: Corner) -> bool
    ensures { result ≡ is_admitted c }
{
    within_reach(c.x) && within_reach(c.y)
}

/// The corner that a pair is admitted as, if it is. Its numbers are then finite.
// Two lines, as in the exact arithmetic: shared, they would be handed the test.
#[tactic(auto, using(crate::proofs::Finite::admitted_finite))]
pub fn admitted(pair: Pair) -> Option<Corner>
    ensures value { result ≡ the_admitted pair }
    ensures numbers { IfSome result FiniteCorner }
{
    let corner = Corner::from(pair);
    is_admitted(corner).then_some(corner)
}
