// How the directions of two edges lie to one another.
ghost use Rattle.std.specs.Prelude.{◌≡◌};
ghost use Rattle.decimetre.specs.Exact.{turn_at, against_at};

use crate::corner::Corner;
use crate::math::Measure;
use crate::triangle::side_of;
use plane::answer::Side;

/// To which side the direction from c to d turns from that from a to b, level where a corner is not near.
pub fn turn(a: Corner, b: Corner, c: Corner, d: Corner) -> Side
    ensures { result ≡ turn_at a b c d }
{
    let (Some(a), Some(b), Some(c), Some(d)) = (a.near(), b.near(), c.near(), d.near()) else {
        return Side::Level;
    };
    side_of((b - a).perp_dot(d - c))
}

/// Whether these directions have a negative dot product, false where a corner is not near.
pub fn against(a: Corner, b: Corner, c: Corner, d: Corner) -> bool
    ensures { result ≡ against_at a b c d }
{
    let (Some(a), Some(b), Some(c), Some(d)) = (a.near(), b.near(), c.near(), d.near()) else {
        return false;
    };
    (b - a).dot(d - c) < Measure::ZERO
}
