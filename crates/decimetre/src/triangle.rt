// On which side of an edge a corner lies.
ghost use Rattle.std.specs.Prelude.{◌≡◌};
ghost use Rattle.decimetre.specs.Exact.{area2, side_of, side_at};

use crate::corner::Corner;
use crate::math::Measure;
use crate::near::NearCorner;
use plane::answer::Side;
use std::cmp::Ordering;

/// The doubled area of the triangle from a by b to c, above 0 where it turns left.
pub(crate) fn area2_of(a: NearCorner, b: NearCorner, c: NearCorner) -> Measure
    ensures { result ≡ area2 a b c }
{
    (b - a).perp_dot(c - a)
}

/// The side that a doubled area tells by its sign.
pub(crate) fn side_of(area: Measure) -> Side
    ensures { result ≡ side_of area }
{
    match area.cmp(&Measure::ZERO) {
        Ordering::Greater => Side::Left,
        Ordering::Less => Side::Right,
        Ordering::Equal => Side::Level,
    }
}

/// On which side of the edge from a to b the corner c lies, level where one of them is not near.
pub fn orientation2d(a: Corner, b: Corner, c: Corner) -> Side
    ensures { result ≡ side_at a b c }
{
    let (Some(a), Some(b), Some(c)) = (a.near(), b.near(), c.near()) else {
        return Side::Level;
    };
    side_of(area2_of(a, b, c))
}
