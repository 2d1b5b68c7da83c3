// On which side of an edge a corner lies.
ghost use Rattle.std.specs.Prelude.{◌≡◌};
ghost use Rattle.single.specs.Triangle.{orientation_of};

use crate::corner::Corner;
use plane::answer::Side;

/// On which side of the edge from a to b the corner c lies: level where the doubled area is within the tolerance.
pub fn orientation2d(a: Corner, b: Corner, c: Corner, epsilon: f32) -> Side
    ensures { result ≡ orientation_of a b c epsilon }
{
    let area2 = (b - a).perp_dot(c - a);
    if area2 > epsilon {
        Side::Left
    } else if area2 < -epsilon {
        Side::Right
    } else {
        Side::Level
    }
}
