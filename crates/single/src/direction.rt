// How the directions of two edges lie to one another.
ghost use Rattle.std.specs.Prelude.{◌≡◌};
ghost use Rattle.single.specs.Triangle.{turn_of, against_of};

use crate::corner::Corner;
use crate::math::ZERO;
use crate::triangle::orientation2d;
use plane::answer::Side;

/// To which side the direction from c to d turns from that from a to b.
pub fn turn(a: Corner, b: Corner, c: Corner, d: Corner, epsilon: f32) -> Side
    ensures { result ≡ turn_of a b c d epsilon }
{
    orientation2d(ZERO, b - a, d - c, epsilon)
}

/// Whether these directions have a negative dot product.
pub fn against(a: Corner, b: Corner, c: Corner, d: Corner) -> bool
    ensures { result ≡ against_of a b c d }
{
    (b - a).dot(d - c) < 0.0
}
