// Whether a point lies inside a ring.
ghost use Rattle.std.specs.Prelude.{◌≡◌};
ghost use Rattle.plane.specs.Rings.{inside};

use crate::arithmetic::Arithmetic;
use crate::outline::Outline;

/// Whether an odd number of the ring's edges count for the point.
pub fn point_in_poly2d<K: Arithmetic>(arith: &K, pt: K::Corner, poly: &Outline<K>) -> bool
    ensures { result ≡ inside K.Arithmetic.meaning arith.now pt poly.now }
{
    let winding = poly
        .edges()
        .filter(|edge| arith.passed(pt, edge.from, edge.to))
        .count();
    winding % 2 == 1
}
