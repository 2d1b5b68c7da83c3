// Which of two outlines without crossings lies inside the other.
ghost use Rattle.std.specs.Prelude.{◌≡◌};
ghost use Rattle.chart.specs.Charts.{inner_where};

use plane::arithmetic::Arithmetic;
use plane::outline::Outline;
use plane::point_in_poly2d::point_in_poly2d;
use plane::ring::Ring;

/// The outline that lies inside the other, by the first corner of either, where they have no crossing.
pub fn inner_ring<K: Arithmetic>(
    arith: &K,
    one: &Outline<K>,
    two: &Outline<K>,
    count: usize,
) -> Option<Ring>
    ensures { result ≡ inner_where K.Arithmetic.meaning arith.now count one.now two.now }
{
    if count > 0 {
        return None;
    }
    let first = *one.corners().first()?;
    let other = *two.corners().first()?;
    if point_in_poly2d(arith, first, two) {
        return Some(Ring::One);
    }
    point_in_poly2d(arith, other, one).then_some(Ring::Two)
}
