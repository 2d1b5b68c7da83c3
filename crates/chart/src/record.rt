// What is written down of a crossing.
ghost use Rattle.std.specs.Prelude.{◌≡◌};
ghost use Rattle.chart.specs.Records.{leaving_side, on};

use plane::answer::Side;
use plane::arithmetic::Arithmetic;
use plane::edge::Edge;
use plane::ring::Ring;

/// Where a crossing lies on a ring: the number of the edge, and the mark on it.
#[derive(Clone, Copy, Debug, PartialEq)]
pub struct Spot<M> {
    pub edge: u32,
    pub mark: M,
}

/// A crossing: where it lies on either ring, and the ring along which a loop leaves it.
#[derive(Clone, Copy, Debug, PartialEq)]
pub struct Record<M> {
    pub one: Spot<M>,
    pub two: Spot<M>,
    pub leaving: Ring,
}

impl<M> Record<M> {
    /// Where the crossing lies on the ring.
    pub fn spot(&self, ring: Ring) -> &Spot<M>
        ensures { result.now ≡ on ring self.now }
    {
        match ring {
            Ring::One => &self.one,
            Ring::Two => &self.two,
        }
    }
}

/// The ring along which a loop leaves the crossing of an edge of ring one with an edge of ring two.
pub fn leaving<K: Arithmetic>(arith: &K, e: Edge<K::Corner>, f: Edge<K::Corner>) -> Ring
    ensures { result ≡ leaving_side K.Arithmetic.meaning arith.now e f }
{
    match arith.side(e.from, e.to, f.from) {
        Side::Left => Ring::One,
        Side::Right => Ring::Two,
        Side::Level => match arith.side(e.from, e.to, f.to) {
            Side::Left => Ring::Two,
            _ => Ring::One,
        },
    }
}
