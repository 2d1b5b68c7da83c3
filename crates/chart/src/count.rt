// How many crossings two outlines have.
ghost use Rattle.std.specs.Prelude.{◌≡◌, ◌≤◌, count_by};
ghost use Rattle.plane.specs.Outlines.{most_corners};
ghost use Rattle.plane.specs.Rings.{edges};
ghost use Rattle.chart.specs.Crossings.{crosses, crossings};

use plane::answer::Meet;
use plane::arithmetic::Arithmetic;
use plane::edge::Edge;
use plane::outline::Outline;

// Whether two edges cross.
fn crosses<K: Arithmetic>(arith: &K, e: Edge<K::Corner>, f: Edge<K::Corner>) -> bool
    ensures { result ≡ crosses K.Arithmetic.meaning arith.now e f }
{
    matches!(arith.meet(e.from, e.to, f.from, f.to), Meet::Crossing(_, _))
}

// How many edges of an outline cross an edge.
fn cross_edge<K: Arithmetic>(arith: &K, e: Edge<K::Corner>, two: &Outline<K>) -> usize
    ensures number { result ≡ count_by (crosses K.Arithmetic.meaning arith.now e) (edges two.now) }
    ensures few { result ≤ most_corners }
{
    two.edges().filter(|f| crosses(arith, e, *f)).count()
}

// Here and in the other calls the arithmetic and the two outlines are three arguments, as in the source: a struct of them would be made for one call.

/// How many pairs of an edge of each outline cross.
pub fn count<K: Arithmetic>(arith: &K, one: &Outline<K>, two: &Outline<K>) -> usize
    ensures { result ≡ crossings K.Arithmetic.meaning arith.now one.now two.now }
{
    let edges = one.edges();
    edges.map(|e| cross_edge(arith, e, two)).sum()
}
