// Writing down the crossings of two outlines.
ghost use Rattle.std.specs.Prelude.{◌≡◌, ◌≤◌, ◌++◌, length, drop};
ghost use Rattle.chart.specs.Records.{record_at, records_of};

use crate::record::{Record, Spot, leaving};
use plane::answer::Meet;
use plane::arithmetic::Arithmetic;
use plane::edge::Edge;
use plane::outline::Outline;

// The record of an edge of ring one and an edge of ring two, each behind its number, if they cross.
fn crossing<K: Arithmetic>(
    arith: &K,
    e: (u32, Edge<K::Corner>),
    f: (u32, Edge<K::Corner>),
) -> Option<Record<K::Mark>>
    ensures { result ≡ record_at K.Arithmetic.meaning arith.now e f }
{
    let (i, e) = e;
    let (j, f) = f;
    match arith.meet(e.from, e.to, f.from, f.to) {
        Meet::Crossing(m, n) => Some(Record {
            one: Spot { edge: i, mark: m },
            two: Spot { edge: j, mark: n },
            leaving: leaving(arith, e, f),
        }),
        _ => None,
    }
}

/// Writes down the crossings of ring one with ring two, by the edge of ring one, then by that of ring two.
pub(crate) fn fill<K: Arithmetic>(
    arith: &K,
    one: &Outline<K>,
    two: &Outline<K>,
    records: &mut [Record<K::Mark>],
)
    requires { length (records_of K.Arithmetic.meaning arith.now one.now two.now) ≤ length records.old }
    ensures { records.new ≡ records_of K.Arithmetic.meaning arith.now one.now two.now ++ drop (length (records_of K.Arithmetic.meaning arith.now one.now two.now)) records.old }
{
    // Counted: of a slice lent to an adapter of iter_mut no element is known, and a loop over one flat_map of all pairs is not proved.
    let mut found = 0;
    for e in (0..).zip(one.edges()) {
        for f in (0..).zip(two.edges()) {
            if let Some(record) = crossing(arith, e, f) {
                records[found] = record;
                found += 1;
            }
        }
    }
}
