// Where two edges meet.
ghost use Rattle.std.specs.Prelude.{◌≡◌};
ghost use Rattle.decimetre.specs.Exact.{denom, num_of, portion, share, crossing, between_at, parallel, meet_at};
ghost use Rattle.decimetre.specs.Plane.{ProperMeet};

use crate::corner::{Corner, Fraction, Mark};
use crate::math::{Measure, Vector2};
use crate::near::NearCorner;
use crate::triangle::{area2_of, side_of};
use plane::answer::{Meet, Side};
use plane::mark::overlap;

// The denominator of the places on both edges: 0 where the edges are parallel. These two formulas are those of single precision, in the source's
// order of terms: shared, their contracts would say of each `*`, `+` and `-` that it may be made and what it gives.
fn denom_of(a: NearCorner, b: NearCorner, c: NearCorner, d: NearCorner) -> Measure
    ensures { result ≡ denom a b c d }
{
    let (a, b) = (Vector2::from(a), Vector2::from(b));
    let (c, d) = (Vector2::from(c), Vector2::from(d));
    Measure {
        value: a.x * (d.y - c.y) + b.x * (c.y - d.y) + d.x * (b.y - a.y) + c.x * (a.y - b.y),
    }
}

// The numerator of a place on an edge, but for its sign.
fn num_of(p: NearCorner, q: NearCorner, r: NearCorner) -> Measure
    ensures { result ≡ num_of p q r }
{
    let (p, q, r) = (Vector2::from(p), Vector2::from(q), Vector2::from(r));
    Measure {
        value: p.x * (r.y - q.y) + q.x * (p.y - r.y) + r.x * (q.y - p.y),
    }
}

// The mark at num over denom, where denom is above 0: none outside 0 to 1.
fn portion_of(num: Measure, denom: Measure) -> Option<Mark>
    ensures { result ≡ portion num denom }
{
    if num < Measure::ZERO || num > denom {
        None
    } else if num == Measure::ZERO {
        Some(Mark::Start)
    } else if num == denom {
        Some(Mark::End)
    } else {
        Some(Mark::Inside(Fraction {
            upper: num.value as u32,
            lower: denom.value as u32,
        }))
    }
}

// The same where denom is not 0: its sign is made positive first.
fn share_of(num: Measure, denom: Measure) -> Option<Mark>
    ensures { result ≡ share num denom }
{
    if denom < Measure::ZERO {
        portion_of(-num, -denom)
    } else {
        portion_of(num, denom)
    }
}

// Edges that are not parallel cross where both marks exist.
fn crossing_of(s: Option<Mark>, t: Option<Mark>) -> Meet<Mark>
    ensures { result ≡ crossing s t }
{
    match (s, t) {
        (Some(loc1), Some(loc2)) => Meet::Crossing(loc1, loc2),
        _ => Meet::Apart,
    }
}

// Where c lies on the edge from a to b, if it does, for three corners of one line.
fn between(a: NearCorner, b: NearCorner, c: NearCorner) -> Option<Mark>
    ensures { result ≡ between_at a b c }
{
    let ab = b - a;
    let ac = c - a;
    // By x, or by y where the edge stands upright.
    if ab.x != 0 {
        share_of(Measure { value: ac.x }, Measure { value: ab.x })
    } else if ab.y != 0 {
        share_of(Measure { value: ac.y }, Measure { value: ab.y })
    } else if ac.x == 0 && ac.y == 0 {
        Some(Mark::Start)
    } else {
        None
    }
}

// How two parallel edges meet: apart unless c is level with ab. It keeps the source's name in either arithmetic: shared, it would be handed
// the level test and `between` as closures.
fn parallel_intersection(a: NearCorner, b: NearCorner, c: NearCorner, d: NearCorner) -> Meet<Mark>
    ensures { result ≡ parallel a b c d }
{
    if side_of(area2_of(a, b, c)) != Side::Level {
        return Meet::Apart;
    }
    let ab_c = between(a, b, c);
    let ab_d = between(a, b, d);
    let cd_a = between(c, d, a);
    let cd_b = between(c, d, b);
    overlap(ab_c, ab_d, cd_a, cd_b)
}

/// How the edges from a to b and from c to d meet, apart where a corner is not near.
pub fn segments_intersection2d(a: Corner, b: Corner, c: Corner, d: Corner) -> Meet<Mark>
    ensures value { result ≡ meet_at a b c d }
    ensures proper { ProperMeet result }
{
    let (Some(a), Some(b), Some(c), Some(d)) = (a.near(), b.near(), c.near(), d.near()) else {
        return Meet::Apart;
    };
    let denom = denom_of(a, b, c, d);
    if denom == Measure::ZERO {
        return parallel_intersection(a, b, c, d);
    }
    let s = share_of(num_of(a, c, d), denom);
    let t = share_of(-num_of(a, b, c), denom);
    crossing_of(s, t)
}
