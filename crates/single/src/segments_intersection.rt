// Where two edges meet.
ghost use Rattle.std.specs.Prelude.{◌≡◌};
ghost use Rattle.single.specs.Meets.{denom_of, num_of, is_parallel, classified, along, between_of, parallel_of, meet_of};
ghost use Rattle.single.specs.Sane.{AllAdmitted, FiniteParts, SaneMeet};

use crate::corner::{Corner, Mark, Weights};
use crate::triangle::orientation2d;
use plane::answer::{Meet, Side};
use plane::mark::overlap;

/// How the edges from a to b and from c to d meet. For admitted corners what is divided is finite,
/// and the marks are numbers from 0 to 1.
pub fn segments_intersection2d(
    a: Corner,
    b: Corner,
    c: Corner,
    d: Corner,
    epsilon: f32,
) -> Meet<Mark>
    ensures value { result ≡ meet_of a b c d epsilon }
    ensures parts { AllAdmitted a b c d → FiniteParts a b c d }
    ensures sane { AllAdmitted a b c d → SaneMeet result }
{
    let denom = denom_of(a, b, c, d);
    if is_parallel(denom, epsilon) {
        return parallel_intersection(a, b, c, d, epsilon);
    }
    let s = num_of(a, c, d) / denom;
    let t = -num_of(a, b, c) / denom;
    if 0.0 > s || s > 1.0 || 0.0 > t || t > 1.0 {
        Meet::Apart
    } else {
        Meet::Crossing(classify(s), classify(t))
    }
}

// What the places on both edges are divided by. These two formulas are those of the exact arithmetic, in the source's order of terms: shared,
// their contracts would say of each `*`, `+` and `-` that it may be made and what it gives.
fn denom_of(a: Corner, b: Corner, c: Corner, d: Corner) -> f32
    ensures { result ≡ denom_of a b c d }
{
    a.x * (d.y - c.y) + b.x * (c.y - d.y) + d.x * (b.y - a.y) + c.x * (a.y - b.y)
}

// What is divided for a place on an edge, but for its sign.
fn num_of(p: Corner, q: Corner, r: Corner) -> f32
    ensures { result ≡ num_of p q r }
{
    p.x * (r.y - q.y) + q.x * (p.y - r.y) + r.x * (q.y - p.y)
}

// Below the tolerance, or at most 2^-23 in size.
fn is_parallel(denom: f32, epsilon: f32) -> bool
    ensures { result ≡ is_parallel denom epsilon }
{
    denom.abs() < epsilon || denom.abs() <= f32::EPSILON
}

// How parallel edges meet: apart where c is not level with the edge from a to b. It has its name in either arithmetic, as
// in the source; shared, it would be handed the level test and `between` as closures.
fn parallel_intersection(a: Corner, b: Corner, c: Corner, d: Corner, epsilon: f32) -> Meet<Mark>
    ensures { result ≡ parallel_of a b c d epsilon }
{
    if orientation2d(a, b, c, epsilon) != Side::Level {
        return Meet::Apart;
    }
    overlap(
        between(a, b, c),
        between(a, b, d),
        between(c, d, a),
        between(c, d, b),
    )
}

// Where c lies on the edge from a to b, if it does, for c on its line.
fn between(a: Corner, b: Corner, c: Corner) -> Option<Mark>
    ensures { result ≡ between_of a b c }
{
    // If ab is not upright, by x; else by y.
    if a.x != b.x {
        on_axis(a.x, b.x, c.x)
    } else if a.y != b.y {
        on_axis(a.y, b.y, c.y)
    } else if a.x == c.x && a.y == c.y {
        Some(Mark::Start)
    } else {
        None
    }
}

// Where w lies from u to v, on one axis.
fn on_axis(u: f32, v: f32, w: f32) -> Option<Mark>
    ensures { result ≡ along u v w }
{
    if u <= w && w <= v {
        Some(classify((w - u) / (v - u)))
    } else if u >= w && w >= v {
        let bcoord = (w - v) / (u - v);
        Some(classify(1.0 - bcoord))
    } else {
        None
    }
}

// The mark at this part of an edge.
fn classify(bcoord_b: f32) -> Mark
    ensures { result ≡ classified bcoord_b }
{
    if bcoord_b == 0.0 {
        Mark::Start
    } else if bcoord_b == 1.0 {
        Mark::End
    } else {
        Mark::Inside(Weights {
            before: 1.0 - bcoord_b,
            behind: bcoord_b,
        })
    }
}
