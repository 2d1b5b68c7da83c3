// The points that marks and corners stand for.
ghost use Rattle.std.specs.Prelude.{◌≡◌};
ghost use Rattle.single.specs.Marks.{bcoords_of, point_at};

use crate::corner::{Corner, Mark, Point, Weights};

/// How far along its edge a mark stands, from 0 to 1.
pub(crate) fn centered_bcoords(m: Mark) -> f32
    ensures { result ≡ bcoords_of m }
{
    match m {
        Mark::Start => 0.0,
        Mark::Inside(weights) => weights.behind,
        Mark::End => 1.0,
    }
}

/// The point of the mark m on the edge from a to b: a corner where the mark is at an end, else both corners by their weights.
pub fn to_point(a: Corner, b: Corner, m: Mark) -> Point
    ensures { result ≡ point_at a b m }
{
    match m {
        Mark::Start => Point::from(a),
        Mark::Inside(Weights { before, behind }) => Point {
            x: a.x * before + b.x * behind,
            y: a.y * before + b.y * behind,
        },
        Mark::End => Point::from(b),
    }
}
