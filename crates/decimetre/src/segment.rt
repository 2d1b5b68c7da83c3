// The points that marks and corners stand for.
ghost use Rattle.std.specs.Prelude.{◌≡◌, pos, ◌+ℤ◌, ◌-ℤ◌, ◌*ℤ◌};
ghost use Rattle.decimetre.specs.Exact.{point_at, point_of};

use crate::corner::{Corner, Fraction, Mark, Point};

// A coordinate between p and q, over the part's lower number.
fn weighed(p: i16, q: i16, part: Fraction) -> i64
    ensures { result ≡ p *ℤ (pos part.lower -ℤ pos part.upper) +ℤ q *ℤ pos part.upper }
{
    p as i64 * (part.lower as i64 - part.upper as i64) + q as i64 * part.upper as i64
}

/// The point of the mark m on the edge from a to b, the origin where one of them is not near.
pub fn to_point(a: Corner, b: Corner, m: Mark) -> Point
    ensures { result ≡ point_at a b m }
{
    let (Some(a), Some(b)) = (a.near(), b.near()) else {
        return Point {
            x: 0,
            y: 0,
            lower: 1,
        };
    };
    let part = Fraction::from(m);
    Point {
        x: weighed(a.x, b.x, part),
        y: weighed(a.y, b.y, part),
        lower: part.lower,
    }
}

impl From<Corner> for Point {
    ghost from_gives = { λ c p. p ≡ point_of c };

    fn from(c: Corner) -> Self {
        Point {
            x: c.x as i64,
            y: c.y as i64,
            lower: 1,
        }
    }
}
