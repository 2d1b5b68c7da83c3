// What single precision works on.
ghost use Rattle.std.specs.Prelude.{◌≡◌};
ghost use Rattle.single.specs.Admitted.{corner_of};
ghost use Rattle.single.specs.Marks.{point_of};

use plane::{mark, pair};

/// Two numbers that may become a corner.
pub type Pair = pair::Pair<f32>;

/// A corner. Those within 2^59 of the origin on each axis are admitted.
// Not one type over any number, as `Pair` is, since `-` and the products of corners have to stand where the type is declared.
#[derive(Clone, Copy, PartialEq, Debug)]
pub struct Corner {
    pub x: f32,
    pub y: f32,
}

impl From<Pair> for Corner {
    ghost from_gives = { λ p c. c ≡ corner_of p };

    fn from(pair: Pair) -> Self {
        Corner {
            x: pair.x,
            y: pair.y,
        }
    }
}

/// The weights of an edge's two corners at a position inside it: 1 - s on the corner before it, and s on the one behind.
#[derive(Clone, Copy, PartialEq, Debug)]
pub struct Weights {
    pub before: f32,
    pub behind: f32,
}

/// A position on an edge.
pub type Mark = mark::Mark<Weights>;

/// A point. What is told is kept apart from the pairs and corners that are asked about, so that neither passes for the other.
#[derive(Clone, Copy, PartialEq, Debug)]
pub struct Point {
    pub x: f32,
    pub y: f32,
}

impl From<Corner> for Point {
    ghost from_gives = { λ c p. p ≡ point_of c };

    fn from(corner: Corner) -> Self {
        Point {
            x: corner.x,
            y: corner.y,
        }
    }
}
