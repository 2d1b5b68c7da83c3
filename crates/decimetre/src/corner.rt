// What the exact arithmetic works on.
ghost use Rattle.std.specs.Prelude.{◌≡◌};
ghost use Rattle.decimetre.specs.Exact.{corner_of};

/// The exact arithmetic, in whole decimetres. Its tolerance is 0.
#[derive(Clone, Copy, PartialEq, Eq, Debug)]
pub struct Decimetre;

/// Two whole numbers that may become a corner.
pub type Pair = plane::pair::Pair<i32>;

/// A corner. Those within 16,384 of the origin on each axis are admitted.
// Not one type over any number, as `Pair` is: in single precision `-` and the products stand on the corner, and have to stand where the type is declared.
#[derive(Clone, Copy, PartialEq, Eq, Debug)]
pub struct Corner {
    pub x: i32,
    pub y: i32,
}

impl From<Pair> for Corner {
    ghost from_gives = { λ p c. c ≡ corner_of p };

    fn from(pair: Pair) -> Self {
        Corner {
            x: pair.x,
            y: pair.y,
        }
    }
}

/// The part of an edge that lies before a mark, not reduced.
#[derive(Clone, Copy, PartialEq, Eq, Debug)]
pub struct Fraction {
    pub upper: u32,
    pub lower: u32,
}

/// A position on an edge: inside it, the part that lies before.
pub type Mark = plane::mark::Mark<Fraction>;

/// A point: both coordinates over one lower number.
#[derive(Clone, Copy, PartialEq, Eq, Debug)]
pub struct Point {
    pub x: i64,
    pub y: i64,
    pub lower: u32,
}
