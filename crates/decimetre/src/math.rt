// Corners as vectors, wide enough for their products.
ghost use Rattle.std.specs.Prelude.{◌*◌, ◌≤◌, unsigned_abs};
ghost use Rattle.decimetre.specs.Exact.{farthest};

use crate::near::NearCorner;
use std::marker::Model;
use std::ops::{Neg, Sub};

/// What leads from one near corner to another.
#[derive(Clone, Copy)]
pub(crate) struct Vector2 {
    pub x: i64,
    pub y: i64,
    ghost short: { (unsigned_abs x ≤ 2 * farthest) × (unsigned_abs y ≤ 2 * farthest) },
}

/// What edges are measured by: a length along an axis, a doubled area, a dot product, or the denominator or numerator of a place on an edge.
/// At most 2^31 in size. Clauses see it as the number.
#[derive(Clone, Copy, PartialEq, Eq, PartialOrd, Ord)]
pub(crate) struct Measure {
    pub value: i64,
}

impl Model for Measure {
    ghost use Rattle.std.specs.Prelude.{ℤ, ◌^◌, ◌≤◌, unsigned_abs};

    ghost Value = { ℤ };

    ghost view = { λ m. m.value };

    ghost invariant = { λ m. unsigned_abs m.value ≤ 2 ^ 31 };

    ghost inverse = { λ z. record { value = z } };
}

impl Measure {
    pub(crate) const ZERO: Measure = Measure { value: 0 };
}

impl Neg for Measure {
    type Output = Measure;

    ghost use Rattle.std.specs.Prelude.{◌≡◌, neg_ℤ};

    ghost neg_gives = { λ z r. r ≡ neg_ℤ z };

    fn neg(self) -> Measure {
        Measure { value: -self.value }
    }
}

/// What leads from the origin to a corner.
impl From<NearCorner> for Vector2 {
    ghost use Rattle.decimetre.specs.Vectors.{Wide};

    ghost from_gives = { λ c v. Wide v c };

    fn from(c: NearCorner) -> Self {
        Vector2 {
            x: c.x as i64,
            y: c.y as i64,
        }
    }
}

impl Sub for NearCorner {
    type Output = Vector2;

    ghost use Rattle.decimetre.specs.Vectors.{Leads};

    ghost sub_gives = { λ b a v. Leads a b v };

    /// What leads from the other corner to this one.
    fn sub(self, other: NearCorner) -> Vector2 {
        Vector2 {
            x: self.x as i64 - other.x as i64,
            y: self.y as i64 - other.y as i64,
        }
    }
}

impl Vector2 {
    ghost use Rattle.std.specs.Prelude.{◌≡◌};
    ghost use Rattle.decimetre.specs.Vectors.{perp_dot, dot_of};

    // These products stand in single precision too: shared, their contracts would say of each `*` and `-` that it may be made and what it gives.

    /// Above 0 where the other vector lies to the left of this one.
    pub(crate) fn perp_dot(self, other: Vector2) -> Measure
        ensures { result ≡ perp_dot self other }
    {
        Measure {
            value: self.x * other.y - self.y * other.x,
        }
    }

    /// Below 0 where the other vector points against this one.
    pub(crate) fn dot(self, other: Vector2) -> Measure
        ensures { result ≡ dot_of self other }
    {
        Measure {
            value: self.x * other.x + self.y * other.y,
        }
    }
}
