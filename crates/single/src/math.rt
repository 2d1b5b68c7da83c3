// Corners as vectors.
ghost use Rattle.std.specs.Prelude.{◌≡◌};
ghost use Rattle.single.specs.Vectors.{minus, perp_dot, dot_of};

use crate::corner::Corner;
use std::ops::Sub;

/// The origin.
pub(crate) const ZERO: Corner = Corner { x: 0.0, y: 0.0 };

impl Sub<Corner> for Corner {
    type Output = Corner;

    ghost sub_gives = { λ p q r. r ≡ minus p q };

    fn sub(self, other: Corner) -> Corner {
        Corner {
            x: self.x - other.x,
            y: self.y - other.y,
        }
    }
}

impl Corner {
    // These products stand in the exact arithmetic too: shared, their contracts would say of each `*` and `-` that it may be made and what it gives.

    /// Above 0 where the other vector lies to the left of this one.
    pub(crate) fn perp_dot(self, other: Corner) -> f32
        ensures { result ≡ perp_dot self other }
    {
        self.x * other.y - self.y * other.x
    }

    /// Below 0 where the other vector points against this one.
    pub(crate) fn dot(self, other: Corner) -> f32
        ensures { result ≡ dot_of self other }
    {
        self.x * other.x + self.y * other.y
    }
}
