// Corners that are known to be near.
ghost use Rattle.std.specs.Prelude.{◌≡◌};
ghost use Rattle.decimetre.specs.Exact.{near_of};

use crate::admit::is_near;
use crate::corner::Corner;
use std::marker::Model;

/// A corner that is near to the origin, so that 16 bits hold each coordinate. Clauses see it as the corner.
#[derive(Clone, Copy)]
pub(crate) struct NearCorner {
    pub x: i16,
    pub y: i16,
}

impl Model for NearCorner {
    ghost use Rattle.decimetre.specs.declared.corner.Corner.{Corner};
    ghost use Rattle.decimetre.specs.Exact.{Near};

    ghost Value = { Corner };

    ghost view = { λ c. record { x = c.x; y = c.y } };

    ghost invariant = { λ c. Near (record { x = c.x; y = c.y }) };

    ghost inverse = { λ c. record { x = c.x; y = c.y } };
}

impl Corner {
    /// The corner as one that is known to be near, if it is.
    // A corner is plain and no question is refused, so one that is not near has a plain answer: level, apart, false, the origin.
    pub(crate) fn near(self) -> Option<NearCorner>
        ensures { result ≡ near_of self }
    {
        // Not by `then`: its closure takes up the two fields apart, and would need a `requires` of its own that says again what is tested here.
        if is_near(self) {
            Some(NearCorner {
                x: self.x as i16,
                y: self.y as i16,
            })
        } else {
            None
        }
    }
}
