// Outlines that have been checked.
ghost use Rattle.std.specs.Prelude.{◌≡◌, ◌≤◌, List, length};
ghost use Rattle.std.specs.List.{AllByRecursion};
ghost use Rattle.plane.specs.Meaning.{Admitted};
ghost use Rattle.plane.specs.Outlines.{most_corners};
ghost use Rattle.plane.specs.Rings.{edges, edges_left};

use crate::arithmetic::Arithmetic;
use crate::edge::Edges;
use std::marker::Model;

/// The most corners that an outline holds.
pub const MOST_CORNERS: usize = 1024;

/// A checked outline over corners that are lent for reading: few enough, each of which the arithmetic admits.
/// A contract sees it as the list of its corners, in order.
#[derive(Drop)]
pub struct Outline<'a, K: Arithmetic> {
    corners: &'a [K::Corner],
}

impl<'a, K: Arithmetic> Model for Outline<'a, K> {
    ghost Value = { List K.Corner };

    ghost view = { λ o. o.corners.now };

    ghost invariant = { λ o. (length o.corners.now ≤ most_corners) × AllByRecursion (Admitted K.meaning) o.corners.now };
}

// What the invariant says is told of the corners and of the edges again, since who has those does not see the outline.
impl<'a, K: Arithmetic> Outline<'a, K> {
    /// The outline over corners that are few and admitted.
    pub fn over(corners: &'a [K::Corner]) -> Self
        requires short { length corners.now ≤ most_corners }
        requires fine { AllByRecursion (Admitted K.Arithmetic.meaning) corners.now }
        ensures { result ≡ corners.now }
    {
        Outline { corners }
    }

    /// Its edges, in order.
    pub fn edges(&self) -> Edges<'a, K::Corner>
        ensures value { edges_left result ≡ edges self.now }
        ensures few { length (edges_left result) ≤ most_corners }
    {
        Edges::of(self.corners)
    }

    /// Its corners, in order.
    pub fn corners(&self) -> &'a [K::Corner]
        ensures value { result.now ≡ self.now }
        ensures short { length result.now ≤ most_corners }
        ensures fine { AllByRecursion (Admitted K.Arithmetic.meaning) result.now }
    {
        self.corners
    }
}
