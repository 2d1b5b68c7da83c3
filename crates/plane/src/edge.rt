// The edges of a ring of corners.
ghost use Rattle.std.specs.Prelude.{◌≡◌, length};
ghost use Rattle.plane.specs.Rings.{edges, edges_left};

use std::slice::Iter;

/// An edge runs from a corner to a corner.
#[derive(Clone, Copy, PartialEq, Eq, Debug)]
pub struct Edge<C> {
    pub from: C,
    pub to: C,
}

/// The edges of a ring that are still to come. An iterator with a name, since a chain that a function returns as `impl Iterator` has no proof yet.
#[derive(Drop)]
pub struct Edges<'a, C> {
    ring: &'a [C],
    rest: Iter<'a, C>,
}

impl<'a, C> Edges<'a, C> {
    /// The edges of a ring, in order: from each corner to the next, and from the last to the first.
    pub fn of(ring: &'a [C]) -> Self
        ensures value { edges_left result ≡ edges ring.now }
        ensures len { length (edges_left result) ≡ length ring.now }
    {
        Edges {
            ring,
            rest: ring.iter(),
        }
    }
}

impl<C: Copy> Iterator for Edges<'_, C> {
    ghost use Rattle.std.specs.Iterator.{YieldsFirst, item_count};

    type Item = Edge<C>;

    ghost next_gives = { YieldsFirst edges_left };

    ghost remaining = { item_count edges_left };

    fn next(&mut self) -> Option<Edge<C>> {
        let from = *self.rest.next()?;
        let to = *self.rest.as_slice().first().or(self.ring.first())?;
        Some(Edge { from, to })
    }
}
