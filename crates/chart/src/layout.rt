// Where the chains of a chart lie in its words.
ghost use Rattle.std.specs.Prelude.{◌≡◌, ◌+◌, ◌*◌, ◌≤◌, length};
ghost use Rattle.plane.specs.Outlines.{most_corners};
ghost use Rattle.chart.specs.Words.{base, start};

use plane::arithmetic::Arithmetic;
use plane::outline::Outline;
use plane::ring::Ring;

/// How many words tell a crossing.
pub(crate) const WORDS_PER_CROSSING: usize = 6;

/// How many corners the rings have, each as many as edges.
#[derive(Clone, Copy)]
pub(crate) struct Corners {
    pub(crate) one: u32,
    pub(crate) two: u32,
}

impl Corners {
    /// Of two outlines.
    pub(crate) fn of<K: Arithmetic>(one: &Outline<K>, two: &Outline<K>) -> Corners
        ensures value { result ≡ record { one = length one.now; two = length two.now } }
        ensures few { (result.one ≤ most_corners) × (result.two ≤ most_corners) }
    {
        Corners {
            one: one.corners().len() as u32,
            two: two.corners().len() as u32,
        }
    }

    /// How many slots the chains have, one for each edge.
    pub(crate) fn slots(self) -> usize
        ensures { result ≡ self.one + self.two }
    {
        self.one as usize + self.two as usize
    }

    /// The slot of the ring's first edge.
    pub(crate) fn start(self, ring: Ring) -> usize
        ensures { result ≡ start ring self }
    {
        match ring {
            Ring::One => 0,
            Ring::Two => self.one as usize,
        }
    }

    /// Where the pointer of a crossing along this ring stands.
    pub(crate) fn pointer(self, ring: Ring, id: u32) -> usize
        ensures { result ≡ base ring self + 6 * id }
    {
        let first = match ring {
            Ring::One => self.slots(),
            Ring::Two => self.slots() + 1,
        };
        first + WORDS_PER_CROSSING * id as usize
    }
}
