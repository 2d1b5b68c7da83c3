// What is found out about a job.
ghost use Rattle.std.specs.Prelude.{◌≡◌, [], ◌∷◌};
ghost use Rattle.job.specs.Format.{answered};
ghost use Rattle.overlap.specs.Look.{found_between, look_at, cornered};
ghost use Rattle.overlap.specs.declared.look.Line.TheVariants.{Corners, Crossings};

use chart::count::count;
use decimetre::corner::{Corner, Decimetre};
use job::outlines::read_outlines;
use plane::outline::{MOST_CORNERS, Outline};
use plane::refusal::Refusal;
use std::fmt;

// Places for the corners of two outlines.
const PLACES: usize = 2 * MOST_CORNERS;

/// How many corners the two outlines have, and how many pairs of their edges cross.
#[derive(Clone, Copy, PartialEq, Eq, Debug)]
pub struct Found {
    pub one: usize,
    pub two: usize,
    pub crossings: usize,
}

// Counts, of two outlines.
fn found_between(one: &Outline<Decimetre>, two: &Outline<Decimetre>) -> Found
    ensures { result ≡ found_between one.now two.now }
{
    Found {
        one: one.corners().len(),
        two: two.corners().len(),
        crossings: count(&Decimetre, one, two),
    }
}

/// Reads a job, and counts.
pub fn look(bytes: &[u8]) -> Result<Found, Refusal>
    ensures { answered result ≡ look_at bytes.now }
{
    let mut places = [Corner { x: 0, y: 0 }; PLACES];
    let mut store = &mut places[..];
    let outlines = read_outlines(bytes, &mut store)?;
    Ok(found_between(&outlines.one, &outlines.two))
}

impl Found {
    /// The same, unless an outline has no corners.
    pub fn with_corners(self) -> Result<Found, Refusal>
        ensures { answered result ≡ cornered self }
    {
        if self.one == 0 || self.two == 0 {
            return Err(Refusal::NoCorners);
        }
        Ok(self)
    }

    /// What is printed, line by line.
    pub fn lines(self) -> [Line; 2]
        ensures { result ≡ Corners self.one self.two ∷ Crossings self.crossings ∷ [] }
    {
        [
            Line::Corners(self.one, self.two),
            Line::Crossings(self.crossings),
        ]
    }
}

/// A line of what is printed of a job that was read.
#[derive(Clone, Copy, PartialEq, Eq, Debug)]
pub enum Line {
    Corners(usize, usize),
    Crossings(usize),
}

impl fmt::Display for Line {
    fn fmt<W: fmt::Write>(&self, f: &mut fmt::Formatter<W>) -> fmt::Result {
        match *self {
            Line::Corners(one, two) => write!(f, "corners {one} {two}"),
            Line::Crossings(crossings) => write!(f, "crossings {crossings}"),
        }
    }
}
