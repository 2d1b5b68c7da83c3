// The corners of one ring of a job.
ghost use Rattle.std.specs.Prelude.{◌≡◌, ◌≤◌, [], length, OnErr};
ghost use Rattle.plane.specs.Outlines.{most_corners};
ghost use Rattle.job.specs.Format.{added, seen};

use crate::reader::Rest;
use arrayvec::ArrayVec;
use decimetre::admit::admitted;
use decimetre::corner::Pair;
use plane::outline::MOST_CORNERS;
use plane::refusal::Refusal;
use std::marker::Model;

/// At most 1,024 pairs, in order, held in place. A contract sees the list of them.
#[derive(Drop)]
pub struct Pairs {
    pairs: ArrayVec<Pair, MOST_CORNERS>,
}

impl Model for Pairs {
    ghost use Rattle.std.specs.Prelude.{List};
    ghost use Rattle.decimetre.specs.Exact.{Pair};

    ghost Value = { List Pair };

    ghost view = { λ held. held.pairs.items };
}

impl Pairs {
    /// No pairs yet.
    pub fn new() -> Self
        ensures { result ≡ [] }
    {
        Pairs {
            pairs: ArrayVec::new(),
        }
    }

    /// The pairs, in order.
    pub fn as_slice(&self) -> &[Pair]
        ensures value { result.now ≡ self.now }
        ensures few { length result.now ≤ most_corners }
    {
        self.pairs.as_slice()
    }

    /// Adds the pair of the corner's record that the rest begins with.
    pub fn add(&mut self, rest: &Rest) -> Result<(), Refusal>
        ensures value { seen (λ _. self.new) result ≡ added rest.now.at self.old rest.now.bytes.now }
        ensures kept { OnErr result (self.new ≡ self.old) }
        ensures few { length self.new ≤ most_corners }
    {
        if self.pairs.is_full() {
            return Err(Refusal::TooManyCorners(rest.at));
        }
        let pair = rest.pair()?;
        admitted(pair).ok_or(Refusal::NotAdmitted(rest.at))?;
        self.pairs.push(pair);
        Ok(())
    }
}
