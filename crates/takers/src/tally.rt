// A taker that counts.
ghost use Rattle.std.specs.Prelude.{◌≡◌, []};
ghost use Rattle.rules.specs.declared.totals.Totals.{Totals as Counts};
ghost use Rattle.rules.specs.Rules.{totals};
ghost use Rattle.takers.specs.Takers.{tallied};

use crate::taker::Taker;
use plane::refusal::Refusal;
use rules::event::Event;
use rules::totals::Totals;
use std::marker::Model;

/// Counts loops, crossings and corners, each in 32 bits.
#[derive(Clone, Copy, Default)]
pub struct Tally {
    totals: Totals,
}

impl Model for Tally {
    ghost Value = { Counts };

    ghost view = { λ t. t.totals };

    ghost inverse = { λ c. record { totals = c } };
}

impl Tally {
    /// Nothing counted yet.
    pub fn new() -> Tally
        ensures { result ≡ totals [] }
    {
        Tally::default()
    }

    /// What has been counted.
    pub fn totals(&self) -> Totals
        ensures { result ≡ self.now }
    {
        self.totals
    }
}

impl From<Totals> for Tally {
    ghost from_gives = { λ counts tally. tally ≡ counts };

    /// With these counts to go on from.
    fn from(totals: Totals) -> Tally {
        Tally { totals }
    }
}

impl Taker for Tally {
    ghost State = { Counts };

    ghost state = { λ t. t };

    ghost rule = { tallied };

    fn ask(&self, event: Event) -> Result<(), Refusal> {
        let Some(_) = self.totals.with(event) else {
            return Err(Refusal::NoPlace);
        };
        Ok(())
    }

    fn take(&mut self, event: Event) -> Result<(), Refusal> {
        let Some(totals) = self.totals.with(event) else {
            return Err(Refusal::NoPlace);
        };
        self.totals = totals;
        Ok(())
    }
}
