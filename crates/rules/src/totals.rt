// What a walk has handed over, counted.
ghost use Rattle.std.specs.Prelude.{◌≡◌, []};
ghost use Rattle.rules.specs.Counts.{counted};
ghost use Rattle.rules.specs.Rules.{totals};

use crate::event::Event;

/// How many loops were closed, and how many crossings and corners handed over.
#[derive(Clone, Copy, PartialEq, Eq, Debug, Default)]
pub struct Totals {
    pub loops: u32,
    pub crossings: u32,
    pub corners: u32,
}

impl Totals {
    /// Nothing was handed over yet.
    pub fn none() -> Totals
        ensures { result ≡ totals [] }
    {
        Totals::default()
    }

    /// The totals with one more event, or nothing where 32 bits do not hold its count.
    pub fn with(self, event: Event) -> Option<Totals>
        ensures { result ≡ counted self event }
    {
        Some(match event {
            Event::Crossing { .. } => Totals {
                crossings: self.crossings.checked_add(1)?,
                ..self
            },
            Event::Corner { .. } => Totals {
                corners: self.corners.checked_add(1)?,
                ..self
            },
            Event::Closing => Totals {
                loops: self.loops.checked_add(1)?,
                ..self
            },
        })
    }
}
