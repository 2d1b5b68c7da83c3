// A taker that keeps a checksum of the events, so that two terminals can compare what they were handed.
ghost use Rattle.std.specs.Prelude.{◌≡◌, ℕ};
ghost use Rattle.maker.specs.Checksum.{weight_of, mixed, summed};

use plane::refusal::Refusal;
use plane::ring::Ring;
use rules::event::Event;
use std::marker::Model;
use takers::taker::Taker;

/// The checksum so far: 0 before the first event.
#[derive(Clone, Copy, Default)]
pub struct Checksum {
    sum: u32,
}

impl Model for Checksum {
    ghost Value = { ℕ };

    ghost view = { λ c. c.sum };

    ghost inverse = { λ n. record { sum = n } };
}

// What an event counts for.
fn weight(event: Event) -> u32
    ensures { result ≡ weight_of event }
{
    match event {
        Event::Crossing { id, .. } => id,
        Event::Corner { ring, index } => {
            let mark = match ring {
                Ring::One => 0x4000_0000,
                Ring::Two => 0x8000_0000,
            };
            index ^ mark
        }
        Event::Closing => u32::MAX,
    }
}

impl Checksum {
    /// Of no events.
    pub fn new() -> Checksum
        ensures { result ≡ 0 }
    {
        Checksum::default()
    }

    /// The checksum of the events taken.
    pub fn sum(&self) -> u32
        ensures { result ≡ self.now }
    {
        self.sum
    }
}

impl Taker for Checksum {
    ghost State = { ℕ };

    ghost state = { λ c. c };

    ghost rule = { summed };

    fn ask(&self, _event: Event) -> Result<(), Refusal> {
        Ok(())
    }

    fn take(&mut self, event: Event) -> Result<(), Refusal> {
        self.sum = self.sum.wrapping_mul(31).wrapping_add(weight(event));
        Ok(())
    }
}
