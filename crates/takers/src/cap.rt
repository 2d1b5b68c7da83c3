// A taker that passes on so many events and no more.
ghost use Rattle.std.specs.Prelude.{◌≡◌, ℕ};
ghost use Rattle.takers.specs.Takers.{capped};

use crate::taker::Taker;
use plane::refusal::Refusal;
use rules::event::Event;
use std::marker::Model;

/// Passes on a fixed number of events to another taker, and then refuses. What that taker refuses is not counted.
#[derive(Drop)]
pub struct Cap<T> {
    left: u64,
    to: T,
}

impl<T> Model for Cap<T> {
    ghost Value = { ℕ × T };

    ghost view = { λ c. (c.left, c.to) };
}

impl<T> Cap<T> {
    /// Passes on `count` events to the taker.
    pub fn new(count: u64, to: T) -> Cap<T>
        ensures { result ≡ (count, to) }
    {
        Cap { left: count, to }
    }

    /// How many events it still passes on.
    pub fn left(&self) -> u64
        ensures { result ≡ self.now.0 }
    {
        self.left
    }

    /// The taker, given back.
    pub fn into_inner(self) -> T
        ensures { result ≡ self.1 }
    {
        self.to
    }
}

impl<T: Taker> Taker for Cap<T> {
    ghost State = { ℕ × T.Taker.State };

    ghost state = { λ c. (c.0, T.Taker.state c.1) };

    ghost rule = { capped T.Taker.rule };

    fn ask(&self, event: Event) -> Result<(), Refusal> {
        if self.left == 0 {
            return Err(Refusal::LimitReached);
        }
        self.to.ask(event)
    }

    fn take(&mut self, event: Event) -> Result<(), Refusal> {
        if self.left == 0 {
            return Err(Refusal::LimitReached);
        }
        self.to.take(event)?;
        self.left -= 1;
        Ok(())
    }
}
