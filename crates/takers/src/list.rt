// A taker that stores events in lent places.
ghost use Rattle.std.specs.Prelude.{◌≡◌, ℕ, ◌+◌, ◌≤◌, List, [], length, take, drop};
ghost use Rattle.rules.specs.declared.event.Event.{Event as AnEvent};
ghost use Rattle.takers.specs.Takers.{listed};

use crate::taker::Taker;
use plane::refusal::Refusal;
use rules::event::Event;
use std::marker::Model;

/// Stores events in the caller's places, from the front.
#[derive(Drop)]
pub struct EventList<'a> {
    // The places are the caller's, since nothing here is on a heap.
    places: &'a mut [Event],
    len: usize,
}

// The events stored, and the places that are free.
impl<'a> Model for EventList<'a> {
    ghost Value = { List AnEvent × List AnEvent };

    ghost view = { λ l. (take l.len l.places.now, drop l.len l.places.now) };

    ghost invariant = { λ l. l.len ≤ length l.places.now };
}

impl<'a> EventList<'a> {
    /// No events yet, and places for as many as are lent.
    pub fn new(places: &'a mut [Event]) -> Self
        ensures { result ≡ ([], places.old) }
    {
        EventList { places, len: 0 }
    }

    /// The events stored, in order.
    pub fn events(&self) -> &[Event]
        ensures { result.now ≡ self.now.0 }
    {
        &self.places[..self.len]
    }
}

impl<'a> Taker for EventList<'a> {
    ghost State = { ℕ × List AnEvent };

    ghost state = { λ l. (length l.0 + length l.1, l.0) };

    ghost rule = { listed };

    fn ask(&self, _event: Event) -> Result<(), Refusal> {
        if self.len == self.places.len() {
            return Err(Refusal::NoPlace);
        }
        Ok(())
    }

    fn take(&mut self, event: Event) -> Result<(), Refusal> {
        self.ask(event)?;
        self.places[self.len] = event;
        self.len += 1;
        Ok(())
    }
}
