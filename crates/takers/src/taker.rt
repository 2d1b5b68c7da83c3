// What a taker of events is.
ghost use Rattle.std.specs.Prelude.{◌≡◌};
ghost use Rattle.plane.specs.Refusals.{refused};
ghost use Rattle.rules.specs.declared.event.Event.{Event};
ghost use Rattle.rules.specs.Rules.{Taken};
ghost use Rattle.takers.specs.Takers.{refusal_of, after};

use plane::refusal::Refusal;
use rules::event::Event;

/// A taker has a state, and a rule from a state and an event to the next state or a refusal.
pub trait Taker {
    // What its states are: a state may leave out some of the taker's value, so it has a type of its own;
    ghost State: { Type 0 };

    // the state that a taker is in,
    ghost state: { Self → State };

    // and its rule.
    ghost rule: { State → Event → Taken State };

    /// Tells whether the taker would refuse the event, and why. Nothing is altered.
    fn ask(&self, event: Event) -> Result<(), Refusal>
        ensures { refused result ≡ refusal_of (rule (state self.now) event) };

    /// Takes the event, or refuses it and stays in its state.
    fn take(&mut self, event: Event) -> Result<(), Refusal>
        ensures answer { refused result ≡ refusal_of (rule (state self.old) event) }
        ensures after { state self.new ≡ after (state self.old) (rule (state self.old) event) };
}
