// The rules of the walk over two rings that cross, and what they promise of every string of its calls.
#![tactic(auto)]

pub mod event;
pub mod totals;

ghost use Rattle.std.specs.Prelude.{◌≡◌};
ghost use Rattle.rules.specs.Example.{ExamplesStand, star_after};
ghost use Rattle.rules.specs.Promise.{PromiseOver};
ghost use Rattle.rules.specs.Rules.{totals};

pub use plane::ring::Ring;

/// The promise holds of every sound chart, with takers of any two types.
pub fn promise_stands<S, T>()
    ensures { PromiseOver S T }
{}

/// The examples stand; the answer is how many crossings the walk round the star hands over.
#[tactic(auto, using(crate::proofs::Example::examples_stand))]
pub fn example_stands() -> u8
    ensures stands { ExamplesStand }
    ensures crossings { result ≡ (totals star_after.walk.past).crossings }
{
    6
}
