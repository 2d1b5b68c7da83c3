// What takes a walk's events: the trait, and the takers that the library brings.
#![tactic(auto)]

pub mod cap;
pub mod laws;
pub mod list;
pub mod taker;
pub mod tally;
#[cfg(test)]
mod tests;
