// What a maker brings: here a taker of his own, over the public trait alone.
#![tactic(auto)]

pub mod checksum;
