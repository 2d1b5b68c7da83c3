// The crossings of two outlines.
#![tactic(auto)]

mod chain;
pub mod count;
mod fill;
pub mod inner_ring;
pub mod intersections;
mod layout;
pub mod record;
pub mod words;
