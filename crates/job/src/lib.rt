// Jobs: two outlines in whole decimetres, read from bytes.
#![tactic(auto)]

pub mod job;
pub mod laws;
pub mod outlines;
pub mod pairs;
pub mod reader;
#[cfg(test)]
mod tests;
