// Single-precision arithmetic: every operation rounds once.
// What has the name of something in the exact arithmetic has it from the source, and differs in more than a type: here every step rounds, sides, turns and meetings
// have a tolerance, and a place on an edge is a quotient; there each question first tells whether its corners are near, and a place is a fraction.
#![tactic(auto)]

pub mod admit;
pub mod arithmetic;
pub mod corner;
pub mod direction;
mod math;
pub mod order;
pub mod point_in_poly2d;
pub mod segment;
pub mod segments_intersection;
#[cfg(test)]
mod tests;
pub mod tolerance;
pub mod triangle;
