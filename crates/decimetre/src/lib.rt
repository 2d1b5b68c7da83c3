// The exact arithmetic: corners in whole decimetres, and nothing rounded.
// What has the name of something in single precision has it from the source, and differs in more than a type: here each question first tells whether its corners
// are near, and a place on an edge is a fraction; there every step rounds, sides, turns and meetings have a tolerance, and a place is a quotient.
#![tactic(auto)]

pub mod admit;
pub mod corner;
pub mod direction;
pub mod exact;
mod math;
mod near;
pub mod order;
pub mod point_in_poly2d;
pub mod segment;
pub mod segments_intersection;
#[cfg(test)]
mod tests;
pub mod theorems;
pub mod triangle;
