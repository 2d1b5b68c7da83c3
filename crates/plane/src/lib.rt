// The plane that outlines lie in: refusals, what an arithmetic answers, raw pairs, edges and marks, checked outlines, and the inside test.
#![tactic(auto)]

pub mod answer;
pub mod arithmetic;
pub mod check;
pub mod edge;
pub mod mark;
pub mod outline;
pub mod pair;
pub mod point_in_poly2d;
pub mod refusal;
pub mod ring;
