// What a walk hands over.
use plane::ring::Ring;

/// One event of a walk.
#[derive(Clone, Copy, PartialEq, Eq, Debug)]
pub enum Event {
    /// A crossing, by its number, with its edges on ring one and on ring two.
    Crossing { id: u32, one: u32, two: u32 },
    /// A corner of a ring, by its number.
    Corner { ring: Ring, index: u32 },
    /// The end of a loop.
    Closing,
}
