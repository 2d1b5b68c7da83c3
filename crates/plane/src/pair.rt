// Raw pairs of numbers.

/// Two numbers that may become a corner.
#[derive(Clone, Copy, PartialEq, Eq, Debug, Default)]
pub struct Pair<N> {
    pub x: N,
    pub y: N,
}
