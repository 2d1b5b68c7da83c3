// What an arithmetic answers.

/// Where a corner lies, seen along an edge; the source's counter-clockwise, clockwise and degenerate.
#[derive(Clone, Copy, PartialEq, Eq, Debug)]
pub enum Side {
    Left,
    Right,
    Level,
}

/// How two edges meet. Marks come in pairs: a mark on the first edge, then its partner on the second.
#[derive(Clone, Copy, PartialEq, Eq, Debug)]
pub enum Meet<M> {
    Apart,
    Crossing(M, M),
    Overlap(M, M, M, M),
}

/// An end of an edge.
#[derive(Clone, Copy, PartialEq, Eq, Debug)]
pub enum End {
    Start,
    Finish,
}
