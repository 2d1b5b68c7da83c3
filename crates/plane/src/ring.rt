// The two outlines of a job, a walk or a comparison.

/// One of the two outlines.
#[derive(Clone, Copy, PartialEq, Eq, Debug)]
pub enum Ring {
    One,
    Two,
}
