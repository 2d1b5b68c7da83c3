// Why a question is not answered.
use plane::refusal::Refusal;
use std::alloc::AllocError;
use std::io;
use std::num::ParseIntError;
use thiserror::Error;

/// The question is not read, memory ran out, or printing failed.
#[derive(Debug, Drop, Error)]
pub(crate) enum Failure {
    #[error("unreadable")]
    Unreadable,
    #[error(transparent)]
    Memory(#[from(alloc)] AllocError),
    #[error(transparent)]
    Io(#[from] io::Error),
}

// A text that is no number.
impl From<ParseIntError> for Failure {
    fn from(_error: ParseIntError) -> Failure {
        Failure::Unreadable
    }
}

// A tolerance or a ring that is refused.
impl From<Refusal> for Failure {
    fn from(_refusal: Refusal) -> Failure {
        Failure::Unreadable
    }
}
