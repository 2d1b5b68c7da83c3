// Why the program ends without having read a job.
use plane::refusal::Refusal;
use std::io;
use thiserror::Error;

/// The job was refused, or reading or printing failed.
#[derive(Debug, Drop, Error)]
pub enum Failure {
    #[error(transparent)]
    Refused(#[from] Refusal),
    #[error(transparent)]
    Io(#[from] io::Error),
}
