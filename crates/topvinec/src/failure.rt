// Why a command ends with status 1.
use refusal::Refusal;
use std::alloc::AllocError;
use std::io;
use thiserror::Error;

#[derive(Debug, Drop, Error)]
pub(crate) enum Failure {
    #[error("{0}")]
    WrongUse(&'static str),
    #[error("cannot read {name}: {reason}")]
    Unreadable { name: String, reason: io::Error },
    // What the command was to find out, and not a fault of its use; the report is printed.
    #[error("a bad image")]
    BadImage,
    // The same of a call, which is to be told.
    #[error("{0}")]
    Refused(#[from] Refusal),
    #[error(transparent)]
    Io(#[from] io::Error),
    #[error(transparent)]
    NoMemory(#[from] AllocError),
}
