// What can stop the course: a refusal that it did not expect, want of memory, or output that cannot be written.
use code::Refusal;
use std::alloc::AllocError;
use std::io;
use thiserror::Error;

#[derive(Debug, Drop, Error)]
pub enum Fault {
    #[error("refused: {}", .0.reason.word())]
    Refused(#[from] Refusal),
    #[error(transparent)]
    Memory(#[from] AllocError),
    #[error(transparent)]
    Output(#[from] io::Error),
}
