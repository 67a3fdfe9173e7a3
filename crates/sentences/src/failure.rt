// Why a sentence could not be judged: not for what it says, but for want of room.
use answers::refusal::Refusal;
use std::alloc::AllocError;
use thiserror::Error;

#[derive(Debug, Drop, Error)]
pub enum Failure {
    #[error("There is not enough memory.")]
    Memory(#[from(alloc)] AllocError),
    #[error("The session refuses: {0}.")]
    Session(#[from] Refusal),
}
