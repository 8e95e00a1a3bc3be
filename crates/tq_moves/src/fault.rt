//! Why bytes are not read.

ghost use Rattle.std.specs.Prelude.{◌≡◌};
ghost use Rattle.tq_moves.specs.declared.fault.MoveError.TheVariants.{NoMemory};

use std::alloc::{AllocError, AllocFailed};
use thiserror::Error;

/// Why bytes are not read as a record.
#[derive(Clone, Copy, Debug, Drop, PartialEq, Eq, Error)]
pub enum MoveError {
    /// The byte at this place, from 0, is the first that does not fit; where bytes are missing, it is the number of bytes.
    #[error("no record stands here: the byte at {at} does not fit")]
    BadRecord { at: usize },
    #[error("there is no memory")]
    NoMemory,
}

impl From<AllocError> for MoveError {
    ghost from_gives = { λ _ e. e ≡ NoMemory };

    fn from(_no_memory: AllocError) -> MoveError {
        MoveError::NoMemory
    }
}

impl<T: Drop> From<AllocFailed<T>> for MoveError {
    ghost from_gives = { λ _ e. e ≡ NoMemory };

    fn from(_no_memory: AllocFailed<T>) -> MoveError {
        MoveError::NoMemory
    }
}
