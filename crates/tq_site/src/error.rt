//! Why a journal is not read.

ghost use Rattle.std.specs.Prelude.{◌≡◌};
ghost use Rattle.tq_site.specs.Errors.{error_of_gate};
ghost use Rattle.tq_site.specs.declared.error.JournalError.TheVariants as error;

use std::alloc::AllocError;
use thiserror::Error;
use tq_gate::GateError;
use tq_host::Failed;

/// Why a journal is not read.
#[derive(Clone, Copy, Debug, Drop, PartialEq, Eq, Error)]
pub enum JournalError {
    /// The journal has no reading.
    #[error("the site journal is damaged")]
    Damaged,
    #[error("a device failed")]
    Device,
    #[error("there is no memory")]
    NoMemory,
}

impl From<AllocError> for JournalError {
    ghost from_gives = { λ _ e. e ≡ error.NoMemory };

    fn from(_no_memory: AllocError) -> JournalError {
        JournalError::NoMemory
    }
}

impl From<Failed> for JournalError {
    ghost from_gives = { λ _ e. e ≡ error.Device };

    fn from(_failed: Failed) -> JournalError {
        JournalError::Device
    }
}

impl From<GateError> for JournalError {
    ghost from_gives = { λ cause e. e ≡ error_of_gate cause };

    fn from(cause: GateError) -> JournalError {
        match cause {
            GateError::Damaged { .. } => JournalError::Damaged,
            GateError::Device => JournalError::Device,
            GateError::NoMemory => JournalError::NoMemory,
        }
    }
}
