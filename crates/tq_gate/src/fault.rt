ghost use Rattle.std.specs.Prelude.{◌≡◌};
ghost use Rattle.tq_gate.specs.declared.fault.GateError.TheVariants as fault;

use std::alloc::AllocError;
use thiserror::Error;
use tq_host::Failed;

/// Why a log is not loaded.
#[derive(Clone, Copy, Debug, Drop, PartialEq, Eq, Error)]
pub enum GateError {
    /// The payload behind the open gate at this byte of the owner does not end within the log.
    #[error("the log is damaged at byte {at}")]
    Damaged { at: u64 },
    #[error("the outside failed")]
    Device,
    #[error("there is no memory")]
    NoMemory,
}

impl From<Failed> for GateError {
    ghost from_gives = { λ _ e. e ≡ fault.Device };

    fn from(_failed: Failed) -> GateError {
        GateError::Device
    }
}

impl From<AllocError> for GateError {
    ghost from_gives = { λ _ e. e ≡ fault.NoMemory };

    fn from(_no_memory: AllocError) -> GateError {
        GateError::NoMemory
    }
}
