//! Why a space is not loaded, and why a plan is not done.

use std::alloc::AllocError;
use thiserror::Error;
use tq_gate::GateError;
use tq_host::{Device, Failed};
use tq_moves::MoveError;
use tq_pages::{ChainError, PageError};

/// Why a space is not loaded.
#[derive(Clone, Copy, Debug, PartialEq, Eq, Error)]
pub enum FileError {
    /// The pages of the space have no reading.
    #[error("the space is damaged")]
    Damaged,
    #[error("a device failed")]
    Device,
    #[error("there is no memory")]
    NoMemory,
}

impl From<AllocError> for FileError {
    ghost use Rattle.std.specs.Prelude.{◌≡◌};
    ghost use Rattle.tq_store.specs.declared.fault.FileError.TheVariants as fault;

    ghost from_gives = { λ _ e. e ≡ fault.NoMemory };

    fn from(_no_memory: AllocError) -> FileError {
        FileError::NoMemory
    }
}

impl From<Failed> for FileError {
    ghost use Rattle.std.specs.Prelude.{◌≡◌};
    ghost use Rattle.tq_store.specs.declared.fault.FileError.TheVariants as fault;

    ghost from_gives = { λ _ e. e ≡ fault.Device };

    fn from(_failed: Failed) -> FileError {
        FileError::Device
    }
}

impl From<GateError> for FileError {
    ghost use Rattle.std.specs.Prelude.{◌≡◌};
    ghost use Rattle.tq_store.specs.Faults.{of_log};

    ghost from_gives = { λ fault e. e ≡ of_log fault };

    fn from(fault: GateError) -> FileError {
        match fault {
            GateError::Damaged { .. } => FileError::Damaged,
            GateError::Device => FileError::Device,
            GateError::NoMemory => FileError::NoMemory,
        }
    }
}

impl From<MoveError> for FileError {
    ghost use Rattle.std.specs.Prelude.{◌≡◌};
    ghost use Rattle.tq_store.specs.Faults.{of_record};

    ghost from_gives = { λ fault e. e ≡ of_record fault };

    fn from(fault: MoveError) -> FileError {
        match fault {
            MoveError::BadRecord { .. } => FileError::Damaged,
            MoveError::NoMemory => FileError::NoMemory,
        }
    }
}

impl From<ChainError> for FileError {
    ghost use Rattle.std.specs.Prelude.{◌≡◌};
    ghost use Rattle.tq_store.specs.Faults.{of_chain};

    ghost from_gives = { λ fault e. e ≡ of_chain fault };

    fn from(fault: ChainError) -> FileError {
        match fault {
            ChainError::BadChain { .. } => FileError::Damaged,
            ChainError::Device => FileError::Device,
        }
    }
}

impl From<PageError> for FileError {
    ghost use Rattle.std.specs.Prelude.{◌≡◌};
    ghost use Rattle.tq_store.specs.Faults.{of_page};

    ghost from_gives = { λ fault e. e ≡ of_page fault };

    fn from(fault: PageError) -> FileError {
        match fault {
            PageError::Device => FileError::Device,
            PageError::NoMemory => FileError::NoMemory,
        }
    }
}

/// Why something is not done.
#[derive(Clone, Copy, Debug, PartialEq, Eq, Error)]
pub enum CommitError {
    #[error("a device failed")]
    Device,
    #[error("there is no memory")]
    NoMemory,
}

impl From<AllocError> for CommitError {
    ghost use Rattle.std.specs.Prelude.{◌≡◌};
    ghost use Rattle.tq_store.specs.declared.fault.CommitError.TheVariants as fault;

    ghost from_gives = { λ _ e. e ≡ fault.NoMemory };

    fn from(_no_memory: AllocError) -> CommitError {
        CommitError::NoMemory
    }
}

impl From<Device> for CommitError {
    ghost use Rattle.std.specs.Prelude.{◌≡◌};
    ghost use Rattle.tq_store.specs.declared.fault.CommitError.TheVariants as fault;

    ghost from_gives = { λ _ e. e ≡ fault.Device };

    fn from(_device: Device) -> CommitError {
        CommitError::Device
    }
}

impl From<Failed> for CommitError {
    ghost use Rattle.std.specs.Prelude.{◌≡◌};
    ghost use Rattle.tq_store.specs.declared.fault.CommitError.TheVariants as fault;

    ghost from_gives = { λ _ e. e ≡ fault.Device };

    fn from(_failed: Failed) -> CommitError {
        CommitError::Device
    }
}
