use std::alloc::AllocError;
use thiserror::Error;
use tq_gate::GateError;
use tq_host::{Device, Failed};
use tq_model::LogRoom;

/// Why a payload is not read.
#[derive(Clone, Copy, Debug, Drop, PartialEq, Eq, Error)]
pub enum RecordError {
    /// No record is spelt so.
    #[error("no record is spelt so")]
    Unspelt,
    #[error("there is no memory")]
    NoMemory,
}

impl From<AllocError> for RecordError {
    ghost use Rattle.std.specs.Prelude.{◌≡◌};
    ghost use Rattle.tq_spacefile.specs.declared.fault.RecordError.TheVariants.{NoMemory};

    ghost from_gives = { λ _ e. e ≡ NoMemory };

    fn from(_no_memory: AllocError) -> RecordError {
        RecordError::NoMemory
    }
}

/// Why a space is not loaded.
#[derive(Clone, Copy, Debug, PartialEq, Eq, Error)]
pub enum FileError {
    /// The pages of the space have no reading.
    #[error("the space is damaged")]
    Damaged,
    #[error("a device failed")]
    Device,
    #[error("there is no memory")]
    NoMemory,
}

impl From<AllocError> for FileError {
    ghost use Rattle.std.specs.Prelude.{◌≡◌};
    ghost use Rattle.tq_spacefile.specs.declared.fault.FileError.TheVariants as fault;

    ghost from_gives = { λ _ e. e ≡ fault.NoMemory };

    fn from(_no_memory: AllocError) -> FileError {
        FileError::NoMemory
    }
}

impl From<Failed> for FileError {
    ghost use Rattle.std.specs.Prelude.{◌≡◌};
    ghost use Rattle.tq_spacefile.specs.declared.fault.FileError.TheVariants as fault;

    ghost from_gives = { λ _ e. e ≡ fault.Device };

    fn from(_failed: Failed) -> FileError {
        FileError::Device
    }
}

impl From<RecordError> for FileError {
    ghost use Rattle.std.specs.Prelude.{◌≡◌};
    ghost use Rattle.tq_spacefile.specs.Loading.{unread_payload};

    ghost from_gives = { λ fault e. e ≡ unread_payload fault };

    fn from(fault: RecordError) -> FileError {
        match fault {
            RecordError::Unspelt => FileError::Damaged,
            RecordError::NoMemory => FileError::NoMemory,
        }
    }
}

impl From<GateError> for FileError {
    ghost use Rattle.std.specs.Prelude.{◌≡◌};
    ghost use Rattle.tq_spacefile.specs.Loading.{unread_log};

    ghost from_gives = { λ fault e. e ≡ unread_log fault };

    fn from(fault: GateError) -> FileError {
        match fault {
            GateError::Damaged { .. } => FileError::Damaged,
            GateError::Device => FileError::Device,
            GateError::NoMemory => FileError::NoMemory,
        }
    }
}

/// Why a plan is not done.
#[derive(Clone, Copy, Debug, PartialEq, Eq, Error)]
pub enum CommitError {
    /// The log has no room for the record.
    #[error("the log is full")]
    LogFull(LogRoom),
    #[error("a device failed")]
    Device,
    #[error("there is no memory")]
    NoMemory,
}

impl From<AllocError> for CommitError {
    ghost use Rattle.std.specs.Prelude.{◌≡◌};
    ghost use Rattle.tq_spacefile.specs.declared.fault.CommitError.TheVariants.{NoMemory};

    ghost from_gives = { λ _ e. e ≡ NoMemory };

    fn from(_no_memory: AllocError) -> CommitError {
        CommitError::NoMemory
    }
}

impl From<Device> for CommitError {
    ghost use Rattle.std.specs.Prelude.{◌≡◌};
    ghost use Rattle.tq_spacefile.specs.declared.fault.CommitError.TheVariants as fault;

    ghost from_gives = { λ _ e. e ≡ fault.Device };

    fn from(_device: Device) -> CommitError {
        CommitError::Device
    }
}
