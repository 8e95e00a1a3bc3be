//! Why a table is not read or made, and why a space gets no place in one, or no more pages.

ghost use Rattle.std.specs.Prelude.{◌≡◌};
ghost use Rattle.tq_devtab.specs.Errors.{error_of_gate, error_of_take};
ghost use Rattle.tq_devtab.specs.declared.error.TableError.TheVariants as error;
ghost use Rattle.tq_devtab.specs.declared.error.CreationError.TheVariants as creation_error;
ghost use Rattle.tq_devtab.specs.declared.error.ReserveError.TheVariants as reserve_error;
ghost use Rattle.tq_devtab.specs.declared.error.ExtendError.TheVariants as extend_error;

use std::alloc::AllocError;
use thiserror::Error;
use tq_extent::TakeError;
use tq_gate::GateError;
use tq_host::{Device, Failed};
use tq_model::ClusterRoom;

/// Why a table is not read.
#[derive(Clone, Copy, Debug, Drop, PartialEq, Eq, Error)]
pub enum TableError {
    /// The header or the table has no reading.
    #[error("the device table is damaged")]
    Damaged,
    #[error("a device failed")]
    Device,
    #[error("there is no memory")]
    NoMemory,
}

impl From<AllocError> for TableError {
    ghost from_gives = { λ _ e. e ≡ error.NoMemory };

    fn from(_no_memory: AllocError) -> TableError {
        TableError::NoMemory
    }
}

impl From<Failed> for TableError {
    ghost from_gives = { λ _ e. e ≡ error.Device };

    fn from(_failed: Failed) -> TableError {
        TableError::Device
    }
}

impl From<GateError> for TableError {
    ghost from_gives = { λ cause e. e ≡ error_of_gate cause };

    fn from(cause: GateError) -> TableError {
        match cause {
            GateError::Damaged { .. } => TableError::Damaged,
            GateError::Device => TableError::Device,
            GateError::NoMemory => TableError::NoMemory,
        }
    }
}

/// Why a device is not made.
#[derive(Clone, Copy, Debug, Drop, PartialEq, Eq, Error)]
pub enum CreationError {
    #[error("a device failed")]
    Device,
    #[error("there is no memory")]
    NoMemory,
}

impl From<AllocError> for CreationError {
    ghost from_gives = { λ _ e. e ≡ creation_error.NoMemory };

    fn from(_no_memory: AllocError) -> CreationError {
        CreationError::NoMemory
    }
}

impl From<Failed> for CreationError {
    ghost from_gives = { λ _ e. e ≡ creation_error.Device };

    fn from(_failed: Failed) -> CreationError {
        CreationError::Device
    }
}

/// Why a space gets no place in a table.
#[derive(Clone, Copy, Debug, Drop, PartialEq, Eq, Error)]
pub enum ReserveError {
    #[error("a space has this name")]
    Taken,
    /// No entry is left, or no ordinal.
    #[error("the table is full")]
    TableFull,
    #[error("{} clusters are needed and {} are free", .0.need, .0.free)]
    Lack(ClusterRoom),
    #[error("there is no memory")]
    NoMemory,
}

impl From<AllocError> for ReserveError {
    ghost from_gives = { λ _ e. e ≡ reserve_error.NoMemory };

    fn from(_no_memory: AllocError) -> ReserveError {
        ReserveError::NoMemory
    }
}

impl From<TakeError> for ReserveError {
    ghost from_gives = { λ cause e. e ≡ error_of_take cause };

    fn from(cause: TakeError) -> ReserveError {
        match cause {
            TakeError::Lack(room) => ReserveError::Lack(room),
            TakeError::NoMemory => ReserveError::NoMemory,
        }
    }
}

/// Why a space gets no more pages.
#[derive(Clone, Copy, Debug, Drop, PartialEq, Eq, Error)]
pub enum ExtendError {
    #[error("{} clusters are needed and {} are free", .0.need, .0.free)]
    Lack(ClusterRoom),
    #[error("a device failed")]
    Device,
    #[error("there is no memory")]
    NoMemory,
}

impl From<AllocError> for ExtendError {
    ghost from_gives = { λ _ e. e ≡ extend_error.NoMemory };

    fn from(_no_memory: AllocError) -> ExtendError {
        ExtendError::NoMemory
    }
}

impl From<Failed> for ExtendError {
    ghost from_gives = { λ _ e. e ≡ extend_error.Device };

    fn from(_failed: Failed) -> ExtendError {
        ExtendError::Device
    }
}

impl From<Device> for ExtendError {
    ghost from_gives = { λ _ e. e ≡ extend_error.Device };

    fn from(_failed: Device) -> ExtendError {
        ExtendError::Device
    }
}
