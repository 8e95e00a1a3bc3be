// Why a boot brings no site, and why a request has no answer.

ghost use Rattle.std.specs.Prelude.{◌≡◌};

use std::alloc::AllocError;
use tq_devtab::{CreationError, TableError};
use tq_host::{Device, Failed};
use tq_site::JournalError;
use tq_spacefile::FileError;

/// Why a boot brings no site.
#[derive(Clone, Copy, Debug, Drop, PartialEq, Eq)]
pub enum BootFailure {
    /// The device's bytes have no reading, or its epoch cannot be raised; nothing is written.
    Damaged,
    /// There is no memory; nothing is written.
    Memory,
    /// A device failed.
    Device,
}

impl From<FileError> for BootFailure {
    ghost use Rattle.tq_coord.specs.Counts.{boot_failure_of};

    ghost from_gives = { λ error e. e ≡ boot_failure_of error };

    fn from(error: FileError) -> BootFailure {
        match error {
            FileError::Damaged => BootFailure::Damaged,
            FileError::Device => BootFailure::Device,
            FileError::NoMemory => BootFailure::Memory,
        }
    }
}

impl From<TableError> for BootFailure {
    ghost use Rattle.tq_coord.specs.Counts.{boot_failure_of_table};

    ghost from_gives = { λ error e. e ≡ boot_failure_of_table error };

    fn from(error: TableError) -> BootFailure {
        match error {
            TableError::Damaged => BootFailure::Damaged,
            TableError::Device => BootFailure::Device,
            TableError::NoMemory => BootFailure::Memory,
        }
    }
}

impl From<JournalError> for BootFailure {
    ghost use Rattle.tq_coord.specs.Counts.{boot_failure_of_journal};

    ghost from_gives = { λ error e. e ≡ boot_failure_of_journal error };

    fn from(error: JournalError) -> BootFailure {
        match error {
            JournalError::Damaged => BootFailure::Damaged,
            JournalError::Device => BootFailure::Device,
            JournalError::NoMemory => BootFailure::Memory,
        }
    }
}

impl From<Device> for BootFailure {
    ghost use Rattle.tq_coord.specs.declared.failure.BootFailure.TheVariants as boots;

    ghost from_gives = { λ _ e. e ≡ boots.Device };

    fn from(_device: Device) -> BootFailure {
        BootFailure::Device
    }
}

impl From<AllocError> for BootFailure {
    ghost use Rattle.tq_coord.specs.declared.failure.BootFailure.TheVariants.{Memory};

    ghost from_gives = { λ _ e. e ≡ Memory };

    fn from(_no_memory: AllocError) -> BootFailure {
        BootFailure::Memory
    }
}

impl From<Failed> for BootFailure {
    ghost use Rattle.tq_coord.specs.declared.failure.BootFailure.TheVariants.{Device};

    ghost from_gives = { λ _ e. e ≡ Device };

    fn from(_failed: Failed) -> BootFailure {
        BootFailure::Device
    }
}

/// Why a request has no answer.
#[derive(Clone, Copy, Debug, Drop, PartialEq, Eq)]
pub enum Failure {
    /// There is no memory.
    Memory,
    /// A device failed.
    Device,
}

impl From<AllocError> for Failure {
    ghost use Rattle.tq_coord.specs.declared.failure.Failure.TheVariants.{Memory};

    ghost from_gives = { λ _ e. e ≡ Memory };

    fn from(_no_memory: AllocError) -> Failure {
        Failure::Memory
    }
}

impl From<Failed> for Failure {
    ghost use Rattle.tq_coord.specs.declared.failure.Failure.TheVariants.{Device};

    ghost from_gives = { λ _ e. e ≡ Device };

    fn from(_failed: Failed) -> Failure {
        Failure::Device
    }
}

impl From<Device> for Failure {
    ghost use Rattle.tq_coord.specs.declared.failure.Failure.TheVariants as failures;

    ghost from_gives = { λ _ e. e ≡ failures.Device };

    fn from(_device: Device) -> Failure {
        Failure::Device
    }
}

impl From<CreationError> for Failure {
    ghost use Rattle.tq_coord.specs.Counts.{failure_of_creation};

    ghost from_gives = { λ error e. e ≡ failure_of_creation error };

    fn from(error: CreationError) -> Failure {
        match error {
            CreationError::Device => Failure::Device,
            CreationError::NoMemory => Failure::Memory,
        }
    }
}
