//! Why a chain is not adopted, or not read.

ghost use Rattle.std.specs.Prelude.{◌≡◌};
ghost use Rattle.tq_pages.specs.declared.error.ChainError.TheVariants as chain;
ghost use Rattle.tq_pages.specs.declared.error.PageError.TheVariants as page;

use std::alloc::AllocError;
use thiserror::Error;
use tq_host::Failed;

/// Why a stored chain is not adopted.
#[derive(Clone, Copy, Debug, Drop, PartialEq, Eq, Error)]
pub enum ChainError {
    /// The first page that does not fit.
    #[error("the chain is broken at page {page}")]
    BadChain { page: u32 },
    #[error("the outside failed")]
    Device,
}

impl From<Failed> for ChainError {
    ghost from_gives = { λ _ e. e ≡ chain.Device };

    fn from(_failed: Failed) -> ChainError {
        ChainError::Device
    }
}

/// Why a chain is not read.
#[derive(Clone, Copy, Debug, Drop, PartialEq, Eq, Error)]
pub enum PageError {
    #[error("the outside failed")]
    Device,
    #[error("there is no memory")]
    NoMemory,
}

impl From<Failed> for PageError {
    ghost from_gives = { λ _ e. e ≡ page.Device };

    fn from(_failed: Failed) -> PageError {
        PageError::Device
    }
}

impl From<AllocError> for PageError {
    ghost from_gives = { λ _ e. e ≡ page.NoMemory };

    fn from(_no_memory: AllocError) -> PageError {
        PageError::NoMemory
    }
}
