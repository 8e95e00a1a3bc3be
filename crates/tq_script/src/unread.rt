ghost use Rattle.std.specs.Prelude.{◌≡◌};
ghost use Rattle.tq_script.specs.declared.unread.Unread.TheVariants.{Memory};

use std::alloc::{AllocError, AllocFailed};

/// Why the words behind a verb give nothing.
#[derive(Debug, Drop)]
pub enum Unread {
    /// The column of the first word that does not fit.
    Misfit(u64),
    /// All words fit, and one is missing.
    Missing,
    Memory,
}

impl From<AllocError> for Unread {
    ghost from_gives = { λ _ unread. unread ≡ Memory };

    fn from(_error: AllocError) -> Unread {
        Unread::Memory
    }
}

impl<T: Drop> From<AllocFailed<T>> for Unread {
    ghost from_gives = { λ _ unread. unread ≡ Memory };

    fn from(_error: AllocFailed<T>) -> Unread {
        Unread::Memory
    }
}
