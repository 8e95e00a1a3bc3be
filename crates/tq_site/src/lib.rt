//! The journal of a site, on device 0: its epoch, and the decisions of commits over several spaces.
//!
//! The layer above uses `SiteJournal`: `new`, `load`, `epoch` and `raise_epoch`, at every stop inside which
//! the device has the old epoch or the next one.
//! `proofs/KeptLemmas` says after which steps a device has its journal still.
#![tactic(auto)]

mod base;
mod error;
mod journal;
mod loading;
mod making;
mod payloads;
mod raising;

pub use error::JournalError;
pub use journal::SiteJournal;
