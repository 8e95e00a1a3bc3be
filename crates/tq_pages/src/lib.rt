//! Chains of pages: messages of any length on the pages of an owner of a device.
//!
//! The layer above uses `PageStore`, which keeps in memory which pages are free, and the pages and
//! the length of each chain. `specs/Store` says what a store holds, `specs/Content` what an image
//! has of it. `take` and `release` change memory alone, and `put` the device alone. The laws are
//! lemmas: in `proofs/StoreLemmas` that chains share no page, and in `proofs/KeptLemmas` that a call
//! which writes on free pages, or on those of one chain, leaves the bytes of the others.
#![tactic(auto)]

mod adopting;
mod error;
mod filling;
mod free;
mod reading;
mod runs;
mod store;
mod writing;

pub use error::{ChainError, PageError};
pub use store::PageStore;
pub use tq_model::pages_for;
