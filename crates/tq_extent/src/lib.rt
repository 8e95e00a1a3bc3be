//! Who has which cluster of a device, and where the pages and the bytes of an owner lie.
//!
//! The layer above uses `ExtentList`, which gives clusters and takes them back, and `PageMap`, the
//! addresses of an owner's pages, by which its bytes are read and written. The laws are lemmas. In
//! `proofs/BytesLemmas`: what the bytes of an owner are, those of the header among them, that a step
//! on the bytes of one owner leaves those of the others, and how such a step follows other calls. In
//! `proofs/ReadOnlyLemmas`: calls that write nothing. In `proofs/PageLemmas`: two pages share no
//! byte. In `proofs/OwnerLemmas`: which owners share no cluster. In `proofs/ClaimLemmas`: which
//! extents of a table may be claimed.
#![tactic(auto)]

mod bytes;
mod clusters;
mod joining;
mod pages;

pub use clusters::{ExtentList, NotFree, TakeError};
pub use pages::PageMap;
