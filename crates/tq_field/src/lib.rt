//! Numbers and runs of bytes at a place in a slice of bytes, big-endian, and what the bytes of a gated
//! log spell. No call takes memory.
//!
//! The layer above uses `get_*`, `put_*` and `Short`, and the definitions `specs/Places` and
//! `specs/GatedLog` with their lemmas.
#![tactic(auto)]

mod get;
mod put;
mod short;

pub use get::{get_run, get_u16, get_u32, get_u64};
pub use put::{put_u16, put_u32, put_u64};
pub use short::Short;
