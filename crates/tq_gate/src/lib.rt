//! Gated logs: a base and a list of payloads among the bytes of an owner of a device. A stop inside a
//! call that adds a payload, or that makes a new base, leaves the old content or the new one.
//!
//! The layer above uses `GateLog`: `empty`, `load`, `free`, `fits`, `append` and `replace`, whose
//! clauses speak of a log's content as `specs/Reading` reads it.
#![tactic(auto)]

mod fault;
mod frame;
mod layout;
mod loading;
mod log;
mod pieces;
mod reading;
mod scanning;

pub use fault::GateError;
pub use frame::{AROUND_PAYLOAD, BEFORE_PAYLOAD};
pub use layout::{Areas, Layout};
pub use loading::Loaded;
pub use log::GateLog;
