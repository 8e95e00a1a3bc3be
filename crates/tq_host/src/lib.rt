//! The outside: eight devices, an input and an output, under one clock. The contracts of the trait say
//! what each call does to what is read, to what a stop may leave, and to the counts of failures.
//!
//! The layer above is generic over `Host`, and composes its calls by the lemmas of `proofs/`. `MemHost`
//! tells everything and `FuseHost` fails after a number of calls: these are for tests.
#![tactic(auto)]

mod call;
mod calls;
mod contents;
mod counts;
mod fuse;
mod host;
mod kind;
mod memory;
mod outside;
mod plan;

pub use fuse::FuseHost;
pub use host::{Device, Failed, Host};
pub use kind::CallKind;
pub use memory::MemHost;
