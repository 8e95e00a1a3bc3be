//! One queue space in memory: what a call would make of it is a plan, and a plan whose room is
//! reserved is applied without memory.
//!
//! The layer above uses `Space`: its `plan_*` are the machine's steps, `reserve` and `apply` do a plan.
#![tactic(auto)]

mod plans;
mod shelf;
mod space;

pub use plans::{Moves, Plan, Purge, QueueRefusal, Refusal};
pub use space::{Space, plan_of};
pub use tq_model::default_queue;
