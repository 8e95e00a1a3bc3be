//! The serial queue machine as a slow plain program: `Machine` computes the steps that the
//! definitions give. Tests compare the answers of the top call with its answers; nothing else
//! stands on it.
#![tactic(auto)]

mod device;
mod entries;
mod joining;
mod machine;
mod placed;
mod queue_list;
mod space_call;
mod space_lists;

pub use machine::Machine;
