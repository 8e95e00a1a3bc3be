//! The calls that words make.
//!
//! The layers above use `check_enqueue` and `check_dequeue`, which are exact against the definitions of
//! the checks.
#![tactic(auto)]

mod checks;

pub use checks::{check_dequeue, check_enqueue};
