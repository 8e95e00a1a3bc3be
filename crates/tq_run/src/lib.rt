//! The top call: a script of lines over device files. It boots, reads the script, and does and answers
//! its lines one after another.
//!
//! The program uses `run` and its `Status`. The clauses of `run` are the product's promises, and hold
//! over every host.
#![tactic(auto)]

mod calls;
mod responding;
mod running;
mod script;
mod serving;
mod state;
mod status;
mod words;

pub use running::{run, run_within};
pub use status::Status;
