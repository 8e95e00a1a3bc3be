//! The bytes of answers.
//!
//! The layer above uses `answer`, which is exact against the definition of a line's text.
#![tactic(auto)]

mod bodies;
mod calls;
mod devices;
mod lines;
mod listings;
mod named;
mod spaces;
mod starts;

pub use lines::answer;
