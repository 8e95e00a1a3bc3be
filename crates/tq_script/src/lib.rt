//! Reads the lines of a script: which requests they spell, and where a line that spells none goes
//! wrong.
//!
//! The layer above uses `first_line` and `parse`, which are exact against the grammar.
#![tactic(auto)]

mod bytes;
mod cutting;
mod flags;
mod given;
mod keys;
mod lines;
mod numerals;
mod reading;
mod requests;
mod table;
mod texts;
mod unread;
mod values;

pub use lines::first_line;
pub use requests::parse;
