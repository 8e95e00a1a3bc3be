//! The outside over device files, standard input and standard output. It tells no content.
//!
//! The program uses `FileHost`, and of it the first failed call of each kind, for the cause behind a
//! status.
#![tactic(auto)]

mod account;
mod devices;
mod failures;
mod file_host;
mod part;
mod tally;

pub use failures::DeviceFailure;
pub use file_host::FileHost;
