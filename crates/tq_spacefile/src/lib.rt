//! One queue space on its device and in memory: its first page, a payload for each change of it, and
//! the space that these make. The form is provisional: the log is never shortened.
//!
//! The layer above uses `format`, and `SpaceFile`: `new`, `load`, `space` to plan on, and `commit`, at
//! every stop inside which the device has the old space or the new one.
#![tactic(auto)]

mod bytes;
mod committing;
mod creating;
mod fault;
mod file;
mod formatting;
mod loading;
mod page;
mod payload;
mod place;
mod recording;
mod replaying;

pub use fault::{CommitError, FileError};
pub use file::SpaceFile;
pub use formatting::format;
pub use place::SpacePlace;
