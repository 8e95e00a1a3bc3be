//! One queue space on its device and in memory: its creation on its first page, its slots with the
//! records of its log in two areas, and its messages on chains of pages.
#![tactic(auto)]

mod bareness;
mod bytes;
mod changing;
mod durable;
mod fault;
mod file;
mod filling;
mod formatting;
mod loading;
mod page;
mod place;
mod reading;
mod slots;

pub use fault::{CommitError, FileError};
pub use file::SpaceFile;
pub use formatting::format;
pub use place::SpacePlace;
