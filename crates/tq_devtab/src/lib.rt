//! The table of the spaces of a device: which spaces it has, and which clusters they have.
//!
//! The laws are lemmas. In `proofs/TableLemmas`: what a space more, a space less and more pages of a
//! space keep of a table, and that a base that spells a table says it. In `proofs/OwnerLemmas`: which
//! owners share no cluster, and the volume that a table stands for. In `proofs/KeptLemmas`: what a
//! device with a table has, and after which steps it has the table still.
#![tactic(auto)]

mod bytes;
mod changing;
mod creating;
mod decoding;
mod encoding;
mod entry;
mod erasing;
mod error;
mod extending;
mod extents;
mod growing;
mod header;
mod layout;
mod loading;
mod making;
mod pages;
mod reading;
mod reserved;
mod reserving;
mod resizing;
mod spaces;
mod spelling;
mod table;

pub use creating::create;
pub use entry::TableEntry;
pub use erasing::erase;
pub use error::{CreationError, ExtendError, ReserveError, TableError};
pub use growing::grow;
pub use reserved::Reserved;
pub use table::DeviceTable;
