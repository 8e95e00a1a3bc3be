//! The slots of a space in memory.
//!
//! The layer above uses `SlotTable`, which finds the slot of a message by its arrival, and the lowest
//! empty slot, without a walk over the slots. `specs/Places` says what is kept for that.
#![tactic(auto)]

mod places;
mod table;

pub use table::{SlotTable, empty_slot};
