//! Records of a space's log in bytes, the headers of messages, the slots of entries, queues and branches, and the base of slots.
//!
//! The clauses speak of the spelling and the reading of `tq_slots`: `encode`, `decode` and `set_first` for records,
//! `encode_message` and `decode_header` for messages, between slots and what they stand for `message_slot` and
//! `entry_in`, `is_free_slot` as its test, `queue_slot` and `queue_in`, `branch_slot` and `branch_in`, and `spell_base` and `slots_in_base` for all slots of a space.
#![tactic(auto)]

mod base;
mod branches;
mod bytes;
mod decoding;
mod encoding;
mod entries;
mod fault;
mod first_page;
mod keys;
mod messages;
mod queues;
mod reading;
mod slots;

pub use base::{has_base_mark, slots_in_base, spell_base};
pub use branches::{branch_in, branch_slot};
pub use decoding::decode;
pub use encoding::encode;
pub use entries::{entry_in, is_free_slot, message_slot};
pub use fault::MoveError;
pub use first_page::set_first;
pub use messages::{decode_header, encode_message};
pub use queues::{queue_in, queue_slot};
pub use reading::{read_branch_slot, read_message_slot, read_queue_slot};
