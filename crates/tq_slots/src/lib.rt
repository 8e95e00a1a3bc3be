//! What the slots and chains of a space on a device stand for, the law between a plan and the slots that it
//! makes of others, and how records and messages are spelt in bytes.
#![tactic(auto)]

mod base;
mod branch;
mod images;
mod message;
mod queue;
mod record;

ghost use Rattle.tq_slots.specs.SlotsLaw.{BytesLaw, ChainLaw, CrashLaw, CreateLaw, EnqueueLaw, FirstLaw, LoadLaw};
ghost use Rattle.tq_slots.specs.SlotsLaw.{PagesLaw, PlaceLaw, PlanLaw, ReleaseLaw, RemoveLaw, RoomLaw, SetsLaw, StartLaw};

pub use base::base_is_read;
pub use branch::{StoredBranch, branches_have_slots};
pub use images::records_make_slots;
pub use message::{Header, entries_have_slots};
pub use queue::queues_have_slots;
pub use record::{BranchSlot, MessageSlot, QueueSlot, Rec, RecKind, Set};

/// The law between plans and slots, on lists alone, with any number of moves in one plan.
///
/// - `plan`, `crash`: the slots after a plan that can be done hold the space after it, and stand for what a
///   crash leaves of that.
/// - `place`: a message that has a slot and is kept keeps the slot, and its chain.
/// - `sets`, `bytes`: the sets of a record make these slots of the slots before, and so do they in bytes.
/// - `chains`, `release`: chains that no used slot begins, or whose messages are not kept, may change.
/// - `first`, `pages`: no two used slots begin one chain, and their chains have the pages that the room counts.
/// - `start`, `load`: empty slots hold a space without queues, and slots hold the space that is read of them.
/// - `room`, `enqueue`, `remove`, `create`: which plans can be done.
pub fn slots_law()
    ensures plan { PlanLaw }
    ensures place { PlaceLaw }
    ensures chains { ChainLaw }
    ensures release { ReleaseLaw }
    ensures first { FirstLaw }
    ensures pages { PagesLaw }
    ensures sets { SetsLaw }
    ensures bytes { BytesLaw }
    ensures crash { CrashLaw }
    ensures start { StartLaw }
    ensures load { LoadLaw }
    ensures room { RoomLaw }
    ensures enqueue { EnqueueLaw }
    ensures remove { RemoveLaw }
    ensures create { CreateLaw }
{}
