//! The slots of a space, as its base and the records of its log say them.

ghost use Rattle.std.specs.Prelude.{true, ◌≡◌, ◌*◌, ◌≤◌, length, IfOk, OnOk, IfErr, MatchResult, Some};
ghost use Rattle.std.specs.List.{list_all};
ghost use Rattle.tq_model.specs.Reading.{hold_all};
ghost use Rattle.tq_model.specs.Space as model;
ghost use Rattle.tq_slots.specs.RecordForm.{record_view};
ghost use Rattle.tq_slots.specs.SlotImages.{slots_in, with_record, with_set};
ghost use Rattle.tq_slots.specs.SpaceReading as reading;
ghost use Rattle.tq_slots.specs.SpaceReading.{base_slots, slot_tests, slots_by};
ghost use Rattle.tq_slottable.specs.Places.{HasDistinctArrivals};
ghost use Rattle.tq_store.specs.SlotReading.{bytes_of, followed, slots_left, IsMissing};
ghost use Rattle.tq_store.specs.Sound.{HasSlotsOf};

use crate::FileError;
use std::alloc::{AllocError, Global};
use std::marker::Model;
use tq_model::Shape;
use tq_moves::{decode, has_base_mark, is_free_slot, queue_in, slots_in_base};
use tq_slots::{BranchSlot, MessageSlot, QueueSlot, Rec, Set};
use tq_slottable::SlotTable;

/// The slots of a space: those of its queues, its messages and its branches.
#[derive(Drop)]
pub(crate) struct Slots {
    pub(crate) queues: Vec<QueueSlot>,
    pub(crate) messages: Vec<MessageSlot>,
    pub(crate) branches: Vec<BranchSlot>,
}

impl Model for Slots {
    ghost use Rattle.tq_slots.specs.SlotImages.{RawSlots};

    ghost Value = { RawSlots };

    ghost view = { λ a. record { queues = a.queues.items; messages = a.messages.items; branches = a.branches.items } };
}

impl Slots {
    /// The slots of queues.
    pub(crate) fn queues(&self) -> &[QueueSlot]
        ensures { result.now ≡ self.now.queues }
    {
        &self.queues
    }

    /// The slots of messages.
    pub(crate) fn messages(&self) -> &[MessageSlot]
        ensures { result.now ≡ self.now.messages }
    {
        &self.messages
    }

    /// The same slots, where one is found by its message.
    pub(crate) fn into_table(self, alloc: Global) -> Result<SlotTable, AllocError>
        requires few { length self.messages ≤ 65536 }
        requires once { HasDistinctArrivals (slots_in self) }
        ensures { IfOk result (λ table. table ≡ self) }
    {
        SlotTable::new(alloc, self.queues, self.messages, self.branches)
    }
}

/// Whether the slot is there that a set is of.
fn has_place(slots: &Slots, set: &Set) -> bool
    ensures { result ≡ reading.has_place slots.now set.now }
{
    match set {
        Set::Message(index, _) => usize::from(*index) < slots.messages.len(),
        Set::Queue(index, _) => usize::from(*index) < slots.queues.len(),
        Set::Branch(index, _) => usize::from(*index) < slots.branches.len(),
    }
}

/// Whether all slots are there that a record sets.
fn have_places(slots: &Slots, rec: &Rec) -> bool
    ensures { result ≡ reading.have_places slots.now (record_view rec.now) }
{
    rec.sets.iter().all(|set| has_place(slots, set))
}

/// Sets a slot.
fn put(slots: &mut Slots, set: &Set)
    requires { reading.has_place slots.old set.now ≡ true }
    ensures { slots.new ≡ with_set set.now slots.old }
{
    match set {
        Set::Message(index, slot) => slots.messages[usize::from(*index)] = *slot,
        Set::Queue(index, slot) => slots.queues[usize::from(*index)] = *slot,
        Set::Branch(index, slot) => slots.branches[usize::from(*index)] = *slot,
    }
}

/// Sets the slots of a record, one after another.
fn put_sets(slots: &mut Slots, sets: &[Set])
    requires { list_all (reading.has_place slots.old) sets.now ≡ true }
    ensures { slots.new ≡ with_record sets.now slots.old }
{
    for set in sets {
        put(slots, set);
    }
}

/// Sets what the record of a payload sets.
fn follow(alloc: Global, slots: &mut Slots, payload: &[u8]) -> Result<(), FileError>
    ensures done { OnOk result (followed slots.old payload.now ≡ Some slots.new) }
    ensures refused { IfErr result (IsMissing (followed slots.old payload.now)) }
{
    let rec = decode(alloc, payload)?;
    if !have_places(slots, &rec) {
        return Err(FileError::Damaged);
    }
    put_sets(slots, &rec.sets);
    Ok(())
}

/// Sets what the records of payloads set, one after another.
fn follow_all(alloc: Global, slots: &mut Slots, payloads: &[Vec<u8>]) -> Result<(), FileError>
    ensures done { OnOk result (slots_left (bytes_of payloads.now) slots.old ≡ Some slots.new) }
    ensures refused { IfErr result (IsMissing (slots_left (bytes_of payloads.now) slots.old)) }
{
    for payload in payloads {
        follow(alloc, slots, payload)?;
    }
    Ok(())
}

/// The slots of a base.
fn slots_of_base(alloc: Global, shape: &Shape, base: &[u8]) -> Result<Slots, FileError>
    requires { length base.now ≡ 1024 * model.slot_pages shape.now }
    ensures { MatchResult result (λ slots. base_slots shape.now base.now ≡ Some slots) (IsMissing (base_slots shape.now base.now)) }
{
    if !has_base_mark(base) {
        return Err(FileError::Damaged);
    }
    let (queues, messages, branches) = slots_in_base(
        alloc,
        base,
        shape.queues.into(),
        shape.messages.into(),
        shape.transactions.into(),
    )?;
    Ok(Slots {
        queues,
        messages,
        branches,
    })
}

/// The slots that a base and the payloads behind it say.
///
/// # Errors
/// `Damaged` exactly where one of them says none.
pub(crate) fn read_slots(
    alloc: Global,
    shape: &Shape,
    base: &[u8],
    payloads: &[Vec<u8>],
) -> Result<Slots, FileError>
    requires { length base.now ≡ 1024 * model.slot_pages shape.now }
    ensures read { MatchResult result (λ slots. slots_by shape.now base.now (bytes_of payloads.now) ≡ Some slots)
        (IsMissing (slots_by shape.now base.now (bytes_of payloads.now))) }
    ensures size { IfOk result (HasSlotsOf shape.now) }
{
    let mut slots = slots_of_base(alloc, shape, base)?;
    follow_all(alloc, &mut slots, payloads)?;
    Ok(slots)
}

/// Whether a slot is that of no branch.
fn is_no_branch(slot: &BranchSlot) -> bool
    ensures { result ≡ reading.is_no_branch slot.now }
{
    slot.state == 0
}

/// Whether a slot is unused, or that of a queue.
#[tactic(auto, using(crate::proofs::SlotReadingLemmas::queue_said))]
fn is_queue_or_unused(slot: &QueueSlot) -> bool
    ensures { result ≡ reading.is_queue_or_unused slot.now }
{
    slot.used == 0 || queue_in(slot).is_some()
}

/// Whether a slot is empty, or that of a Free message.
fn is_message_or_empty(slot: &MessageSlot) -> bool
    ensures { result ≡ reading.is_message_or_empty slot.now }
{
    slot.mark == 0 || is_free_slot(slot)
}

/// Whether no slot is that of a branch.
fn are_no_branches(slots: &[BranchSlot]) -> bool
    ensures { result ≡ list_all reading.is_no_branch slots.now }
{
    slots.iter().all(is_no_branch)
}

/// Whether each slot is unused, or that of a queue.
fn are_queues(slots: &[QueueSlot]) -> bool
    ensures { result ≡ list_all reading.is_queue_or_unused slots.now }
{
    slots.iter().all(is_queue_or_unused)
}

/// Whether each slot is empty, or that of a Free message.
fn are_messages(slots: &[MessageSlot]) -> bool
    ensures { result ≡ list_all reading.is_message_or_empty slots.now }
{
    slots.iter().all(is_message_or_empty)
}

/// Whether each slot by itself is what it has to be.
pub(crate) fn are_slots(slots: &Slots) -> bool
    ensures { result ≡ hold_all (slot_tests slots.now) }
{
    are_no_branches(&slots.branches) && are_queues(&slots.queues) && are_messages(&slots.messages)
}
