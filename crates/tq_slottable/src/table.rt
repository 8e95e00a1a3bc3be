//! The slots of a space, and what finds them.

ghost use Rattle.std.specs.Prelude.{◌≡◌, ◌≢◌, ◌<◌, ◌≤◌, ℕ, true, length, map, Some, None, IfOk, is_some, option_map, slice_index_or};
ghost use Rattle.std.specs.List.{position};
ghost use Rattle.tq_types.specs.Label.{arrival_cmp};
ghost use Rattle.tq_slots.specs.MessageSlots.{slot_arrival};
ghost use Rattle.tq_slots.specs.SlotImages.{used_in, used_of, slots_in, raw_of, with_set};
ghost use Rattle.tq_slots.specs.SlotTable.{has_key, lowest_empty};
ghost use Rattle.tq_slots.specs.declared.record.Set.TheVariants.{Message, Queue};
ghost use Rattle.tq_slottable.specs.Places.{HasDistinctArrivals};

use crate::places::{
    UsedPlace, arrival_of, empty_places, enter_empty, enter_used, find_used, remove_used,
    take_empty, used_places,
};
use std::alloc::{AllocError, Global};
use std::marker::Model;
use tq_slots::{BranchSlot, MessageSlot, QueueSlot};
use tq_types::Arrival;

/// The slots of a space in memory: of its queues, messages and branches, each as it stands on the
/// device. A message slot is found by the arrival of its message, and the lowest empty one, without a
/// walk over the slots. All memory is taken at `new`.
#[derive(Drop)]
pub struct SlotTable {
    queues: Vec<QueueSlot>,
    messages: Vec<MessageSlot>,
    branches: Vec<BranchSlot>,
    // The used message slots, by their arrivals.
    used: Vec<UsedPlace>,
    // The empty message slots, the lowest last.
    empty: Vec<u16>,
}

impl Model for SlotTable {
    ghost use Rattle.tq_slots.specs.SlotImages.{RawSlots};

    ghost Value = { RawSlots };

    ghost use Rattle.tq_slottable.specs.Table.{table_view, IsTable};

    ghost view = { table_view };

    ghost invariant = { IsTable };
}

/// A message slot that is empty, each of its fields 0.
pub fn empty_slot() -> MessageSlot
    ensures { result ≡ raw_of None }
{
    MessageSlot {
        mark: 0,
        branch: 0,
        queue: 0,
        bits: 0,
        priority: 0,
        root_priority: 0,
        numbers: 0,
        retries: 0,
        first: 0,
        epoch: 0,
        number: 0,
        available: 0,
        expiration: 0,
        root_available: 0,
        root_expiration: 0,
        root_epoch: 0,
        root_number: 0,
    }
}

impl SlotTable {
    /// A table of these slots, at most 65,536 of messages, of which no two used ones are of one
    /// arrival. It fails for want of memory alone.
    pub fn new(
        alloc: Global,
        queues: Vec<QueueSlot>,
        messages: Vec<MessageSlot>,
        branches: Vec<BranchSlot>,
    ) -> Result<SlotTable, AllocError>
        requires few { length messages.items ≤ 65536 }
        requires once { HasDistinctArrivals (map used_of messages.items) }
        ensures { IfOk result (λ table. table ≡ record { queues = queues.items; messages = messages.items; branches = branches.items }) }
    {
        let used = used_places(alloc, &messages)?;
        let empty = empty_places(alloc, &messages)?;
        Ok(SlotTable {
            queues,
            messages,
            branches,
            used,
            empty,
        })
    }

    /// The slots of queues, by their indices.
    pub fn queues(&self) -> &[QueueSlot]
        ensures { result.now ≡ self.now.queues }
    {
        &self.queues
    }

    /// The slots of messages, by their indices.
    pub fn messages(&self) -> &[MessageSlot]
        ensures { result.now ≡ self.now.messages }
    {
        &self.messages
    }

    /// The slots of branches, by their indices.
    pub fn branches(&self) -> &[BranchSlot]
        ensures { result.now ≡ self.now.branches }
    {
        &self.branches
    }

    /// The index of the used message slot of that arrival, where there is one.
    pub fn place(&self, arrival: &Arrival) -> Option<u16>
        ensures { result ≡ position (has_key arrival_cmp slot_arrival arrival.now) (slots_in self.now) }
    {
        match find_used(&self.used, arrival) {
            Ok(at) => Some(self.used[at].index),
            Err(_) => None,
        }
    }

    /// The index of the lowest empty message slot, of which there has to be one.
    pub fn lowest_empty(&self) -> u16
        requires { lowest_empty (slots_in self.now) < length self.now.messages }
        ensures { result ≡ lowest_empty (slots_in self.now) }
    {
        self.empty[self.empty.len() - 1]
    }

    /// A new message takes the lowest empty slot. Gives the slot's index.
    pub fn enter(&mut self, slot: MessageSlot) -> u16
        requires used { slot.mark ≢ 0 }
        requires new { position (has_key arrival_cmp slot_arrival (used_in slot).arrival) (slots_in self.old) ≡ None }
        requires room { lowest_empty (slots_in self.old) < length self.old.messages }
        ensures index { result ≡ lowest_empty (slots_in self.old) }
        ensures table { self.new ≡ with_set (Message result slot) self.old }
    {
        let lowest = take_empty(&mut self.empty);
        enter_used(&mut self.used, arrival_of(&slot), lowest);
        self.messages[lowest as usize] = slot;
        lowest
    }

    /// A used message slot says something else of its message.
    pub fn renew(&mut self, index: u16, slot: MessageSlot)
        requires used { slot.mark ≢ 0 }
        requires same { option_map slot_arrival (slice_index_or (slots_in self.old) index None) ≡ Some (used_in slot).arrival }
        ensures { self.new ≡ with_set (Message index slot) self.old }
    {
        self.messages[index as usize] = slot;
    }

    /// A used message slot becomes empty.
    pub fn clear(&mut self, index: u16)
        requires { is_some (slice_index_or (slots_in self.old) index None) ≡ true }
        ensures { self.new ≡ with_set (Message index (raw_of None)) self.old }
    {
        let arrival = arrival_of(&self.messages[index as usize]);
        remove_used(&mut self.used, &arrival);
        enter_empty(&mut self.empty, index);
        self.messages[index as usize] = empty_slot();
    }

    /// The slot of a queue says something else.
    pub fn set_queue(&mut self, index: u16, slot: QueueSlot)
        requires { index < length self.old.queues }
        ensures { self.new ≡ with_set (Queue index slot) self.old }
    {
        self.queues[index as usize] = slot;
    }
}
