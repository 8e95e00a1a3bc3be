//! The base of a space: its slots one behind another.

ghost use Rattle.std.specs.Prelude.{◌≡◌, ◌+◌, ◌*◌, ◌≤◌, ◌++◌, true, length, take, IfOk};
ghost use Rattle.std.specs.List.{flat_map, AllByRecursion};
ghost use Rattle.tq_slots.specs.BaseForm as form;
ghost use Rattle.tq_slots.specs.BaseForm.{AreRawSlots, base_length, base_spelt, branch_slot_spelt, message_slot_spelt, queue_slot_spelt, raw_slots, slots_from};
ghost use Rattle.tq_slots.specs.Fields.{AreFields};
ghost use Rattle.tq_slots.specs.RecordForm.{branch_fields, branch_slot, message_fields, message_slot, queue_fields, queue_slot};
ghost use Rattle.tq_slots.specs.SlotImages.{RawSlots};

use crate::bytes::{put, put_zeros, run};
use crate::reading::{read_branch_slot, read_message_slot, read_queue_slot};
use crate::slots::{branch_bytes, message_bytes, queue_bytes};
use std::alloc::{AllocError, Global};
use tq_slots::{BranchSlot, MessageSlot, QueueSlot};

/// Its first bytes.
const MARK: &[u8; 4] = b"TQSB";

/// Whether bytes begin as a base does.
pub fn has_base_mark(bytes: &[u8]) -> bool
    ensures { result ≡ form.has_base_mark bytes.now }
{
    bytes.len() >= 4 && &bytes[..4] == MARK.as_slice()
}

/// Writes queue slots from that place on, and gives the place behind them.
fn put_queues(into: &mut [u8], at: usize, queues: &[QueueSlot]) -> usize
    requires { at + 512 * length queues.now ≤ length into.old }
    ensures place { result ≡ at + 512 * length queues.now }
    ensures front { take result into.new ≡ take at into.old ++ flat_map queue_slot_spelt queues.now }
    ensures size { length into.new ≡ length into.old }
    ensures ranges { AllByRecursion (λ q. AreFields (queue_fields q)) queues.now }
{
    let mut end = at;
    for queue in queues {
        end = put(into, end, &queue_bytes(queue));
    }
    end
}

/// Writes message slots from that place on, and gives the place behind them.
fn put_messages(into: &mut [u8], at: usize, messages: &[MessageSlot]) -> usize
    requires { at + 64 * length messages.now ≤ length into.old }
    ensures place { result ≡ at + 64 * length messages.now }
    ensures front { take result into.new ≡ take at into.old ++ flat_map message_slot_spelt messages.now }
    ensures size { length into.new ≡ length into.old }
    ensures ranges { AllByRecursion (λ m. AreFields (message_fields m)) messages.now }
{
    let mut end = at;
    for message in messages {
        end = put(into, end, &message_bytes(message));
    }
    end
}

/// Writes branch slots from that place on, and gives the place behind them.
fn put_branches(into: &mut [u8], at: usize, branches: &[BranchSlot]) -> usize
    requires { at + 160 * length branches.now ≤ length into.old }
    ensures place { result ≡ at + 160 * length branches.now }
    ensures front { take result into.new ≡ take at into.old ++ flat_map branch_slot_spelt branches.now }
    ensures size { length into.new ≡ length into.old }
    ensures ranges { AllByRecursion (λ b. AreFields (branch_fields b)) branches.now }
{
    let mut end = at;
    for branch in branches {
        end = put(into, end, &branch_bytes(branch));
    }
    end
}

/// Spells the base of these slots into bytes of its length; it takes no memory. Each byte that says nothing is 0.
/// The slots are read of it again, since their numbers are in their ranges, as those of each value of its type.
pub fn spell_base(
    into: &mut [u8],
    queues: &[QueueSlot],
    messages: &[MessageSlot],
    branches: &[BranchSlot],
)
    requires { length into.old ≡ base_length (length queues.now) (length messages.now) (length branches.now) }
    ensures bytes { into.new ≡ base_spelt (record { queues = queues.now; messages = messages.now; branches = branches.now }) }
    ensures mark { form.has_base_mark into.new ≡ true }
    ensures read { raw_slots (length queues.now) (length messages.now) (length branches.now) into.new
        ≡ record { queues = queues.now; messages = messages.now; branches = branches.now } }
    ensures ranges { AreRawSlots (record { queues = queues.now; messages = messages.now; branches = branches.now }) }
{
    let at = put(into, 0, MARK);
    let at = put_zeros(into, at, 60);
    let at = put_queues(into, at, queues);
    let at = put_messages(into, at, messages);
    let at = put_branches(into, at, branches);
    let left = into.len() - at;
    let _end = put_zeros(into, at, left);
}

/// So many queue slots, from that place on.
fn queues_from(
    alloc: Global,
    bytes: &[u8],
    at: usize,
    count: usize,
) -> Result<Vec<QueueSlot>, AllocError>
    requires { at + 512 * count ≤ length bytes.now }
    ensures { IfOk result (λ slots. slots.items ≡ slots_from queue_slot 512 count at bytes.now) }
{
    let mut slots = Vec::new(alloc);
    for i in 0..count {
        slots.push(read_queue_slot(run(bytes, at + 512 * i, 512)))?;
    }
    Ok(slots)
}

/// So many message slots, from that place on.
fn messages_from(
    alloc: Global,
    bytes: &[u8],
    at: usize,
    count: usize,
) -> Result<Vec<MessageSlot>, AllocError>
    requires { at + 64 * count ≤ length bytes.now }
    ensures { IfOk result (λ slots. slots.items ≡ slots_from message_slot 64 count at bytes.now) }
{
    let mut slots = Vec::new(alloc);
    for i in 0..count {
        slots.push(read_message_slot(run(bytes, at + 64 * i, 64)))?;
    }
    Ok(slots)
}

/// So many branch slots, from that place on.
fn branches_from(
    alloc: Global,
    bytes: &[u8],
    at: usize,
    count: usize,
) -> Result<Vec<BranchSlot>, AllocError>
    requires { at + 160 * count ≤ length bytes.now }
    ensures { IfOk result (λ slots. slots.items ≡ slots_from branch_slot 160 count at bytes.now) }
{
    let mut slots = Vec::new(alloc);
    for i in 0..count {
        slots.push(read_branch_slot(run(bytes, at + 160 * i, 160)))?;
    }
    Ok(slots)
}

/// The slots of a base with so many queues, messages and branches, whatever they say.
pub fn slots_in_base(
    alloc: Global,
    bytes: &[u8],
    queues: usize,
    messages: usize,
    branches: usize,
) -> Result<(Vec<QueueSlot>, Vec<MessageSlot>, Vec<BranchSlot>), AllocError>
    requires { base_length queues messages branches ≤ length bytes.now }
    ensures { IfOk result (λ found. record { queues = found.0.items; messages = found.1.items; branches = found.2.items }
        ≡ raw_slots queues messages branches bytes.now) }
{
    let messages_start = 64 + 512 * queues;
    let branches_start = messages_start + 64 * messages;
    Ok((
        queues_from(alloc, bytes, 64, queues)?,
        messages_from(alloc, bytes, messages_start, messages)?,
        branches_from(alloc, bytes, branches_start, branches)?,
    ))
}
