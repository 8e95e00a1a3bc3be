//! What a move makes of slots and chains in memory, and what is to be written of it.

ghost use Rattle.std.specs.Prelude.{true, ◌≡◌, ◌+◌, ◌*◌, ◌<◌, ◌≤◌, ℕ, [], ◌∷◌, length, IfOk, OnErr, None, Some};
ghost use Rattle.std.specs.List.{position};
ghost use Rattle.tq_types.specs.Label.{arrival_cmp};
ghost use Rattle.tq_gate.specs.Frame.{IsFrame, payload_in};
ghost use Rattle.tq_model.specs.Moves.{IndexedSpace, moved};
ghost use Rattle.tq_model.specs.Space.{slot_pages};
ghost use Rattle.tq_pages.specs.Store.{chain_pages, free_pages, size_of};
ghost use Rattle.tq_slots.specs.MessageForm.{header_size};
ghost use Rattle.tq_slots.specs.MessageSlots.{UsedSlot, arrival_of, slot_arrival};
ghost use Rattle.tq_slots.specs.RecordForm.{AreSets, IsSpelling, record_view, spelt};
ghost use Rattle.tq_slots.specs.SlotImages.{slots_in};
ghost use Rattle.tq_slots.specs.SlotTable.{has_key, lowest_empty};
ghost use Rattle.tq_slots.specs.SpaceReading.{base_slots};
ghost use Rattle.tq_store.specs.Change.{IsChange};
ghost use Rattle.tq_store.specs.Commit.{CanComeIn};
ghost use Rattle.tq_store.specs.Draft.{HasSlotAt};
ghost use Rattle.tq_store.specs.Drafted.{FitsLog, HasCome, HasGone, IsFileOf, IsMade, IsWritten};
ghost use Rattle.tq_store.specs.File.{FileState};
ghost use Rattle.tq_store.specs.Sound.{HasSlotsOf};

use crate::page::PAGE;
use crate::place::slot_pages;
use std::alloc::{AllocError, Global};
use tq_gate::{AROUND_PAYLOAD, GateLog};
use tq_model::{QueueDef, Shape, SpaceMove};
use tq_moves::{encode, encode_message, message_slot, queue_slot, set_first, spell_base};
use tq_pages::PageStore;
use tq_slots::{Rec, RecKind, Set};
use tq_slottable::{SlotTable, empty_slot};
use tq_types::{Arrival, Entry, MsgId};

/// What is to be written of a change.
#[derive(Drop)]
pub(crate) struct Change {
    /// Whether the log has no room for the record.
    pub(crate) full: bool,
    /// Where it has none, a base of the slots before the change.
    pub(crate) base: Vec<u8>,
    /// The first page of the message that comes.
    pub(crate) first: u32,
    /// The message that comes; none of a change without one.
    pub(crate) message: Vec<u8>,
    /// The record, in a frame as the log takes it.
    pub(crate) frame: Vec<u8>,
}

/// A base of these slots, where it is asked for.
fn base_of(
    alloc: Global,
    shape: &Shape,
    table: &SlotTable,
    asked: bool,
) -> Result<Vec<u8>, AllocError>
    requires { HasSlotsOf shape.now table.now }
    ensures size { IfOk result (λ base. asked ≡ true → length base.items ≡ 1024 * slot_pages shape.now) }
    ensures slots { IfOk result (λ base. asked ≡ true → base_slots shape.now base.items ≡ Some table.now) }
{
    if !asked {
        return Ok(Vec::new(alloc));
    }
    let mut base = vec![in alloc; 0u8; PAGE * slot_pages(shape) as usize]?;
    spell_base(
        &mut base,
        table.queues(),
        table.messages(),
        table.branches(),
    );
    Ok(base)
}

/// A record of one set, and what is to be written with it; the message's first page is not known yet.
fn draft(
    alloc: Global,
    shape: &Shape,
    log: &GateLog,
    table: &SlotTable,
    kind: RecKind,
    set: Set,
    message: Vec<u8>,
) -> Result<(Rec, Change), AllocError>
    requires { HasSlotsOf shape.now table.now }
    ensures kind { IfOk result (λ d. d.0.kind ≡ kind) }
    ensures sets { IfOk result (λ d. d.0.sets.items ≡ set ∷ []) }
    ensures ranges { IfOk result (λ d. AreSets d.0.sets.items) }
    ensures frame { IfOk result (λ d. IsFrame d.1.frame.items) }
    ensures spelt { IfOk result (λ d. payload_in d.1.frame.items ≡ spelt (record_view d.0)) }
    ensures spells { IfOk result (λ d. IsSpelling (record_view d.0) (payload_in d.1.frame.items)) }
    ensures fits { IfOk result (λ d. FitsLog shape.now log.now table.now (length (payload_in d.1.frame.items)) d.1) }
    ensures message { IfOk result (λ d. d.1.message.items ≡ message.items) }
{
    let mut sets = Vec::new(alloc);
    sets.push(set)?;
    let rec = Rec { kind, sets };
    let frame = encode(alloc, &rec)?;
    let full = !log.fits((frame.len() - AROUND_PAYLOAD) as u64);
    let base = base_of(alloc, shape, table, full)?;
    Ok((
        rec,
        Change {
            full,
            base,
            first: 0,
            message,
            frame,
        },
    ))
}

/// An entry comes: its message takes a chain of free pages, and the lowest empty slot. After an error
/// nothing is changed.
fn come(
    alloc: Global,
    shape: &Shape,
    log: &GateLog,
    table: &mut SlotTable,
    store: &mut PageStore,
    entry: &Entry,
) -> Result<Change, AllocError>
    requires size { HasSlotsOf shape.now table.old }
    requires queue { entry.now.queue < 256 }
    requires can { (s : IndexedSpace) × CanComeIn entry.now s }
    requires room { chain_pages (header_size + length entry.now.message.body) ≤ free_pages store.old }
    requires empty { lowest_empty (slots_in table.old) < length table.old.messages }
    requires new { position (has_key arrival_cmp slot_arrival (arrival_of entry.now.message.id)) (slots_in table.old) ≡ None }
    ensures come { IfOk result (HasCome shape.now log.now table.old table.new store.old store.new entry.now) }
    ensures table { OnErr result (table.new ≡ table.old) }
    ensures store { OnErr result (store.new ≡ store.old) }
{
    let message = encode_message(alloc, entry)?;
    let set = Set::Message(table.lowest_empty(), message_slot(entry, 0));
    let (mut rec, mut change) = draft(alloc, shape, log, table, RecKind::Apply, set, message)?;
    let first = store.take(change.message.len() as u32);
    let _left = store.free_count();
    set_first(&mut rec, &mut change.frame, 0, first);
    change.first = first;
    table.enter(message_slot(entry, first));
    Ok(change)
}

/// The entry of that identifier goes: its slot is empty, and its pages are free. No page is taken in
/// the same change, so none is written again before the record is durable. After an error nothing is
/// changed.
fn go(
    alloc: Global,
    shape: &Shape,
    log: &GateLog,
    table: &mut SlotTable,
    store: &mut PageStore,
    id: &MsgId,
) -> Result<Change, AllocError>
    requires size { HasSlotsOf shape.now table.old }
    requires there { (index : ℕ) × (m : UsedSlot) × HasSlotAt id.now table.old index m × (1 ≤ size_of store.old m.first) }
    ensures gone { IfOk result (HasGone shape.now log.now table.old table.new store.old store.new id.now) }
    ensures table { OnErr result (table.new ≡ table.old) }
    ensures store { OnErr result (store.new ≡ store.old) }
{
    let arrival = Arrival {
        epoch: id.epoch,
        number: id.number,
    };
    let Some(index) = table.place(&arrival) else {
        unreachable!()
    };
    let first = table.messages()[index as usize].first;
    let set = Set::Message(index, empty_slot());
    let (_rec, change) = draft(
        alloc,
        shape,
        log,
        table,
        RecKind::Apply,
        set,
        Vec::new(alloc),
    )?;
    table.clear(index);
    store.release(first);
    let _left = store.free_count();
    Ok(change)
}

/// A queue is made under an index that has a slot. After an error nothing is changed.
fn make_queue(
    alloc: Global,
    shape: &Shape,
    log: &GateLog,
    table: &mut SlotTable,
    index: u16,
    queue: &QueueDef,
) -> Result<Change, AllocError>
    requires size { HasSlotsOf shape.now table.old }
    requires within { index < length table.old.queues }
    ensures made { IfOk result (IsMade shape.now log.now table.old table.new index queue.now) }
    ensures table { OnErr result (table.new ≡ table.old) }
{
    let slot = queue_slot(queue);
    let set = Set::Queue(index, slot);
    let (_rec, change) = draft(
        alloc,
        shape,
        log,
        table,
        RecKind::Catalog,
        set,
        Vec::new(alloc),
    )?;
    table.set_queue(index, slot);
    Ok(change)
}

/// Makes a move of slots and chains, and gives what is to be written of it. After an error nothing is
/// changed.
pub(crate) fn make_change(
    alloc: Global,
    shape: &Shape,
    log: &GateLog,
    table: &mut SlotTable,
    store: &mut PageStore,
    item: &SpaceMove,
) -> Result<Change, AllocError>
    requires { (f : FileState) × IsFileOf f shape.now log.now table.old store.old item.now }
    ensures change { IfOk result (λ c. (f : FileState) → IsFileOf f shape.now log.now table.old store.old item.now
        → IsChange f (moved item.now f.space) table.new store.new c.first c.message.items (payload_in c.frame.items)) }
    ensures written { IfOk result (IsWritten shape.now log.now table.old table.new) }
    ensures table { OnErr result (table.new ≡ table.old) }
    ensures store { OnErr result (store.new ≡ store.old) }
{
    match item {
        SpaceMove::Insert(entry) => come(alloc, shape, log, table, store, entry),
        SpaceMove::Remove(id) => go(alloc, shape, log, table, store, id),
        SpaceMove::PutQueue(index, queue) => make_queue(alloc, shape, log, table, *index, queue),
        SpaceMove::Replace(_) | SpaceMove::DropQueue(_) => unreachable!(),
    }
}
