//! The space in memory that slots and chains stand for.

ghost use Rattle.std.specs.Prelude.{true, false, [], ◌≡◌, ◌==◌, ◌<◌, ◌≤◌, ◌+◌, ◌^◌, List, ℕ, length, get_or, IfOk, OnOk, OnErr, Some, None};
ghost use Rattle.tq_host.specs.Calls.{HasCauseOf};
ghost use Rattle.tq_extent.specs.Bytes.{owned_bytes, reaches, IsQuiet};
ghost use Rattle.tq_extent.specs.Pages.{page_count};
ghost use Rattle.tq_model.specs.Moves.{moved, space_of};
ghost use Rattle.tq_model.specs.Reading.{hold_all};
ghost use Rattle.tq_model.specs.Room.{messages_held, pages_held};
ghost use Rattle.tq_model.specs.declared.space.SpaceMove.TheVariants.{Insert, PutQueue};
ghost use Rattle.tq_pages.specs.Content.{HasChain, chain_bytes};
ghost use Rattle.tq_pages.specs.Store.{free_pages, size_of, HasAdded};
ghost use Rattle.tq_slots.specs.MessageForm.{is_free_slot};
ghost use Rattle.tq_slots.specs.QueueForm.{queue_of_slot};
ghost use Rattle.tq_slots.specs.MessageSlots.{said_with_chain};
ghost use Rattle.tq_slots.specs.SlotImages.{used_in};
ghost use Rattle.tq_slots.specs.SpaceReading.{message_in, slot_tests, space_by};
ghost use Rattle.tq_slots.specs.declared.record.BranchSlot.{BranchSlot};
ghost use Rattle.tq_slots.specs.declared.record.MessageSlot.{MessageSlot as MessageSlotOf};
ghost use Rattle.tq_space.specs.Plain.{CanMove};
ghost use Rattle.tq_store.specs.declared.fault.FileError.TheVariants as file_error;
ghost use Rattle.tq_store.specs.File.{IsHeld};
ghost use Rattle.tq_store.specs.Filling.{slots_of, queue_taken, can_take, is_said_bare, HasQueues, IsMessage, HasEntered, IsUnfit, IsFilled, IsFilledFrom};
ghost use Rattle.tq_store.specs.Place.{IsPlace, IsCreation};

use crate::bareness::{is_bare_entry, is_bare_queue};
use crate::{FileError, SpacePlace};
use std::alloc::{AllocError, Global};
use tq_extent::PageMap;
use tq_host::Host;
use tq_model::{Shape, SpaceMove, overhead_pages};
use tq_moves::{decode_header, entry_in, queue_in};
use tq_pages::PageStore;
use tq_slots::{MessageSlot, QueueSlot};
use tq_space::{Space, plan_of};
use tq_types::{Arrival, Body, Entry};

/// The bytes of a header.
const HEADER: usize = 256;

/// A space in memory, and the chains of its messages.
#[derive(Drop)]
pub(crate) struct Filled {
    pub(crate) space: Space,
    pub(crate) store: PageStore,
}

/// Makes one move.
fn make(alloc: Global, space: &mut Space, item: SpaceMove) -> Result<(), AllocError>
    requires { CanMove item space.old.held }
    ensures { OnOk result (space.new.held ≡ moved item space.old.held) }
{
    let plan = plan_of(alloc, Some(item), None)?;
    space.reserve(&plan)?;
    space.apply(plan);
    Ok(())
}

/// Takes the queue of a slot in, where it has one.
fn take_queue(
    alloc: Global,
    space: &mut Space,
    index: u16,
    slot: &QueueSlot,
) -> Result<(), FileError>
    ensures taken { OnOk result (space.new.held ≡ queue_taken index (queue_of_slot slot.now) space.old.held) }
    ensures can { OnOk result (can_take (queue_of_slot slot.now) space.old.held ≡ true) }
    ensures damaged { result ≡ Err file_error.Damaged → can_take (queue_of_slot slot.now) space.old.held ≡ false }
    ensures cause { result ≡ Err file_error.Device → ⊥ }
{
    let Some(queue) = queue_in(slot) else {
        return Ok(());
    };
    if space.has_queue_named(&queue.name) || !is_bare_queue(&queue) {
        return Err(FileError::Damaged);
    }
    make(alloc, space, SpaceMove::PutQueue(index, queue))?;
    Ok(())
}

/// The space with the queues of slots, and no messages.
fn with_queues(
    alloc: Global,
    place: &SpacePlace,
    shape: &Shape,
    queues: &[QueueSlot],
) -> Result<Space, FileError>
    requires few { length queues.now ≤ 256 }
    ensures queues { IfOk result (λ space. HasQueues place.now.site place.now.number shape.now queues.now space.held) }
    ensures damaged { result ≡ Err file_error.Damaged → (bytes : List ℕ) (messages : List MessageSlotOf) (branches : List BranchSlot)
        → space_by place.now.site place.now.number shape.now bytes (slots_of queues.now messages branches) ≡ None }
    ensures cause { result ≡ Err file_error.Device → ⊥ }
{
    let mut space = Space::new(alloc, shape, place.site, place.number);
    for index in 0..queues.len() {
        take_queue(alloc, &mut space, index as u16, &queues[index])?;
    }
    Ok(space)
}

/// The entry that a slot and the bytes of its chain say.
fn entry_of(
    alloc: Global,
    place: &SpacePlace,
    slot: &MessageSlot,
    stored: &[u8],
) -> Result<Entry, FileError>
    requires free { is_free_slot slot.now ≡ true }
    requires few { length stored.now < 2 ^ 32 }
    ensures said { IfOk result (IsMessage place.now.site place.now.number slot.now stored.now) }
    ensures damaged { result ≡ Err file_error.Damaged
        → is_said_bare (said_with_chain place.now.site place.now.number (used_in slot.now) (message_in stored.now)) ≡ false }
    ensures cause { result ≡ Err file_error.Device → ⊥ }
{
    let Some(header) = decode_header(stored, stored.len() as u32) else {
        return Err(FileError::Damaged);
    };
    let body = Body::new(alloc, &stored[HEADER..])?;
    let Some(entry) = entry_in(place.site, place.number, slot, &header, body) else {
        return Err(FileError::Damaged);
    };
    if !is_bare_entry(&entry) {
        return Err(FileError::Damaged);
    }
    Ok(entry)
}

/// Takes the message of a slot in that is used, with its chain. After an error neither the space nor
/// the store is to be used.
fn take_message<H: Host>(
    alloc: Global,
    host: &mut H,
    place: &SpacePlace,
    slot: &MessageSlot,
    space: &mut Space,
    store: &mut PageStore,
) -> Result<(), FileError>
    requires reach { H.tells.reads → reaches store.old.clusters ((H.view host.old).reads store.old.dev) ≡ true }
    requires free { is_free_slot slot.now ≡ true }
    requires few { messages_held (space_of space.old.held) + 1 ≤ space.old.held.limits.messages }
    requires room { free_pages store.old + pages_held (space_of space.old.held) ≡ space.old.held.limits.pages }
    ensures entered { OnOk result (HasEntered place.now.site place.now.number slot.now space.old.held space.new.held store.old store.new H.tells.reads
        (owned_bytes store.old.clusters ((H.view host.old).reads store.old.dev))) }
    ensures damaged { result ≡ Err file_error.Damaged → H.tells.reads
        → IsUnfit place.now.site place.now.number slot.now space.old.held store.old (owned_bytes store.old.clusters ((H.view host.old).reads store.old.dev)) }
    ensures quiet { IsQuiet store.old.dev (H.view host.old) (H.view host.new) }
    ensures cause { HasCauseOf (result ≡ Err file_error.Device) (H.view host.old).faults (H.view host.new).faults }
{
    let arrival = Arrival {
        epoch: slot.epoch,
        number: slot.number,
    };
    if !space.holds_index(u16::from(slot.queue)) || space.holds_arrival(&arrival) {
        return Err(FileError::Damaged);
    }
    store.adopt(host, slot.first)?;
    let _sound = store.free_count();
    let stored = store.read(alloc, host, slot.first)?;
    let entry = entry_of(alloc, place, slot, stored.as_slice())?;
    make(alloc, space, SpaceMove::Insert(entry))?;
    Ok(())
}

/// The space of this creation in memory, and the store of its chains, that these slots stand for with
/// the chains on the pages of this map. Nothing is written.
///
/// # Errors
/// `Damaged` where they stand for none.
pub(crate) fn fill<H: Host>(
    alloc: Global,
    host: &mut H,
    place: &SpacePlace,
    shape: &Shape,
    map: PageMap,
    queues: &[QueueSlot],
    messages: &[MessageSlot],
) -> Result<Filled, FileError>
    requires place { IsPlace place.now map }
    requires creation { IsCreation place.now shape.now }
    requires reach { H.tells.reads → reaches map ((H.view host.old).reads place.now.dev) ≡ true }
    requires queue_count { length queues.now ≡ shape.now.queues }
    requires message_count { length messages.now ≡ shape.now.messages }
    requires judged { hold_all (slot_tests (slots_of queues.now messages.now [])) ≡ true }
    ensures filled { IfOk result (λ f. IsFilled place.now shape.now map queues.now messages.now f.space.held f.store) }
    ensures from { IfOk result (λ f. H.tells.reads → (branches : List BranchSlot) → hold_all (slot_tests (slots_of queues.now messages.now branches)) ≡ true
        → IsFilledFrom place.now shape.now map (slots_of queues.now messages.now branches) f.space.held f.store ((H.view host.old).reads place.now.dev)) }
    ensures held { IfOk result (λ f. (branches : List BranchSlot)
        → IsHeld place.now.site place.now.number (slots_of queues.now messages.now branches) f.store f.space.held) }
    ensures damaged { result ≡ Err file_error.Damaged → H.tells.reads → (branches : List BranchSlot)
        → space_by place.now.site place.now.number shape.now (owned_bytes map ((H.view host.old).reads place.now.dev))
        (slots_of queues.now messages.now branches) ≡ None }
    ensures quiet { IsQuiet place.now.dev (H.view host.old) (H.view host.new) }
    ensures cause { HasCauseOf (result ≡ Err file_error.Device) (H.view host.old).faults (H.view host.new).faults }
{
    let overhead = overhead_pages(shape) as u32;
    let mut space = with_queues(alloc, place, shape, queues)?;
    let mut store = PageStore::new(alloc, place.dev, map, overhead, place.pages - overhead)?;
    let _free = store.free_count();
    for slot in messages {
        if slot.mark != 0 {
            take_message(alloc, host, place, slot, &mut space, &mut store)?;
        }
    }
    Ok(Filled { space, store })
}
