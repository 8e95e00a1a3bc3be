ghost use Rattle.std.specs.Prelude.{true, false, ◌≡◌, ℕ, ◌+◌, ◌-◌, ◌<◌, ◌≤◌, ◌==◌, [], ◌∷◌, length, map, IsTrue, IfOk, OnOk, OnErr, IfSome, IfNone, MatchOption, option_copied, option_map, is_some, Some, None, vec_len, vec_capacity};
ghost use Rattle.std.specs.List.{position, position_or_len, find, list_any, insert, All};
ghost use Rattle.std.specs.Str.{bytes_eq};
ghost use Rattle.tq_model.specs.Space.{is_eligible, is_free, is_past, same_id, has_id, is_named, stands_before, name_before, change_first};
ghost use Rattle.tq_model.specs.Moves.{mark_view, queue_of, queue_added, queue_dropped, on_queue, entry_view, entry_inserted, entry_removed, entry_replaced, entry_with_id, after_change, has_index, indexed_holds, session_owners};
ghost use Rattle.tq_model.specs.DequeueStep.{can_answer, is_candidate, has_asked_id, has_asked_corr};
ghost use Rattle.tq_space.specs.Reads.{indexed_named, HasDistinctIndices};
ghost use Rattle.tq_space.specs.Plain.{IsPlainEntry, IsPlainChange, HasNoExpirations, HasNoEntries};
ghost use Rattle.tq_space.specs.Grown.{IsGrown, AreGrown, HasRoomIn};
ghost use Rattle.tq_space.specs.Spare.{IsSpare, HasSpare};
ghost use Rattle.slab.specs.Slab.{HasRoomFor};
ghost use Rattle.tq_space.specs.Slots.{slot_test, slot_at, label_before};

use slab::Slab;
use std::alloc::{AllocError, Global};
use std::marker::Model;
use tq_model::{Change, DequeueCall, QueueDef};
use tq_types::{CorrId, Entry, Label, Mark, MsgId, Name, Order, Qos, compare};

/// A queue, with the keys of its entries in the order of their labels.
#[derive(Debug, Drop)]
pub(crate) struct HeldQueue {
    index: u16,
    def: QueueDef,
    keys: Vec<usize>,
}

/// The queues of a space by name, and their entries under keys that are used again.
#[derive(Drop)]
pub(crate) struct Shelf {
    queues: Vec<HeldQueue>,
    entries: Slab<Entry>,
    /// Empty lists, one for the keys of each queue to come.
    spare: Vec<Vec<usize>>,
    /// For how many more moves there is room.
    ready: usize,
    alloc: Global,
}

impl Model for Shelf {
    ghost use Rattle.tq_space.specs.State.{ShelfValue};

    ghost Value = { ShelfValue };

    ghost use Rattle.tq_space.specs.Shelf.{shelf_view, IsShelf};

    ghost view = { shelf_view };

    ghost invariant = { IsShelf };
}

/// Whether there is an entry, of that identifier.
fn slot_has_id(slot: Option<&Entry>, id: &MsgId) -> bool
    ensures { result ≡ slot_test (has_id id.now) (option_copied slot.entry) }
{
    match slot {
        Some(entry) => is_same_id(&entry.message.id, id),
        None => false,
    }
}

fn is_same_id(a: &MsgId, b: &MsgId) -> bool
    ensures { result ≡ same_id a.now b.now }
{
    a.site == b.site && a.space == b.space && a.epoch == b.epoch && a.number == b.number
}

/// Whether there is an entry, before which the label stands.
fn slot_is_after(slot: Option<&Entry>, order: &Order, label: &Label) -> bool
    ensures { result ≡ slot_test (label_before order.now label.now) (option_copied slot.entry) }
{
    match slot {
        Some(entry) => compare(order, label, &entry.label).is_lt(),
        None => false,
    }
}

/// The first place of a queue with that name.
fn place_named(queues: &[HeldQueue], name: &Name) -> Option<usize>
    ensures { result ≡ position (λ q. bytes_eq q.def.name name.now) queues.now }
{
    queues.iter().position(|q| q.def.name == *name)
}

/// The first place of a queue with that index.
fn place_indexed(queues: &[HeldQueue], index: u16) -> Option<usize>
    ensures { result ≡ position (λ q. q.index == index) queues.now }
{
    queues.iter().position(|q| q.index == index)
}

/// The first place of a key whose entry has that identifier.
fn place_of_id(keys: &[usize], entries: &Slab<Entry>, id: &MsgId) -> Option<usize>
    ensures { result ≡ position (λ k. slot_test (has_id id.now) (slot_at entries.now.slots k)) keys.now }
{
    keys.iter()
        .position(|key| slot_has_id(entries.get(*key), id))
}

/// The first place of a queue that has an entry of that identifier.
fn place_holding(queues: &[HeldQueue], entries: &Slab<Entry>, id: &MsgId) -> Option<usize>
    ensures { result ≡ position (λ q. is_some (position (λ k. slot_test (has_id id.now) (slot_at entries.now.slots k)) q.keys.items)) queues.now }
{
    queues
        .iter()
        .position(|q| place_of_id(&q.keys, entries, id).is_some())
}

/// The first place of a key before whose entry the label stands.
fn place_after(keys: &[usize], entries: &Slab<Entry>, order: &Order, label: &Label) -> Option<usize>
    ensures { result ≡ position (λ k. slot_test (label_before order.now label.now) (slot_at entries.now.slots k)) keys.now }
{
    keys.iter()
        .position(|key| slot_is_after(entries.get(*key), order, label))
}

/// The same, or the end.
fn place_for(keys: &[usize], entries: &Slab<Entry>, order: &Order, label: &Label) -> usize
    ensures { result ≡ position_or_len (λ k. slot_test (label_before order.now label.now) (slot_at entries.now.slots k)) keys.now }
{
    place_after(keys, entries, order, label).unwrap_or(keys.len())
}

/// Puts a key at a place for which there is room.
fn put_key(keys: &mut Vec<usize>, place: usize, key: usize)
    requires within { place ≤ vec_len keys.old }
    requires room { vec_len keys.old < vec_capacity keys.old }
    ensures items { keys.new.items ≡ insert keys.old.items place key }
    ensures len { vec_len keys.new ≡ vec_len keys.old + 1 }
    ensures capacity { vec_capacity keys.old ≤ vec_capacity keys.new }
{
    let _ = keys.insert(place, key);
}

/// Puts a queue at a place for which there is room.
fn put_queue(queues: &mut Vec<HeldQueue>, place: usize, queue: HeldQueue)
    requires within { place ≤ vec_len queues.old }
    requires room { vec_len queues.old < vec_capacity queues.old }
    ensures items { queues.new.items ≡ insert queues.old.items place queue }
    ensures len { vec_len queues.new ≡ vec_len queues.old + 1 }
    ensures capacity { vec_capacity queues.old ≤ vec_capacity queues.new }
{
    let _ = queues.insert(place, queue);
}

/// The first place of a queue before which the name comes.
fn place_after_name(queues: &[HeldQueue], name: &Name) -> Option<usize>
    ensures { result ≡ position (λ q. name_before name.now q.def.name) queues.now }
{
    queues.iter().position(|q| name.cmp(&q.def.name).is_lt())
}

/// The same, or the end.
fn place_by_name(queues: &[HeldQueue], name: &Name) -> usize
    ensures { result ≡ position_or_len (λ q. name_before name.now q.def.name) queues.now }
{
    place_after_name(queues, name).unwrap_or(queues.len())
}

/// Makes room for so many more keys.
fn reserve_in(queue: &mut HeldQueue, more: usize) -> Result<(), AllocError>
    ensures grown { IsGrown queue.old queue.new }
    ensures ok { OnOk result (vec_len queue.new.keys + more ≤ vec_capacity queue.new.keys) }
{
    queue.keys.reserve(more)
}

/// Makes room for so many more keys in each queue.
fn reserve_keys(queues: &mut [HeldQueue], more: usize) -> Result<(), AllocError>
    ensures grown { AreGrown queues.old queues.new }
    ensures ok { OnOk result (HasRoomIn more queues.new) }
{
    for at in 0..queues.len() {
        reserve_in(&mut queues[at], more)?;
    }
    Ok(())
}

/// Makes room for so many keys in a spare list.
fn widen(keys: &mut Vec<usize>, more: usize) -> Result<(), AllocError>
    ensures kept { (n : ℕ) → IsSpare n keys.old → IsSpare n keys.new }
    ensures room { OnOk result ((n : ℕ) → IsSpare n keys.old → IsSpare more keys.new) }
{
    keys.reserve(more)
}

/// Makes room for so many keys in each spare list.
fn widen_spare(spare: &mut [Vec<usize>], more: usize) -> Result<(), AllocError>
    ensures kept { (n : ℕ) → All (IsSpare n) spare.old → All (IsSpare n) spare.new }
    ensures room { OnOk result ((n : ℕ) → All (IsSpare n) spare.old → All (IsSpare more) spare.new) }
{
    for at in 0..spare.len() {
        widen(&mut spare[at], more)?;
    }
    Ok(())
}

/// Adds spare lists with room for so many keys, until there are so many.
fn add_spare(alloc: Global, spare: &mut Vec<Vec<usize>>, more: usize) -> Result<(), AllocError>
    ensures kept { (n : ℕ) → n ≤ more → HasSpare n spare.old → HasSpare n spare.new }
    ensures added { OnOk result (All (IsSpare more) spare.old.items → HasSpare more spare.new) }
{
    while spare.len() < more {
        spare.push(Vec::with_capacity(alloc, more)?)?;
    }
    Ok(())
}

/// Makes room for the keys of so many queues to come.
fn reserve_spare(alloc: Global, spare: &mut Vec<Vec<usize>>, more: usize) -> Result<(), AllocError>
    ensures kept { (n : ℕ) → n ≤ more → HasSpare n spare.old → HasSpare n spare.new }
    ensures added { OnOk result ((n : ℕ) → HasSpare n spare.old → HasSpare more spare.new) }
{
    widen_spare(spare, more)?;
    add_spare(alloc, spare, more)
}

/// Makes room for so many more entries and queues, and for the keys of the queues.
fn reserve_all(
    alloc: Global,
    queues: &mut Vec<HeldQueue>,
    entries: &mut Slab<Entry>,
    spare: &mut Vec<Vec<usize>>,
    more: usize,
) -> Result<(), AllocError>
    ensures slots { entries.new.slots ≡ entries.old.slots }
    ensures capacity { entries.old.capacity ≤ entries.new.capacity }
    ensures grown { AreGrown queues.old.items queues.new.items }
    ensures len { vec_len queues.new ≡ vec_len queues.old }
    ensures queue_capacity { vec_capacity queues.old ≤ vec_capacity queues.new }
    ensures spare_kept { (n : ℕ) → n ≤ more → HasSpare n spare.old → HasSpare n spare.new }
    ensures entry_room { OnOk result (HasRoomFor entries.new more) }
    ensures key_room { OnOk result (HasRoomIn more queues.new.items) }
    ensures queue_room { OnOk result (vec_len queues.new + more ≤ vec_capacity queues.new) }
    ensures spare_room { OnOk result ((n : ℕ) → HasSpare n spare.old → HasSpare more spare.new) }
{
    entries.reserve(more)?;
    queues.reserve(more)?;
    reserve_spare(alloc, spare, more)?;
    reserve_keys(queues, more)
}

/// Takes a spare list.
fn take_spare(spare: &mut Vec<Vec<usize>>) -> Vec<usize>
    requires { 1 ≤ vec_len spare.old }
    ensures rest { (n : ℕ) → HasSpare n spare.old → HasSpare (n - 1) spare.new }
    ensures taken { (n : ℕ) → HasSpare n spare.old → IsSpare n result }
{
    match spare.pop() {
        Some(keys) => keys,
        None => unreachable!(),
    }
}

/// The entry with the values of the change.
fn changed_entry(mut entry: Entry, change: &Change) -> Entry
    requires { IsPlainChange change.now }
    ensures item { entry_view session_owners result ≡ after_change session_owners change.now (entry_view session_owners entry) }
    ensures queue { result.queue ≡ change.now.queue }
    ensures plain { IsPlainEntry result }
{
    entry.queue = change.queue;
    entry.label = change.label;
    entry.mark = change.mark;
    entry.message.priority = change.priority;
    entry.message.available = change.available;
    entry.message.expiration = change.expiration;
    entry.message.retries = change.retries;
    entry
}

/// Whether there is an entry that answers a dequeue.
fn slot_answers(slot: Option<&Entry>, call: &DequeueCall, clock: u64) -> bool
    ensures { result ≡ slot_test (can_answer call.now clock) (option_copied slot.entry) }
{
    match slot {
        Some(entry) => fits(entry, call) && eligible(entry, clock),
        None => false,
    }
}

fn fits(entry: &Entry, call: &DequeueCall) -> bool
    ensures { result ≡ is_candidate call.now (entry_view session_owners entry.now) }
{
    fits_id(call.id, &entry.message.id) && fits_corr(call.corr, entry.message.corr)
}

fn fits_id(asked: Option<MsgId>, id: &MsgId) -> bool
    ensures { result ≡ has_asked_id asked id.now }
{
    match asked {
        None => true,
        Some(asked) => is_same_id(id, &asked),
    }
}

fn fits_corr(asked: Option<CorrId>, corr: Option<CorrId>) -> bool
    ensures { result ≡ has_asked_corr asked corr }
{
    match (asked, corr) {
        (None, _) => true,
        (Some(_), None) => false,
        (Some(asked), Some(corr)) => corr.bytes.as_slice() == asked.bytes.as_slice(),
    }
}

/// Whether an entry is free, available and not expired.
fn eligible(entry: &Entry, clock: u64) -> bool
    ensures { result ≡ is_eligible clock (entry_view session_owners entry.now) }
{
    free(entry.mark) && entry.message.available <= clock && !past(clock, entry.message.expiration)
}

fn free(mark: Mark) -> bool
    ensures { result ≡ is_free (mark_view session_owners mark) }
{
    match mark {
        Mark::Free => true,
        Mark::Adding(_) | Mark::Taking(_) => false,
    }
}

fn past(clock: u64, at: Option<u64>) -> bool
    ensures { result ≡ is_past clock at }
{
    match at {
        None => false,
        Some(at) => at <= clock,
    }
}

/// The first place of a key whose entry answers a dequeue.
fn place_answering(
    keys: &[usize],
    entries: &Slab<Entry>,
    call: &DequeueCall,
    clock: u64,
) -> Option<usize>
    ensures { result ≡ position (λ k. slot_test (can_answer call.now clock) (slot_at entries.now.slots k)) keys.now }
{
    keys.iter()
        .position(|key| slot_answers(entries.get(*key), call, clock))
}

/// What is read of a queue that is named.
#[derive(Clone, Copy)]
pub(crate) struct Named {
    pub(crate) index: u16,
    pub(crate) qos: Qos,
}

impl Shelf {
    ghost use Rattle.tq_space.specs.Reading.{named_of, answer_in};

    /// No queues and no entries.
    pub(crate) fn new(alloc: Global) -> Shelf
        ensures queues { result.queues ≡ [] }
        ensures ready { result.ready ≡ 0 }
    {
        Shelf {
            queues: Vec::new(alloc),
            entries: Slab::new(alloc),
            spare: Vec::new(alloc),
            ready: 0,
            alloc,
        }
    }

    /// Puts an entry in its place in the queue of its index.
    pub(crate) fn insert(&mut self, entry: Entry)
        requires room { 1 ≤ self.old.ready }
        requires there { list_any (has_index entry.queue) self.old.queues ≡ true }
        requires plain { IsPlainEntry entry }
        ensures queues { self.new.queues ≡ entry_inserted entry.queue (entry_view session_owners entry) self.old.queues }
        ensures ready { self.new.ready + 1 ≡ self.old.ready }
    {
        if let Some(at) = place_indexed(&self.queues, entry.queue) {
            let queue = &mut self.queues[at];
            let place = place_for(&queue.keys, &self.entries, &queue.def.order, &entry.label);
            let key = self.entries.insert_reserved(entry);
            put_key(&mut queue.keys, place, key);
            self.ready -= 1;
        } else {
            unreachable!()
        }
    }

    /// Takes out the entry of that identifier, if there is one; its key is used again.
    pub(crate) fn remove(&mut self, id: &MsgId) -> Option<Entry>
        ensures queues { self.new.queues ≡ entry_removed id.now self.old.queues }
        ensures ready { self.new.ready ≡ self.old.ready }
        ensures entry { option_map (entry_view session_owners) result ≡ entry_with_id id.now self.old.queues }
    {
        let Some(at) = place_holding(&self.queues, &self.entries, id) else {
            return None;
        };
        let queue = &mut self.queues[at];
        let Some(place) = place_of_id(&queue.keys, &self.entries, id) else {
            unreachable!()
        };
        let key = queue.keys.remove(place);
        self.entries.try_remove(key)
    }

    /// Changes the entry of the identifier and puts it in its place in the queue of its new index, if
    /// there is one of that identifier; its key may change.
    pub(crate) fn replace(&mut self, change: &Change)
        requires room { 1 ≤ self.old.ready }
        requires there { list_any (has_index change.now.queue) self.old.queues ≡ true }
        requires plain { IsPlainChange change.now }
        ensures queues { self.new.queues ≡ entry_replaced session_owners change.now (entry_with_id change.now.id self.old.queues) self.old.queues }
        ensures ready { self.old.ready ≤ self.new.ready + 1 }
    {
        if let Some(entry) = self.remove(&change.id) {
            self.insert(changed_entry(entry, change));
        }
    }

    /// Makes room for so many more moves. After an `Err` the queues are as they were, and so is what
    /// there was room for.
    pub(crate) fn reserve(&mut self, more: usize) -> Result<(), AllocError>
        ensures queues { self.new.queues ≡ self.old.queues }
        ensures ready { OnOk result (more ≤ self.new.ready) }
        ensures err { OnErr result (self.new.ready ≡ self.old.ready) }
    {
        if more <= self.ready {
            return Ok(());
        }
        reserve_all(
            self.alloc,
            &mut self.queues,
            &mut self.entries,
            &mut self.spare,
            more,
        )?;
        self.ready = more;
        Ok(())
    }

    /// Makes a queue of an index that is not there.
    pub(crate) fn add_queue(&mut self, index: u16, def: &QueueDef)
        requires room { 1 ≤ self.old.ready }
        requires new { list_any (has_index index) self.old.queues ≡ false }
        ensures queues { self.new.queues ≡ queue_added index def.now self.old.queues }
        ensures ready { self.new.ready + 1 ≡ self.old.ready }
    {
        let place = place_by_name(&self.queues, &def.name);
        let keys = take_spare(&mut self.spare);
        let queue = HeldQueue {
            index,
            def: *def,
            keys,
        };
        put_queue(&mut self.queues, place, queue);
        self.ready -= 1;
    }

    /// Changes the definition of the queue of that index, if there is one; its entries stay.
    pub(crate) fn change_queue(&mut self, index: u16, def: &QueueDef)
        ensures queues { self.new.queues ≡ change_first (has_index index) (on_queue (λ queue. queue_of def.now queue.items)) self.old.queues }
        ensures ready { self.new.ready ≡ self.old.ready }
    {
        if let Some(at) = place_indexed(&self.queues, index) {
            let queue = &mut self.queues[at];
            queue.def = *def;
        }
    }

    /// Removes the queue of that index, which has no entries, if there is one.
    pub(crate) fn drop_queue(&mut self, index: u16)
        requires { HasNoEntries (find (has_index index) self.old.queues) }
        ensures queues { self.new.queues ≡ queue_dropped index self.old.queues }
        ensures ready { self.new.ready ≡ self.old.ready }
    {
        if let Some(at) = place_indexed(&self.queues, index) {
            self.queues.remove(at);
        }
    }

    /// The queue of that name.
    pub(crate) fn named(&self, name: &Name) -> Option<Named>
        ensures named { result ≡ option_map named_of (find (indexed_named name.now) self.now.queues) }
        ensures indices { HasDistinctIndices self.now.queues }
        ensures lasting { HasNoExpirations self.now.queues }
    {
        let Some(at) = place_named(&self.queues, name) else {
            return None;
        };
        let queue = &self.queues[at];
        Some(Named {
            index: queue.index,
            qos: queue.def.qos,
        })
    }

    /// The first entry that answers a dequeue of its queue, if there is one.
    pub(crate) fn answering(&self, call: &DequeueCall, clock: u64) -> Option<&Entry>
        ensures entry { option_map (entry_view session_owners) (option_copied result)
            ≡ answer_in call.now clock (find (indexed_named call.now.queue) self.now.queues) }
    {
        let Some(at) = place_named(&self.queues, &call.queue) else {
            return None;
        };
        let queue = &self.queues[at];
        let Some(place) = place_answering(&queue.keys, &self.entries, call, clock) else {
            return None;
        };
        let key = queue.keys[place];
        self.entries.get(key)
    }

    /// The entry of that identifier.
    pub(crate) fn with_id(&self, id: &MsgId) -> Option<&Entry>
        ensures entry { option_map (entry_view session_owners) (option_copied result) ≡ entry_with_id id.now self.now.queues }
    {
        let Some(at) = place_holding(&self.queues, &self.entries, id) else {
            return None;
        };
        let queue = &self.queues[at];
        let Some(place) = place_of_id(&queue.keys, &self.entries, id) else {
            unreachable!()
        };
        let key = queue.keys[place];
        self.entries.get(key)
    }

    /// Whether there is an entry of that identifier.
    pub(crate) fn holds_id(&self, id: &MsgId) -> bool
        ensures { result ≡ list_any (indexed_holds id.now) self.now.queues }
    {
        place_holding(&self.queues, &self.entries, id).is_some()
    }

    /// How many queues there are.
    pub(crate) fn count(&self) -> usize
        ensures { result ≡ length self.now.queues }
    {
        self.queues.len()
    }

    /// Whether a queue has that index.
    pub(crate) fn holds_index(&self, index: u16) -> bool
        ensures { result ≡ list_any (has_index index) self.now.queues }
    {
        place_indexed(&self.queues, index).is_some()
    }

    /// The lowest index below the limit that no queue has; none where each of them is used.
    pub(crate) fn unused_index(&self, limit: u16) -> Option<u16>
        ensures unused { IfSome result (λ index. (index < limit) × (list_any (has_index index) self.now.queues ≡ false)) }
        ensures lowest { IfSome result (λ index. (i : ℕ) → i < index → list_any (has_index i) self.now.queues ≡ true) }
        ensures used { IfNone result ((i : ℕ) → i < limit → list_any (has_index i) self.now.queues ≡ true) }
    {
        for index in 0..limit {
            if !self.holds_index(index) {
                return Some(index);
            }
        }
        None
    }
}
