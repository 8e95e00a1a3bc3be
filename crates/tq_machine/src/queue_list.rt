//! A queue, and its entries in a list.

ghost use Rattle.std.specs.Prelude.{◌≡◌, ◌<◌, ◌^◌, ◌&&◌, false, not, [], length, filter, map, option_map, option_copied, OnOk, OnErr};
ghost use Rattle.std.specs.List.{find, list_any, position, position_or_len};
ghost use Rattle.tq_model.specs.Space.{is_named, comes_after, holds_id, has_id, stands_before, is_eligible, is_expired, outlives, purged_queue, crashed_queue, with_entry, without_entry};
ghost use Rattle.tq_model.specs.Moves.{queue_of, entry_view, session_owners};
ghost use Rattle.tq_model.specs.Room.{pages_of_entry, queue_pages};
ghost use Rattle.tq_model.specs.SpaceForm.{default_queue};
ghost use Rattle.tq_machine.specs.Entries.{free_entry};

use crate::entries::{has_id, is_eligible, is_expired, outlives};
use std::alloc::{AllocError, Global};
use std::marker::Model;
use tq_model::{QueueDef, default_queue, message_pages};
use tq_types::{Entry, Mark, MsgId, Name, Order, Qos, compare};

/// A queue, and its entries in the order of their labels.
#[derive(Drop)]
pub(crate) struct QueueList {
    def: QueueDef,
    items: Vec<Entry>,
}

impl Model for QueueList {
    ghost use Rattle.std.specs.Prelude.{map};
    ghost use Rattle.tq_model.specs.Space.{Queue};
    ghost use Rattle.tq_model.specs.Moves.{queue_of, entry_view, session_owners};

    ghost Value = { Queue };

    ghost view = { λ q. queue_of q.def (map (entry_view session_owners) q.items.items) };
}

impl QueueList {
    /// A queue as it is made where nothing more is asked for, with no entries.
    pub(crate) fn new(alloc: Global, name: &Name) -> QueueList
        ensures { result ≡ queue_of (default_queue name.now) [] }
    {
        QueueList {
            def: default_queue(name),
            items: Vec::new(alloc),
        }
    }

    pub(crate) fn is_named(&self, name: &Name) -> bool
        ensures { result ≡ is_named name.now self.now }
    {
        self.def.name == *name
    }

    pub(crate) fn comes_after(&self, name: &Name) -> bool
        ensures { result ≡ comes_after name.now self.now }
    {
        name.cmp(&self.def.name).is_lt()
    }

    /// The quality of a message that asks for the default.
    pub(crate) fn qos(&self) -> Qos
        ensures { result ≡ self.now.qos }
    {
        self.def.qos
    }

    pub(crate) fn holds_id(&self, id: &MsgId) -> bool
        ensures { result ≡ holds_id id.now self.now }
    {
        any_has_id(&self.items, id)
    }

    /// How many entries there are.
    pub(crate) fn held(&self) -> usize
        ensures { result ≡ length self.now.items }
    {
        self.items.len()
    }

    /// How many entries are not expired.
    pub(crate) fn lasting(&self, clock: u64) -> usize
        ensures { result ≡ length (purged_queue clock self.now).items }
    {
        count_lasting(&self.items, clock)
    }

    /// The pages of all entries.
    pub(crate) fn pages(&self) -> u64
        requires { queue_pages self.now < 2 ^ 64 }
        ensures { result ≡ queue_pages self.now }
    {
        self.items.iter().map(entry_pages).sum()
    }

    /// The first eligible entry.
    pub(crate) fn eligible(&self, clock: u64) -> Option<&Entry>
        ensures { option_map (entry_view session_owners) (option_copied result) ≡ find (is_eligible clock) self.now.items }
    {
        first_eligible(&self.items, clock)
    }

    /// Drops the expired entries.
    pub(crate) fn purge(&mut self, clock: u64)
        ensures { self.new ≡ purged_queue clock self.old }
    {
        drop_expired(&mut self.items, clock);
    }

    /// Leaves what is there after a crash.
    pub(crate) fn crash(&mut self)
        ensures { self.new ≡ crashed_queue self.old }
    {
        keep_outliving(&mut self.items);
        free_all(&mut self.items);
    }

    /// Takes out the entry of that identifier, if there is one.
    pub(crate) fn remove(&mut self, id: &MsgId)
        ensures { self.new ≡ without_entry id.now self.old }
    {
        if let Some(at) = place_of_id(&self.items, id) {
            self.items.remove(at);
        }
    }

    /// Puts in an entry that is not expired, where it has its place once the expired entries are
    /// dropped. After an `Err` the queue is as it was.
    pub(crate) fn add(&mut self, entry: Entry, clock: u64) -> Result<(), AllocError>
        requires { is_expired clock (entry_view session_owners entry) ≡ false }
        ensures ok { OnOk result (purged_queue clock self.new ≡ with_entry (entry_view session_owners entry) (purged_queue clock self.old)) }
        ensures err { OnErr result (self.new ≡ self.old) }
    {
        let place = place_for(&self.items, &self.def.order, &entry, clock);
        self.items.insert(place, entry)?;
        Ok(())
    }
}

fn entry_pages(entry: &Entry) -> u64
    ensures { result ≡ pages_of_entry (entry_view session_owners entry.now) }
{
    message_pages(entry.message.qos, entry.message.body.len())
}

/// Whether an entry has that identifier.
fn any_has_id(items: &[Entry], id: &MsgId) -> bool
    ensures { result ≡ list_any (λ entry. has_id id.now (entry_view session_owners entry)) items.now }
{
    items.iter().any(|entry| has_id(entry, id))
}

/// The first place of an entry of that identifier.
fn place_of_id(items: &[Entry], id: &MsgId) -> Option<usize>
    ensures { result ≡ position (λ entry. has_id id.now (entry_view session_owners entry)) items.now }
{
    items.iter().position(|entry| has_id(entry, id))
}

fn count_lasting(items: &[Entry], clock: u64) -> usize
    ensures { result ≡ length (filter (λ entry. not (is_expired clock (entry_view session_owners entry))) items.now) }
{
    items
        .iter()
        .filter(|entry| !is_expired(entry, clock))
        .count()
}

fn first_eligible(items: &[Entry], clock: u64) -> Option<&Entry>
    ensures { option_copied result ≡ find (λ entry. is_eligible clock (entry_view session_owners entry)) items.now }
{
    items.iter().find(|entry| is_eligible(entry, clock))
}

fn drop_expired(items: &mut Vec<Entry>, clock: u64)
    ensures { items.new.items ≡ filter (λ entry. not (is_expired clock (entry_view session_owners entry))) items.old.items }
{
    items.retain(|entry| !is_expired(entry, clock));
}

fn keep_outliving(items: &mut Vec<Entry>)
    ensures { items.new.items ≡ filter (λ entry. outlives (entry_view session_owners entry)) items.old.items }
{
    items.retain(outlives);
}

/// The first place of an entry that is not expired and that comes after this one.
fn place_after(items: &[Entry], order: &Order, entry: &Entry, clock: u64) -> Option<usize>
    ensures { result ≡ position (λ other. not (is_expired clock (entry_view session_owners other))
        && stands_before order.now (entry_view session_owners entry.now) (entry_view session_owners other)) items.now }
{
    items.iter().position(|other| {
        !is_expired(other, clock) && compare(order, &entry.label, &other.label).is_lt()
    })
}

/// The same, or the end.
fn place_for(items: &[Entry], order: &Order, entry: &Entry, clock: u64) -> usize
    ensures { result ≡ position_or_len (λ other. not (is_expired clock (entry_view session_owners other))
        && stands_before order.now (entry_view session_owners entry.now) (entry_view session_owners other)) items.now }
{
    place_after(items, order, entry, clock).unwrap_or(items.len())
}

fn free_all(items: &mut [Entry])
    ensures { items.new ≡ map free_entry items.old }
{
    for at in 0..items.len() {
        items[at].mark = Mark::Free;
    }
}
