//! The slot of a message, made of its entry and read.

ghost use Rattle.std.specs.Prelude.{◌≡◌, ◌<◌, ◌≤◌, ℕ, option_map};
ghost use Rattle.std.specs.List.{list_all};
ghost use Rattle.tq_model.specs.Moves.{entry_view};
ghost use Rattle.tq_model.specs.Space.{Owner};
ghost use Rattle.tq_slots.specs.MessageForm as form;
ghost use Rattle.tq_slots.specs.MessageForm.{bit_of, entry_of_slot, entry_with, has_bit, held_entry, is_free_slot, last_moment, moment_or_zero, moment_where, slot_of_entry, top_bit};

use tq_slots::{Header, MessageSlot};
use tq_types::{Arrival, Body, Entry, Label, Mark, Message, MsgId, Path, Qos, Root};

/// The last moment, in seconds.
const LAST_MOMENT: u64 = 253_402_300_799;

/// 1 where a message stands on top, else 0.
fn top_code(top: bool) -> u8
    ensures { result ≡ top_bit top }
{
    u8::from(top)
}

/// That bit, where there is a moment.
fn bit(bit: u8, moment: Option<u64>) -> u8
    ensures { result ≡ bit_of bit moment }
{
    if moment.is_some() { bit } else { 0 }
}

/// A moment, or 0 where there is none.
fn moment_code(moment: Option<u64>) -> u64
    ensures { result ≡ moment_or_zero moment }
{
    moment.unwrap_or(0)
}

/// The slot that is made of an entry as a Free one, in a queue of an index below 256, whose chain begins at that page.
pub fn message_slot(entry: &Entry, first: u32) -> MessageSlot
    requires { entry.now.queue < 256 }
    ensures { (owners : ℕ → Owner) → result ≡ slot_of_entry entry.now.queue first (entry_view owners entry.now) }
{
    let message = &entry.message;
    let root = &entry.label.root;
    MessageSlot {
        mark: 1,
        branch: 0,
        queue: entry.queue as u8,
        bits: top_code(root.top) + bit(2, message.expiration) + bit(4, root.expiration),
        priority: message.priority,
        root_priority: root.priority,
        numbers: entry.label.path.as_slice().len() as u8,
        retries: message.retries,
        first,
        epoch: message.id.epoch,
        number: message.id.number,
        available: message.available,
        expiration: moment_code(message.expiration),
        root_available: root.available,
        root_expiration: moment_code(root.expiration),
        root_epoch: root.arrival.epoch,
        root_number: root.arrival.number,
    }
}

/// Whether a byte has that bit.
fn is_set(byte: u8, bit: u8) -> bool
    requires { 0 < bit }
    ensures { result ≡ has_bit bit byte }
{
    byte / bit % 2 == 1
}

/// A moment, where a bit says that there is one.
fn moment(has: bool, at: u64) -> Option<u64>
    ensures { result ≡ moment_where has at }
{
    if has { Some(at) } else { None }
}

/// Whether a number is a priority.
fn is_priority(n: u8) -> bool
    ensures { result ≡ form.is_priority n }
{
    1 <= n && n <= 100
}

/// Whether the times of a slot are moments, an expiration where a bit says that there is one.
fn has_moments(slot: &MessageSlot) -> bool
    ensures { result ≡ form.has_moments slot.now }
{
    slot.available <= LAST_MOMENT
        && (!is_set(slot.bits, 2) || slot.expiration <= LAST_MOMENT)
        && slot.root_available <= LAST_MOMENT
        && (!is_set(slot.bits, 4) || slot.root_expiration <= LAST_MOMENT)
}

/// Whether the arrivals of a slot are of epochs, its message's and its root's.
fn has_epochs(slot: &MessageSlot) -> bool
    ensures { result ≡ form.has_epochs slot.now }
{
    slot.epoch >= 1 && slot.root_epoch >= 1
}

/// Whether a slot is that of a Free entry, its numbers being within their limits.
pub fn is_free_slot(slot: &MessageSlot) -> bool
    ensures { result ≡ is_free_slot slot.now }
{
    slot.mark == 1
        && slot.branch == 0
        && slot.bits <= 7
        && is_priority(slot.priority)
        && is_priority(slot.root_priority)
        && has_moments(slot)
        && has_epochs(slot)
}

/// The arrival of a slot's message.
fn slot_arrival(slot: &MessageSlot) -> Arrival
    ensures { result ≡ form.slot_arrival slot.now }
{
    Arrival {
        epoch: slot.epoch,
        number: slot.number,
    }
}

/// The path of a label: none, or the header's.
fn path(slot: &MessageSlot, header: &Header) -> Path
    ensures { result ≡ form.slot_path slot.now header.now }
{
    if slot.numbers == 0 {
        Path::empty()
    } else {
        header.path
    }
}

/// The label that a slot and a header make.
fn label(slot: &MessageSlot, header: &Header) -> Label
    ensures { result ≡ form.label_of slot.now header.now }
{
    Label {
        root: Root {
            top: is_set(slot.bits, 1),
            priority: slot.root_priority,
            available: slot.root_available,
            expiration: moment(is_set(slot.bits, 4), slot.root_expiration),
            arrival: Arrival {
                epoch: slot.root_epoch,
                number: slot.root_number,
            },
        },
        path: path(slot, header),
    }
}

/// Whether an arrival is of an epoch.
fn has_epoch(arrival: &Arrival) -> bool
    ensures { result ≡ form.has_epoch arrival.now }
{
    arrival.epoch >= 1
}

/// Whether each arrival of a path is of an epoch.
fn have_epochs(path: &[Arrival]) -> bool
    ensures { result ≡ list_all form.has_epoch path.now }
{
    path.iter().all(has_epoch)
}

/// Whether a slot and a header are of one message: one arrival, of which the label ends, and no path or the header's, of epochs all.
fn go_together(slot: &MessageSlot, header: &Header) -> bool
    ensures { result ≡ form.go_together slot.now header.now }
{
    slot_arrival(slot) == header.arrival
        && (slot.numbers == 0 || usize::from(slot.numbers) == header.path.len())
        && have_epochs(path(slot, header).as_slice())
        && label(slot, header).own_arrival() == slot_arrival(slot)
}

/// The entry that a slot and a header make, with this body, in a space of this site and number.
fn entry(site: u32, number: u32, slot: &MessageSlot, header: &Header, body: Body) -> Entry
    ensures { result ≡ held_entry slot.now.queue body (entry_with site number slot.now header.now) }
{
    Entry {
        queue: slot.queue.into(),
        label: label(slot, header),
        mark: Mark::Free,
        message: Message {
            id: MsgId {
                site,
                space: number,
                epoch: slot.epoch,
                number: slot.number,
            },
            corr: header.corr,
            replyq: header.replyq,
            failq: header.failq,
            priority: slot.priority,
            available: slot.available,
            expiration: moment(is_set(slot.bits, 2), slot.expiration),
            qos: Qos::Persistent,
            reply_qos: header.reply_qos,
            urcode: header.urcode,
            retries: slot.retries,
            body,
        },
    }
}

/// The entry of a message slot and the header at its first page, with this body, in a space of this site and number; for now of a
/// Free one. None exactly where they break a rule: a number is out of its limit, or they are not of one message.
#[tactic(auto, unfolding(tq_slots::specs::MessageForm::entry_of_slot))]
pub fn entry_in(
    site: u32,
    number: u32,
    slot: &MessageSlot,
    header: &Header,
    body: Body,
) -> Option<Entry>
    ensures { result ≡ option_map (held_entry slot.now.queue body) (entry_of_slot site number slot.now header.now) }
{
    if is_free_slot(slot) && go_together(slot, header) {
        Some(entry(site, number, slot, header, body))
    } else {
        None
    }
}
