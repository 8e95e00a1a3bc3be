//! The slot of a queue, made of it and read.

ghost use Rattle.std.specs.Prelude.{◌≡◌, ◌<◌, ◌≤◌, true, get_or, length, map, take};
ghost use Rattle.tq_slots.specs.MessageForm as message_form;
ghost use Rattle.tq_slots.specs.MessageForm.{has_bit};
ghost use Rattle.tq_slots.specs.QueueForm as form;
ghost use Rattle.tq_slots.specs.QueueForm.{bit_if, criterion_number, criterion_of, has_queue_name, has_queue_numbers, has_queue_order, is_queue_slot, last_number, last_of, order_in_slot, qos_number, qos_of, queue_in_slot, queue_of_slot, slot_name, slot_of_queue};

use crate::bytes::filled;
use tq_model::{QueueDef, name_in};
use tq_slots::QueueSlot;
use tq_types::{Criterion, Last, Name, Order, Qos};

/// The last moment, in seconds.
const LAST_MOMENT: u64 = 253_402_300_799;

/// The number of a criterion, 1 to 3.
fn criterion_code(criterion: Criterion) -> u8
    ensures { result ≡ criterion_number criterion }
{
    match criterion {
        Criterion::Priority => 1,
        Criterion::Time => 2,
        Criterion::Expiration => 3,
    }
}

/// The number of how the arrivals decide, 1 or 2.
fn last_code(last: Last) -> u8
    ensures { result ≡ last_number last }
{
    match last {
        Last::Fifo => 1,
        Last::Lifo => 2,
    }
}

/// The number of a quality, 1 or 2.
fn qos_code(qos: Qos) -> u8
    ensures { result ≡ qos_number qos }
{
    match qos {
        Qos::Persistent => 1,
        Qos::NonPersistent => 2,
    }
}

/// That bit, where it is to be set.
fn bit(bit: u8, set: bool) -> u8
    ensures { result ≡ bit_if bit set }
{
    if set { bit } else { 0 }
}

/// The number of the criterion at this place, 0 where there is none.
fn code_at(criteria: &[Criterion], at: usize) -> u8
    ensures { result ≡ get_or (map criterion_number criteria.now) at 0 }
{
    match criteria.get(at) {
        Some(criterion) => criterion_code(*criterion),
        None => 0,
    }
}

/// The numbers of criteria, with zeros behind them.
fn criteria_codes(criteria: &[Criterion]) -> [u8; 3]
    requires { length criteria.now ≤ 3 }
    ensures { result ≡ message_form.filled 3 (map criterion_number criteria.now) }
{
    [
        code_at(criteria, 0),
        code_at(criteria, 1),
        code_at(criteria, 2),
    ]
}

/// The slot that is made of a queue: each byte that says nothing is 0.
pub fn queue_slot(queue: &QueueDef) -> QueueSlot
    ensures { result ≡ slot_of_queue queue.now }
{
    let criteria = queue.order.criteria();
    QueueSlot {
        used: 1,
        name_length: queue.name.as_bytes().len() as u8,
        name: filled(queue.name.as_bytes()),
        count: criteria.len() as u8,
        criteria: criteria_codes(criteria),
        last: last_code(queue.order.last()),
        rights: bit(1, queue.top) + bit(2, queue.before),
        qos: qos_code(queue.qos),
        retries: queue.retries,
        delay: queue.delay,
    }
}

/// The criterion of that number, 1 to 3.
fn criterion(n: u8) -> Criterion
    ensures { result ≡ criterion_of n }
{
    match n {
        1 => Criterion::Priority,
        2 => Criterion::Time,
        _ => Criterion::Expiration,
    }
}

/// How the arrivals decide under that number, 1 or 2.
fn last(n: u8) -> Last
    ensures { result ≡ last_of n }
{
    match n {
        1 => Last::Fifo,
        _ => Last::Lifo,
    }
}

/// The quality of that number, 1 or 2.
fn qos(n: u8) -> Qos
    ensures { result ≡ qos_of n }
{
    match n {
        1 => Qos::Persistent,
        _ => Qos::NonPersistent,
    }
}

/// Whether a criterion has that number.
fn is_criterion(n: u8) -> bool
    ensures { result ≡ form.is_criterion n }
{
    1 <= n && n <= 3
}

/// Whether the number is 1 or 2.
fn is_one_or_two(n: u8) -> bool
    ensures { result ≡ form.is_one_or_two n }
{
    1 <= n && n <= 2
}

/// Whether the first so many numbers, at most 3, are those of criteria, none of them repeated.
fn are_criteria(numbers: &[u8; 3], count: u8) -> bool
    requires { count ≤ 3 }
    ensures { result ≡ form.are_criteria (take count numbers.now) }
{
    let (first, second, third) = (numbers[0], numbers[1], numbers[2]);
    match count {
        0 => true,
        1 => is_criterion(first),
        2 => is_criterion(first) && is_criterion(second) && first != second,
        _ => {
            is_criterion(first)
                && is_criterion(second)
                && is_criterion(third)
                && first != second
                && first != third
                && second != third
        }
    }
}

/// The bytes of a slot's name.
fn name_bytes(slot: &QueueSlot) -> &[u8]
    requires { slot.now.name_length ≤ 15 }
    ensures { result.now ≡ slot_name slot.now }
{
    &slot.name[..usize::from(slot.name_length)]
}

/// Whether a slot is used, and its name is one.
fn has_name(slot: &QueueSlot) -> bool
    ensures { result ≡ has_queue_name slot.now }
{
    slot.used == 1 && slot.name_length <= 15 && name_in(name_bytes(slot)).is_some()
}

/// Whether a slot has an order.
fn has_order(slot: &QueueSlot) -> bool
    ensures { result ≡ has_queue_order slot.now }
{
    slot.count <= 3 && are_criteria(&slot.criteria, slot.count) && is_one_or_two(slot.last)
}

/// Whether the other numbers of a slot are within their limits.
fn has_numbers(slot: &QueueSlot) -> bool
    ensures { result ≡ has_queue_numbers slot.now }
{
    slot.rights <= 3 && is_one_or_two(slot.qos) && slot.delay <= LAST_MOMENT
}

/// Whether a slot is that of a queue.
fn is_queue(slot: &QueueSlot) -> bool
    ensures { result ≡ is_queue_slot slot.now }
{
    has_name(slot) && has_order(slot) && has_numbers(slot)
}

/// The criteria of these numbers.
fn criteria(numbers: &[u8; 3]) -> [Criterion; 3]
    ensures { result ≡ map criterion_of numbers.now }
{
    [
        criterion(numbers[0]),
        criterion(numbers[1]),
        criterion(numbers[2]),
    ]
}

/// The order of a queue's slot.
fn order(slot: &QueueSlot) -> Order
    requires { is_queue_slot slot.now ≡ true }
    ensures { result ≡ order_in_slot slot.now }
{
    let criteria = criteria(&slot.criteria);
    match Order::new(&criteria[..usize::from(slot.count)], last(slot.last)) {
        Ok(order) => order,
        Err(_) => unreachable!(),
    }
}

/// Whether a byte has that bit.
fn is_set(byte: u8, bit: u8) -> bool
    requires { 0 < bit }
    ensures { result ≡ has_bit bit byte }
{
    byte / bit % 2 == 1
}

/// The name of a queue's slot.
fn name(slot: &QueueSlot) -> Name
    requires { is_queue_slot slot.now ≡ true }
    ensures { result ≡ slot_name slot.now }
{
    match name_in(name_bytes(slot)) {
        Some(name) => name,
        None => unreachable!(),
    }
}

/// What a queue's slot says.
fn queue(slot: &QueueSlot) -> QueueDef
    requires { is_queue_slot slot.now ≡ true }
    ensures { result ≡ queue_in_slot slot.now }
{
    QueueDef {
        name: name(slot),
        order: order(slot),
        top: is_set(slot.rights, 1),
        before: is_set(slot.rights, 2),
        qos: qos(slot.qos),
        retries: slot.retries,
        delay: slot.delay,
    }
}

/// The queue of a slot; none exactly where the slot is unused or breaks a rule: its name is none, a number is out of its limit,
/// or a criterion is repeated.
#[tactic(auto, unfolding(tq_slots::specs::QueueForm::queue_of_slot))]
pub fn queue_in(slot: &QueueSlot) -> Option<QueueDef>
    ensures { result ≡ queue_of_slot slot.now }
{
    if is_queue(slot) {
        Some(queue(slot))
    } else {
        None
    }
}
