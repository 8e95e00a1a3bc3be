//! Which message slots are used, in the order of their arrivals, and which are empty.

ghost use Rattle.std.specs.Prelude.{◌≡◌, ◌≢◌, ◌<◌, ◌≤◌, ◌+◌, ℕ, All, length, map, Some, None, IfOk, IfErr, HoldsAt, slice_index_or, slice_set, vec_len, vec_capacity};
ghost use Rattle.std.specs.List.{AllPairs, AllWithin, insert};
ghost use Rattle.std.specs.List.Sorted.{IsSearchInRange};
ghost use Rattle.tq_slots.specs.MessageSlots.{UsedSlot, Slots, slot_arrival};
ghost use Rattle.tq_slots.specs.SlotImages.{used_in, used_of};
ghost use Rattle.tq_slots.specs.SlotTable.{lowest_empty};
ghost use Rattle.tq_slottable.specs.Places.{IsOlder, IsAbove, AreUsedPlaces, AreEmptyPlaces, IsGap, IsNewIn, HasDistinctArrivals};

use std::alloc::{AllocError, Global};
use tq_slots::MessageSlot;
use tq_types::Arrival;

/// A used message slot: the arrival of its message, and its index.
#[derive(Clone, Copy, Debug, PartialEq, Eq)]
pub(crate) struct UsedPlace {
    pub(crate) arrival: Arrival,
    pub(crate) index: u16,
}

/// When the message of a used slot came.
pub(crate) fn arrival_of(slot: &MessageSlot) -> Arrival
    ensures { result ≡ (used_in slot.now).arrival }
{
    Arrival {
        epoch: slot.epoch,
        number: slot.number,
    }
}

/// Where an arrival stands among places, or, as the error, where it would stand.
pub(crate) fn find_used(used: &[UsedPlace], arrival: &Arrival) -> Result<usize, usize>
    ensures within { IsSearchInRange result (length used.now) }
    ensures found { IfOk result (HoldsAt (λ p. p.arrival ≡ arrival.now) used.now) }
    ensures gap { AllPairs IsOlder used.now → IfErr result (IsGap used.now arrival.now) }
{
    used.binary_search_by_key(arrival, |place| place.arrival)
}

/// Where an arrival goes among places, of which none has it.
fn place_for_used(used: &[UsedPlace], arrival: &Arrival) -> usize
    ensures within { result ≤ length used.now }
    ensures gap { AllPairs IsOlder used.now → All (λ p. p.arrival ≢ arrival.now) used.now → IsGap used.now arrival.now result }
{
    match find_used(used, arrival) {
        Ok(at) | Err(at) => at,
    }
}

/// Puts an element at a place of a list that has room for it.
fn put<T: Copy>(list: &mut Vec<T>, at: usize, element: T)
    requires within { at ≤ vec_len list.old }
    requires room { vec_len list.old < vec_capacity list.old }
    ensures items { list.new.items ≡ insert list.old.items at element }
    ensures capacity { vec_capacity list.old ≤ vec_capacity list.new }
{
    let _ = list.insert(at, element);
}

/// Enters a used slot, for which there is room.
pub(crate) fn enter_used(used: &mut Vec<UsedPlace>, arrival: Arrival, index: u16)
    requires room { vec_len used.old < vec_capacity used.old }
    // an empty slot becomes one of that arrival, which no other has
    ensures entered { (slots : Slots) (u : UsedSlot) → AreUsedPlaces slots used.old.items → index < length slots → slice_index_or slots index None ≡ None
        → u.arrival ≡ arrival → IsNewIn slots arrival → AreUsedPlaces (slice_set slots index (Some u)) used.new.items }
    ensures capacity { vec_capacity used.old ≤ vec_capacity used.new }
{
    let at = place_for_used(used, &arrival);
    put(used, at, UsedPlace { arrival, index });
}

/// Takes out the used slot of that arrival.
pub(crate) fn remove_used(used: &mut Vec<UsedPlace>, arrival: &Arrival)
    // the used slot of that arrival becomes an empty one
    ensures removed { (slots : Slots) (index : ℕ) (u : UsedSlot) → AreUsedPlaces slots used.old.items → slice_index_or slots index None ≡ Some u
        → u.arrival ≡ arrival.now → AreUsedPlaces (slice_set slots index None) used.new.items }
    ensures capacity { vec_capacity used.new ≡ vec_capacity used.old }
{
    if let Ok(at) = find_used(used, arrival) {
        let _ = used.remove(at);
    }
}

/// The used ones of these slots, in a list with room for all.
pub(crate) fn used_places(
    alloc: Global,
    messages: &[MessageSlot],
) -> Result<Vec<UsedPlace>, AllocError>
    requires few { length messages.now ≤ 65536 }
    requires once { HasDistinctArrivals (map used_of messages.now) }
    ensures listed { IfOk result (λ used. AreUsedPlaces (map used_of messages.now) used.items) }
    ensures room { IfOk result (λ used. length messages.now ≤ vec_capacity used) }
{
    let mut used = Vec::with_capacity(alloc, messages.len())?;
    for index in 0..messages.len() {
        let slot = &messages[index];
        if slot.mark != 0 {
            used.push(UsedPlace {
                arrival: arrival_of(slot),
                index: index as u16,
            })?;
        }
    }
    used.sort_unstable_by_key(|place| place.arrival);
    Ok(used)
}

/// Where an index goes among descending ones.
fn place_for_empty(empty: &[u16], index: u16) -> usize
    ensures within { result ≤ length empty.now }
    ensures above { AllPairs IsAbove empty.now → AllWithin (λ i. index < i) empty.now 0 result }
    ensures below { AllPairs IsAbove empty.now → AllWithin (λ i. i ≤ index) empty.now result (length empty.now) }
{
    empty.partition_point(|i| *i > index)
}

/// Enters an empty slot, for which there is room.
pub(crate) fn enter_empty(empty: &mut Vec<u16>, index: u16)
    requires room { vec_len empty.old < vec_capacity empty.old }
    // a used slot becomes an empty one
    ensures entered { (slots : Slots) (u : UsedSlot) → AreEmptyPlaces slots 0 empty.old.items → slice_index_or slots index None ≡ Some u
        → AreEmptyPlaces (slice_set slots index None) 0 empty.new.items }
    ensures capacity { vec_capacity empty.old ≤ vec_capacity empty.new }
{
    let at = place_for_empty(empty, index);
    put(empty, at, index);
}

/// Takes out the lowest empty slot.
pub(crate) fn take_empty(empty: &mut Vec<u16>) -> u16
    requires { 1 ≤ vec_len empty.old }
    ensures lowest { (slots : Slots) → AreEmptyPlaces slots 0 empty.old.items → result ≡ lowest_empty slots }
    // it becomes a used one
    ensures taken { (slots : Slots) (u : UsedSlot) → AreEmptyPlaces slots 0 empty.old.items → AreEmptyPlaces (slice_set slots result (Some u)) 0 empty.new.items }
    ensures capacity { vec_capacity empty.new ≡ vec_capacity empty.old }
{
    match empty.pop() {
        Some(index) => index,
        None => unreachable!(),
    }
}

/// The empty ones of these slots, in a list with room for all.
pub(crate) fn empty_places(alloc: Global, messages: &[MessageSlot]) -> Result<Vec<u16>, AllocError>
    requires few { length messages.now ≤ 65536 }
    ensures listed { IfOk result (λ empty. AreEmptyPlaces (map used_of messages.now) 0 empty.items) }
    ensures room { IfOk result (λ empty. length messages.now ≤ vec_capacity empty) }
{
    let mut empty = Vec::with_capacity(alloc, messages.len())?;
    let mut from = messages.len();
    while from > 0 {
        from -= 1;
        if messages[from].mark == 0 {
            empty.push(from as u16)?;
        }
    }
    Ok(empty)
}
