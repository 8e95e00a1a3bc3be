ghost use Rattle.std.specs.Prelude.{◌≡◌, ◌≢◌, ◌↔◌, length, IsNone, IfSome};
ghost use Rattle.tq_types.specs.Label.{label_cmp, root_cmp, criteria_cmp, criterion_cmp, expiration_cmp, path_cmp, arrival_cmp, last_cmp};
ghost use Rattle.tq_types.specs.Placed.{own_arrival, placed_before};
ghost use Rattle.tq_types.specs.declared.orders.Order.{Order};

use crate::{Arrival, Criterion, Last, Order, Path};
use std::cmp::Ordering;

/// The attributes by which a message was placed: the priority is 1 to 100, the times are moments.
#[derive(Clone, Copy, Debug, PartialEq, Eq)]
pub struct Root {
    pub top: bool,
    pub priority: u8,
    pub available: u64,
    pub expiration: Option<u64>,
    pub arrival: Arrival,
}

/// Where a message stands in its queue: a root, and the arrivals of the messages that were placed
/// before one another from there on.
#[derive(Clone, Copy, Debug, PartialEq, Eq)]
pub struct Label {
    pub root: Root,
    pub path: Path,
}

impl Label {
    /// The arrival of the message itself: the last of the path, or the root's where that is empty.
    pub fn own_arrival(&self) -> Arrival
        ensures { result ≡ own_arrival self.now }
    {
        match self.path.as_slice().last() {
            Some(arrival) => *arrival,
            None => self.root.arrival,
        }
    }

    /// The label of a message that is placed before this one: `None` exactly where the path has 16
    /// arrivals already.
    pub fn before(&self, arrival: Arrival) -> Option<Label>
        ensures full { IsNone result ↔ (length self.now.path ≡ 16) }
        ensures label { IfSome result (λ label. label ≡ placed_before self.now arrival) }
        ensures own { IfSome result (λ label. own_arrival label ≡ arrival) }
        ensures first { IfSome result (λ label. (order : Order) → label_cmp order label self.now ≡ Ordering.Less) }
    {
        let path = self.path.with(arrival)?;
        Some(Label {
            root: self.root,
            path,
        })
    }
}

/// The label order: `Less` where the first label stands before the second in a queue of this order.
pub fn compare(order: &Order, a: &Label, b: &Label) -> Ordering
    ensures order { result ≡ label_cmp order.now a.now b.now }
    // labels of two messages are always told apart
    ensures apart { own_arrival a.now ≢ own_arrival b.now → result ≢ Ordering.Equal }
{
    compare_roots(order, &a.root, &b.root).then(compare_paths(a.path.as_slice(), b.path.as_slice()))
}

/// Roots on top first, the newest of them first; the others by the order.
fn compare_roots(order: &Order, a: &Root, b: &Root) -> Ordering
    ensures { result ≡ root_cmp order.now a.now b.now }
{
    match (a.top, b.top) {
        (true, true) => compare_arrivals(&b.arrival, &a.arrival),
        (true, false) => Ordering::Less,
        (false, true) => Ordering::Greater,
        (false, false) => compare_criteria(order.criteria(), a, b).then(compare_last(
            order.last(),
            a,
            b,
        )),
    }
}

fn compare_arrivals(a: &Arrival, b: &Arrival) -> Ordering
    ensures { result ≡ arrival_cmp a.now b.now }
{
    a.epoch.cmp(&b.epoch).then(a.number.cmp(&b.number))
}

fn compare_last(last: Last, a: &Root, b: &Root) -> Ordering
    ensures { result ≡ last_cmp last a.now.arrival b.now.arrival }
{
    match last {
        Last::Fifo => compare_arrivals(&a.arrival, &b.arrival),
        Last::Lifo => compare_arrivals(&b.arrival, &a.arrival),
    }
}

/// The first of the criteria that tells the roots apart.
fn compare_criteria(criteria: &[Criterion], a: &Root, b: &Root) -> Ordering
    ensures { result ≡ criteria_cmp criteria.now a.now b.now }
{
    for criterion in criteria {
        let found = compare_by(*criterion, a, b);
        if found.is_ne() {
            return found;
        }
    }
    Ordering::Equal
}

fn compare_by(criterion: Criterion, a: &Root, b: &Root) -> Ordering
    ensures { result ≡ criterion_cmp criterion a.now b.now }
{
    match criterion {
        Criterion::Priority => b.priority.cmp(&a.priority),
        Criterion::Time => a.available.cmp(&b.available),
        Criterion::Expiration => compare_expirations(a.expiration, b.expiration),
    }
}

/// The earlier first, and none last.
fn compare_expirations(a: Option<u64>, b: Option<u64>) -> Ordering
    ensures { result ≡ expiration_cmp a b }
{
    match (a, b) {
        (Some(a), Some(b)) => a.cmp(&b),
        (Some(_), None) => Ordering::Less,
        (None, Some(_)) => Ordering::Greater,
        (None, None) => Ordering::Equal,
    }
}

/// Place by place the smaller arrival first; a path that ends comes after one that goes on.
fn compare_paths(a: &[Arrival], b: &[Arrival]) -> Ordering
    ensures { result ≡ path_cmp a.now b.now }
{
    for (at, arrival) in a.iter().enumerate() {
        if at == b.len() {
            return Ordering::Less;
        }
        let found = compare_arrivals(arrival, &b[at]);
        if found.is_ne() {
            return found;
        }
    }
    if a.len() < b.len() {
        Ordering::Greater
    } else {
        Ordering::Equal
    }
}
