ghost use Rattle.std.specs.Prelude.{◌≡◌, ◌≤◌, length, MatchResult};
ghost use Rattle.tq_types.specs.Order.{IsDistinct, IsFirstRepeat};

use std::marker::Model;
use thiserror::Error;

/// What a queue may order its messages by, before their arrivals.
#[derive(Clone, Copy, Debug, PartialEq, Eq)]
pub enum Criterion {
    /// The higher priority first.
    Priority,
    /// The earlier available time first.
    Time,
    /// The earlier expiration first, and none last.
    Expiration,
}

/// How the arrivals decide where no criterion does.
#[derive(Clone, Copy, Debug, PartialEq, Eq)]
pub enum Last {
    /// The older first.
    Fifo,
    /// The newer first.
    Lifo,
}

/// At most three criteria.
#[derive(Clone, Copy, Debug)]
struct Criteria {
    items: [Criterion; 3],
    len: u8,
}

impl Model for Criteria {
    ghost use Rattle.std.specs.Prelude.{List, take, length, ◌++◌, ◌-◌, replicate};
    ghost use Rattle.tq_types.specs.declared.orders.Criterion.{Criterion};
    ghost use Rattle.tq_types.specs.declared.orders.Criterion.TheVariants.{Priority};
    ghost use Rattle.tq_types.specs.Padded.{IsPadded, unpadded};

    ghost Value = { List Criterion };

    ghost view = { λ a. take a.len a.items };

    ghost invariant = { λ a. IsPadded 3 Priority a.len a.items };

    ghost inverse = { λ list. record { items = list ++ replicate (3 - length list) Priority; len = length list } };

    ghost inverse_ok = { λ a h. unpadded 3 Priority a.len a.items h (λ n b. record { items = b; len = n }) };
}

impl Criteria {
    fn new(list: &[Criterion]) -> Criteria
        requires { length list.now ≤ 3 }
        ensures { result ≡ list.now }
    {
        let mut items = [Criterion::Priority; 3];
        items[..list.len()].copy_from_slice(list);
        Criteria {
            items,
            len: list.len() as u8,
        }
    }

    fn as_slice(&self) -> &[Criterion]
        ensures list { result.now ≡ self.now }
        ensures most { length self.now ≤ 3 }
    {
        &self.items[..self.len as usize]
    }
}

impl PartialEq for Criteria {
    ghost use Rattle.std.specs.Cmp.Lexicographic.{pointwise, lists_per};
    ghost use Rattle.tq_types.specs.contracts.orders.CriterionPartialEq.TheImpl.Laws.{laws-law};

    ghost eq = { pointwise ⟦<Criterion as PartialEq>⟧.eq };

    ghost laws = { lists_per laws-law };

    fn eq(&self, other: &Criteria) -> bool {
        self.as_slice() == other.as_slice()
    }
}

impl Eq for Criteria {
    ghost use Rattle.std.specs.Cmp.Lexicographic.{lists_equiv};
    ghost use Rattle.tq_types.specs.contracts.orders.CriterionEq.TheImpl.Laws.{laws-law};

    ghost laws = { lists_equiv laws-law };
}

/// The order of a queue's messages: distinct criteria, the most significant first, and the arrivals
/// last.
#[derive(Clone, Copy, Debug, PartialEq, Eq)]
pub struct Order {
    criteria: Criteria,
    last: Last,
}

impl Model for Order {
    ghost use Rattle.tq_types.specs.OrderValue.{OrderValue};
    ghost use Rattle.tq_types.specs.Order.{IsDistinct};

    ghost Value = { OrderValue };

    ghost view = { λ a. record { criteria = a.criteria; last = a.last } };

    ghost invariant = { λ a. IsDistinct a.criteria };

    ghost inverse = { λ order. record { criteria = order.criteria; last = order.last } };
}

/// The first place, from 0, of a criterion that stands before it too.
#[derive(Clone, Copy, Debug, PartialEq, Eq, Error)]
#[error("the criterion at {at} is there already")]
pub struct BadOrder {
    pub at: usize,
}

impl Order {
    /// The order of these criteria; refused exactly where one is repeated, with the place of the
    /// first that is.
    pub fn new(criteria: &[Criterion], last: Last) -> Result<Order, BadOrder>
        ensures { MatchResult result (λ order. (order.criteria ≡ criteria.now) × (order.last ≡ last) × IsDistinct criteria.now)
            (λ bad. IsFirstRepeat criteria.now bad.at) }
    {
        for (at, criterion) in criteria.iter().enumerate() {
            if criteria[..at].contains(criterion) {
                return Err(BadOrder { at });
            }
        }
        Ok(Order {
            criteria: Criteria::new(criteria),
            last,
        })
    }

    /// The criteria, the most significant first: at most three, all distinct.
    pub fn criteria(&self) -> &[Criterion]
        ensures criteria { result.now ≡ self.now.criteria }
        ensures most { length result.now ≤ 3 }
        ensures distinct { IsDistinct result.now }
    {
        self.criteria.as_slice()
    }

    /// How the arrivals decide.
    pub fn last(&self) -> Last
        ensures { result ≡ self.now.last }
    {
        self.last
    }
}
