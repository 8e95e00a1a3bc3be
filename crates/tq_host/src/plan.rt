ghost use Rattle.std.specs.Prelude.{◌≡◌, ◌↔◌, ◌<◌, ◌≤◌, ◌+◌, ◌^◌, [], ◌∷◌, ◌++◌, IsTrue, OnOk, OnErr};
ghost use Rattle.tq_host.specs.declared.kind.CallKind.{CallKind};
ghost use Rattle.tq_host.specs.declared.plan.Planned.TheVariants.{Call, OfKind};
ghost use Rattle.tq_host.specs.Kinds.{number_of};
ghost use Rattle.tq_host.specs.Plan.{made_of, IsToFail, made, IsPlanSame, IsPlanAdded};

use crate::CallKind;
use std::alloc::{AllocError, Global};

/// A call that is to fail.
#[derive(Clone, Copy, Debug, PartialEq, Eq)]
pub enum Planned {
    /// This call, counted from 0.
    Call(u64),
    /// This call of a kind, counted from 0.
    OfKind(CallKind, u64),
}

/// The calls made so far, and those that are to fail.
#[derive(Drop)]
pub struct Plan {
    pub made: u64,
    pub by_kind: [u64; 8],
    pub planned: Vec<Planned>,
}

fn number(kind: CallKind) -> usize
    ensures value { result ≡ number_of kind }
    ensures below { result < 8 }
{
    match kind {
        CallKind::Attach => 0,
        CallKind::Length => 1,
        CallKind::SetLength => 2,
        CallKind::Read => 3,
        CallKind::Write => 4,
        CallKind::Sync => 5,
        CallKind::Take => 6,
        CallKind::Give => 7,
    }
}

impl Plan {
    pub fn new(alloc: Global) -> Plan
        ensures calls { result.made ≡ 0 }
        ensures kinds { (kind : CallKind) → made_of result kind ≡ 0 }
        ensures planned { result.planned.items ≡ [] }
    {
        Plan {
            made: 0,
            by_kind: [0; 8],
            planned: Vec::new(alloc),
        }
    }

    // Whether the next call, which is of this kind, is to fail; it counts as made.
    pub fn make(&mut self, kind: CallKind) -> bool
        ensures fails { IsTrue result ↔ IsToFail self.old kind }
        ensures made { self.new ≡ made kind self.old }
    {
        let index = number(kind);
        let all = self.made;
        let of_kind = self.by_kind[index];
        self.made = all.saturating_add(1);
        self.by_kind[index] = of_kind.saturating_add(1);
        self.planned.contains(&Planned::Call(all))
            || self.planned.contains(&Planned::OfKind(kind, of_kind))
    }

    /// Plans that this call fails, counted from 0.
    pub fn fail_at(&mut self, call: u64) -> Result<(), AllocError>
        ensures ok { OnOk result (IsPlanAdded (Call call) self.old self.new) }
        ensures err { OnErr result (IsPlanSame self.old self.new) }
    {
        Ok(self.planned.push(Planned::Call(call))?)
    }

    /// Plans that the call of this kind fails that is made after `nth` more of them.
    pub fn fail_kind(&mut self, kind: CallKind, nth: u64) -> Result<(), AllocError>
        ensures ok { OnOk result (made_of self.old kind + nth < 2 ^ 64 → IsPlanAdded (OfKind kind (made_of self.old kind + nth)) self.old self.new) }
        ensures late { OnOk result (2 ^ 64 ≤ made_of self.old kind + nth → IsPlanSame self.old self.new) }
        ensures err { OnErr result (IsPlanSame self.old self.new) }
    {
        match self.by_kind[number(kind)].checked_add(nth) {
            Some(number) => Ok(self.planned.push(Planned::OfKind(kind, number))?),
            None => Ok(()),
        }
    }
}
