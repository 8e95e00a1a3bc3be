//! Branches as slots hold them.

ghost use Rattle.std.specs.Prelude.{◌≡◌, Some};
ghost use Rattle.tq_slots.specs.declared.branch.StoredBranch.{StoredBranch};
ghost use Rattle.tq_slots.specs.declared.record.BranchSlot.{BranchSlot};
ghost use Rattle.tq_slots.specs.BranchForm.{HasBranchSlot, HasBranchWidths, branch_of_slot, read_branch_slot, slot_of_branch};

use tq_types::{Arrival, XId};

/// A branch as its slot holds it.
#[derive(Clone, Copy, Debug, PartialEq, Eq)]
pub enum StoredBranch {
    /// The site's own transaction of that epoch and number.
    Own(Arrival),
    Prepared(XId),
    HeurCommitted(XId),
    HeurRolledBack(XId),
}

/// The slot that is made of a branch is that branch's. A slot that is that of a branch is the one that is made of it, in all that is
/// read of it.
pub fn branches_have_slots()
    ensures made { (b : StoredBranch) → HasBranchSlot b → branch_of_slot (slot_of_branch b) ≡ Some b }
    ensures read { (s : BranchSlot) (b : StoredBranch) → HasBranchWidths s → branch_of_slot s ≡ Some b → slot_of_branch b ≡ read_branch_slot s }
{}
