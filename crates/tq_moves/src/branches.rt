//! The slot of a branch, made of it and read.

ghost use Rattle.std.specs.Prelude.{◌≡◌, ◌≤◌, true, length};
ghost use Rattle.tq_slots.specs.BranchForm.{branch_of_slot, is_named_slot, is_own_slot, is_part_length, name_in_slot, named_branch, named_slot, own_slot, slot_of_branch};

use crate::bytes::filled;
use tq_slots::{BranchSlot, StoredBranch};
use tq_types::{Arrival, XId};

/// The slot of an own branch.
fn own(arrival: Arrival) -> BranchSlot
    ensures { result ≡ own_slot arrival }
{
    BranchSlot {
        state: 1,
        gtrid_length: 0,
        bqual_length: 0,
        format: arrival.epoch,
        number: arrival.number,
        gtrid: filled(&[]),
        bqual: filled(&[]),
    }
}

/// The slot of a branch with this name, in that state.
fn named(state: u8, name: &XId) -> BranchSlot
    ensures { result ≡ named_slot state name.now }
{
    let (gtrid, bqual) = (name.gtrid(), name.bqual());
    BranchSlot {
        state,
        gtrid_length: gtrid.len() as u8,
        bqual_length: bqual.len() as u8,
        format: name.format(),
        number: 0,
        gtrid: filled(gtrid),
        bqual: filled(bqual),
    }
}

/// The slot that is made of a branch: each byte that says nothing is 0.
pub fn branch_slot(branch: &StoredBranch) -> BranchSlot
    ensures { result ≡ slot_of_branch branch.now }
{
    match branch {
        StoredBranch::Own(arrival) => own(*arrival),
        StoredBranch::Prepared(name) => named(2, name),
        StoredBranch::HeurCommitted(name) => named(3, name),
        StoredBranch::HeurRolledBack(name) => named(4, name),
    }
}

/// Whether a slot is that of an own branch.
fn is_own(slot: &BranchSlot) -> bool
    ensures { result ≡ is_own_slot slot.now }
{
    slot.state == 1 && slot.gtrid_length == 0 && slot.bqual_length == 0 && slot.format >= 1
}

/// Whether a part of a name may have so many bytes.
fn is_length(n: u8) -> bool
    ensures { result ≡ is_part_length n }
{
    1 <= n && n <= 64
}

/// Whether a slot is in a state of a branch with a name, and has one.
fn is_named(slot: &BranchSlot) -> bool
    ensures { result ≡ is_named_slot slot.now }
{
    2 <= slot.state
        && slot.state <= 4
        && is_length(slot.gtrid_length)
        && is_length(slot.bqual_length)
        && slot.format <= 2_147_483_647
}

/// The name of a branch's slot.
fn name(slot: &BranchSlot) -> XId
    requires { is_named_slot slot.now ≡ true }
    ensures { result ≡ name_in_slot slot.now }
{
    let gtrid = &slot.gtrid[..usize::from(slot.gtrid_length)];
    let bqual = &slot.bqual[..usize::from(slot.bqual_length)];
    match XId::new(slot.format, gtrid, bqual) {
        Ok(name) => name,
        Err(_) => unreachable!(),
    }
}

/// A branch with this name, in that state.
fn branch(state: u8, name: XId) -> StoredBranch
    ensures { result ≡ named_branch state name }
{
    match state {
        2 => StoredBranch::Prepared(name),
        3 => StoredBranch::HeurCommitted(name),
        _ => StoredBranch::HeurRolledBack(name),
    }
}

/// The branch of a slot; none exactly where the slot is empty or breaks a rule: its state is none, a length or a number is out of its
/// limit, or an own branch has a name.
#[tactic(auto, unfolding(tq_slots::specs::BranchForm::branch_of_slot))]
pub fn branch_in(slot: &BranchSlot) -> Option<StoredBranch>
    ensures { result ≡ branch_of_slot slot.now }
{
    if is_own(slot) {
        Some(StoredBranch::Own(Arrival {
            epoch: slot.format,
            number: slot.number,
        }))
    } else if is_named(slot) {
        Some(branch(slot.state, name(slot)))
    } else {
        None
    }
}
