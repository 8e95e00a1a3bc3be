//! A record that becomes bytes.

ghost use Rattle.std.specs.Prelude.{◌≡◌, ◌+◌, ◌*◌, ◌<◌, ◌++◌, length, OnOk, IfOk};
ghost use Rattle.std.specs.List.{flat_map};
ghost use Rattle.tq_field.specs.Digits.{digits};
ghost use Rattle.tq_gate.specs.Frame.{IsFrame, payload_in};
ghost use Rattle.tq_slots.specs.RecordForm.{AreSets, IsRecord, IsSet, IsSpelling, record_view, spelt, set_spelt, kind_number};

use crate::bytes::{push_byte, push_short, push_zeros};
use crate::slots::{branch_bytes, message_bytes, queue_bytes};
use std::alloc::{AllocError, Global};
use tq_gate::BEFORE_PAYLOAD;
use tq_slots::{Rec, RecKind, Set};

/// The number of a kind, 1 to 6.
fn kind_code(kind: RecKind) -> u8
    ensures { result ≡ kind_number kind }
{
    match kind {
        RecKind::Apply => 1,
        RecKind::Prepare => 2,
        RecKind::End => 3,
        RecKind::Heuristic => 4,
        RecKind::Forget => 5,
        RecKind::Catalog => 6,
    }
}

/// Adds a tag and an index, as one number.
fn push_key(out: &mut Vec<u8>, tag: u8, index: u16) -> Result<(), AllocError>
    ensures bytes { OnOk result (out.new.items ≡ out.old.items ++ digits 3 (65536 * tag + index)) }
    ensures range { index < 65536 }
{
    push_byte(out, tag)?;
    push_short(out, index)?;
    Ok(())
}

/// Adds a set.
#[tactic(auto, unfolding(tq_slots::specs::RecordForm::slot_spelt))]
fn push_set(out: &mut Vec<u8>, set: &Set) -> Result<(), AllocError>
    ensures bytes { OnOk result (out.new.items ≡ out.old.items ++ set_spelt set.now) }
    ensures set { OnOk result (IsSet set.now) }
{
    match set {
        Set::Message(index, m) => {
            push_key(out, 1, *index)?;
            out.extend_from_slice(&message_bytes(m))?;
        }
        Set::Queue(index, q) => {
            push_key(out, 2, *index)?;
            out.extend_from_slice(&queue_bytes(q))?;
        }
        Set::Branch(index, b) => {
            push_key(out, 3, *index)?;
            out.extend_from_slice(&branch_bytes(b))?;
        }
    }
    Ok(())
}

/// Adds sets.
fn push_sets(out: &mut Vec<u8>, sets: &[Set]) -> Result<(), AllocError>
    ensures bytes { OnOk result (out.new.items ≡ out.old.items ++ flat_map set_spelt sets.now) }
    ensures sets { OnOk result (AreSets sets.now) }
{
    for set in sets {
        push_set(out, set)?;
    }
    Ok(())
}

/// Adds a record of fewer than 65,536 sets.
fn push_record(out: &mut Vec<u8>, rec: &Rec) -> Result<(), AllocError>
    requires { length rec.now.sets.items < 65536 }
    ensures bytes { OnOk result (out.new.items ≡ out.old.items ++ spelt (record_view rec.now)) }
    ensures sets { OnOk result (AreSets rec.now.sets.items) }
{
    push_byte(out, kind_code(rec.kind))?;
    push_short(out, rec.sets.len() as u16)?;
    push_sets(out, rec.sets.as_slice())?;
    Ok(())
}

/// The spelling of a record, in a frame as a log takes it: its sets ascend and are fewer than 65,536. Each byte that says nothing
/// is 0.
pub fn encode(alloc: Global, rec: &Rec) -> Result<Vec<u8>, AllocError>
    requires { IsRecord (record_view rec.now) }
    ensures frame { IfOk result (λ frame. IsFrame frame.items) }
    ensures spelt { IfOk result (λ frame. payload_in frame.items ≡ spelt (record_view rec.now)) }
    // These bytes spell the record, and its numbers are in their ranges, as those of each value of its type.
    ensures spells { IfOk result (λ frame. IsSpelling (record_view rec.now) (payload_in frame.items)) }
    ensures sets { OnOk result (AreSets rec.now.sets.items) }
{
    let mut frame = Vec::new(alloc);
    push_zeros(&mut frame, BEFORE_PAYLOAD)?;
    push_record(&mut frame, rec)?;
    frame.push(0)?;
    Ok(frame)
}
