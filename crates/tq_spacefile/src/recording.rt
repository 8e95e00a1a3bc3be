ghost use Rattle.std.specs.Prelude.{◌≡◌, ◌++◌, IfOk, OnOk, Some};
ghost use Rattle.tq_gate.specs.Frame.{IsFrame, payload_in};
ghost use Rattle.tq_model.specs.Moves.{IndexedSpace};
ghost use Rattle.tq_model.specs.SpaceForm.{move_of, spelt, record_in};
ghost use Rattle.tq_model.specs.declared.record.SpaceRecord.{SpaceRecord};
ghost use Rattle.tq_model.specs.SpaceLog.{IsShort};
ghost use Rattle.tq_spacefile.specs.Payload.{IsPayloadOf};
ghost use Rattle.tq_spacefile.specs.Record.{IsRecorded};

use crate::payload::{spell_added, spell_gone, spell_queue};
use std::alloc::{AllocError, Global};
use tq_gate::BEFORE_PAYLOAD;
use tq_model::SpaceMove;
use tq_space::Plan;
use tq_types::Arrival;

/// A frame with the payload of the record that a plan of one move says.
pub(crate) fn frame_plan(alloc: Global, plan: &Plan) -> Result<Vec<u8>, AllocError>
    requires { (s : IndexedSpace) × (r : SpaceRecord) × IsRecorded s plan.now r }
    ensures frame { IfOk result (λ v. IsFrame v.items) }
    ensures payload { (s : IndexedSpace) (r : SpaceRecord) → IsRecorded s plan.now r → IfOk result (λ v. IsPayloadOf r (payload_in v.items)) }
{
    let Some(item) = plan.moves.as_slice().first() else {
        unreachable!()
    };
    let mut frame = Vec::from_slice(alloc, &[0; BEFORE_PAYLOAD])?;
    spell_move(&mut frame, item)?;
    frame.push(0)?;
    Ok(frame)
}

/// Puts the payload of the record that a move is made by behind other bytes.
fn spell_move(bytes: &mut Vec<u8>, item: &SpaceMove) -> Result<(), AllocError>
    requires { (s : IndexedSpace) × (r : SpaceRecord) × (item.now ≡ move_of s r) }
    ensures { (s : IndexedSpace) (r : SpaceRecord) → item.now ≡ move_of s r → IsShort r
        → OnOk result ((bytes.new.items ≡ bytes.old.items ++ spelt r) × (record_in (spelt r) ≡ Some r)) }
{
    match item {
        SpaceMove::Insert(entry) => spell_added(
            bytes,
            entry.queue,
            entry.label.root.arrival,
            entry.message.body.as_bytes(),
        ),
        SpaceMove::Remove(id) => {
            let arrival = Arrival {
                epoch: id.epoch,
                number: id.number,
            };
            spell_gone(bytes, arrival)
        }
        SpaceMove::PutQueue(index, def) => spell_queue(bytes, *index, &def.name),
        SpaceMove::Replace(_) | SpaceMove::DropQueue(_) => unreachable!(),
    }
}
