ghost use Rattle.std.specs.Prelude.{◌≡◌, ◌≤◌, ◌+◌, ◌++◌, length, IfOk, OnOk, MatchResult, Some};
ghost use Rattle.tq_field.specs.Digits.{digits};
ghost use Rattle.tq_model.specs.SpaceForm as form;
ghost use Rattle.tq_model.specs.SpaceForm.{spelt, record_in};
ghost use Rattle.tq_model.specs.declared.record.SpaceRecord.TheVariants.{Added, Gone, QueueMade};
ghost use Rattle.tq_spacefile.specs.Payload.{IsArrival, IsRefusedBy, IsRefused};

use crate::bytes::{four_bytes, two_bytes, u16_at, u32_at};
use crate::fault::RecordError;
use std::alloc::{AllocError, Global};
use tq_model::{LONGEST_BODY, SpaceRecord, name_in};
use tq_types::{Arrival, Body, Name};

// The kinds of payloads.
const ADDED: u8 = 1;

const GONE: u8 = 2;

const QUEUE_MADE: u8 = 3;

fn push_arrival(bytes: &mut Vec<u8>, arrival: Arrival) -> Result<(), AllocError>
    ensures items { OnOk result (bytes.new.items ≡ bytes.old.items ++ digits 4 arrival.epoch ++ digits 4 arrival.number) }
    ensures fits { OnOk result (IsArrival arrival) }
{
    bytes.extend_from_slice(&four_bytes(arrival.epoch))?;
    bytes.extend_from_slice(&four_bytes(arrival.number))?;
    Ok(())
}

/// Puts the payload of a message that came behind other bytes.
pub(crate) fn spell_added(
    bytes: &mut Vec<u8>,
    queue: u16,
    arrival: Arrival,
    body: &[u8],
) -> Result<(), AllocError>
    ensures spelt { OnOk result (bytes.new.items ≡ bytes.old.items ++ spelt (Added queue arrival body.now)) }
    ensures back { length body.now ≤ form.longest_body → OnOk result (record_in (spelt (Added queue arrival body.now)) ≡ Some (Added queue arrival body.now)) }
{
    bytes.push(ADDED)?;
    bytes.extend_from_slice(&two_bytes(queue))?;
    push_arrival(bytes, arrival)?;
    bytes.extend_from_slice(body)?;
    Ok(())
}

/// Puts the payload of a message that has gone behind other bytes.
pub(crate) fn spell_gone(bytes: &mut Vec<u8>, arrival: Arrival) -> Result<(), AllocError>
    ensures spelt { OnOk result (bytes.new.items ≡ bytes.old.items ++ spelt (Gone arrival)) }
    ensures back { OnOk result (record_in (spelt (Gone arrival)) ≡ Some (Gone arrival)) }
{
    bytes.push(GONE)?;
    push_arrival(bytes, arrival)?;
    Ok(())
}

/// Puts the payload of a queue that was made behind other bytes.
pub(crate) fn spell_queue(bytes: &mut Vec<u8>, index: u16, name: &Name) -> Result<(), AllocError>
    ensures spelt { OnOk result (bytes.new.items ≡ bytes.old.items ++ spelt (QueueMade index name.now)) }
    ensures back { OnOk result (record_in (spelt (QueueMade index name.now)) ≡ Some (QueueMade index name.now)) }
{
    let name = name.as_bytes();
    bytes.push(QUEUE_MADE)?;
    bytes.extend_from_slice(&two_bytes(index))?;
    bytes.push(name.len() as u8)?;
    bytes.extend_from_slice(name)?;
    Ok(())
}

/// What a payload says: `Unspelt` exactly where no record is spelt so.
pub(crate) fn decode(alloc: Global, bytes: &[u8]) -> Result<SpaceRecord, RecordError>
    ensures { MatchResult result (λ r. record_in bytes.now ≡ Some r) (IsRefused bytes.now) }
{
    let Some((kind, rest)) = bytes.split_first() else {
        return Err(RecordError::Unspelt);
    };
    match *kind {
        ADDED => added_in(alloc, rest),
        GONE => gone_in(rest).ok_or(RecordError::Unspelt),
        QUEUE_MADE => queue_in(rest).ok_or(RecordError::Unspelt),
        _ => Err(RecordError::Unspelt),
    }
}

fn arrival_at(bytes: &[u8], at: usize) -> Arrival
    requires { at + 8 ≤ length bytes.now }
    ensures { result ≡ form.arrival_at at bytes.now }
{
    Arrival {
        epoch: u32_at(bytes, at),
        number: u32_at(bytes, at + 4),
    }
}

fn added_in(alloc: Global, bytes: &[u8]) -> Result<SpaceRecord, RecordError>
    ensures { MatchResult result (λ r. form.added_in bytes.now ≡ Some r) (IsRefusedBy (form.added_in bytes.now)) }
{
    if bytes.len() < 10 || bytes.len() > 10 + LONGEST_BODY {
        return Err(RecordError::Unspelt);
    }
    let body = Body::new(alloc, &bytes[10..])?;
    Ok(SpaceRecord::Added {
        queue: u16_at(bytes, 0),
        arrival: arrival_at(bytes, 2),
        body,
    })
}

fn gone_in(bytes: &[u8]) -> Option<SpaceRecord>
    ensures { result ≡ form.gone_in bytes.now }
{
    if bytes.len() != 8 {
        return None;
    }
    Some(SpaceRecord::Gone(arrival_at(bytes, 0)))
}

fn queue_in(bytes: &[u8]) -> Option<SpaceRecord>
    ensures { result ≡ form.queue_in bytes.now }
{
    if bytes.len() < 3 || bytes[2] as usize + 3 != bytes.len() {
        return None;
    }
    let name = name_in(&bytes[3..])?;
    Some(SpaceRecord::QueueMade(u16_at(bytes, 0), name))
}
