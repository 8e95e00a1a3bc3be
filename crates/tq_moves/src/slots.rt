//! Slots that become bytes.

ghost use Rattle.std.specs.Prelude.{◌≡◌};
ghost use Rattle.tq_slots.specs.BaseForm.{branch_slot_spelt, message_slot_spelt, queue_slot_spelt};
ghost use Rattle.tq_slots.specs.Fields.{AreFields};
ghost use Rattle.tq_slots.specs.RecordForm.{branch_fields, message_fields, queue_fields};

use crate::bytes::{put, put_byte, put_long, put_number, put_zeros};
use tq_slots::{BranchSlot, MessageSlot, QueueSlot};

/// The bytes of a message slot.
pub(crate) fn message_bytes(m: &MessageSlot) -> [u8; 64]
    ensures bytes { result ≡ message_slot_spelt m.now }
    ensures fields { AreFields (message_fields m.now) }
{
    let mut bytes = [0; 64];
    let at = put_byte(&mut bytes, 0, m.mark);
    let at = put_byte(&mut bytes, at, m.branch);
    let at = put_byte(&mut bytes, at, m.queue);
    let at = put_byte(&mut bytes, at, m.bits);
    let at = put_byte(&mut bytes, at, m.priority);
    let at = put_byte(&mut bytes, at, m.root_priority);
    let at = put_byte(&mut bytes, at, m.numbers);
    let at = put_byte(&mut bytes, at, 0);
    let at = put_number(&mut bytes, at, m.retries);
    let at = put_number(&mut bytes, at, m.first);
    let at = put_number(&mut bytes, at, m.epoch);
    let at = put_number(&mut bytes, at, m.number);
    let at = put_long(&mut bytes, at, m.available);
    let at = put_long(&mut bytes, at, m.expiration);
    let at = put_long(&mut bytes, at, m.root_available);
    let at = put_long(&mut bytes, at, m.root_expiration);
    let at = put_number(&mut bytes, at, m.root_epoch);
    let _end = put_number(&mut bytes, at, m.root_number);
    bytes
}

/// The bytes of a queue slot.
pub(crate) fn queue_bytes(q: &QueueSlot) -> [u8; 512]
    ensures bytes { result ≡ queue_slot_spelt q.now }
    ensures fields { AreFields (queue_fields q.now) }
{
    let mut bytes = [0; 512];
    let at = put_byte(&mut bytes, 0, q.used);
    let at = put_byte(&mut bytes, at, q.name_length);
    let at = put(&mut bytes, at, &q.name);
    let at = put_byte(&mut bytes, at, 0);
    let at = put_byte(&mut bytes, at, q.count);
    let at = put(&mut bytes, at, &q.criteria);
    let at = put_byte(&mut bytes, at, q.last);
    let at = put_byte(&mut bytes, at, q.rights);
    let at = put_byte(&mut bytes, at, q.qos);
    let at = put_zeros(&mut bytes, at, 3);
    let at = put_number(&mut bytes, at, q.retries);
    let at = put_long(&mut bytes, at, q.delay);
    let _end = put_zeros(&mut bytes, at, 360);
    bytes
}

/// The bytes of a branch slot.
pub(crate) fn branch_bytes(b: &BranchSlot) -> [u8; 160]
    ensures bytes { result ≡ branch_slot_spelt b.now }
    ensures fields { AreFields (branch_fields b.now) }
{
    let mut bytes = [0; 160];
    let at = put_byte(&mut bytes, 0, b.state);
    let at = put_byte(&mut bytes, at, b.gtrid_length);
    let at = put_byte(&mut bytes, at, b.bqual_length);
    let at = put_byte(&mut bytes, at, 0);
    let at = put_number(&mut bytes, at, b.format);
    let at = put_number(&mut bytes, at, b.number);
    let at = put(&mut bytes, at, &b.gtrid);
    let at = put(&mut bytes, at, &b.bqual);
    let _end = put_zeros(&mut bytes, at, 20);
    bytes
}
