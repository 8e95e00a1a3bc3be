//! The first page of a message that a record sets.

ghost use Rattle.std.specs.Prelude.{◌≡◌, ◌<◌, true};
ghost use Rattle.tq_gate.specs.Frame.{IsFrame, payload_in};
ghost use Rattle.tq_slots.specs.RecordForm as form;
ghost use Rattle.tq_slots.specs.RecordForm.{AreSets, IsMessageAt, IsRecord, IsSpelling, changed_at, is_message, key_of, record_view, spelt};

use crate::bytes::set_number;
use tq_gate::BEFORE_PAYLOAD;
use tq_slots::{MessageSlot, Rec, Set};

/// The bytes of a message set.
const MESSAGE_SET: usize = 67;

/// Where the first page stands, from the payload's start on, of a message set that is the first of a record.
const FIRST_PAGE: usize = 18;

/// A message set with another first page.
fn with_first(set: Set, page: u32) -> Set
    ensures set { result ≡ form.with_first page set }
    ensures low { is_message set ≡ true → key_of set < 131072 }
{
    match set {
        Set::Message(index, slot) => Set::Message(
            index,
            MessageSlot {
                first: page,
                ..slot
            },
        ),
        other => other,
    }
}

/// Gives the message set at that place of the record another first page, in the record and in the frame that spells it.
pub fn set_first(rec: &mut Rec, frame: &mut [u8], at: usize, page: u32)
    requires record { IsRecord (record_view rec.old) }
    requires message { IsMessageAt at rec.old.sets.items }
    requires frame { IsFrame frame.old }
    requires spelt { payload_in frame.old ≡ spelt (record_view rec.old) }
    ensures kind { rec.new.kind ≡ rec.old.kind }
    ensures sets { rec.new.sets.items ≡ changed_at at (form.with_first page) rec.old.sets.items }
    ensures spelt { payload_in frame.new ≡ spelt (record_view rec.new) }
    // The record keeps its numbers in their ranges, and the bytes spell it.
    ensures ranges { AreSets rec.old.sets.items → AreSets rec.new.sets.items }
    ensures spells { AreSets rec.old.sets.items → IsSpelling (record_view rec.new) (payload_in frame.new) }
{
    rec.sets[at] = with_first(rec.sets[at], page);
    set_number(frame, BEFORE_PAYLOAD + FIRST_PAGE + MESSAGE_SET * at, page);
}
