//! The header before a message's body.

ghost use Rattle.std.specs.Prelude.{◌≡◌, ℕ, Some};
ghost use Rattle.tq_slots.specs.declared.message.Header.{Header};
ghost use Rattle.tq_model.specs.Space.{Entry};
ghost use Rattle.tq_slots.specs.declared.record.MessageSlot.{MessageSlot};
ghost use Rattle.tq_slots.specs.MessageForm.{HasSlot, entry_of_slot, header_of_entry, read_header, read_slot, slot_of_entry};

use tq_types::{Arrival, AskedQos, CorrId, Name, Path};

/// What the 256 bytes before a message's body say.
#[derive(Clone, Copy, Debug, PartialEq, Eq)]
pub struct Header {
    pub arrival: Arrival,
    /// The bytes of the body, at most 65,536.
    pub body_length: u32,
    pub corr: Option<CorrId>,
    pub replyq: Option<Name>,
    pub failq: Option<Name>,
    pub reply_qos: AskedQos,
    pub urcode: i32,
    pub path: Path,
}

/// The slot and the header that are made of an entry are those of that entry, whatever its queue and its first page. A slot and a
/// header that are those of an entry are the ones that are made of it, in all that is read of them.
pub fn entries_have_slots()
    ensures made { (site number queue first : ℕ) (e : Entry) → HasSlot site number e
        → entry_of_slot site number (slot_of_entry queue first e) (header_of_entry e) ≡ Some e }
    ensures read { (site number : ℕ) (s : MessageSlot) (h : Header) (e : Entry) → entry_of_slot site number s h ≡ Some e
        → (slot_of_entry s.queue s.first e ≡ read_slot s) × (header_of_entry e ≡ read_header s h) }
{}
