//! The base of a space, in which its slots stand one behind another.

ghost use Rattle.std.specs.Prelude.{◌≡◌, ◌*◌, ℕ, List, true, length};
ghost use Rattle.tq_model.specs.Space.{slot_pages};
ghost use Rattle.tq_model.specs.declared.space.Shape.{Shape};
ghost use Rattle.tq_slots.specs.BaseForm.{AreRawSlots, base_length, base_spelt, has_base_mark, length_for, raw_slots};
ghost use Rattle.tq_slots.specs.SlotImages.{RawSlots};

/// What is spelt as a base is read as it, and fills the pages that a space has for one copy of its slots.
///
/// - `pages`: the length of a base is that of the pages that a space of this shape has for it.
/// - `mark`, `size`, `read`: what is spelt of slots has the mark and that length, and gives the slots again.
/// - `counts`: whatever the bytes are, so many slots are read.
pub fn base_is_read()
    ensures pages { (s : Shape) → base_length s.queues s.messages s.transactions ≡ 1024 * slot_pages s }
    ensures mark { (raw : RawSlots) → has_base_mark (base_spelt raw) ≡ true }
    ensures size { (raw : RawSlots) → AreRawSlots raw → length (base_spelt raw) ≡ length_for raw }
    ensures read { (raw : RawSlots) → AreRawSlots raw
        → raw_slots (length raw.queues) (length raw.messages) (length raw.branches) (base_spelt raw) ≡ raw }
    ensures counts { (q m t : ℕ) (bytes : List ℕ)
        → (length (raw_slots q m t bytes).queues ≡ q) × (length (raw_slots q m t bytes).messages ≡ m) × (length (raw_slots q m t bytes).branches ≡ t) }
{}
