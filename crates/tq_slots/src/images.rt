//! The slots of a space as they stand on its device, and the law of slots.

ghost use Rattle.tq_slots.specs.SlotImages.{RawLaw, RecordLaw};

/// The raw slots of a space say the slots of the law, and so do records.
///
/// - `sets`: the sets of a plan's record, between what the raw slots say and the slots after the plan, can stand in a record, and
///   make raw slots that say the slots after it.
/// - `raw`: the raw slot of an entry is the one that says the law's slot of it, and the reverse.
pub fn records_make_slots()
    ensures sets { RecordLaw }
    ensures raw { RawLaw }
{}
