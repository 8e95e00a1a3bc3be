//! The slot of a queue.

ghost use Rattle.std.specs.Prelude.{◌≡◌, Some};
ghost use Rattle.tq_model.specs.declared.space.QueueDef.{QueueDef};
ghost use Rattle.tq_slots.specs.declared.record.QueueSlot.{QueueSlot};
ghost use Rattle.tq_slots.specs.QueueForm.{HasQueueSlot, HasWidths, queue_of_slot, read_queue_slot, slot_of_queue};

/// The slot that is made of a queue is that queue's. A slot that is that of a queue is the one that is made of it, in all that is
/// read of it.
pub fn queues_have_slots()
    ensures made { (d : QueueDef) → HasQueueSlot d → queue_of_slot (slot_of_queue d) ≡ Some d }
    ensures read { (s : QueueSlot) (d : QueueDef) → HasWidths s → queue_of_slot s ≡ Some d → slot_of_queue d ≡ read_queue_slot s }
{}
