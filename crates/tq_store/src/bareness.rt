//! What has nothing that is not built.

ghost use Rattle.std.specs.Prelude.{◌≡◌, ℕ, [], true, ◌&&◌};
ghost use Rattle.tq_model.specs.Moves.{entry_view, message_view, queue_of};
ghost use Rattle.tq_model.specs.Space.{Owner};
ghost use Rattle.tq_slots.specs.SpaceReading as reading;

use tq_model::QueueDef;
use tq_types::{AskedQos, Entry, Label, Last, Message, Qos};

/// Whether a queue orders nothing and grants nothing.
pub(crate) fn is_bare_queue(queue: &QueueDef) -> bool
    ensures { result ≡ reading.is_bare_queue (queue_of queue.now []) }
{
    queue.order.criteria().len() == 0
        && queue.order.last() == Last::Fifo
        && !queue.top
        && !queue.before
        && queue.qos == Qos::Persistent
        && queue.retries == 0
        && queue.delay == 0
}

/// Whether a label says an arrival alone.
fn is_bare_label(label: &Label) -> bool
    ensures { result ≡ reading.is_bare_label label.now }
{
    !label.root.top
        && label.root.priority == 50
        && label.root.available == 0
        && label.root.expiration.is_none()
        && label.path.len() == 0
}

/// Whether a message has a body alone.
fn is_bare_message(message: &Message) -> bool
    ensures { result ≡ reading.is_bare_message (message_view message.now) }
{
    message.priority == 50
        && message.available == 0
        && message.retries == 0
        && message.expiration.is_none()
        && message.corr.is_none()
        && message.replyq.is_none()
        && message.failq.is_none()
        && message.reply_qos == AskedQos::Default
        && message.urcode == 0
}

/// Whether an entry has a message alone.
pub(crate) fn is_bare_entry(entry: &Entry) -> bool
    ensures { (owners : ℕ → Owner) → result ≡ reading.is_bare_entry (entry_view owners entry.now) }
{
    is_bare_label(&entry.label) && is_bare_message(&entry.message)
}
