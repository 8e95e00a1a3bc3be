ghost use Rattle.std.specs.Prelude.{◌≡◌};
ghost use Rattle.tq_model.specs.SpaceForm.{default_queue};

use tq_types::{Entry, Label, Last, Mark, MsgId, Name, Order, Qos};

/// How a space is created.
#[derive(Clone, Copy, Debug, PartialEq, Eq)]
pub struct Shape {
    /// All pages, those of the overhead included.
    pub pages: u32,
    pub queues: u16,
    pub messages: u16,
    pub transactions: u16,
    /// The most bytes of the bodies of messages that are not persistent.
    pub memory: u64,
    /// The name of the error queue.
    pub error: Option<Name>,
}

/// A queue without its entries.
#[derive(Clone, Copy, Debug, PartialEq, Eq)]
pub struct QueueDef {
    pub name: Name,
    pub order: Order,
    /// Whether a message may be placed on top.
    pub top: bool,
    /// Whether a message may be placed before another.
    pub before: bool,
    /// The quality of a message that asks for the default.
    pub qos: Qos,
    pub retries: u32,
    /// In seconds.
    pub delay: u64,
}

/// What an entry becomes; all else of it stays.
#[derive(Clone, Copy, Debug, PartialEq, Eq)]
pub struct Change {
    pub id: MsgId,
    pub queue: u16,
    pub label: Label,
    pub mark: Mark,
    pub priority: u8,
    pub available: u64,
    pub expiration: Option<u64>,
    pub retries: u32,
}

/// One change of a space, in which a queue goes by its index.
#[derive(Debug, PartialEq, Eq, Drop)]
pub enum SpaceMove {
    Insert(Entry),
    Remove(MsgId),
    Replace(Change),
    /// Makes the queue of that index, or changes it and keeps its entries.
    PutQueue(u16, QueueDef),
    /// Removes a queue that has no entries.
    DropQueue(u16),
}

/// The queue of that name, as it is made where nothing more is asked for.
pub fn default_queue(name: &Name) -> QueueDef
    ensures { result ≡ default_queue name.now }
{
    let Ok(order) = Order::new(&[], Last::Fifo) else {
        unreachable!()
    };
    QueueDef {
        name: *name,
        order,
        top: false,
        before: false,
        qos: Qos::Persistent,
        retries: 0,
        delay: 0,
    }
}
