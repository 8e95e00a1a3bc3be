ghost use Rattle.std.specs.Prelude.{◌≡◌, IfOk};

use crate::{Body, CorrId, Label, MsgId, Name};
use std::alloc::AllocError;

/// How a message is kept.
#[derive(Clone, Copy, Debug, PartialEq, Eq)]
pub enum Qos {
    /// On the device.
    Persistent,
    /// In memory, until the system stops.
    NonPersistent,
}

/// How a reply is to be kept.
#[derive(Clone, Copy, Debug, PartialEq, Eq)]
pub enum AskedQos {
    /// As the reply queue's default is.
    Default,
    Persistent,
    NonPersistent,
}

/// A message: its priority is 1 to 100, its times are moments, and its arrival is the epoch and the
/// number of its identifier.
#[derive(Debug, Drop, PartialEq, Eq)]
pub struct Message {
    pub id: MsgId,
    pub corr: Option<CorrId>,
    pub replyq: Option<Name>,
    pub failq: Option<Name>,
    pub priority: u8,
    pub available: u64,
    pub expiration: Option<u64>,
    pub qos: Qos,
    pub reply_qos: AskedQos,
    pub urcode: i32,
    pub retries: u32,
    pub body: Body,
}

impl Message {
    /// An equal message.
    pub fn copy(&self) -> Result<Message, AllocError>
        ensures { IfOk result (λ message. message ≡ self.now) }
    {
        Ok(Message {
            id: self.id,
            corr: self.corr,
            replyq: self.replyq,
            failq: self.failq,
            priority: self.priority,
            available: self.available,
            expiration: self.expiration,
            qos: self.qos,
            reply_qos: self.reply_qos,
            urcode: self.urcode,
            retries: self.retries,
            body: self.body.copy()?,
        })
    }
}

/// Whether a transaction holds an entry.
#[derive(Clone, Copy, Debug, PartialEq, Eq)]
pub enum Mark {
    /// None does.
    Free,
    /// This one enqueued it, and is not settled.
    Adding(u32),
    /// This one dequeued it, and is not settled.
    Taking(u32),
}

/// An entry of a queue, which is named by its index in the space.
#[derive(Debug, Drop, PartialEq, Eq)]
pub struct Entry {
    pub queue: u16,
    pub label: Label,
    pub mark: Mark,
    pub message: Message,
}

impl Entry {
    /// An equal entry.
    pub fn copy(&self) -> Result<Entry, AllocError>
        ensures { IfOk result (λ entry. entry ≡ self.now) }
    {
        Ok(Entry {
            queue: self.queue,
            label: self.label,
            mark: self.mark,
            message: self.message.copy()?,
        })
    }
}
