//! A record of a space's log: why it was written, and the slots that it sets. Each field of a slot is the number, or the bytes,
//! that stand at its place; no limit but the width of its place is kept.

/// Why a record was written. It binds nothing.
#[derive(Clone, Copy, Debug, PartialEq, Eq)]
pub enum RecKind {
    Apply,
    Prepare,
    End,
    Heuristic,
    Forget,
    Catalog,
}

/// The slot of a message, 64 bytes.
#[derive(Clone, Copy, Debug, PartialEq, Eq)]
pub struct MessageSlot {
    /// 0 empty, 1 Free, 2 Adding, 3 Taking
    pub mark: u8,
    /// The index of the branch slot of an Adding or a Taking message, else 0.
    pub branch: u8,
    pub queue: u8,
    /// 1 on top, 2 has an expiration, 4 its root has one
    pub bits: u8,
    pub priority: u8,
    pub root_priority: u8,
    /// The arrivals of the path.
    pub numbers: u8,
    pub retries: u32,
    /// The first page of the message's chain.
    pub first: u32,
    pub epoch: u32,
    pub number: u32,
    /// In seconds, as the other times.
    pub available: u64,
    pub expiration: u64,
    pub root_available: u64,
    pub root_expiration: u64,
    pub root_epoch: u32,
    pub root_number: u32,
}

/// The slot of a queue, 512 bytes.
#[derive(Clone, Copy, Debug, PartialEq, Eq)]
pub struct QueueSlot {
    /// 0 unused, 1 used
    pub used: u8,
    pub name_length: u8,
    pub name: [u8; 127],
    /// How many criteria there are.
    pub count: u8,
    /// 1 priority, 2 time, 3 expiration
    pub criteria: [u8; 3],
    /// 1 fifo, 2 lifo
    pub last: u8,
    /// 1 top, 2 before a message
    pub rights: u8,
    /// 1 persistent, 2 not
    pub qos: u8,
    pub retries: u32,
    /// In seconds.
    pub delay: u64,
}

/// The slot of a branch, 160 bytes.
#[derive(Clone, Copy, Debug, PartialEq, Eq)]
pub struct BranchSlot {
    /// 0 empty, 1 own, 2 prepared, 3 committed heuristically, 4 rolled back heuristically
    pub state: u8,
    pub gtrid_length: u8,
    pub bqual_length: u8,
    /// Of an own branch its epoch.
    pub format: u32,
    /// Of an own branch its number.
    pub number: u32,
    pub gtrid: [u8; 64],
    pub bqual: [u8; 64],
}

/// A slot of that index, and all that it says from now on.
#[derive(Clone, Copy, Debug, PartialEq, Eq)]
pub enum Set {
    Message(u16, MessageSlot),
    Queue(u16, QueueSlot),
    Branch(u16, BranchSlot),
}

/// A record. Its spelling has at most 65,535 sets, which ascend: messages, queues and branches, each by their indices.
#[derive(Debug, Drop, PartialEq, Eq)]
pub struct Rec {
    pub kind: RecKind,
    pub sets: Vec<Set>,
}
