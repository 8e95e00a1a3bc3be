use crate::calls::Flags;
use tq_types::{Body, Name};

/// A verb of the script.
#[derive(Clone, Copy, Debug, PartialEq, Eq)]
pub enum Verb {
    /// `boot`
    Boot,
    /// `crdl`
    CreateDevice,
    /// `dsdl`
    EraseDevice,
    /// `lidl`
    ListDevice,
    /// `qspacecreate`
    CreateSpace,
    /// `qspacedestroy`
    RemoveSpace,
    /// `qcreate`
    CreateQueue,
    /// `tpenqueue`
    Enqueue,
    /// `tpdequeue`
    Dequeue,
}

/// How a word is spelt.
#[derive(Clone, Copy, Debug, PartialEq, Eq)]
pub enum Kind {
    /// A device number, 0 to 7.
    Device,
    /// A session, 1 to 32.
    Session,
    /// A number of 64 bits.
    Number,
    /// A name.
    Name,
    /// A name, or `-` for none.
    ErrorName,
    /// Bytes in quotes.
    Text,
    /// Names of flags, with `|` between them.
    Flags,
    /// `yes`
    Yes,
}

/// The key of a keyed word.
#[derive(Clone, Copy, Debug, PartialEq, Eq)]
pub enum Key {
    /// `site`
    Site,
    /// `dev`
    Dev,
    /// `pages`
    Pages,
    /// `queues`
    Queues,
    /// `trans`
    Transactions,
    /// `msgs`
    Messages,
    /// `error`
    Error,
    /// `memory`
    Memory,
    /// `flags`
    Flags,
    /// `data`
    Data,
    /// `force`
    Force,
}

/// What a word spells.
#[derive(Debug, PartialEq, Eq, Drop)]
pub enum Value {
    Number(u64),
    Name(Name),
    /// None for `-`.
    ErrorName(Option<Name>),
    Text(Body),
    Flags(Flags),
    /// `yes`
    Yes,
}
