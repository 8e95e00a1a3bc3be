use crate::calls::{DequeueWords, EnqueueWords};
use tq_types::Name;

/// What one line asks for.
#[derive(Debug, PartialEq, Eq, Drop)]
pub enum Request {
    /// An empty line or a comment.
    Nothing,
    /// `boot`, a crash and a boot; the start of a run is this request too.
    Boot,
    /// No request: the column, from 1, of the first byte that does not fit.
    Bad(u64),
    /// A line of more than 262,144 bytes.
    TooLong,
    Device(DeviceRequest),
    Space(SpaceRequest),
    Call(CallRequest),
}

/// What is asked of a device.
#[derive(Clone, Debug, PartialEq, Eq, Drop)]
pub enum DeviceRequest {
    /// `crdl`
    Create(Creation),
    /// `dsdl`, of the device with this number
    Erase(u8),
    /// `lidl`, of the device with this number
    List(u8),
}

/// A device to be created.
#[derive(Clone, Debug, PartialEq, Eq, Drop)]
pub struct Creation {
    pub dev: u8,
    pub clusters: u64,
    /// The site number where one is given.
    pub site: Option<u64>,
}

/// What is asked of queue spaces and of their queues.
#[derive(Debug, PartialEq, Eq, Drop)]
pub enum SpaceRequest {
    /// `qspacecreate`
    Create(SpaceCreation),
    /// `qspacedestroy`
    Remove(SpaceRemoval),
    /// `qcreate`
    CreateQueue(QueueCreation),
}

/// A space to be created, as it is asked for.
#[derive(Debug, PartialEq, Eq, Drop)]
pub struct SpaceCreation {
    pub name: Name,
    pub dev: u8,
    /// All pages, those of the overhead included.
    pub pages: u64,
    pub queues: u64,
    pub transactions: u64,
    pub messages: u64,
    /// The name of the error queue.
    pub error: Option<Name>,
    /// The most bytes of the bodies of messages that are not persistent.
    pub memory: u64,
}

/// A space to be removed, as it is asked for.
#[derive(Debug, PartialEq, Eq, Drop)]
pub struct SpaceRemoval {
    pub space: Name,
    /// Whether its messages go with it.
    pub force: bool,
}

/// A queue to be created, as it is asked for.
#[derive(Debug, PartialEq, Eq, Drop)]
pub struct QueueCreation {
    pub space: Name,
    pub queue: Name,
}

/// A call of a session, 1 to 32.
#[derive(Debug, PartialEq, Eq, Drop)]
pub enum CallRequest {
    /// `tpenqueue`
    Enqueue(u8, EnqueueWords),
    /// `tpdequeue`
    Dequeue(u8, DequeueWords),
}
