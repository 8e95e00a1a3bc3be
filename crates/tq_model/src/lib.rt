//! What the program is to do, as definitions that every other crate cites: the grammar of lines, the
//! steps of the serial queue machine, the texts of answers, what the bytes of devices stand for, and
//! runs in which devices fail. Beside them stand the types that they speak of, and no algorithm.
#![tactic(auto)]

mod answer;
mod calls;
mod grammar;
mod limits;
mod names;
mod record;
mod request;
mod room;
mod space;

pub use answer::{
    Answer, Capacity, ClusterRoom, DeviceAnswer, Extent, Extents, Field, Identity, Listing,
    LogRoom, NewSpace, Readiness, SpaceAnswer, SpaceLine, SpaceLines, SpacePages,
};
pub use calls::{
    CallAnswer, CallRefusal, Delivery, DequeueAsk, DequeueCall, DequeueWords, EnqueueAsk,
    EnqueueCall, EnqueueWords, Flag, Flags, Place,
};
pub use grammar::{Key, Kind, Value, Verb};
pub use limits::{
    CLUSTER_BYTES, HEADER_BYTES, LAST_SPACE, LEAST_CLUSTERS, LONGEST_BODY, MOST_CLUSTERS,
    MOST_MEMORY, MOST_MESSAGES, MOST_PAGES, MOST_QUEUES, MOST_TRANSACTIONS,
};
pub use names::name_in;
pub use record::SpaceRecord;
pub use request::{
    CallRequest, Creation, DeviceRequest, QueueCreation, Request, SpaceCreation, SpaceRemoval,
    SpaceRequest,
};
pub use room::{message_pages, overhead_pages, pages_for};
pub use space::{Change, QueueDef, Shape, SpaceMove, default_queue};
