use tq_types::{Arrival, Body, Name};

/// What a payload of a space's log says, in the form that spaces have for now.
#[derive(Debug, PartialEq, Eq, Drop)]
pub enum SpaceRecord {
    /// A message has come into the queue of that index.
    Added {
        queue: u16,
        arrival: Arrival,
        body: Body,
    },
    /// The message of that arrival has gone.
    Gone(Arrival),
    /// The queue of that index and name was made.
    QueueMade(u16, Name),
}
