//! Calls on a space, and what they are answered.

ghost use Rattle.std.specs.Prelude.{◌≡◌, ◌<◌, ◌≤◌, ◌+◌, ◌^◌};
ghost use Rattle.tq_model.specs.Space.{Space};
ghost use Rattle.tq_machine.specs.SpaceCalls.{outcome_of, space_name};

use tq_model::{Answer, DequeueWords, EnqueueWords, QueueCreation};
use tq_types::{Arrival, Name};

/// An enqueue by its words, at this clock, of the message of this arrival.
#[derive(Clone, Copy)]
pub(crate) struct EnqueueByWords<'a> {
    pub words: &'a EnqueueWords,
    pub clock: u64,
    pub next: Arrival,
}

/// A dequeue by its words, at this clock.
#[derive(Clone, Copy)]
pub(crate) struct DequeueByWords<'a> {
    pub words: &'a DequeueWords,
    pub clock: u64,
}

/// A call on a space.
#[derive(Clone, Copy)]
pub(crate) enum SpaceCall<'a> {
    /// A new queue.
    Queue(&'a QueueCreation),
    Enqueue(EnqueueByWords<'a>),
    Dequeue(DequeueByWords<'a>),
}

/// What a call is answered, and the numbers of messages that it takes.
#[derive(Drop)]
pub(crate) struct Reply {
    pub answer: Answer,
    pub numbers: u32,
}

impl SpaceCall<'_> {
    /// The space.
    pub(crate) fn space(&self) -> &Name
        ensures { result.now ≡ space_name self.now }
    {
        match self {
            SpaceCall::Queue(creation) => &creation.space,
            SpaceCall::Enqueue(ask) => &ask.words.space,
            SpaceCall::Dequeue(ask) => &ask.words.space,
        }
    }

    /// The bytes of the payload that says the change.
    pub(crate) fn payload_length(&self) -> u64
        ensures length { (s : Space) → result ≡ (outcome_of self.now s).size }
        ensures most { result < 2 ^ 63 + 16 }
    {
        match self {
            SpaceCall::Queue(creation) => 4 + creation.queue.as_bytes().len() as u64,
            SpaceCall::Enqueue(ask) => 11 + ask.words.body.as_bytes().len() as u64,
            SpaceCall::Dequeue(_) => 9,
        }
    }

    /// The numbers of messages that a grant takes.
    pub(crate) fn numbers_taken(&self) -> u32
        ensures numbers { (s : Space) → result ≡ (outcome_of self.now s).numbers }
        ensures most { result ≤ 1 }
    {
        match self {
            SpaceCall::Enqueue(_) => 1,
            SpaceCall::Queue(_) | SpaceCall::Dequeue(_) => 0,
        }
    }
}
