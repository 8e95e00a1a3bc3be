ghost use Rattle.std.specs.Prelude.{◌≡◌, [], ◌∷◌, ◌++◌, OnOk, OnErr};
ghost use Rattle.tq_model.specs.CallFlags.{is_message_id, wants_id};

use std::alloc::{AllocError, Global};
use std::marker::Model;
use tq_types::{Arrival, AskedQos, Body, CorrId, Lack, MsgId, Name};

/// Where a message is placed in its queue.
#[derive(Clone, Copy, Debug, PartialEq, Eq)]
pub enum Place {
    /// By its own attributes.
    Plain,
    Top,
    /// Right before that message.
    Before(MsgId),
}

/// A flag of an enqueue or a dequeue.
#[derive(Clone, Copy, Debug, PartialEq, Eq)]
pub enum Flag {
    /// `TPNOFLAGS`
    NoFlags,
    /// `TPQMSGID`
    MessageId,
}

/// The flags of a call, as they were written.
#[derive(Debug, Drop)]
pub struct Flags {
    items: Vec<Flag>,
}

impl Model for Flags {
    ghost use Rattle.std.specs.Prelude.{List};
    ghost use Rattle.tq_model.specs.declared.calls.Flag.{Flag};

    ghost Value = { List Flag };

    ghost view = { λ a. a.items.items };
}

impl Flags {
    /// No flags.
    pub fn new(alloc: Global) -> Flags
        ensures { result ≡ [] }
    {
        Flags {
            items: Vec::new(alloc),
        }
    }

    /// Adds a flag behind the others. After an `Err` there is nothing added.
    pub fn push(&mut self, flag: Flag) -> Result<(), AllocError>
        ensures ok { OnOk result (self.new ≡ self.old ++ flag ∷ []) }
        ensures err { OnErr result (self.new ≡ self.old) }
    {
        self.items.push(flag)?;
        Ok(())
    }

    /// The flags.
    pub fn as_slice(&self) -> &[Flag]
        ensures { result.now ≡ self.now }
    {
        self.items.as_slice()
    }

    /// Whether the identifier of the message is asked for.
    pub fn wants_id(&self) -> bool
        ensures { result ≡ wants_id self.now }
    {
        self.items.iter().any(asks_for_id)
    }
}

impl PartialEq for Flags {
    ghost use Rattle.std.specs.Cmp.Lexicographic.{pointwise, lists_per};
    ghost use Rattle.tq_model.specs.contracts.calls.FlagPartialEq.TheImpl.Laws.{laws-law};

    ghost eq = { pointwise ⟦<Flag as PartialEq>⟧.eq };

    ghost laws = { lists_per laws-law };

    fn eq(&self, other: &Flags) -> bool {
        self.as_slice() == other.as_slice()
    }
}

impl Eq for Flags {
    ghost use Rattle.std.specs.Cmp.Lexicographic.{lists_equiv};
    ghost use Rattle.tq_model.specs.contracts.calls.FlagEq.TheImpl.Laws.{laws-law};

    ghost laws = { lists_equiv laws-law };
}

fn asks_for_id(flag: &Flag) -> bool
    ensures { result ≡ is_message_id flag.now }
{
    matches!(flag, Flag::MessageId)
}

/// An enqueue as it is written.
#[derive(Debug, PartialEq, Eq, Drop)]
pub struct EnqueueWords {
    pub space: Name,
    pub queue: Name,
    pub flags: Flags,
    pub body: Body,
}

/// An enqueue whose flags and fields are checked: the body has at most 65,536 bytes, the priority
/// is 1 to 100, the times are moments.
#[derive(Debug, Drop)]
pub struct EnqueueCall {
    pub space: Name,
    pub queue: Name,
    pub notran: bool,
    pub want_id: bool,
    pub place: Place,
    pub priority: u8,
    pub available: u64,
    pub expiration: Option<u64>,
    pub corr: Option<CorrId>,
    pub replyq: Option<Name>,
    pub failq: Option<Name>,
    pub qos: AskedQos,
    pub reply_qos: AskedQos,
    pub body: Body,
}

/// A dequeue as it is written.
#[derive(Debug, PartialEq, Eq, Drop)]
pub struct DequeueWords {
    pub space: Name,
    pub queue: Name,
    pub flags: Flags,
}

/// Why words make no call.
#[derive(Clone, Copy, Debug, PartialEq, Eq)]
pub enum CallRefusal {
    /// The body has so many bytes, more than 65,536.
    TooLarge(u64),
}

/// A dequeue whose flags and fields are checked.
#[derive(Debug, Drop)]
pub struct DequeueCall {
    pub space: Name,
    pub queue: Name,
    pub notran: bool,
    pub peek: bool,
    pub id: Option<MsgId>,
    pub corr: Option<CorrId>,
    /// What is to be told of the message.
    pub asked: Flags,
}

/// What a space is asked at an enqueue.
#[derive(Debug, Drop)]
pub struct EnqueueAsk {
    pub call: EnqueueCall,
    pub clock: u64,
    /// The caller's transaction.
    pub owner: Option<u32>,
    /// Whether the call belongs to it.
    pub transactional: bool,
    /// The number of branches that count without an entry.
    pub heuristic: u32,
    /// The arrival of the message to come.
    pub next: Arrival,
}

/// What a space is asked at a dequeue.
#[derive(Debug, Drop)]
pub struct DequeueAsk {
    pub call: DequeueCall,
    pub clock: u64,
    /// The caller's transaction.
    pub owner: Option<u32>,
    /// Whether the call belongs to it.
    pub transactional: bool,
    /// The number of branches that count without an entry.
    pub heuristic: u32,
}

/// What an enqueue or a dequeue is answered.
#[derive(Debug, PartialEq, Eq, Drop)]
pub enum CallAnswer {
    /// An enqueue is granted: the identifier where it was asked for.
    Enqueued(Option<MsgId>),
    /// A dequeue is granted.
    Dequeued(Delivery),
    /// `QMEBADQUEUE`: there is no such queue.
    BadQueue,
    /// `QMENOMSG`: no message fits.
    NoMessage,
    /// `QMENOSPACE`, with the first resource that is lacking
    NoSpace(Lack),
}

/// A message as it is handed out.
#[derive(Debug, PartialEq, Eq, Drop)]
pub struct Delivery {
    pub body: Body,
    pub urcode: i32,
    /// The identifier where it was asked for.
    pub id: Option<MsgId>,
}
