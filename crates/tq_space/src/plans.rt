ghost use Rattle.std.specs.Prelude.{◌≡◌, [], ◌∷◌, ◌++◌, OnOk, OnErr};

use std::alloc::{AllocError, Global};
use std::marker::Model;
use thiserror::Error;
use tq_model::{CallAnswer, SpaceMove};
use tq_types::MsgId;

/// The identifiers of the entries that a call drops because they have expired.
#[derive(Debug, Drop)]
pub struct Purge {
    ids: Vec<MsgId>,
}

impl Model for Purge {
    ghost use Rattle.std.specs.Prelude.{List};
    ghost use Rattle.tq_types.specs.declared.identifiers.MsgId.{MsgId};

    ghost Value = { List MsgId };

    ghost view = { λ a. a.ids.items };
}

impl Purge {
    /// No identifiers.
    pub fn new(alloc: Global) -> Purge
        ensures { result ≡ [] }
    {
        Purge {
            ids: Vec::new(alloc),
        }
    }

    /// Adds an identifier behind the others. After an `Err` there is nothing added.
    pub fn push(&mut self, id: MsgId) -> Result<(), AllocError>
        ensures ok { OnOk result (self.new ≡ self.old ++ id ∷ []) }
        ensures err { OnErr result (self.new ≡ self.old) }
    {
        self.ids.push(id)?;
        Ok(())
    }

    /// The identifiers.
    pub fn as_slice(&self) -> &[MsgId]
        ensures { result.now ≡ self.now }
    {
        self.ids.as_slice()
    }
}

/// Changes of a space, to be made one after another.
#[derive(Debug, Drop)]
pub struct Moves {
    items: Vec<SpaceMove>,
}

impl Model for Moves {
    ghost use Rattle.std.specs.Prelude.{List};
    ghost use Rattle.tq_model.specs.declared.space.SpaceMove.{SpaceMove};

    ghost Value = { List SpaceMove };

    ghost view = { λ a. a.items.items };
}

impl Moves {
    /// No moves.
    pub fn new(alloc: Global) -> Moves
        ensures { result ≡ [] }
    {
        Moves {
            items: Vec::new(alloc),
        }
    }

    /// Adds a move behind the others. After an `Err` there is nothing added.
    pub fn push(&mut self, item: SpaceMove) -> Result<(), AllocError>
        ensures ok { OnOk result (self.new ≡ self.old ++ item ∷ []) }
        ensures err { OnErr result (self.new ≡ self.old) }
    {
        self.items.push(item)?;
        Ok(())
    }

    /// The moves.
    pub fn as_slice(&self) -> &[SpaceMove]
        ensures { result.now ≡ self.now }
    {
        self.items.as_slice()
    }

    /// The moves themselves, the first one first.
    pub(crate) fn into_items(self) -> Vec<SpaceMove>
        ensures { result.items ≡ self }
    {
        self.items
    }
}

/// What a call makes of a space, and what it is answered.
#[derive(Debug, Drop)]
pub struct Plan {
    /// Done first.
    pub purge: Purge,
    pub moves: Moves,
    pub answer: Option<CallAnswer>,
}

/// Why there is no plan.
#[derive(Debug, Drop, Error)]
pub enum Refusal {
    /// The call is refused with this answer; the purge is done all the same.
    #[error("the call is refused")]
    Refused(CallAnswer, Purge),
    #[error("no memory")]
    NoMemory,
}

/// Why there is no plan that makes a queue.
#[derive(Clone, Copy, Debug, PartialEq, Eq, Error)]
pub enum QueueRefusal {
    #[error("a queue has that name")]
    Taken,
    /// There are as many queues as the space may have.
    #[error("the space has its {0} queues")]
    QueueFull(u16),
    #[error("no memory")]
    NoMemory,
}
