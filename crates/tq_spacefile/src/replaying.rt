ghost use Rattle.std.specs.Prelude.{◌≡◌, IfErr, OnOk, MatchResult, Some};
ghost use Rattle.tq_model.specs.SpaceForm.{plain_entry, can_follow, move_of, followed_by, replayed};
ghost use Rattle.tq_spacefile.specs.Loading.{IsUnread, bytes_of, can_add_sized};

use crate::FileError;
use crate::payload::decode;
use std::alloc::Global;
use tq_model::{SpaceMove, SpaceRecord};
use tq_space::{Space, default_queue, plan_of};
use tq_types::{Arrival, AskedQos, Body, Entry, Label, Mark, Message, MsgId, Path, Qos, Root};

/// Whether a record may come next; its message is of this epoch at most.
pub(crate) fn can_follow(space: &Space, epoch: u32, change: &SpaceRecord) -> bool
    ensures { result ≡ can_follow epoch space.now.held change.now }
{
    match change {
        SpaceRecord::Added {
            queue,
            arrival,
            body,
        } => can_add(space, epoch, *queue, *arrival, body.len()),
        SpaceRecord::Gone(arrival) => space.holds_arrival(arrival),
        SpaceRecord::QueueMade(index, name) => {
            *index < space.queue_limit()
                && !space.holds_index(*index)
                && !space.has_queue_named(name)
        }
    }
}

/// Whether a message may come into that queue, with a body of so many bytes.
fn can_add(space: &Space, epoch: u32, queue: u16, arrival: Arrival, body: usize) -> bool
    ensures { result ≡ can_add_sized epoch space.now.held queue arrival body }
{
    space.holds_index(queue)
        && (1 <= arrival.epoch && arrival.epoch <= epoch)
        && !space.holds_arrival(&arrival)
        && space.has_room_for(body)
}

/// The entry of a message that no call has placed in another way.
fn plain_entry(queue: u16, arrival: Arrival, id: MsgId, body: Body) -> Entry
    ensures { result ≡ plain_entry queue arrival id body }
{
    Entry {
        queue,
        label: Label {
            root: Root {
                top: false,
                priority: 50,
                available: 0,
                expiration: None,
                arrival,
            },
            path: Path::empty(),
        },
        mark: Mark::Free,
        message: Message {
            id,
            corr: None,
            replyq: None,
            failq: None,
            priority: 50,
            available: 0,
            expiration: None,
            qos: Qos::Persistent,
            reply_qos: AskedQos::Default,
            urcode: 0,
            retries: 0,
            body,
        },
    }
}

/// The move that a record is made by.
pub(crate) fn move_for(space: &Space, change: SpaceRecord) -> SpaceMove
    ensures { result ≡ move_of space.now.held change }
{
    match change {
        SpaceRecord::Added {
            queue,
            arrival,
            body,
        } => {
            let id = space.id_of(arrival);
            SpaceMove::Insert(plain_entry(queue, arrival, id, body))
        }
        SpaceRecord::Gone(arrival) => SpaceMove::Remove(space.id_of(arrival)),
        SpaceRecord::QueueMade(index, name) => SpaceMove::PutQueue(index, default_queue(&name)),
    }
}

/// Does what a payload says, where its record may come next. After an error the space is not to be
/// used.
fn follow(alloc: Global, space: &mut Space, epoch: u32, payload: &[u8]) -> Result<(), FileError>
    ensures done { OnOk result (followed_by epoch space.old.held payload.now ≡ Some space.new.held) }
    ensures refused { IfErr result (IsUnread (followed_by epoch space.old.held payload.now)) }
{
    let change = decode(alloc, payload)?;
    if !can_follow(space, epoch, &change) {
        return Err(FileError::Damaged);
    }
    let plan = plan_of(alloc, Some(move_for(space, change)), None)?;
    space.reserve(&plan)?;
    space.apply(plan);
    Ok(())
}

/// What the payloads make of a space, one after another.
pub(crate) fn replay(
    alloc: Global,
    space: Space,
    epoch: u32,
    payloads: &[Vec<u8>],
) -> Result<Space, FileError>
    ensures { MatchResult result (λ s. replayed epoch (bytes_of payloads.now) space.held ≡ Some s.held)
        (IsUnread (replayed epoch (bytes_of payloads.now) space.held)) }
{
    let mut space = space;
    for payload in payloads {
        follow(alloc, &mut space, epoch, payload)?;
    }
    Ok(space)
}
