ghost use Rattle.std.specs.Prelude.{◌≡◌, ◌++◌, OnOk, codes};
ghost use Rattle.tq_model.specs.Text.{named, pages_text, space_text};

use crate::named::push_named;
use std::alloc::AllocError;
use tq_model::{ClusterRoom, NewSpace, SpaceAnswer, SpacePages};

/// Appends the pages of a space, the overhead first.
pub fn push_pages(text: &mut Vec<u8>, pages: SpacePages) -> Result<(), AllocError>
    ensures { OnOk result (text.new.items ≡ text.old.items ++ pages_text pages) }
{
    push_named(text, b" overhead=", pages.overhead)?;
    push_named(text, b" pages=", pages.pages)?;
    Ok(())
}

/// Appends the number and the pages of a space that was created.
pub fn push_new_space(text: &mut Vec<u8>, space: NewSpace) -> Result<(), AllocError>
    ensures { OnOk result (text.new.items ≡ text.old.items ++ named (codes "OK number=") space.number ++ pages_text space.pages) }
{
    push_named(text, b"OK number=", u64::from(space.number))?;
    push_pages(text, space.pages)?;
    Ok(())
}

/// Appends that the pages are no more than the overhead.
pub fn push_small(text: &mut Vec<u8>, pages: SpacePages) -> Result<(), AllocError>
    ensures { OnOk result (text.new.items ≡ text.old.items ++ codes "SMALL" ++ pages_text pages) }
{
    text.extend_from_slice(b"SMALL")?;
    push_pages(text, pages)?;
    Ok(())
}

/// Appends the clusters that are needed, and those that are free.
pub fn push_cluster_lack(text: &mut Vec<u8>, room: ClusterRoom) -> Result<(), AllocError>
    ensures { OnOk result (text.new.items ≡ text.old.items ++ named (codes "LACK need=") room.need ++ named (codes " free=") room.free) }
{
    push_named(text, b"LACK need=", room.need)?;
    push_named(text, b" free=", room.free)?;
    Ok(())
}

/// Appends the most queues that the space may have.
pub fn push_queue_full(text: &mut Vec<u8>, limit: u16) -> Result<(), AllocError>
    ensures { OnOk result (text.new.items ≡ text.old.items ++ named (codes "QUEUEFULL limit=") limit) }
{
    push_named(text, b"QUEUEFULL limit=", u64::from(limit))?;
    Ok(())
}

/// Appends how many transactions count in the space.
pub fn push_busy(text: &mut Vec<u8>, transactions: u32) -> Result<(), AllocError>
    ensures { OnOk result (text.new.items ≡ text.old.items ++ named (codes "BUSY transactions=") transactions) }
{
    push_named(text, b"BUSY transactions=", u64::from(transactions))?;
    Ok(())
}

/// Appends how many messages the space has.
pub fn push_not_empty(text: &mut Vec<u8>, messages: u64) -> Result<(), AllocError>
    ensures { OnOk result (text.new.items ≡ text.old.items ++ named (codes "NOTEMPTY messages=") messages) }
{
    push_named(text, b"NOTEMPTY messages=", messages)?;
    Ok(())
}

/// Appends what is answered of spaces and their queues.
pub fn push_space(text: &mut Vec<u8>, answer: &SpaceAnswer) -> Result<(), AllocError>
    ensures { OnOk result (text.new.items ≡ text.old.items ++ space_text answer.now) }
{
    match answer {
        SpaceAnswer::Created(space) => push_new_space(text, *space)?,
        SpaceAnswer::Taken => text.extend_from_slice(b"TAKEN")?,
        SpaceAnswer::Small(pages) => push_small(text, *pages)?,
        SpaceAnswer::TableFull => text.extend_from_slice(b"TABLEFULL")?,
        SpaceAnswer::Lack(room) => push_cluster_lack(text, *room)?,
        SpaceAnswer::QueueFull(limit) => push_queue_full(text, *limit)?,
        SpaceAnswer::Busy(transactions) => push_busy(text, *transactions)?,
        SpaceAnswer::NotEmpty(messages) => push_not_empty(text, *messages)?,
    }
    Ok(())
}
