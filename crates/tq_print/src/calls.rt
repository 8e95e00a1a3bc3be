ghost use Rattle.std.specs.Prelude.{◌≡◌, ◌++◌, OnOk, codes};
ghost use Rattle.tq_model.specs.Text.{id_text, asked_id_text, delivery_text, resource_text, lack_text, call_text};

use crate::bodies::push_body;
use crate::named::{push_named, push_number, push_signed};
use std::alloc::AllocError;
use tq_model::{CallAnswer, Delivery};
use tq_types::{Lack, MsgId, Resource};

/// Appends an identifier, its four numbers with points between them.
pub fn push_id(text: &mut Vec<u8>, id: MsgId) -> Result<(), AllocError>
    ensures { OnOk result (text.new.items ≡ text.old.items ++ id_text id) }
{
    push_number(text, u64::from(id.site))?;
    push_named(text, b".", u64::from(id.space))?;
    push_named(text, b".", u64::from(id.epoch))?;
    push_named(text, b".", u64::from(id.number))?;
    Ok(())
}

/// Appends the identifier where it was asked for.
pub fn push_asked_id(text: &mut Vec<u8>, asked: Option<MsgId>) -> Result<(), AllocError>
    ensures { OnOk result (text.new.items ≡ text.old.items ++ asked_id_text asked) }
{
    if let Some(id) = asked {
        text.extend_from_slice(b" msgid=")?;
        push_id(text, id)?;
    }
    Ok(())
}

/// Appends that a message is enqueued.
pub fn push_enqueued(text: &mut Vec<u8>, asked: Option<MsgId>) -> Result<(), AllocError>
    ensures { OnOk result (text.new.items ≡ text.old.items ++ codes "OK" ++ asked_id_text asked) }
{
    text.extend_from_slice(b"OK")?;
    push_asked_id(text, asked)?;
    Ok(())
}

/// Appends a message that is handed out.
pub fn push_delivery(text: &mut Vec<u8>, delivery: &Delivery) -> Result<(), AllocError>
    ensures { OnOk result (text.new.items ≡ text.old.items ++ delivery_text delivery.now) }
{
    text.extend_from_slice(b"OK data=")?;
    push_body(text, delivery.body.as_bytes())?;
    text.extend_from_slice(b" urcode=")?;
    push_signed(text, delivery.urcode)?;
    push_asked_id(text, delivery.id)?;
    Ok(())
}

/// Appends a resource's name.
pub fn push_resource(text: &mut Vec<u8>, resource: Resource) -> Result<(), AllocError>
    ensures { OnOk result (text.new.items ≡ text.old.items ++ resource_text resource) }
{
    match resource {
        Resource::Transactions => text.extend_from_slice(b"transactions")?,
        Resource::Messages => text.extend_from_slice(b"messages")?,
        Resource::Depth => text.extend_from_slice(b"depth")?,
        Resource::Pages => text.extend_from_slice(b"pages")?,
        Resource::Memory => text.extend_from_slice(b"memory")?,
    }
    Ok(())
}

/// Appends the resource that is lacking, with its numbers.
pub fn push_lack(text: &mut Vec<u8>, lack: Lack) -> Result<(), AllocError>
    ensures { OnOk result (text.new.items ≡ text.old.items ++ codes "TPEDIAGNOSTIC " ++ lack_text lack) }
{
    text.extend_from_slice(b"TPEDIAGNOSTIC QMENOSPACE resource=")?;
    push_resource(text, lack.resource)?;
    push_named(text, b" need=", lack.need)?;
    push_named(text, b" held=", lack.held)?;
    push_named(text, b" limit=", lack.limit)?;
    Ok(())
}

/// Appends what an enqueue or a dequeue is answered.
pub fn push_call(text: &mut Vec<u8>, answer: &CallAnswer) -> Result<(), AllocError>
    ensures { OnOk result (text.new.items ≡ text.old.items ++ call_text answer.now) }
{
    match answer {
        CallAnswer::Enqueued(asked) => push_enqueued(text, *asked)?,
        CallAnswer::Dequeued(delivery) => push_delivery(text, delivery)?,
        CallAnswer::BadQueue => text.extend_from_slice(b"TPEDIAGNOSTIC QMEBADQUEUE")?,
        CallAnswer::NoMessage => text.extend_from_slice(b"TPEDIAGNOSTIC QMENOMSG")?,
        CallAnswer::NoSpace(lack) => push_lack(text, *lack)?,
    }
    Ok(())
}
