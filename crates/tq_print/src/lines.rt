ghost use Rattle.std.specs.Prelude.{◌≡◌, ◌++◌, OnOk, IfOk};
ghost use Rattle.tq_model.specs.Text.{log_text, answer_text, line_text};

use crate::calls::push_call;
use crate::devices::push_device;
use crate::named::{push_named, push_number};
use crate::spaces::push_space;
use crate::starts::push_readiness;
use std::alloc::{AllocError, Global};
use tq_model::{Answer, LogRoom};

/// Appends the bytes that a payload needs in the log of a space, and those that are free.
pub fn push_log_full(text: &mut Vec<u8>, room: LogRoom) -> Result<(), AllocError>
    ensures { OnOk result (text.new.items ≡ text.old.items ++ log_text room) }
{
    push_named(text, b"LOGFULL need=", room.need)?;
    push_named(text, b" free=", room.free)?;
    Ok(())
}

/// Appends an answer.
pub fn push_answer(text: &mut Vec<u8>, answer: &Answer) -> Result<(), AllocError>
    ensures { OnOk result (text.new.items ≡ text.old.items ++ answer_text answer.now) }
{
    match answer {
        Answer::Done => text.extend_from_slice(b"OK")?,
        Answer::Syntax(column) => push_named(text, b"SYNTAX column=", *column)?,
        Answer::TooLong => text.extend_from_slice(b"TOOLONG")?,
        Answer::SystemError => text.extend_from_slice(b"TPESYSTEM")?,
        Answer::Ready(readiness) => push_readiness(text, readiness)?,
        Answer::Damaged(dev) => push_named(text, b"DAMAGED ", u64::from(*dev))?,
        Answer::Invalid(size) => push_named(text, b"TPEINVAL size=", *size)?,
        Answer::NoEntry => text.extend_from_slice(b"TPENOENT")?,
        Answer::LogFull(room) => push_log_full(text, *room)?,
        Answer::Device(answer) => push_device(text, answer)?,
        Answer::Space(answer) => push_space(text, answer)?,
        Answer::Call(answer) => push_call(text, answer)?,
    }
    Ok(())
}

/// The text of a line's answer: the line's number, a space, the answer and a line end.
pub fn answer(alloc: Global, line: u64, answer: &Answer) -> Result<Vec<u8>, AllocError>
    ensures { IfOk result (λ text. text.items ≡ line_text line answer.now) }
{
    let mut text = Vec::new(alloc);
    push_number(&mut text, line)?;
    text.push(b' ')?;
    push_answer(&mut text, answer)?;
    text.push(b'\n')?;
    Ok(text)
}
