//! A message's header and body in bytes.

ghost use Rattle.std.specs.Prelude.{◌≡◌, ◌+◌, ◌<◌, ◌≤◌, ◌++◌, length, get_or, List, ℕ, OnOk, IfOk, Some};
ghost use Rattle.std.specs.List.{flat_map};
ghost use Rattle.tq_field.specs.Digits.{digits};
ghost use Rattle.tq_model.specs.Moves.{message_view};
ghost use Rattle.tq_model.specs.Names.{is_name};
ghost use Rattle.tq_slots.specs.declared.message.Header.{Header as HeaderOf};
ghost use Rattle.tq_slots.specs.MessageForm as form;
ghost use Rattle.tq_slots.specs.MessageForm.{IsHeader, arrival_bytes, arrivals_at, bit_of, complement, corr_bytes, corr_where, filled, from_complement, has_bit, header_at, header_read, header_spelt, is_name_at, message_spelt, name_bytes, name_where, quality_number, quality_of};

use crate::bytes::{number, push_byte, push_number, push_zeros, run};
use std::alloc::{AllocError, Global};
use tq_model::name_in;
use tq_slots::Header;
use tq_types::{Arrival, AskedQos, CorrId, Entry, Name, Path};

/// The bytes of a header.
const HEADER: usize = 256;

/// The most bytes of a body.
const MOST_BODY: u32 = 65536;

/// That number where there is a value, else 0.
fn bit<T>(place: u8, value: &Option<T>) -> u8
    ensures { result ≡ bit_of place value.now }
{
    match value {
        Some(_) => place,
        None => 0,
    }
}

/// The number of a reply's quality.
fn quality_code(quality: AskedQos) -> u8
    ensures { result ≡ quality_number quality }
{
    match quality {
        AskedQos::Default => 0,
        AskedQos::Persistent => 1,
        AskedQos::NonPersistent => 2,
    }
}

/// Two's complement of a number.
fn to_complement(n: i32) -> u32
    ensures { result ≡ complement n }
{
    if n < 0 {
        (i64::from(n) + 4_294_967_296) as u32
    } else {
        n as u32
    }
}

/// Two's complement of a header's code.
fn urcode_bits(header: &Header) -> u32
    ensures { result ≡ complement header.now.urcode }
{
    to_complement(header.urcode)
}

/// Adds a correlation identifier, or 32 bytes 0.
fn push_corr(out: &mut Vec<u8>, corr: &Option<CorrId>) -> Result<(), AllocError>
    ensures { OnOk result (out.new.items ≡ out.old.items ++ corr_bytes corr.now) }
{
    match corr {
        Some(corr) => out.extend_from_slice(&corr.bytes),
        None => push_zeros(out, 32),
    }
}

/// The bytes of a name, none where there is none.
fn text(name: &Option<Name>) -> &[u8]
    ensures bytes { result.now ≡ name_bytes name.now }
    ensures most { length (name_bytes name.now) ≤ 15 }
{
    match name {
        Some(name) => name.as_bytes(),
        None => &[],
    }
}

/// Adds bytes, and zeros behind them, so many in all.
fn push_filled(out: &mut Vec<u8>, bytes: &[u8], n: usize) -> Result<(), AllocError>
    requires { length bytes.now ≤ n }
    ensures { OnOk result (out.new.items ≡ out.old.items ++ filled n bytes.now) }
{
    out.extend_from_slice(bytes)?;
    push_zeros(out, n - bytes.len())?;
    Ok(())
}

/// Adds the length of a name and the name, in 16 bytes.
fn push_name(out: &mut Vec<u8>, name: &Option<Name>) -> Result<(), AllocError>
    ensures { OnOk result (out.new.items ≡ out.old.items ++ digits 1 (length (name_bytes name.now)) ++ filled 15 (name_bytes name.now)) }
{
    let text = text(name);
    push_byte(out, text.len() as u8)?;
    push_filled(out, text, 15)?;
    Ok(())
}

/// Adds arrivals.
fn push_arrivals(out: &mut Vec<u8>, arrivals: &[Arrival]) -> Result<(), AllocError>
    ensures { OnOk result (out.new.items ≡ out.old.items ++ flat_map arrival_bytes arrivals.now) }
{
    for arrival in arrivals {
        push_number(out, arrival.epoch)?;
        push_number(out, arrival.number)?;
    }
    Ok(())
}

/// Adds the number of arrivals of a path, and the path in 128 bytes.
fn push_path(out: &mut Vec<u8>, path: &Path) -> Result<(), AllocError>
    ensures { OnOk result (out.new.items ≡ out.old.items ++ digits 1 (length path.now) ++ digits 3 0 ++ filled 128 (flat_map arrival_bytes path.now)) }
{
    let arrivals = path.as_slice();
    push_byte(out, arrivals.len() as u8)?;
    push_zeros(out, 3)?;
    push_arrivals(out, arrivals)?;
    push_zeros(out, 128 - 8 * arrivals.len())?;
    Ok(())
}

/// Adds a header.
fn push_header(out: &mut Vec<u8>, header: &Header) -> Result<(), AllocError>
    ensures { OnOk result (out.new.items ≡ out.old.items ++ header_spelt header.now) }
{
    push_number(out, header.arrival.epoch)?;
    push_number(out, header.arrival.number)?;
    push_number(out, header.body_length)?;
    push_byte(
        out,
        bit(1, &header.corr) + bit(2, &header.replyq) + bit(4, &header.failq),
    )?;
    push_byte(out, quality_code(header.reply_qos))?;
    push_zeros(out, 2)?;
    push_number(out, urcode_bits(header))?;
    push_corr(out, &header.corr)?;
    push_name(out, &header.replyq)?;
    push_name(out, &header.failq)?;
    push_path(out, &header.path)?;
    push_zeros(out, 40)?;
    Ok(())
}

/// The header of an entry, whose body has fewer than 2^32 bytes.
fn header_of(entry: &Entry) -> Header
    requires { length entry.now.message.body ≤ 65536 }
    ensures { result ≡ form.header_of entry.now.label (message_view entry.now.message) }
{
    let message = &entry.message;
    Header {
        arrival: Arrival {
            epoch: message.id.epoch,
            number: message.id.number,
        },
        body_length: message.body.len() as u32,
        corr: message.corr,
        replyq: message.replyq,
        failq: message.failq,
        reply_qos: message.reply_qos,
        urcode: message.urcode,
        path: entry.label.path,
    }
}

/// The bytes of a message on its pages: a header of 256 bytes and the body, which has at most 65,536 bytes. Each byte of the header
/// that says nothing is 0.
pub fn encode_message(alloc: Global, entry: &Entry) -> Result<Vec<u8>, AllocError>
    requires { length entry.now.message.body ≤ 65536 }
    ensures { IfOk result (λ bytes. bytes.items ≡ message_spelt (form.header_of entry.now.label (message_view entry.now.message)) entry.now.message.body) }
{
    let mut bytes = Vec::new(alloc);
    push_header(&mut bytes, &header_of(entry))?;
    bytes.extend_from_slice(entry.message.body.as_bytes())?;
    Ok(bytes)
}

/// Whether a byte has that bit.
fn is_set(byte: u8, bit: u8) -> bool
    requires { 0 < bit }
    ensures { result ≡ has_bit bit byte }
{
    byte / bit % 2 == 1
}

/// The number of that two's complement.
fn signed(n: u32) -> i32
    ensures { result ≡ from_complement n }
{
    if n < 2_147_483_648 {
        n as i32
    } else {
        (i64::from(n) - 4_294_967_296) as i32
    }
}

/// The quality of a reply with that number, 0 to 2.
fn quality(n: u8) -> AskedQos
    ensures { result ≡ quality_of n }
{
    match n {
        0 => AskedQos::Default,
        1 => AskedQos::Persistent,
        _ => AskedQos::NonPersistent,
    }
}

/// Whether a text is a name.
fn is_text(text: &[u8]) -> bool
    ensures { result ≡ is_name text.now }
{
    name_in(text).is_some()
}

/// Whether a name stands at this place, behind its length.
fn is_named(bytes: &[u8], at: usize) -> bool
    requires { at + 16 ≤ length bytes.now }
    ensures { result ≡ is_name_at at bytes.now }
{
    bytes[at] <= 15 && is_text(run(bytes, at + 1, usize::from(bytes[at])))
}

/// The name at this place behind its length, where it is to be there.
fn name_at(bytes: &[u8], at: usize, has: bool) -> Option<Name>
    requires { at + 16 ≤ length bytes.now }
    ensures { result ≡ name_where has at bytes.now }
{
    if has && bytes[at] <= 15 {
        name_in(run(bytes, at + 1, usize::from(bytes[at])))
    } else {
        None
    }
}

/// The correlation identifier at this place, where it is to be there.
fn corr_at(bytes: &[u8], at: usize, has: bool) -> Option<CorrId>
    requires { at + 32 ≤ length bytes.now }
    ensures { result ≡ corr_where has at bytes.now }
{
    if !has {
        return None;
    }
    let mut corr = [0; 32];
    corr.copy_from_slice(&bytes[at..at + 32]);
    Some(CorrId { bytes: corr })
}

/// So many arrivals, at most 16, from this place on.
fn path_at(bytes: &[u8], at: usize, count: u8) -> Path
    requires few { count ≤ 16 }
    requires within { at + 128 ≤ length bytes.now }
    ensures { result ≡ arrivals_at count at bytes.now }
{
    let mut path = Path::empty();
    for i in 0..usize::from(count) {
        let arrival = Arrival {
            epoch: number(bytes, at + 8 * i),
            number: number(bytes, at + 8 * i + 4),
        };
        let Some(longer) = path.with(arrival) else {
            unreachable!()
        };
        path = longer;
    }
    path
}

/// Whether the numbers of a header are within their limits, and its body has the bytes that follow it, of so many in all.
fn is_header(bytes: &[u8], joined: u32) -> bool
    ensures { result ≡ form.is_header joined bytes.now }
{
    bytes.len() >= HEADER
        && number(bytes, 8) <= MOST_BODY
        && joined == 256 + number(bytes, 8)
        && bytes[12] <= 7
        && bytes[13] <= 2
        && bytes[84] <= 16
        && (!is_set(bytes[12], 2) || is_named(bytes, 52))
        && (!is_set(bytes[12], 4) || is_named(bytes, 68))
}

/// What a header says.
fn header_in(bytes: &[u8]) -> Header
    requires size { 256 ≤ length bytes.now }
    requires few { get_or bytes.now 84 0 ≤ 16 }
    ensures { result ≡ header_at bytes.now }
{
    let bits = bytes[12];
    Header {
        arrival: Arrival {
            epoch: number(bytes, 0),
            number: number(bytes, 4),
        },
        body_length: number(bytes, 8),
        corr: corr_at(bytes, 20, is_set(bits, 1)),
        replyq: name_at(bytes, 52, is_set(bits, 2)),
        failq: name_at(bytes, 68, is_set(bits, 4)),
        reply_qos: quality(bytes[13]),
        urcode: signed(number(bytes, 16)),
        path: path_at(bytes, 88, bytes[84]),
    }
}

/// The header at the front of bytes, where they spell one.
#[tactic(auto, unfolding(tq_slots::specs::MessageForm::header_read))]
fn header(bytes: &[u8], joined: u32) -> Option<Header>
    ensures { result ≡ header_read joined bytes.now }
{
    if is_header(bytes, joined) {
        Some(header_in(bytes))
    } else {
        None
    }
}

/// The header at the front of a message's bytes, of which there are `joined` in all; the first 256 are enough. `None` exactly where
/// they spell none: a number is out of its limit, a name is none, or the body has not as many bytes as the header says.
pub fn decode_header(bytes: &[u8], joined: u32) -> Option<Header>
    ensures exact { result ≡ header_read joined bytes.now }
    // What was spelt is read again.
    ensures again { (h : HeaderOf) (body : List ℕ) → IsHeader h → joined ≡ 256 + h.body_length → bytes.now ≡ message_spelt h body → result ≡ Some h }
{
    header(bytes, joined)
}
