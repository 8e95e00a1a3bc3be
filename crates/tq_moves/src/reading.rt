//! The slots that bytes spell, and bytes taken from the front.

ghost use Rattle.std.specs.Prelude.{◌≡◌, ◌+◌, ◌<◌, ◌≤◌, ◌^◌, length, IfOk};
ghost use Rattle.tq_moves.specs.Given.{Gives};
ghost use Rattle.tq_slots.specs.RecordForm.{byte_in, run_in, key_in, message_slot, queue_slot, branch_slot, slot_size, set_of, set_in, least_high, least_low};

use crate::bytes::{long, number};
use crate::fault::MoveError;
use tq_slots::{BranchSlot, MessageSlot, QueueSlot, Set};

/// The byte at the front, which stands at that place, and the bytes behind it.
pub(crate) fn byte(bytes: &[u8], at: usize, least: u32, most: u32) -> Result<(u8, &[u8]), MoveError>
    ensures found { Gives (λ x. (x.0, x.1.now)) result (byte_in least most at bytes.now) }
    ensures left { IfOk result (λ x. length bytes.now ≡ length x.1.now + 1) }
{
    match bytes {
        [b, rest @ ..] if least <= u32::from(*b) && u32::from(*b) <= most => Ok((*b, rest)),
        _ => Err(MoveError::BadRecord { at }),
    }
}

/// The `n` bytes at the front, the first of which stands at that place, and the bytes behind them.
pub(crate) fn run(bytes: &[u8], at: usize, n: usize) -> Result<(&[u8], &[u8]), MoveError>
    requires { at + length bytes.now < 2 ^ 64 }
    ensures found { Gives (λ x. (x.0.now, x.1.now)) result (run_in n at bytes.now) }
    ensures size { IfOk result (λ x. length x.0.now ≡ n) }
    ensures left { IfOk result (λ x. length bytes.now ≡ length x.1.now + n) }
{
    if bytes.len() < n {
        return Err(MoveError::BadRecord {
            at: at + bytes.len(),
        });
    }
    Ok(bytes.split_at(n))
}

/// The key of a set, at least that one.
#[tactic(auto, unfolding(tq_slots::specs::RecordForm::key_in))]
fn key(bytes: &[u8], at: usize, least: u32) -> Result<(u32, &[u8]), MoveError>
    requires { at + length bytes.now < 2 ^ 64 }
    ensures found { Gives (λ x. (x.0, x.1.now)) result (key_in least at bytes.now) }
    ensures left { IfOk result (λ x. length bytes.now ≡ length x.1.now + 3) }
    ensures range { IfOk result (λ x. x.0 < 262144) }
{
    let (tag, rest) = byte(bytes, at, least / 65536, 3)?;
    let tag = u32::from(tag);
    let (high, rest) = byte(rest, at + 1, high_least(least, tag), 255)?;
    let front = tag * 256 + u32::from(high);
    let (low, rest) = byte(rest, at + 2, low_least(least, front), 255)?;
    Ok((tag * 65536 + u32::from(high) * 256 + u32::from(low), rest))
}

/// The least second byte of such a key, behind that tag.
fn high_least(least: u32, tag: u32) -> u32
    ensures { result ≡ least_high least tag }
{
    if tag == least / 65536 {
        least / 256 % 256
    } else {
        0
    }
}

/// The least third byte of such a key, behind these two bytes.
fn low_least(least: u32, front: u32) -> u32
    ensures { result ≡ least_low least front }
{
    if front == least / 256 { least % 256 } else { 0 }
}

/// What the 64 bytes of a message slot say.
#[tactic(auto, unfolding(tq_slots::specs::RecordForm::message_slot))]
pub fn read_message_slot(bytes: &[u8]) -> MessageSlot
    requires { length bytes.now ≡ 64 }
    ensures { result ≡ message_slot bytes.now }
{
    MessageSlot {
        mark: bytes[0],
        branch: bytes[1],
        queue: bytes[2],
        bits: bytes[3],
        priority: bytes[4],
        root_priority: bytes[5],
        numbers: bytes[6],
        retries: number(bytes, 8),
        first: number(bytes, 12),
        epoch: number(bytes, 16),
        number: number(bytes, 20),
        available: long(bytes, 24),
        expiration: long(bytes, 32),
        root_available: long(bytes, 40),
        root_expiration: long(bytes, 48),
        root_epoch: number(bytes, 56),
        root_number: number(bytes, 60),
    }
}

/// What the 512 bytes of a queue slot say.
#[tactic(auto, unfolding(tq_slots::specs::RecordForm::queue_slot))]
pub fn read_queue_slot(bytes: &[u8]) -> QueueSlot
    requires { length bytes.now ≡ 512 }
    ensures { result ≡ queue_slot bytes.now }
{
    let mut name = [0; 127];
    name.copy_from_slice(&bytes[2..129]);
    let mut criteria = [0; 3];
    criteria.copy_from_slice(&bytes[131..134]);
    QueueSlot {
        used: bytes[0],
        name_length: bytes[1],
        name,
        count: bytes[130],
        criteria,
        last: bytes[134],
        rights: bytes[135],
        qos: bytes[136],
        retries: number(bytes, 140),
        delay: long(bytes, 144),
    }
}

/// What the 160 bytes of a branch slot say.
#[tactic(auto, unfolding(tq_slots::specs::RecordForm::branch_slot))]
pub fn read_branch_slot(bytes: &[u8]) -> BranchSlot
    requires { length bytes.now ≡ 160 }
    ensures { result ≡ branch_slot bytes.now }
{
    let mut gtrid = [0; 64];
    gtrid.copy_from_slice(&bytes[12..76]);
    let mut bqual = [0; 64];
    bqual.copy_from_slice(&bytes[76..140]);
    BranchSlot {
        state: bytes[0],
        gtrid_length: bytes[1],
        bqual_length: bytes[2],
        format: number(bytes, 4),
        number: number(bytes, 8),
        gtrid,
        bqual,
    }
}

/// The bytes of a slot with that tag.
fn size(tag: u32) -> usize
    ensures { result ≡ slot_size tag }
{
    match tag {
        1 => 64,
        2 => 512,
        _ => 160,
    }
}

/// The set of that tag and index, whose slot has these bytes.
fn set_with(tag: u32, index: u16, slot: &[u8]) -> Set
    requires { length slot.now ≡ slot_size tag }
    ensures { result ≡ set_of tag index slot.now }
{
    match tag {
        1 => Set::Message(index, read_message_slot(slot)),
        2 => Set::Queue(index, read_queue_slot(slot)),
        _ => Set::Branch(index, read_branch_slot(slot)),
    }
}

/// The set at the front, which begins at that place and whose key is at least that one.
#[tactic(auto, unfolding(tq_slots::specs::RecordForm::set_in))]
pub(crate) fn set(bytes: &[u8], at: usize, least: u32) -> Result<(Set, &[u8]), MoveError>
    requires { at + length bytes.now < 2 ^ 64 }
    ensures found { Gives (λ x. (x.0, x.1.now)) result (set_in least at bytes.now) }
    ensures left { IfOk result (λ x. length x.1.now < length bytes.now) }
{
    let (key, rest) = key(bytes, at, least)?;
    let tag = key / 65536;
    let (slot, rest) = run(rest, at + 3, size(tag))?;
    Ok((set_with(tag, (key % 65536) as u16, slot), rest))
}
