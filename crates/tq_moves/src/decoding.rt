//! Bytes that become a record.

ghost use Rattle.std.specs.Prelude.{◌≡◌, ◌+◌, ◌<◌, ◌≤◌, ◌^◌, length, IfOk, Ok};
ghost use Rattle.tq_moves.specs.Given.{Gives};
ghost use Rattle.tq_slots.specs.RecordForm.{Record, IsRecord, IsSpelling, record_view, record_in, sets_in, kind_of};

use crate::bytes::short;
use crate::fault::MoveError;
use crate::keys::key;
use crate::reading::{byte, run, set};
use std::alloc::Global;
use tq_slots::{Rec, RecKind, Set};

/// So many sets, the first of which begins at that place and has at least that key.
fn sets(alloc: Global, count: u16, at: usize, bytes: &[u8]) -> Result<(Vec<Set>, &[u8]), MoveError>
    requires { at + length bytes.now < 2 ^ 64 }
    ensures found { Gives (λ x. (x.0.items, x.1.now)) result (sets_in count 65536 at bytes.now) }
    ensures left { IfOk result (λ x. length x.1.now ≤ length bytes.now) }
{
    let mut sets = Vec::new(alloc);
    let mut rest = bytes;
    let mut least = 65536;
    for _ in 0..count {
        let (found, after) = set(rest, at + (bytes.len() - rest.len()), least)?;
        least = key(&found) + 1;
        sets.push(found)?;
        rest = after;
    }
    Ok((sets, rest))
}

/// The kind of that number, 1 to 6.
fn kind(n: u8) -> RecKind
    ensures { result ≡ kind_of n }
{
    match n {
        1 => RecKind::Apply,
        2 => RecKind::Prepare,
        3 => RecKind::End,
        4 => RecKind::Heuristic,
        5 => RecKind::Forget,
        _ => RecKind::Catalog,
    }
}

/// The record that these bytes spell.
#[tactic(auto, unfolding(tq_slots::specs::RecordForm::record_in))]
fn record(alloc: Global, bytes: &[u8]) -> Result<Rec, MoveError>
    ensures { Gives record_view result (record_in bytes.now) }
{
    let (number, rest) = byte(bytes, 0, 1, 6)?;
    let (count, rest) = run(rest, 1, 2)?;
    let (sets, rest) = sets(alloc, short(count, 0), 3, rest)?;
    if !rest.is_empty() {
        return Err(MoveError::BadRecord {
            at: bytes.len() - rest.len(),
        });
    }
    Ok(Rec {
        kind: kind(number),
        sets,
    })
}

/// The record that these bytes spell: bytes that say nothing may be any.
///
/// # Errors
/// `BadRecord` exactly where they spell none, with the place of the first byte that does not fit.
pub fn decode(alloc: Global, bytes: &[u8]) -> Result<Rec, MoveError>
    ensures exact { Gives record_view result (record_in bytes.now) }
    // What is read is spelt so.
    ensures found { IfOk result (λ rec. IsRecord (record_view rec) × IsSpelling (record_view rec) bytes.now) }
    // What is spelt so is read.
    ensures only { (r : Record) → IsRecord r → IsSpelling r bytes.now → Gives record_view result (Ok r) }
{
    record(alloc, bytes)
}
