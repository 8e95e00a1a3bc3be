//! The base of a journal.

ghost use Rattle.std.specs.Prelude.{◌≡◌, ◌≤◌, ℕ, [], length, get_or, map, IfSome, IfNone};
ghost use Rattle.tq_model.specs.DeviceForm.{raw_journal, journal_base, page_bytes};
ghost use Rattle.tq_site.specs.Base.{IsBase, SaysEpoch};
ghost use Rattle.tq_site.specs.Payloads.{journal_view};

use crate::payloads::{Journal, decision_at, journal_after, number};
use tq_field::put_u32;

/// The bytes of a base.
pub(crate) const BASE_BYTES: usize = 1024;

/// Its first bytes.
const MARK: &[u8; 4] = b"TQSJ";

/// What the base of a journal says; `None` exactly where it is not one.
fn decode_base(base: &[u8]) -> Option<Journal>
    ensures base { IfSome result (λ _. IsBase base.now) }
    ensures says { IfSome result (λ j. journal_view j ≡ journal_base (raw_journal 0 base.now)) }
    ensures none { IfNone result (IsBase base.now → ⊥) }
{
    if base.len() != BASE_BYTES || &base[..4] != MARK.as_slice() || base[8] > 1 {
        return None;
    }
    let decision = if base[8] == 1 {
        Some(decision_at(base, 12))
    } else {
        None
    };
    Some(Journal {
        epoch: number(base, 4),
        decision,
    })
}

/// The epoch of the journal with this base and these payloads; `None` exactly where they are not
/// those of a journal, or where it has a decision.
pub(crate) fn epoch_in(base: &[u8], payloads: &[Vec<u8>]) -> Option<u32>
    ensures epoch { IfSome result (λ epoch. SaysEpoch epoch base.now (map (λ v. v.items) payloads.now)) }
    ensures none { IfNone result ((epoch : ℕ) → SaysEpoch epoch base.now (map (λ v. v.items) payloads.now) → ⊥) }
{
    let journal = journal_after(decode_base(base)?, payloads)?;
    if journal.epoch >= 1 && journal.decision.is_none() {
        Some(journal.epoch)
    } else {
        None
    }
}

/// Makes these bytes the base of a journal of this epoch and of no decision. Those behind the epoch
/// are zero.
pub(crate) fn encode_base(base: &mut [u8], epoch: u32)
    requires size { length base.old ≡ page_bytes }
    requires some { 1 ≤ epoch }
    ensures says { SaysEpoch epoch base.new [] }
    ensures zeros { (i : ℕ) → 8 ≤ i → get_or base.new i 0 ≡ 0 }
{
    base.fill(0);
    base[..4].copy_from_slice(MARK);
    let _fits = put_u32(base, 4, epoch);
}
