//! Tests of entries and of their identifiers.

ghost use Rattle.std.specs.Prelude.{◌≡◌};
ghost use Rattle.tq_model.specs.Space.{same_id, is_free, is_adding, is_persistent, is_past, is_eligible, is_expired, outlives, has_id};
ghost use Rattle.tq_model.specs.Moves.{mark_view, entry_view, session_owners};

use tq_types::{Entry, Mark, MsgId, Qos};

/// Whether two identifiers are the same.
pub(crate) fn is_same_id(a: &MsgId, b: &MsgId) -> bool
    ensures { result ≡ same_id a.now b.now }
{
    a.site == b.site && a.space == b.space && a.epoch == b.epoch && a.number == b.number
}

/// Whether an entry has that identifier.
pub(crate) fn has_id(entry: &Entry, id: &MsgId) -> bool
    ensures { result ≡ has_id id.now (entry_view session_owners entry.now) }
{
    is_same_id(&entry.message.id, id)
}

fn is_free(mark: Mark) -> bool
    ensures { result ≡ is_free (mark_view session_owners mark) }
{
    match mark {
        Mark::Free => true,
        Mark::Adding(_) | Mark::Taking(_) => false,
    }
}

fn is_adding(mark: Mark) -> bool
    ensures { result ≡ is_adding (mark_view session_owners mark) }
{
    match mark {
        Mark::Adding(_) => true,
        Mark::Free | Mark::Taking(_) => false,
    }
}

fn is_persistent(qos: Qos) -> bool
    ensures { result ≡ is_persistent qos }
{
    match qos {
        Qos::Persistent => true,
        Qos::NonPersistent => false,
    }
}

fn is_past(clock: u64, at: Option<u64>) -> bool
    ensures { result ≡ is_past clock at }
{
    match at {
        None => false,
        Some(at) => at <= clock,
    }
}

/// Whether an entry is free, available and not expired.
pub(crate) fn is_eligible(entry: &Entry, clock: u64) -> bool
    ensures { result ≡ is_eligible clock (entry_view session_owners entry.now) }
{
    is_free(entry.mark)
        && entry.message.available <= clock
        && !is_past(clock, entry.message.expiration)
}

/// Whether an entry is free and past its expiration.
pub(crate) fn is_expired(entry: &Entry, clock: u64) -> bool
    ensures { result ≡ is_expired clock (entry_view session_owners entry.now) }
{
    is_free(entry.mark) && is_past(clock, entry.message.expiration)
}

/// Whether an entry is there after a crash.
pub(crate) fn outlives(entry: &Entry) -> bool
    ensures { result ≡ outlives (entry_view session_owners entry.now) }
{
    is_persistent(entry.message.qos) && !is_adding(entry.mark)
}
