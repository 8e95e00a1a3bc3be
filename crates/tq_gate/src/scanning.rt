ghost use Rattle.std.specs.Prelude.{◌≡◌, ◌≢◌, ◌+◌, ◌<◌, ◌≤◌, ◌↔◌, ℕ, length, slice_index, map, IsTrue, IfOk, IfErr, IfSome, IfNone, OnOk, [], ◌∷◌, ◌++◌};
ghost use Rattle.tq_field.specs.Places.{number_at};
ghost use Rattle.tq_gate.specs.Reading.{IsRecord, AreRecords};
ghost use Rattle.tq_field.specs.GatedLog.{end_of};
ghost use Rattle.tq_gate.specs.Scanning.{IsScanFault};

use crate::pieces::OPEN_GATE;
use std::alloc::{AllocError, Global};
use tq_field::get_u32;

// The payloads of a log, and where they end.
#[derive(Drop)]
pub(crate) struct Scan {
    pub(crate) payloads: Vec<Vec<u8>>,
    pub(crate) end: usize,
}

// Why a log is not read.
#[derive(Clone, Copy, Debug, Drop)]
pub(crate) enum ScanError {
    // The payload behind the open gate at this place of the log does not fit.
    Damaged { at: usize },
    NoMemory,
}

impl From<AllocError> for ScanError {
    ghost use Rattle.tq_gate.specs.declared.scanning.ScanError.TheVariants.{NoMemory};

    ghost from_gives = { λ _ e. e ≡ NoMemory };

    fn from(_no_memory: AllocError) -> ScanError {
        ScanError::NoMemory
    }
}

// Whether an open gate stands at that place.
fn is_open(log: &[u8], at: usize) -> bool
    ensures { IsTrue result ↔ (slice_index log.now at ≡ 79) }
{
    at < log.len() && log[at] == OPEN_GATE
}

// The payload behind the open gate at that place, where it and a further byte lie within the log.
fn payload_at(log: &[u8], at: usize) -> Option<&[u8]>
    requires { slice_index log.now at ≡ 79 }
    ensures record { IfSome result (λ payload. IsRecord log.now at payload.now) }
    ensures past { IfNone result (length log.now < at + 6 + number_at (at + 1) 4 log.now) }
{
    if at >= log.len() {
        return None;
    }
    let Ok(number) = get_u32(log, at + 1) else {
        return None;
    };
    let length = number as usize;
    if log.len() - at < 6 + length {
        return None;
    }
    Some(&log[at + 5..at + 5 + length])
}

// Adds a copy of a payload.
fn push_copy(alloc: Global, payloads: &mut Vec<Vec<u8>>, payload: &[u8]) -> Result<(), AllocError>
    ensures { OnOk result (map (λ v. v.items) payloads.new.items ≡ map (λ v. v.items) payloads.old.items ++ payload.now ∷ []) }
{
    let copy = payload.to_vec(alloc)?;
    payloads.push(copy)?;
    Ok(())
}

// The payloads of a log.
pub(crate) fn scan_log(alloc: Global, log: &[u8]) -> Result<Scan, ScanError>
    ensures records { IfOk result (λ s. AreRecords log.now 0 (map (λ v. v.items) s.payloads.items)) }
    ensures end { IfOk result (λ s. s.end ≡ end_of (map (λ v. v.items) s.payloads.items)) }
    ensures shut { IfOk result (λ s. slice_index log.now s.end ≢ 79) }
    ensures within { IfOk result (λ s. s.end ≤ length log.now) }
    ensures damaged { IfErr result (IsScanFault log.now) }
{
    let mut payloads = Vec::new(alloc);
    let mut end = 0;
    'records: while is_open(log, end) {
        let Some(payload) = payload_at(log, end) else {
            return Err(ScanError::Damaged { at: end });
        };
        push_copy(alloc, &mut payloads, payload)?;
        end += 5 + payload.len();
    }
    Ok(Scan { payloads, end })
}
