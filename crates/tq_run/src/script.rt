ghost use Rattle.std.specs.Prelude.{◌≡◌, ◌<◌, ◌≤◌, ◌+◌, [], ℕ, length, IfOk, OnOk};
ghost use Rattle.tq_host.specs.Within.{Ran};
ghost use Rattle.tq_coord.specs.Frame.{LeavesOthers};
ghost use Rattle.tq_run.specs.Counts.{HasCounts, run_end_of_read, run_end_of_take};
ghost use Rattle.tq_coord.specs.Images.{HasNoNewImage};
ghost use Rattle.tq_run.specs.Stops.{IsWaiting};
ghost use Rattle.tq_run.specs.Input.{IsRead, TakesOnly, TakesWith, IsTakenSoFar};

use crate::status::{ReadEnd, TakeEnd};
use std::alloc::Global;
use tq_host::Host;

// The bytes that one take may fill.
const BUFFER: usize = 4096;

// Takes the next bytes of the script, at most `room` of them, and adds them; 0 at the script's end.
#[tactic(auto, using(crate::proofs::TakeLemmas::takes_none, crate::proofs::TakeLemmas::takes_one, crate::proofs::FrameLemmas::others_taking))]
fn take_some<H: Host>(host: &mut H, script: &mut Vec<u8>, room: u64) -> Result<usize, TakeEnd>
    requires { 0 < room }
    ensures taken { IfOk result (λ n. IsTakenSoFar H.tells n script.old.items script.new.items (H.view host.old) (H.view host.new)) }
    ensures room { IfOk result (λ n. n ≤ room) }
    ensures longer { IfOk result (λ n. length script.new.items ≡ length script.old.items + n) }
    ensures refused { result ≡ Err TakeEnd.Input → (H.view host.new).streams.taken ≡ (H.view host.old).streams.taken }
    ensures still { TakesOnly (H.view host.old) (H.view host.new) }
    ensures takes { H.tells.output → TakesWith (length (H.view host.old).streams.output) (H.view host.old).streams (H.view host.new).streams }
    ensures waits { Ran (IsWaiting (H.view host.old)) (H.view host.old) (H.view host.new) }
    ensures images { HasNoNewImage (H.view host.old) (H.view host.new) }
    ensures counts { HasCounts run_end_of_take result (H.view host.old) (H.view host.new) }
    ensures memory { result ≡ Err TakeEnd.Memory → H.tells.output
        → (n : ℕ) × (n ≤ room) × ((H.view host.new).streams.taken ≡ (H.view host.old).streams.taken + n) }
    ensures others { LeavesOthers (H.view host.old) (H.view host.new) }
{
    let mut buffer = [0u8; BUFFER];
    let size = if room < BUFFER as u64 {
        room as usize
    } else {
        BUFFER
    };
    let n = host.take(&mut buffer[..size]).map_err(|_| TakeEnd::Input)?;
    script.extend_from_slice(&buffer[..n])?;
    Ok(n)
}

/// Takes the script to its end, but no more than `limit` bytes.
#[tactic(auto, using(crate::proofs::PictureLemmas::waits_on, crate::proofs::PictureLemmas::no_new_on, crate::proofs::TakeLemmas::takes_on))]
pub fn read_script<H: Host>(alloc: Global, host: &mut H, limit: u64) -> Result<Vec<u8>, ReadEnd>
    requires { 0 < limit }
    ensures read { IfOk result (λ script. H.tells.script → IsRead script.items (H.view host.old).streams (H.view host.new).streams) }
    ensures short { IfOk result (λ script. length script.items < limit) }
    ensures still { TakesOnly (H.view host.old) (H.view host.new) }
    ensures takes { H.tells.output → TakesWith (length (H.view host.old).streams.output) (H.view host.old).streams (H.view host.new).streams }
    ensures waits { Ran (IsWaiting (H.view host.old)) (H.view host.old) (H.view host.new) }
    ensures images { HasNoNewImage (H.view host.old) (H.view host.new) }
    ensures counts { HasCounts run_end_of_read result (H.view host.old) (H.view host.new) }
    ensures much { result ≡ Err ReadEnd.TooMuchInput → H.tells.output → (H.view host.new).streams.taken ≡ (H.view host.old).streams.taken + limit }
    ensures less { OnOk result (H.tells.output → (H.view host.new).streams.taken < (H.view host.old).streams.taken + limit) }
    ensures refused { result ≡ Err ReadEnd.Input → H.tells.output → (H.view host.new).streams.taken < (H.view host.old).streams.taken + limit }
    ensures most { H.tells.output → (H.view host.new).streams.taken ≤ (H.view host.old).streams.taken + limit }
    ensures others { LeavesOthers (H.view host.old) (H.view host.new) }
{
    let mut script = Vec::new(alloc);
    let mut left = limit;
    while left > 0 {
        let n = take_some(host, &mut script, left)?;
        if n == 0 {
            return Ok(script);
        }
        left -= n as u64;
    }
    Err(ReadEnd::TooMuchInput)
}
