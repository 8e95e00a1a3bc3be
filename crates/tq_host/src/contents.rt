ghost use Rattle.std.specs.Prelude.{◌≡◌, ◌<◌, ◌≤◌, [], ◌∷◌, ◌++◌, ℕ, Vec, length, get_or, IfOk, OnOk, OnErr};
ghost use Rattle.std.specs.declared.alloc.Global.{Global};
ghost use Rattle.tq_host.specs.View.{last_count};
ghost use Rattle.tq_host.specs.Disk.{overwrite, resize};

use crate::call::Call;
use std::alloc::{AllocError, Global};

/// These bytes with others written over them from that address on.
pub fn overwritten(alloc: Global, old: &[u8], at: usize, from: &[u8]) -> Result<Vec<u8>, AllocError>
    requires { at ≤ length old.now }
    ensures { IfOk result (λ v. v.items ≡ overwrite at from.now old.now) }
{
    let mut next = old[..at].to_vec(alloc)?;
    next.extend_from_slice(from)?;
    if from.len() < old.len() - at {
        next.extend_from_slice(&old[at + from.len()..])?;
    }
    Ok(next)
}

/// The first `n` of these bytes, and zeros where they are fewer.
pub fn resized(alloc: Global, old: &[u8], n: usize) -> Result<Vec<u8>, AllocError>
    ensures { IfOk result (λ v. v.items ≡ resize n old.now) }
{
    if n <= old.len() {
        return Ok(old[..n].to_vec(alloc)?);
    }
    let mut next = old.to_vec(alloc)?;
    next.resize(n, 0)?;
    Ok(next)
}

/// Eight empty devices.
pub fn empty_devices(alloc: Global) -> Result<Vec<Vec<u8>>, AllocError>
    ensures { IfOk result (λ v. (length v.items ≡ 8) × ((d : ℕ) (other : Vec ℕ Global) → d < 8 → (get_or v.items d other).items ≡ [])) }
{
    let mut devices = Vec::new(alloc);
    for device in 0..8u8 {
        let _number = device;
        devices.push(Vec::new(alloc))?;
    }
    Ok(devices)
}

/// Adds a call to the record, which holds fewer than 2^64 - 1.
pub fn push_call(calls: &mut Vec<Call>, call: Call) -> Result<(), AllocError>
    ensures ok { OnOk result (calls.new.items ≡ calls.old.items ++ call ∷ []) }
    ensures small { OnOk result (length calls.new.items < last_count) }
    ensures err { OnErr result (calls.new.items ≡ calls.old.items) }
{
    if calls.len() >= usize::MAX - 1 {
        return Err(AllocError);
    }
    calls.push(call)?;
    Ok(())
}
