ghost use Rattle.std.specs.Prelude.{true, ◌≡◌, ◌+◌, ◌<◌, ◌≤◌, List, ℕ, length, IfOk, IfErr, IsErrOf};
ghost use Rattle.tq_field.specs.Places.{run_at};
ghost use Rattle.tq_host.specs.Calls.{HasCause, HasCauseOf};
ghost use Rattle.tq_extent.specs.Bytes.{byte_count, reaches, IsQuiet};
ghost use Rattle.tq_gate.specs.declared.fault.GateError.TheVariants as fault;
ghost use Rattle.tq_gate.specs.Layout.{clusters_of, bytes_in, IsLaidOut, IsPlaced};
ghost use Rattle.tq_gate.specs.Reading.{area_of};

use crate::GateError;
use crate::layout::{Areas, Layout};
use std::alloc::Global;
use tq_host::{Failed, Host};

// The byte at which the chosen area begins.
pub(crate) fn choose_area<H: Host>(host: &mut H, layout: &Layout) -> Result<u64, Failed>
    requires laid_out { IsLaidOut layout.now }
    requires reach { H.tells.reads → reaches (clusters_of layout.now) ((H.view host.old).reads layout.now.dev) ≡ true }
    ensures area { IfOk result (λ area. H.tells.reads → area ≡ area_of layout.now (bytes_in layout.now ((H.view host.old).reads layout.now.dev))) }
    ensures placed { IfOk result (λ area. IsPlaced layout.now area) }
    ensures quiet { IsQuiet layout.now.dev (H.view host.old) (H.view host.new) }
    ensures cause { HasCause (H.view host.old).faults (H.view host.new).faults result }
{
    let Areas::Two { selector } = layout.areas else {
        return Ok(layout.first_area());
    };
    let mut byte = [0];
    layout.map.read_at(host, layout.dev, selector, &mut byte)?;
    Ok(layout.area_by(byte[0]))
}

// So many bytes of the owner, from this one on.
pub(crate) fn read_bytes<H: Host>(
    alloc: Global,
    host: &mut H,
    layout: &Layout,
    from: u64,
    count: u64,
) -> Result<Vec<u8>, GateError>
    requires dev { layout.now.dev < 8 }
    requires end { from + count ≤ byte_count (clusters_of layout.now) }
    requires reach { H.tells.reads → reaches (clusters_of layout.now) ((H.view host.old).reads layout.now.dev) ≡ true }
    ensures bytes { IfOk result (λ v. H.tells.reads → v.items ≡ run_at from count (bytes_in layout.now ((H.view host.old).reads layout.now.dev))) }
    ensures length { IfOk result (λ v. length v.items ≡ count) }
    ensures fault { IfErr result (λ e. (at : ℕ) → e ≡ fault.Damaged at → ⊥) }
    ensures quiet { IsQuiet layout.now.dev (H.view host.old) (H.view host.new) }
    ensures cause { HasCauseOf (IsErrOf result fault.Device) (H.view host.old).faults (H.view host.new).faults }
{
    let mut bytes = vec![in alloc; 0u8; count as usize]?;
    layout.map.read_at(host, layout.dev, from, &mut bytes)?;
    Ok(bytes)
}
