//! Chains that are read.

ghost use Rattle.std.specs.Prelude.{true, ◌≡◌, ◌<◌, ◌≤◌, ◌+◌, ◌*◌, ◌^◌, List, ℕ, length, get_or, IfOk, OnOk, IsErrOf};
ghost use Rattle.tq_host.specs.Calls.{HasCause, HasCauseOf};
ghost use Rattle.tq_extent.specs.Bytes.{owned_bytes, reaches, IsQuiet};
ghost use Rattle.tq_pages.specs.declared.error.PageError.TheVariants as fault;
ghost use Rattle.tq_pages.specs.Store as stores;
ghost use Rattle.tq_pages.specs.Store.{size_of};
ghost use Rattle.tq_pages.specs.Content.{payload_place, chain_bytes, ArePages};

use crate::filling::{PAGE, PAYLOAD};
use crate::store::chain_pages;
use crate::{PageError, PageStore};
use std::alloc::Global;
use tq_extent::PageMap;
use tq_host::{Failed, Host};

impl PageStore {
    /// The bytes of the chain that begins at this page. Nothing is written.
    pub fn read<H: Host>(
        &self,
        alloc: Global,
        host: &mut H,
        first: u32,
    ) -> Result<Vec<u8>, PageError>
        requires chain { 1 ≤ size_of self.now first }
        requires reach { H.tells.reads → reaches self.now.clusters ((H.view host.old).reads self.now.dev) ≡ true }
        ensures bytes { IfOk result (λ v. H.tells.reads
            → v.items ≡ chain_bytes self.now first (owned_bytes self.now.clusters ((H.view host.old).reads self.now.dev))) }
        ensures size { IfOk result (λ v. length v.items ≡ size_of self.now first) }
        ensures quiet { IsQuiet self.now.dev (H.view host.old) (H.view host.new) }
        ensures cause { HasCauseOf (IsErrOf result fault.Device) (H.view host.old).faults (H.view host.new).faults }
    {
        let size = self.sizes[first as usize] as usize;
        let mut bytes = vec![in alloc; 0u8; size]?;
        read_chain(
            host,
            self.dev,
            &self.map,
            self.next.as_slice(),
            first,
            &mut bytes,
        )?;
        Ok(bytes)
    }
}

/// Fills `into` with the bytes of a chain, from its first page on.
fn read_chain<H: Host>(
    host: &mut H,
    dev: u8,
    map: &PageMap,
    next: &[u32],
    first: u32,
    into: &mut [u8],
) -> Result<(), Failed>
    requires dev { dev < 8 }
    requires size { length into.old < 2 ^ 32 }
    requires pages { ArePages map.now next.now first (stores.chain_pages (length into.old)) }
    requires reach { H.tells.reads → reaches map.now ((H.view host.old).reads dev) ≡ true }
    ensures size { length into.new ≡ length into.old }
    ensures bytes { OnOk result (H.tells.reads → (i : ℕ) → i < length into.old
        → get_or into.new i 0 ≡ get_or (owned_bytes map.now ((H.view host.old).reads dev)) (payload_place next.now first i) 0) }
    ensures quiet { IsQuiet dev (H.view host.old) (H.view host.new) }
    ensures cause { HasCause (H.view host.old).faults (H.view host.new).faults result }
{
    let count = chain_pages(into.len() as u32);
    let mut page = first;
    for k in 0..count {
        let at = PAYLOAD * k as usize;
        let used = (into.len() - at).min(PAYLOAD);
        let place = PAGE as u64 * page as u64 + 8;
        map.read_at(host, dev, place, &mut into[at..at + used])?;
        page = next[page as usize];
    }
    Ok(())
}
