//! Chains that are written.

ghost use Rattle.std.specs.Prelude.{true, ◌≡◌, ◌≢◌, ◌<◌, ◌≤◌, ◌+◌, ◌-◌, ◌*◌, ◌^◌, List, ℕ, length, get_or, if◌then◌else◌, OnOk};
ghost use Rattle.tq_field.specs.Places.{run_at};
ghost use Rattle.tq_host.specs.Calls.{HasCause, HasBytesAt, IsSameBut};
ghost use Rattle.tq_host.specs.Within.{Within, KeepsRest};
ghost use Rattle.tq_extent.specs.Bytes.{byte_count, owned_bytes, reaches, OnBytes, IsAny, AllReach};
ghost use Rattle.tq_pages.specs.Store as stores;
ghost use Rattle.tq_pages.specs.Store.{size_of, page_behind};
ghost use Rattle.tq_pages.specs.Content.{payload_bytes, page_form, run_number, chain_bytes, AreWritten, HasChain, IsWritten, IsSameButPages, IsSameButChain, ArePages};

use crate::PageStore;
use crate::filling::{PAGE, PAYLOAD, fill_run};
use crate::runs::run_length;
use crate::store::{RUN, chain_pages};
use tq_extent::PageMap;
use tq_host::{Device, Failed, Host};

impl PageStore {
    /// Writes these bytes on the pages of the chain that begins at this page, which has so many. Each
    /// page is written whole, with 0 behind its bytes, and pages that follow one another are written at
    /// once. Nothing is durable before a sync. Takes no memory. After `Device` the store is as it was,
    /// and any of the chain's pages may have its new bytes.
    pub fn put<H: Host>(&mut self, host: &mut H, first: u32, bytes: &[u8]) -> Result<(), Device>
        requires some { 1 ≤ length bytes.now }
        requires chain { size_of self.old first ≡ length bytes.now }
        requires reach { H.tells.reads → reaches self.old.clusters ((H.view host.old).reads self.old.dev) ≡ true }
        ensures store { self.new ≡ self.old }

        // The pages are whole ones with these bytes; nothing is written but they, also where the call fails.
        ensures written { OnOk result (H.tells.reads
            → IsWritten self.new first bytes.now (owned_bytes self.old.clusters ((H.view host.new).reads self.old.dev))) }
        ensures outside { H.tells.reads
            → IsSameButChain self.old first ((H.view host.old).reads self.old.dev) ((H.view host.new).reads self.old.dev) }
        // So the chain has these bytes, and its pages say which page is behind each.
        ensures bytes { OnOk result (H.tells.reads
            → chain_bytes self.new first (owned_bytes self.old.clusters ((H.view host.new).reads self.old.dev)) ≡ bytes.now) }
        ensures held { OnOk result (H.tells.reads
            → HasChain self.new first (owned_bytes self.old.clusters ((H.view host.new).reads self.old.dev))) }

        // The other chains keep their bytes, and their pages say the same numbers, also where the call fails.
        ensures others { H.tells.reads → (g : ℕ) → g ≢ first → 1 ≤ size_of self.old g
            → chain_bytes self.new g (owned_bytes self.old.clusters ((H.view host.new).reads self.old.dev))
            ≡ chain_bytes self.old g (owned_bytes self.old.clusters ((H.view host.old).reads self.old.dev)) }
        ensures stay { H.tells.reads → (g : ℕ) → g ≢ first → 1 ≤ size_of self.old g
            → HasChain self.old g (owned_bytes self.old.clusters ((H.view host.old).reads self.old.dev))
            → HasChain self.new g (owned_bytes self.old.clusters ((H.view host.new).reads self.old.dev)) }

        // In each picture what is not on the chain's pages is that of one image of the start.
        ensures stop { AllReach self.old.dev self.old.clusters (H.view host.old)
            → Within self.old.dev (IsSameButChain self.old first) IsAny (H.view host.old) (H.view host.new) }
        ensures rest { KeepsRest self.old.dev (H.view host.old) (H.view host.new) }
        ensures cause { HasCause (H.view host.old).faults (H.view host.new).faults result }
    {
        let next = self.next.as_slice();
        let pages = &mut self.buffer;
        Ok(write_chain(host, self.dev, &self.map, next, pages, first, bytes)?)
    }
}

/// Writes the pages of a chain from its first one on. The buffer has room for 65 pages.
fn write_chain<H: Host>(
    host: &mut H,
    dev: u8,
    map: &PageMap,
    next: &[u32],
    buffer: &mut [u8],
    first: u32,
    bytes: &[u8],
) -> Result<(), Failed>
    requires dev { dev < 8 }
    requires buffer { length buffer.old ≡ 66560 }
    requires size { length bytes.now < 2 ^ 32 }
    requires pages { ArePages map.now next.now first (stores.chain_pages (length bytes.now)) }
    requires reach { H.tells.reads → reaches map.now ((H.view host.old).reads dev) ≡ true }
    ensures buffer { length buffer.new ≡ 66560 }
    ensures written { OnOk result (H.tells.reads
        → AreWritten next.now first (stores.chain_pages (length bytes.now)) bytes.now (owned_bytes map.now ((H.view host.new).reads dev))) }
    ensures outside { H.tells.reads
        → OnBytes map.now (IsSameButPages next.now first (stores.chain_pages (length bytes.now))) ((H.view host.old).reads dev) ((H.view host.new).reads dev) }
    ensures stop { AllReach dev map.now (H.view host.old)
        → Within dev (OnBytes map.now (IsSameButPages next.now first (stores.chain_pages (length bytes.now)))) IsAny (H.view host.old) (H.view host.new) }
    ensures rest { KeepsRest dev (H.view host.old) (H.view host.new) }
    ensures cause { HasCause (H.view host.old).faults (H.view host.new).faults result }
{
    let all = chain_pages(bytes.len() as u32);
    let mut done = 0;
    let mut page = first;
    while done < all {
        let most = (all - done).min(RUN as u32);
        let count = run_length(next, page, most);
        let behind = behind_last(next, page + count - 1, done + count < all);
        let at = PAYLOAD * done as usize;
        let used = (bytes.len() - at).min(PAYLOAD * count as usize);
        let pages = &mut buffer[..PAGE * count as usize];
        write_run(host, dev, map, pages, page, behind, &bytes[at..at + used])?;
        done += count;
        page = next[(page + count - 1) as usize];
    }
    Ok(())
}

/// The number of the page behind this one, 0 where none is to come.
fn behind_last(next: &[u32], page: u32, more: bool) -> u32
    requires { page < length next.now }
    ensures { result ≡ (if more then get_or next.now page 0 else 0) }
{
    if more { next[page as usize] } else { 0 }
}

/// Writes pages whose numbers follow one another, from this one on; behind the last one stands that
/// page.
fn write_run<H: Host>(
    host: &mut H,
    dev: u8,
    map: &PageMap,
    pages: &mut [u8],
    page: u32,
    behind: u32,
    bytes: &[u8],
) -> Result<(), Failed>
    requires dev { dev < 8 }
    requires pages { length pages.old ≡ 1024 * stores.chain_pages (length bytes.now) }
    requires few { page + stores.chain_pages (length bytes.now) < 2 ^ 32 }
    requires within { 1024 * page + length pages.old ≤ byte_count map.now }
    requires reach { H.tells.reads → reaches map.now ((H.view host.old).reads dev) ≡ true }
    ensures pages { length pages.new ≡ length pages.old }
    ensures written { OnOk result (H.tells.reads → (k : ℕ) → k < stores.chain_pages (length bytes.now)
        → HasBytesAt (1024 * page + 1024 * k) (page_form (run_number page behind (stores.chain_pages (length bytes.now)) k) (run_at (payload_bytes * k) payload_bytes bytes.now))
        (owned_bytes map.now ((H.view host.new).reads dev))) }
    ensures outside { H.tells.reads
        → OnBytes map.now (IsSameBut (1024 * page) (length pages.old)) ((H.view host.old).reads dev) ((H.view host.new).reads dev) }
    ensures stop { AllReach dev map.now (H.view host.old)
        → Within dev (OnBytes map.now (IsSameBut (1024 * page) (length pages.old))) IsAny (H.view host.old) (H.view host.new) }
    ensures rest { KeepsRest dev (H.view host.old) (H.view host.new) }
    ensures cause { HasCause (H.view host.old).faults (H.view host.new).faults result }
{
    fill_run(pages, page, behind, bytes);
    map.write_at(host, dev, PAGE as u64 * page as u64, pages)?;
    Ok(())
}
