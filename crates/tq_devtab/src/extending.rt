//! A space gets more pages.

ghost use Rattle.std.specs.Prelude.{◌≡◌, ◌≢◌, ◌≤◌, ◌<◌, ◌+◌, ◌-◌, ◌*◌, ◌++◌, ◌∷◌, true, false, List, ℕ, length, get_or, take, drop, is_some, Err, Some, IfOk, IfErr, OnOk};
ghost use Rattle.tq_host.specs.View.{IsSettled};
ghost use Rattle.tq_host.specs.Calls.{HasCauseOf};
ghost use Rattle.tq_host.specs.Within.{KeepsRest, Within};
ghost use Rattle.tq_model.specs.declared.answer.Extent.{Extent};
ghost use Rattle.tq_model.specs.DeviceForm.{cluster_bytes, header_bytes};
ghost use Rattle.tq_model.specs.Reading.{NamedSpace};
ghost use Rattle.tq_model.specs.Site as site;
ghost use Rattle.tq_model.specs.Site.{as_extents, most_pages};
ghost use Rattle.tq_devtab.specs.declared.error.ExtendError.TheVariants as errors;
ghost use Rattle.tq_devtab.specs.Errors.{IsShort};
ghost use Rattle.tq_devtab.specs.InMemory.{IsTableOf, AreTableOf, dev_of, part_of, place_of};
ghost use Rattle.tq_devtab.specs.Table.{AreReached, as_one, entry_of, entry_view, joined_extents, longer_space, no_extent};
ghost use Rattle.tq_devtab.specs.Volume.{IsLongerButTable, IsTableOrLonger, free_of, further_extents, further_for, lowest_of, most_bytes, with_longer};

use crate::extents::{clusters_for, end_of};
use crate::growing::grow;
use crate::spaces::{space_at, with_ordinal};
use crate::{DeviceTable, ExtendError, TableEntry};
use std::alloc::{AllocError, Global};
use tq_host::Host;
use tq_model::{ClusterRoom, Extent, Extents};

/// Adds extents behind the others.
fn push_all(extents: &mut Extents, more: &[Extent]) -> Result<(), AllocError>
    ensures { OnOk result (extents.new ≡ extents.old ++ more.now) }
{
    for extent in more {
        extents.push(*extent)?;
    }
    Ok(())
}

/// Whether the last of these extents ends where the first further one begins.
fn are_adjacent(extents: &[Extent], more: &[Extent]) -> bool
    requires { AreReached most_bytes extents.now }
    ensures apart { result ≡ false → joined_extents extents.now more.now ≡ extents.now ++ more.now }
    ensures some { result ≡ true → (1 ≤ length extents.now) × (1 ≤ length more.now) }
    ensures one { result ≡ true → joined_extents extents.now more.now
        ≡ take (length extents.now - 1) extents.now ++ as_one (get_or extents.now (length extents.now - 1) no_extent) (get_or more.now 0 no_extent) ∷ drop 1 more.now }
{
    if extents.is_empty() {
        return false;
    }
    if more.is_empty() {
        return false;
    }
    let last = extents[extents.len() - 1];
    last.first + last.count == more[0].first
}

/// These extents with further ones behind them; where the last and the first further one are
/// adjacent, the two are one.
fn joined(alloc: Global, extents: &[Extent], more: &[Extent]) -> Result<Extents, AllocError>
    requires extents { AreReached most_bytes extents.now }
    requires more { AreReached most_bytes more.now }
    ensures { IfOk result (λ all. all ≡ joined_extents extents.now more.now) }
{
    let mut all = Extents::new(alloc);
    if !are_adjacent(extents, more) {
        push_all(&mut all, extents)?;
        push_all(&mut all, more)?;
        return Ok(all);
    }
    let end = extents.len() - 1;
    let last = extents[end];
    push_all(&mut all, &extents[..end])?;
    all.push(Extent {
        first: last.first,
        count: last.count + more[0].count,
    })?;
    push_all(&mut all, &more[1..])?;
    Ok(all)
}

impl DeviceTable {
    /// The lowest free clusters that a space with so many pages needs for so many more.
    fn further(&self, alloc: Global, has: u32, pages: u32) -> Result<Extents, ExtendError>
        requires { has + pages ≤ most_pages }
        ensures extents { IfOk result (λ extents. extents ≡ as_extents (lowest_of (site.clusters_for (has + pages) - site.clusters_for has) (part_of self.now))) }
        ensures reached { IfOk result (AreReached most_bytes) }
        ensures enough { OnOk result (site.clusters_for (has + pages) - site.clusters_for has ≤ free_of (part_of self.now)) }
        ensures refused { IfErr result (IsShort (site.clusters_for (has + pages) - site.clusters_for has) (free_of (part_of self.now))) }
        ensures other { IfErr result (λ e. e ≢ errors.Device) }
    {
        let need = clusters_for(has + pages) - clusters_for(has);
        let free = u64::from(self.free());
        if free < need {
            return Err(ExtendError::Lack(ClusterRoom { need, free }));
        }
        let Ok(extents) = self.lowest_free(alloc, need as u32) else {
            return Err(ExtendError::NoMemory);
        };
        Ok(extents)
    }

    /// The space of that ordinal as it is with so many pages more, and the bytes that the device has
    /// to have so that it reaches to the end of its further clusters.
    fn longer(
        &self,
        alloc: Global,
        ordinal: u32,
        pages: u32,
    ) -> Result<(TableEntry, u64), ExtendError>
        requires there { is_some (entry_of ordinal (part_of self.now).entries) ≡ true }
        requires most { (n : NamedSpace) → entry_of ordinal (part_of self.now).entries ≡ Some n → n.pages + pages ≤ most_pages }
        ensures entry { IfOk result (λ longer. (n : NamedSpace) → entry_of ordinal (part_of self.now).entries ≡ Some n
            → entry_view longer.0 ≡ longer_space (n.pages + pages) (further_extents pages n (part_of self.now)) n) }
        ensures reach { IfOk result (λ longer. (n : NamedSpace) → entry_of ordinal (part_of self.now).entries ≡ Some n
            → (size : ℕ) → longer.1 ≤ size → AreReached size (further_extents pages n (part_of self.now))) }
        ensures least { IfOk result (λ longer. (n : NamedSpace) → entry_of ordinal (part_of self.now).entries ≡ Some n
            → (size : ℕ) → AreReached size (further_extents pages n (part_of self.now)) → longer.1 ≤ size) }
        ensures enough { OnOk result ((n : NamedSpace) → entry_of ordinal (part_of self.now).entries ≡ Some n → further_for pages n ≤ free_of (part_of self.now)) }
        ensures refused { IfErr result (λ e. (n : NamedSpace) → entry_of ordinal (part_of self.now).entries ≡ Some n
            → IsShort (further_for pages n) (free_of (part_of self.now)) e) }
        ensures other { IfErr result (λ e. e ≢ errors.Device) }
    {
        let Some(space) = with_ordinal(self.entries.as_slice(), ordinal) else {
            unreachable!()
        };
        let more = self.further(alloc, space.pages, pages)?;
        let entry = TableEntry {
            name: space.name,
            ordinal: space.ordinal,
            pages: space.pages + pages,
            extents: joined(alloc, space.extents.as_slice(), more.as_slice())?,
        };
        Ok((entry, end_of(more.as_slice())))
    }

    /// Gives the space of that ordinal, which is there, so many pages more, at least 1: it has at
    /// most 262,016 then. The further clusters that they need are the lowest free ones. The device
    /// is made longer where it does not reach to their end, before the table is written. In each
    /// picture the table is the old one, or the new one and all else what was read at the start, with
    /// more bytes behind it or none. What is read outside the table stays in any case, with more bytes
    /// behind it or none.
    ///
    /// # Errors
    /// `Lack` exactly where fewer clusters are free; else `NoMemory` or `Device`. After `Lack` and
    /// `NoMemory` all is as it was; after `Device` the table is to be loaded again.
    pub fn extend_space<H: Host>(
        &mut self,
        alloc: Global,
        host: &mut H,
        ordinal: u32,
        pages: u32,
    ) -> Result<(), ExtendError>
        requires dev { dev_of self.old < 8 }
        requires there { is_some (entry_of ordinal (part_of self.old).entries) ≡ true }
        requires some { 1 ≤ pages }
        requires most { (n : NamedSpace) → entry_of ordinal (part_of self.old).entries ≡ Some n → n.pages + pages ≤ most_pages }
        requires size { H.tells.reads → header_bytes ≤ length ((H.view host.old).reads (dev_of self.old)) }
        ensures stop { AreTableOf self.old (H.view host.old)
            → Within (dev_of self.old) (IsLongerButTable (dev_of self.old) (cluster_bytes * (part_of self.old).clusters))
            (IsTableOrLonger (dev_of self.old) (place_of self.old) (part_of self.old) (with_longer ordinal pages (part_of self.old)) ((H.view host.old).reads (dev_of self.old)))
            (H.view host.old) (H.view host.new) }
        ensures part { OnOk result (part_of self.new ≡ with_longer ordinal pages (part_of self.old)) }
        ensures extended { OnOk result (H.tells.reads → IsTableOf self.old ((H.view host.old).reads (dev_of self.old)) → IsTableOf self.new ((H.view host.new).reads (dev_of self.old))) }
        ensures images { OnOk result (AreTableOf self.old (H.view host.old) → AreTableOf self.new (H.view host.new)) }
        ensures dev { dev_of self.new ≡ dev_of self.old }
        ensures place { place_of self.new ≡ place_of self.old }
        ensures outside { H.tells.reads → IsLongerButTable (dev_of self.old) (cluster_bytes * (part_of self.old).clusters)
            ((H.view host.old).reads (dev_of self.old)) ((H.view host.new).reads (dev_of self.old)) }
        ensures settled { OnOk result (IsSettled (dev_of self.old) (H.view host.new)) }
        ensures rest { KeepsRest (dev_of self.old) (H.view host.old) (H.view host.new) }
        ensures enough { OnOk result ((n : NamedSpace) → entry_of ordinal (part_of self.old).entries ≡ Some n → further_for pages n ≤ free_of (part_of self.old)) }
        ensures refused { IfErr result (λ e. (n : NamedSpace) → entry_of ordinal (part_of self.old).entries ≡ Some n
            → IsShort (further_for pages n) (free_of (part_of self.old)) e) }
        ensures kept { IfErr result (λ e. e ≢ errors.Device → (self.new ≡ self.old) × (host.new ≡ host.old)) }
        ensures cause { HasCauseOf (result ≡ Err errors.Device) (H.view host.old).faults (H.view host.new).faults }
    {
        let (entry, end) = self.longer(alloc, ordinal, pages)?;
        grow(host, self.log.layout().dev, end)?;
        let index = space_at(self.entries.as_slice(), ordinal);
        self.entries[index] = Some(entry);
        self.store(host)?;
        Ok(())
    }
}
