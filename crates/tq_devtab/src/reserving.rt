//! A space gets its place in a device's table, in memory alone.

ghost use Rattle.std.specs.Prelude.{◌≡◌, ◌≤◌, ◌*◌, ◌+◌, true, length, List, ℕ, Some, IfOk, IfErr};
ghost use Rattle.tq_extent.specs.Bytes.{reaches};
ghost use Rattle.tq_extent.specs.Clusters.{clusters_of};
ghost use Rattle.tq_extent.specs.Pages.{page_count, AreMappable};
ghost use Rattle.tq_model.specs.Site.{most_pages, as_extents};
ghost use Rattle.tq_model.specs.Reading.{NamedSpace};
ghost use Rattle.tq_devtab.specs.declared.error.ReserveError.TheVariants as errors;
ghost use Rattle.tq_devtab.specs.Table.{entry_view, entry_of};
ghost use Rattle.tq_devtab.specs.Volume.{IsReserved, free_of, lowest_of, most_bytes};
ghost use Rattle.tq_devtab.specs.Errors.{IsRefusal};

use crate::extents::{HEADER_CLUSTERS, clusters_for, end_of};
use crate::spaces::{has_named, has_unused, owned_clusters, with_ordinal};
use crate::{DeviceTable, ReserveError, Reserved, TableEntry};
use std::alloc::{AllocError, Global};
use tq_extent::PageMap;
use tq_model::{ClusterRoom, Extents, LAST_SPACE};
use tq_types::Name;

impl Reserved {
    ghost use Rattle.tq_devtab.specs.Reserved.{space_of};

    /// The bytes that a device has to have so that it reaches to the end of its clusters.
    pub fn end(&self) -> u64
        ensures reach { (image : List ℕ) → result ≤ length image → reaches (clusters_of (space_of self.now).extents) image ≡ true }
        ensures most { result ≤ most_bytes }
    {
        end_of(self.entry.extents.as_slice())
    }
}

impl DeviceTable {
    ghost use Rattle.tq_devtab.specs.InMemory.{part_of};
    ghost use Rattle.tq_devtab.specs.Reserved.{space_of};

    /// How many clusters neither the header nor a space has.
    pub fn free(&self) -> u32
        ensures { result ≡ free_of (part_of self.now) }
    {
        let entries = self.entries.as_slice();
        let mut free = self.clusters - HEADER_CLUSTERS;
        for entry in entries {
            let Some(space) = entry else {
                continue;
            };
            free -= clusters_for(space.pages) as u32;
        }
        free
    }

    /// Where the pages of the space with that ordinal lie.
    pub fn map(&self, alloc: Global, ordinal: u32) -> Result<PageMap, AllocError>
        requires there { (n : NamedSpace) × (entry_of ordinal (part_of self.now).entries ≡ Some n) }
        ensures map { IfOk result (λ map. (n : NamedSpace) → entry_of ordinal (part_of self.now).entries ≡ Some n → map ≡ clusters_of n.extents) }
        ensures enough { IfOk result (λ map. (n : NamedSpace) → entry_of ordinal (part_of self.now).entries ≡ Some n → n.pages ≤ page_count map) }
    {
        match with_ordinal(self.entries.as_slice(), ordinal) {
            Some(space) => PageMap::of(alloc, space.extents.as_slice()),
            None => unreachable!(),
        }
    }

    /// The lowest so many free clusters, which there have to be.
    pub(crate) fn lowest_free(&self, alloc: Global, count: u32) -> Result<Extents, ReserveError>
        requires enough { count ≤ free_of (part_of self.now) }
        ensures extents { IfOk result (λ extents. extents ≡ as_extents (lowest_of count (part_of self.now))) }
        ensures clusters { IfOk result (λ extents. length (clusters_of extents) ≡ count) }
        ensures mappable { IfOk result AreMappable }
        ensures cause { IfErr result (λ e. e ≡ errors.NoMemory) }
    {
        let entries = self.entries.as_slice();
        let Some(mut owned) = owned_clusters(alloc, self.clusters, entries)? else {
            unreachable!()
        };
        Ok(owned.take(alloc, count)?)
    }

    /// A place for a space of that name with so many pages, 1 to 262,016: the lowest free clusters,
    /// and the next ordinal. Nothing is changed before it is entered.
    ///
    /// # Errors
    /// `Taken` exactly where a space of the table has the name; else `TableFull` exactly where no
    /// entry or no ordinal is left; else `Lack` exactly where fewer clusters are free; else
    /// `NoMemory`.
    pub fn reserve(&self, alloc: Global, name: Name, pages: u32) -> Result<Reserved, ReserveError>
        requires least { 1 ≤ pages }
        requires most { pages ≤ most_pages }
        ensures reserved { IfOk result (λ r. IsReserved (part_of self.now) (space_of r)) }
        ensures name { IfOk result (λ r. (space_of r).name ≡ name) }
        ensures pages { IfOk result (λ r. (space_of r).pages ≡ pages) }
        ensures refused { IfErr result (IsRefusal (part_of self.now) name pages) }
    {
        let entries = self.entries.as_slice();
        if has_named(name.as_bytes(), entries) {
            return Err(ReserveError::Taken);
        }
        if !has_unused(entries) || self.next >= LAST_SPACE {
            return Err(ReserveError::TableFull);
        }
        let need = clusters_for(pages);
        let free = u64::from(self.free());
        if free < need {
            return Err(ReserveError::Lack(ClusterRoom { need, free }));
        }
        let extents = self.lowest_free(alloc, need as u32)?;
        let map = PageMap::of(alloc, extents.as_slice())?;
        let entry = TableEntry {
            name,
            ordinal: self.next,
            pages,
            extents,
        };
        Ok(Reserved { entry, map })
    }
}
