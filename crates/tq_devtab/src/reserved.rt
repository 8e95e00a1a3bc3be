//! A space that is to be entered.

ghost use Rattle.std.specs.Prelude.{◌≡◌, ◌≤◌, ◌*◌, ◌+◌, nat_le, true};
ghost use Rattle.std.specs.List.{list_all};
ghost use Rattle.tq_extent.specs.Clusters.{clusters_of};
ghost use Rattle.tq_extent.specs.Pages.{page_count};
ghost use Rattle.tq_model.specs.declared.answer.Extent.{Extent};
ghost use Rattle.tq_model.specs.DeviceForm.{cluster_bytes};
ghost use Rattle.tq_devtab.specs.Volume.{most_bytes};

use crate::TableEntry;
use tq_extent::PageMap;

/// A space that is to be entered: its name, its ordinal, its pages and its clusters.
#[derive(Drop)]
pub struct Reserved {
    pub(crate) entry: TableEntry,
    pub(crate) map: PageMap,
    ghost mapped: { map ≡ clusters_of entry.extents },
    ghost enough: { entry.pages ≤ page_count map },
    // no cluster lies past the largest device
    ghost within: { list_all (λ (e : Extent). nat_le (cluster_bytes * (e.first + e.count)) most_bytes) entry.extents ≡ true },
}

impl Reserved {
    ghost use Rattle.tq_devtab.specs.Reserved.{space_of};

    /// Where its pages are to lie.
    pub fn map(&self) -> &PageMap
        ensures map { result.now ≡ clusters_of (space_of self.now).extents }
        ensures enough { (space_of self.now).pages ≤ page_count result.now }
    {
        &self.map
    }

    /// The ordinal that it is to have.
    pub fn ordinal(&self) -> u32
        ensures { result ≡ (space_of self.now).ordinal }
    {
        self.entry.ordinal
    }
}
