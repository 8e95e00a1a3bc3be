//! A device's table in memory.

ghost use Rattle.std.specs.Prelude.{◌≡◌, ◌<◌, ◌≤◌, length};
ghost use Rattle.tq_gate.specs.Log.{layout_of};
ghost use Rattle.tq_model.specs.Site.{least_clusters, most_clusters};
ghost use Rattle.tq_model.specs.DeviceForm.{table_bytes};
ghost use Rattle.tq_devtab.specs.Table.{entries_view, IsTable};
ghost use Rattle.tq_devtab.specs.Volume.{most_bytes, table_layout};

use crate::TableEntry;
use tq_gate::GateLog;

/// The table of a device in memory: its spaces, and which clusters they have.
#[derive(Drop)]
pub struct DeviceTable {
    // the number in the device's header
    pub(crate) place: u8,
    pub(crate) site: u32,
    pub(crate) clusters: u32,
    // the ordinal of the next space
    pub(crate) next: u32,
    // 16 entries
    pub(crate) entries: Vec<Option<TableEntry>>,
    // room for the base that is written next
    pub(crate) base: Vec<u8>,
    pub(crate) log: GateLog,
    ghost number: { place < 8 },
    ghost layout: { layout_of log ≡ table_layout (layout_of log).dev },
    ghost room: { length base.items ≡ table_bytes },
    ghost some: { 1 ≤ site },
    ghost least: { least_clusters ≤ clusters },
    ghost most: { clusters ≤ most_clusters },
    ghost table: { IsTable next clusters most_bytes (entries_view entries.items) },
}

impl DeviceTable {
    ghost use Rattle.tq_devtab.specs.InMemory.{part_of, place_of};

    /// The number in the device's header, 0 to 7.
    pub fn place(&self) -> u8
        ensures place { result ≡ place_of self.now }
        ensures within { result < 8 }
    {
        self.place
    }

    /// The number of the device's site, at least 1.
    pub fn site(&self) -> u32
        ensures site { result ≡ (part_of self.now).site }
        ensures some { 1 ≤ result }
    {
        self.site
    }

    /// How many clusters the device has, 5 to 8,192, those of its header included.
    pub fn clusters(&self) -> u32
        ensures clusters { result ≡ (part_of self.now).clusters }
        ensures least { least_clusters ≤ result }
        ensures most { result ≤ most_clusters }
    {
        self.clusters
    }

    /// The ordinal of the next space that is made, from 1; the last value gives none.
    pub fn next_space(&self) -> u32
        ensures { result ≡ (part_of self.now).next_space }
    {
        self.next
    }

    /// The 16 entries, in their order.
    pub fn entries(&self) -> &[Option<TableEntry>]
        ensures { entries_view result.now ≡ (part_of self.now).entries }
    {
        self.entries.as_slice()
    }
}
