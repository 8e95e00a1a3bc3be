//! What is in memory of a site.

ghost use Rattle.std.specs.Prelude.{◌≡◌};
ghost use Rattle.tq_devtab.specs.InMemory as tables;
ghost use Rattle.tq_site.specs.InMemory as journals;
ghost use Rattle.tq_coord.specs.Together.{IsTogether, together_prop};

use tq_devtab::DeviceTable;
use tq_site::SiteJournal;
use tq_spacefile::SpaceFile;
use tq_types::Arrival;

// A device that is created: its table, the journal of the site, and the space of each entry.
#[derive(Drop)]
pub(crate) struct Disk {
    pub(crate) table: DeviceTable,
    pub(crate) journal: SiteJournal,
    // 16, in the order of the table's entries
    pub(crate) files: Vec<Option<SpaceFile>>,
    ghost table_dev: { tables.dev_of table ≡ 0 },
    ghost number: { tables.place_of table ≡ 0 },
    ghost journal_dev: { journals.dev_of journal ≡ 0 },
    ghost fit: { IsTogether 0 (tables.part_of table) files.items } by { together_prop 0 (tables.part_of table) files.items },
}

/// The site in memory: what its devices stand for, and the number of the next message.
#[derive(Drop)]
pub struct Manager {
    // device 0, and None while it is blank
    pub(crate) disk: Option<Disk>,
    // the number of the next message
    pub(crate) next: u32,
}

impl Manager {
    ghost use Rattle.tq_model.specs.Step.{next_arrival};
    ghost use Rattle.tq_coord.specs.Manager.{site_of};

    /// The clock of the site.
    pub fn clock(&self) -> u64
        ensures { result ≡ (site_of self.now).clock }
    {
        0
    }

    /// The arrival of the next message: its number in the epoch of this boot; in epoch 0 while no device is created.
    pub fn next_arrival(&self) -> Arrival
        ensures { result ≡ next_arrival (site_of self.now) }
    {
        let epoch = match &self.disk {
            None => 0,
            Some(disk) => disk.journal.epoch(),
        };
        Arrival {
            epoch,
            number: self.next,
        }
    }
}
