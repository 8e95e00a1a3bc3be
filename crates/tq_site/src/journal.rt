//! The journal in memory.

ghost use Rattle.std.specs.Prelude.{◌≡◌, ◌≤◌, length};
ghost use Rattle.tq_gate.specs.Log.{layout_of};
ghost use Rattle.tq_site.specs.Journal.{journal_layout};

use tq_gate::GateLog;

/// The journal of a site.
#[derive(Drop)]
pub struct SiteJournal {
    pub(crate) epoch: u32,
    // room for the base that is written next
    pub(crate) base: Vec<u8>,
    pub(crate) log: GateLog,
    ghost layout: { layout_of log ≡ journal_layout (layout_of log).dev },
    ghost room: { length base.items ≡ 1024 },
    ghost some: { 1 ≤ epoch },
}

impl SiteJournal {
    /// The epoch of the site, at least 1.
    pub fn epoch(&self) -> u32
        ensures epoch { result ≡ self.now.epoch }
        ensures some { 1 ≤ result }
    {
        self.epoch
    }
}
