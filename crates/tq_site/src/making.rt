//! The journal of a site that is just made.

ghost use Rattle.std.specs.Prelude.{◌≡◌, ◌<◌, List, ℕ, IfOk};
ghost use Rattle.tq_site.specs.Journal.{HasFirstJournal};
ghost use Rattle.tq_site.specs.InMemory.{IsJournalOf, dev_of};

use crate::SiteJournal;
use crate::base::BASE_BYTES;
use crate::loading::journal_layout;
use std::alloc::{AllocError, Global};
use tq_gate::GateLog;

impl SiteJournal {
    /// The journal of a site that was just made on this device: of epoch 1, with no decision and an
    /// empty log. Makes no call on the device.
    pub fn new(alloc: Global, dev: u8) -> Result<SiteJournal, AllocError>
        requires dev { dev < 8 }
        ensures epoch { IfOk result (λ j. j.epoch ≡ 1) }
        ensures dev { IfOk result (λ j. dev_of j ≡ dev) }
        ensures on { IfOk result (λ j. (image : List ℕ) → HasFirstJournal image → IsJournalOf j image) }
    {
        let base = vec![in alloc; 0u8; BASE_BYTES]?;
        Ok(SiteJournal {
            epoch: 1,
            base,
            log: GateLog::empty(journal_layout(dev)),
        })
    }
}
