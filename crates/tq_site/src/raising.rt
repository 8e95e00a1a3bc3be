//! The epoch of a site is raised.

ghost use Rattle.std.specs.Prelude.{◌≡◌, ◌<◌, ◌≤◌, ◌+◌, length, OnOk};
ghost use Rattle.tq_host.specs.View.{IsSettled};
ghost use Rattle.tq_host.specs.Calls.{HasCause};
ghost use Rattle.tq_host.specs.Within.{KeepsRest, Within};
ghost use Rattle.tq_model.specs.DeviceForm.{header_bytes};
ghost use Rattle.tq_model.specs.Site.{last_epoch};
ghost use Rattle.tq_site.specs.Journal.{IsEpochOrNext, IsSameButJournal};
ghost use Rattle.tq_site.specs.InMemory.{IsJournalOf, AreJournalOf, dev_of};

use crate::SiteJournal;
use crate::base::encode_base;
use tq_host::{Device, Host};

impl SiteJournal {
    /// Raises the epoch, below 4,294,967,295, by a new base of the journal. Takes no memory. In each
    /// picture the epoch is the old one, or the next one and all else what was read at the start. What is
    /// read outside the journal stays in any case. After `Device` the journal is to be loaded again.
    pub fn raise_epoch<H: Host>(&mut self, host: &mut H) -> Result<(), Device>
        requires dev { dev_of self.old < 8 }
        requires below { self.old.epoch < last_epoch }
        requires size { H.tells.reads → header_bytes ≤ length ((H.view host.old).reads (dev_of self.old)) }
        ensures stop { AreJournalOf self.old (H.view host.old)
            → Within (dev_of self.old) (IsSameButJournal (dev_of self.old)) (IsEpochOrNext (dev_of self.old) self.old.epoch ((H.view host.old).reads (dev_of self.old))) (H.view host.old) (H.view host.new) }
        ensures raised { OnOk result (H.tells.reads → IsJournalOf self.old ((H.view host.old).reads (dev_of self.old))
            → IsJournalOf self.new ((H.view host.new).reads (dev_of self.old))) }
        ensures images { OnOk result (AreJournalOf self.old (H.view host.old) → AreJournalOf self.new (H.view host.new)) }
        ensures epoch { OnOk result (self.new.epoch ≡ self.old.epoch + 1) }
        ensures dev { dev_of self.new ≡ dev_of self.old }
        ensures outside { H.tells.reads
            → IsSameButJournal (dev_of self.old) ((H.view host.old).reads (dev_of self.old)) ((H.view host.new).reads (dev_of self.old)) }
        ensures settled { OnOk result (IsSettled (dev_of self.old) (H.view host.new)) }
        ensures rest { KeepsRest (dev_of self.old) (H.view host.old) (H.view host.new) }
        ensures cause { HasCause (H.view host.old).faults (H.view host.new).faults result }
    {
        let next = self.epoch + 1;
        encode_base(&mut self.base, next);
        self.log.replace(host, &self.base)?;
        self.epoch = next;
        Ok(())
    }
}
