//! A journal is read.

ghost use Rattle.std.specs.Prelude.{◌≡◌, ◌<◌, ◌≤◌, ℕ, false, [], ◌∷◌, ◌++◌, length, IfOk, IfSome, IfNone};
ghost use Rattle.tq_host.specs.Calls.{HasCauseOf};
ghost use Rattle.tq_extent.specs.Bytes.{IsQuiet};
ghost use Rattle.tq_gate.specs.Log.{layout_of};
ghost use Rattle.tq_gate.specs.Loaded.{content_of};
ghost use Rattle.tq_model.specs.DeviceForm.{header_bytes};
ghost use Rattle.tq_model.specs.Reading.{journal_tests, has_no_decision, hold_all};
ghost use Rattle.tq_site.specs.declared.error.JournalError.TheVariants as error;
ghost use Rattle.tq_site.specs.Base.{SaysEpoch};
ghost use Rattle.tq_site.specs.Journal as journals;
ghost use Rattle.tq_site.specs.Journal.{journal_in};
ghost use Rattle.tq_site.specs.InMemory.{IsJournalOf, dev_of};

use crate::base::epoch_in;
use crate::{JournalError, SiteJournal};
use std::alloc::Global;
use tq_extent::PageMap;
use tq_gate::{Areas, GateLog, Layout, Loaded};
use tq_host::Host;

/// Where the journal lies on a device.
pub(crate) fn journal_layout(dev: u8) -> Layout
    ensures { result ≡ journals.journal_layout dev }
{
    Layout {
        dev,
        map: PageMap::header(),
        areas: Areas::Two { selector: 513 },
        first: 81,
        base_pages: 1,
        log_pages: 15,
    }
}

/// The journal whose log was loaded; `None` exactly where its content is not that of a journal, or
/// has a decision.
fn journal_of(loaded: Loaded) -> Option<SiteJournal>
    requires { layout_of loaded.log ≡ journals.journal_layout (layout_of loaded.log).dev }
    ensures epoch { IfSome result (λ j. SaysEpoch j.epoch (content_of loaded).base (content_of loaded).payloads) }
    ensures log { IfSome result (λ j. j.log ≡ loaded.log) }
    ensures none { IfNone result ((epoch : ℕ) → SaysEpoch epoch (content_of loaded).base (content_of loaded).payloads → ⊥) }
{
    let Loaded {
        log,
        base,
        payloads,
    } = loaded;
    let epoch = epoch_in(&base, &payloads)?;
    Some(SiteJournal { epoch, base, log })
}

impl SiteJournal {
    /// Reads the journal of device 0, which is not blank. Nothing is written.
    ///
    /// # Errors
    /// `Damaged` exactly where it has no reading, or holds a decision, since no commit is over several
    /// spaces yet; else `Device` or `NoMemory`.
    pub fn load<H: Host>(alloc: Global, host: &mut H, dev: u8) -> Result<SiteJournal, JournalError>
        requires dev { dev < 8 }
        requires size { H.tells.reads → header_bytes ≤ length ((H.view host.old).reads dev) }
        ensures loaded { IfOk result (λ j. H.tells.reads → IsJournalOf j ((H.view host.old).reads dev)) }
        ensures dev { IfOk result (λ j. dev_of j ≡ dev) }
        ensures damaged { result ≡ Err error.Damaged → H.tells.reads
            → hold_all (journal_tests (journal_in ((H.view host.old).reads dev)) ++ has_no_decision (journal_in ((H.view host.old).reads dev)) ∷ []) ≡ false }
        ensures quiet { IsQuiet dev (H.view host.old) (H.view host.new) }
        ensures cause { HasCauseOf (result ≡ Err error.Device) (H.view host.old).faults (H.view host.new).faults }
    {
        let loaded = GateLog::load(alloc, host, journal_layout(dev))?;
        journal_of(loaded).ok_or(JournalError::Damaged)
    }
}
