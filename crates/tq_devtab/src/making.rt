//! A device is made, and its table with it.

ghost use Rattle.std.specs.Prelude.{◌≡◌, ◌≤◌, ◌<◌, List, ℕ, replicate, None, IfOk, OnOk};
ghost use Rattle.tq_host.specs.View.{IsSettled};
ghost use Rattle.tq_host.specs.Calls.{HasCauseOf};
ghost use Rattle.tq_host.specs.Within.{KeepsRest, Within};
ghost use Rattle.tq_extent.specs.Bytes.{IsQuiet};
ghost use Rattle.tq_model.specs.Site.{least_clusters, most_clusters, table_entries};
ghost use Rattle.tq_devtab.specs.declared.error.CreationError.TheVariants as error;
ghost use Rattle.tq_devtab.specs.Device.{IsBlank, HasPart, HasNoJournal, HasFirstAreas, IsBlankOr, IsAnyStep, new_part};
ghost use Rattle.tq_devtab.specs.Table.{entries_view};
ghost use Rattle.tq_devtab.specs.Volume.{new_table};
ghost use Rattle.tq_devtab.specs.InMemory.{IsTableOf, AreTableOf, dev_of, part_of, place_of};

use crate::creating::create;
use crate::layout::{BASE_BYTES, ENTRIES};
use crate::loading::table_layout;
use crate::{CreationError, DeviceTable, TableEntry};
use std::alloc::{AllocError, Global};
use tq_gate::GateLog;
use tq_host::Host;

/// The entries of a table that has no space.
fn unused_entries(alloc: Global) -> Result<Vec<Option<TableEntry>>, AllocError>
    ensures { IfOk result (λ entries. entries_view entries.items ≡ replicate table_entries None) }
{
    let mut entries = Vec::with_capacity(alloc, ENTRIES)?;
    for _entry in 0..ENTRIES {
        entries.push(None)?;
    }
    Ok(entries)
}

impl DeviceTable {
    /// Makes a blank device one of this site, at least 1, with so many clusters, 5 to 8,192, and no
    /// space, as `create` does, and gives its table. All memory is taken before the device is
    /// written.
    ///
    /// # Errors
    /// `NoMemory`, with the device as it was, or `Device`.
    pub fn create<H: Host>(
        alloc: Global,
        host: &mut H,
        dev: u8,
        site: u32,
        clusters: u32,
    ) -> Result<DeviceTable, CreationError>
        requires dev { dev < 8 }
        requires site { 1 ≤ site }
        requires least { least_clusters ≤ clusters }
        requires most { clusters ≤ most_clusters }
        ensures done { OnOk result (H.tells.reads → HasPart dev (new_part dev site clusters) ((H.view host.new).reads dev)) }
        ensures bare { OnOk result (H.tells.reads → 1 ≤ dev → HasNoJournal ((H.view host.new).reads dev)) }
        ensures first { OnOk result (H.tells.reads → HasFirstAreas ((H.view host.new).reads dev)) }
        ensures table { IfOk result (λ t. H.tells.reads → IsTableOf t ((H.view host.new).reads dev)) }
        ensures images { IfOk result (λ t. AreTableOf t (H.view host.new)) }
        ensures part { IfOk result (λ t. part_of t ≡ new_table site clusters) }
        ensures dev { IfOk result (λ t. dev_of t ≡ dev) }
        ensures place { IfOk result (λ t. place_of t ≡ dev) }
        ensures settled { OnOk result (IsSettled dev (H.view host.new)) }
        ensures stop { ((c : List ℕ) → (H.view host.old).may_leave dev c → IsBlank c)
            → Within dev IsAnyStep (IsBlankOr dev (new_part dev site clusters)) (H.view host.old) (H.view host.new) }
        ensures unwritten { result ≡ Err error.NoMemory → IsQuiet dev (H.view host.old) (H.view host.new) }
        ensures rest { KeepsRest dev (H.view host.old) (H.view host.new) }
        ensures cause { HasCauseOf (result ≡ Err error.Device) (H.view host.old).faults (H.view host.new).faults }
    {
        let entries = unused_entries(alloc)?;
        let base = vec![in alloc; 0u8; BASE_BYTES]?;
        create(host, dev, site, clusters)?;
        Ok(DeviceTable {
            place: dev,
            site,
            clusters,
            next: 1,
            entries,
            base,
            log: GateLog::empty(table_layout(dev)),
        })
    }
}
