//! A space is entered in a device's table, gets more pages, or is dropped.

ghost use Rattle.std.specs.Prelude.{◌≡◌, ◌<◌, ◌≤◌, ◌+◌, true, List, ℕ, length, is_some, IfOk, IfErr, OnOk, OnErr};
ghost use Rattle.tq_host.specs.View.{IsSettled};
ghost use Rattle.tq_host.specs.Calls.{HasCause};
ghost use Rattle.tq_host.specs.Within.{KeepsRest, Within};
ghost use Rattle.tq_extent.specs.Bytes.{reaches};
ghost use Rattle.tq_extent.specs.Clusters.{clusters_of};
ghost use Rattle.tq_model.specs.DeviceForm.{header_bytes};
ghost use Rattle.tq_devtab.specs.Table.{entry_view, entry_of};
ghost use Rattle.tq_devtab.specs.Volume.{TablePart, IsReserved, IsTableOrNext, IsSameButTable, with_new, without};
ghost use Rattle.tq_devtab.specs.InMemory.{IsTableOf, AreTableOf, IsChangeOf, AreChangeOf, dev_of, part_of, place_of};
ghost use Rattle.tq_devtab.specs.Reserved.{space_of};

use crate::encoding::encode_table;
use crate::spaces::{lowest_unused, space_at};
use crate::{DeviceTable, Reserved};
use tq_host::{Device, Host};

impl DeviceTable {
    /// Writes the table as it is in memory over the one of the device, which it is a change of. Takes
    /// no memory. What is read outside the table stays, also where the call fails.
    pub(crate) fn store<H: Host>(&mut self, host: &mut H) -> Result<(), Device>
        requires dev { dev_of self.old < 8 }
        requires size { H.tells.reads → header_bytes ≤ length ((H.view host.old).reads (dev_of self.old)) }
        ensures stop { (d : TablePart) → AreChangeOf d self.old (H.view host.old)
            → Within (dev_of self.old) (IsSameButTable (dev_of self.old))
            (IsTableOrNext (dev_of self.old) (place_of self.old) d (part_of self.old) ((H.view host.old).reads (dev_of self.old)))
            (H.view host.old) (H.view host.new) }
        ensures part { part_of self.new ≡ part_of self.old }
        ensures stored { OnOk result (H.tells.reads → (d : TablePart) → IsChangeOf d self.old ((H.view host.old).reads (dev_of self.old))
            → IsTableOf self.new ((H.view host.new).reads (dev_of self.old))) }
        ensures dev { dev_of self.new ≡ dev_of self.old }
        ensures place { place_of self.new ≡ place_of self.old }
        ensures outside { H.tells.reads
            → IsSameButTable (dev_of self.old) ((H.view host.old).reads (dev_of self.old)) ((H.view host.new).reads (dev_of self.old)) }
        ensures settled { OnOk result (IsSettled (dev_of self.old) (H.view host.new)) }
        ensures rest { KeepsRest (dev_of self.old) (H.view host.old) (H.view host.new) }
        ensures cause { HasCause (H.view host.old).faults (H.view host.new).faults result }
    {
        encode_table(&mut self.base, self.next, self.entries.as_slice());
        self.log.replace(host, &self.base)
    }

    /// Enters a space that was reserved, whose pages are on the device and durable, and gives its
    /// ordinal. The device reaches to the end of its clusters. In each picture the table is the old
    /// one, or the new one and all else what was read at the start. What is read outside the table
    /// stays in any case. Takes no memory. After `Device` the table is to be loaded again.
    pub fn enter<H: Host>(&mut self, host: &mut H, reserved: Reserved) -> Result<u32, Device>
        requires dev { dev_of self.old < 8 }
        requires reserved { IsReserved (part_of self.old) (space_of reserved) }
        requires size { H.tells.reads → header_bytes ≤ length ((H.view host.old).reads (dev_of self.old)) }
        requires reach { H.tells.reads → reaches (clusters_of (space_of reserved).extents) ((H.view host.old).reads (dev_of self.old)) ≡ true }
        ensures stop { AreTableOf self.old (H.view host.old) → ((image : List ℕ) → (H.view host.old).may_leave (dev_of self.old) image → reaches (clusters_of (space_of reserved).extents) image ≡ true)
            → Within (dev_of self.old) (IsSameButTable (dev_of self.old))
            (IsTableOrNext (dev_of self.old) (place_of self.old) (part_of self.old) (with_new (space_of reserved) (part_of self.old)) ((H.view host.old).reads (dev_of self.old)))
            (H.view host.old) (H.view host.new) }
        ensures ordinal { IfOk result (λ ordinal. ordinal ≡ (part_of self.old).next_space) }
        ensures part { OnOk result (part_of self.new ≡ with_new (space_of reserved) (part_of self.old)) }
        ensures entered { OnOk result (H.tells.reads → IsTableOf self.old ((H.view host.old).reads (dev_of self.old)) → IsTableOf self.new ((H.view host.new).reads (dev_of self.old))) }
        ensures images { OnOk result (AreTableOf self.old (H.view host.old) → ((image : List ℕ) → (H.view host.old).may_leave (dev_of self.old) image → reaches (clusters_of (space_of reserved).extents) image ≡ true)
            → AreTableOf self.new (H.view host.new)) }
        ensures dev { dev_of self.new ≡ dev_of self.old }
        ensures place { place_of self.new ≡ place_of self.old }
        ensures outside { H.tells.reads
            → IsSameButTable (dev_of self.old) ((H.view host.old).reads (dev_of self.old)) ((H.view host.new).reads (dev_of self.old)) }
        ensures settled { OnOk result (IsSettled (dev_of self.old) (H.view host.new)) }
        ensures rest { KeepsRest (dev_of self.old) (H.view host.old) (H.view host.new) }
        ensures cause { HasCause (H.view host.old).faults (H.view host.new).faults result }
    {
        let ordinal = self.next;
        let Reserved { entry, .. } = reserved;
        let index = lowest_unused(self.entries.as_slice());
        self.entries[index] = Some(entry);
        self.next = ordinal + 1;
        self.store(host)?;
        Ok(ordinal)
    }

    /// Drops the space of that ordinal: its entry is not used from then on, and its clusters are
    /// free. In each picture the table is the old one, or the new one and all else what was read at
    /// the start. What is read outside the table stays in any case. Takes no memory. After `Device`
    /// the table is to be loaded again.
    pub fn drop_space<H: Host>(&mut self, host: &mut H, ordinal: u32) -> Result<(), Device>
        requires dev { dev_of self.old < 8 }
        requires there { is_some (entry_of ordinal (part_of self.old).entries) ≡ true }
        requires size { H.tells.reads → header_bytes ≤ length ((H.view host.old).reads (dev_of self.old)) }
        ensures stop { AreTableOf self.old (H.view host.old)
            → Within (dev_of self.old) (IsSameButTable (dev_of self.old))
            (IsTableOrNext (dev_of self.old) (place_of self.old) (part_of self.old) (without ordinal (part_of self.old)) ((H.view host.old).reads (dev_of self.old)))
            (H.view host.old) (H.view host.new) }
        ensures part { OnOk result (part_of self.new ≡ without ordinal (part_of self.old)) }
        ensures dropped { OnOk result (H.tells.reads → IsTableOf self.old ((H.view host.old).reads (dev_of self.old)) → IsTableOf self.new ((H.view host.new).reads (dev_of self.old))) }
        ensures images { OnOk result (AreTableOf self.old (H.view host.old) → AreTableOf self.new (H.view host.new)) }
        ensures dev { dev_of self.new ≡ dev_of self.old }
        ensures place { place_of self.new ≡ place_of self.old }
        ensures outside { H.tells.reads
            → IsSameButTable (dev_of self.old) ((H.view host.old).reads (dev_of self.old)) ((H.view host.new).reads (dev_of self.old)) }
        ensures settled { OnOk result (IsSettled (dev_of self.old) (H.view host.new)) }
        ensures rest { KeepsRest (dev_of self.old) (H.view host.old) (H.view host.new) }
        ensures cause { HasCause (H.view host.old).faults (H.view host.new).faults result }
    {
        let index = space_at(self.entries.as_slice(), ordinal);
        self.entries[index] = None;
        self.store(host)
    }
}
