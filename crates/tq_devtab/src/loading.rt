//! A device's table is read.

ghost use Rattle.std.specs.Prelude.{◌≡◌, ◌<◌, ◌≤◌, ℕ, true, false, length, get_or, IfOk, IfSome, IfNone};
ghost use Rattle.tq_host.specs.Calls.{HasCauseOf};
ghost use Rattle.tq_extent.specs.Bytes.{IsQuiet};
ghost use Rattle.tq_devtab.specs.declared.error.TableError.TheVariants as error;
ghost use Rattle.tq_devtab.specs.Device.{IsBlank};
ghost use Rattle.tq_devtab.specs.Header.{part_with};
ghost use Rattle.tq_devtab.specs.InMemory.{IsTableOf, dev_of, part_of, place_of};
ghost use Rattle.tq_devtab.specs.Table.{base_tests};
ghost use Rattle.tq_devtab.specs.Volume as volumes;
ghost use Rattle.tq_devtab.specs.Volume.{is_volume, place_asked};
ghost use Rattle.tq_gate.specs.Loaded.{content_of};
ghost use Rattle.tq_gate.specs.Log.{layout_of};
ghost use Rattle.tq_model.specs.DeviceForm.{header_bytes, table_bytes};
ghost use Rattle.tq_model.specs.Reading.{hold_all};

use crate::decoding::decode_table;
use crate::header::Header;
use crate::reading::read_header;
use crate::{DeviceTable, TableError};
use std::alloc::{AllocError, Global};
use tq_extent::PageMap;
use tq_gate::{Areas, GateLog, Layout, Loaded};
use tq_host::Host;
use tq_model::HEADER_BYTES;

/// Where the table lies on a device.
pub(crate) fn table_layout(dev: u8) -> Layout
    ensures { result ≡ volumes.table_layout dev }
{
    Layout {
        dev,
        map: PageMap::header(),
        areas: Areas::Two { selector: 512 },
        first: 1,
        base_pages: 40,
        log_pages: 0,
    }
}

/// The table with this header whose log was loaded, on a device of so many bytes; `None` exactly
/// where its base breaks a rule of a table.
fn table_of(
    alloc: Global,
    header: Header,
    size: u64,
    loaded: Loaded,
) -> Result<Option<DeviceTable>, AllocError>
    requires layout { layout_of loaded.log ≡ volumes.table_layout (layout_of loaded.log).dev }
    requires base { length loaded.base.items ≡ table_bytes }
    ensures damaged { IfOk result (λ found. IfNone found (hold_all (base_tests header.clusters size (content_of loaded).base) ≡ false)) }
    ensures holds { IfOk result (λ found. IfSome found (λ _. hold_all (base_tests header.clusters size (content_of loaded).base) ≡ true)) }
    ensures part { IfOk result (λ found. IfSome found (λ t. part_of t ≡ part_with header (content_of loaded).base)) }
    ensures place { IfOk result (λ found. IfSome found (λ t. place_of t ≡ header.place)) }
    ensures log { IfOk result (λ found. IfSome found (λ t. t.log ≡ loaded.log)) }
    ensures bytes { (i : ℕ) → get_or (content_of loaded).base i 0 < 256 }
{
    let Some(decoded) = decode_table(alloc, &loaded.base, header.clusters, size)? else {
        return Ok(None);
    };
    Ok(Some(DeviceTable {
        place: header.place,
        site: header.site,
        clusters: header.clusters,
        next: decoded.next,
        entries: decoded.entries,
        base: loaded.base,
        log: loaded.log,
    }))
}

impl DeviceTable {
    /// Reads the header and the table of a device; `None` exactly where it is blank, which is
    /// shorter than its header. The header's number has to be `place`, below 8, where one is given,
    /// and else one of a device. Nothing is written.
    ///
    /// # Errors
    /// `Damaged` exactly where the header or the table of a device that is not blank breaks a rule
    /// of the format; else `Device` or `NoMemory`.
    pub fn load<H: Host>(
        alloc: Global,
        host: &mut H,
        dev: u8,
        place: Option<u8>,
    ) -> Result<Option<DeviceTable>, TableError>
        requires dev { dev < 8 }
        requires place { IfSome place (λ p. p < 8) }
        ensures blank { IfOk result (λ found. IfNone found (H.tells.reads → IsBlank ((H.view host.old).reads dev))) }
        ensures table { IfOk result (λ found. IfSome found (λ t. H.tells.reads → IsTableOf t ((H.view host.old).reads dev))) }
        ensures dev { IfOk result (λ found. IfSome found (λ t. dev_of t ≡ dev)) }
        ensures place { IfOk result (λ found. IfSome found (λ t. H.tells.reads → place_of t ≡ place_asked place ((H.view host.old).reads dev))) }
        ensures given { IfOk result (λ found. IfSome found (λ t. IfSome place (λ p. place_of t ≡ p))) }
        ensures damaged { result ≡ Err error.Damaged → H.tells.reads
            → (header_bytes ≤ length ((H.view host.old).reads dev)) × (is_volume place ((H.view host.old).reads dev) ≡ false) }
        ensures quiet { IsQuiet dev (H.view host.old) (H.view host.new) }
        ensures cause { HasCauseOf (result ≡ Err error.Device) (H.view host.old).faults (H.view host.new).faults }
    {
        let size = host.length(dev)?;
        if size < HEADER_BYTES {
            return Ok(None);
        }
        let Some(header) = read_header(host, dev, place)? else {
            return Err(TableError::Damaged);
        };
        let loaded = GateLog::load(alloc, host, table_layout(dev))?;
        let Some(table) = table_of(alloc, header, size, loaded)? else {
            return Err(TableError::Damaged);
        };
        Ok(Some(table))
    }
}
