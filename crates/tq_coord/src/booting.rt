// Boots: what a device stands for, with its epoch raised.

ghost use Rattle.std.specs.Prelude.{◌≡◌, ◌≢◌, ◌<◌, ◌≤◌, ◌+◌, List, ℕ, false, IfOk, IfErr, IfSome, IfNone, OnOk, Some, None, get_or, length};
ghost use Rattle.tq_host.specs.View.{Images, AreNow, IsSettled, AreSettled};
ghost use Rattle.tq_host.specs.Within.{KeepsRest, KeepsBeside, Within, WithinAll};
ghost use Rattle.tq_extent.specs.Bytes.{IsQuiet};
ghost use Rattle.tq_model.specs.Site.{Site, last_epoch};
ghost use Rattle.tq_model.specs.Step.{can_boot};
ghost use Rattle.tq_model.specs.DeviceForm.{header_bytes};
ghost use Rattle.tq_model.specs.Reading.{site_found};
ghost use Rattle.tq_devtab.specs.Table.{entry_view};
ghost use Rattle.tq_devtab.specs.InMemory as tables;
ghost use Rattle.tq_site.specs.Journal.{HasEpoch};
ghost use Rattle.tq_coord.specs.Frame.{LeavesOthers, device_count};
ghost use Rattle.tq_coord.specs.Counts.{CountsBoot};
ghost use Rattle.tq_coord.specs.Images.{HasNoNewImage, ImagesMatch, ImagesHaveAny, AreFoundOrBooted, AreOldOrBooted};
ghost use Rattle.tq_coord.specs.Manager.{is_bootable, IsBooted, IsLoaded, IsRaised, IsFileAt, AreFilesAt, site_with, epoch_of};
ghost use Rattle.tq_coord.specs.Together.{place_of, IsFileOf, IsTogether};

use crate::site::Disk;
use crate::{BootFailure, Manager};
use std::alloc::Global;
use tq_devtab::{DeviceTable, TableEntry};
use tq_extent::PageMap;
use tq_host::Host;
use tq_site::SiteJournal;
use tq_spacefile::{SpaceFile, SpacePlace};

// Where the space of an entry lies.
pub(crate) fn place_of(table: &DeviceTable, entry: &TableEntry) -> SpacePlace
    requires { entry.now.ordinal ≤ 268435455 }
    ensures { result ≡ place_of 0 (tables.part_of table.now) (entry_view entry.now) }
{
    SpacePlace {
        dev: 0,
        pages: entry.pages,
        site: table.site(),
        number: 8 * entry.ordinal,
    }
}

// Makes what device 0 reads what a stop leaves, and reads its table; None where it is blank.
fn look<H: Host>(alloc: Global, host: &mut H) -> Result<Option<DeviceTable>, BootFailure>
    ensures blank { IfOk result (λ found. IfNone found (H.tells.reads → length ((H.view host.old).reads 0) < header_bytes)) }
    ensures table { IfOk result (λ found. IfSome found (λ t. H.tells.reads → tables.IsTableOf t ((H.view host.old).reads 0))) }
    ensures dev { IfOk result (λ found. IfSome found (λ t. (tables.dev_of t ≡ 0) × (tables.place_of t ≡ 0))) }
    ensures damaged { result ≡ Err BootFailure.Damaged → H.tells.reads → site_found device_count (H.view host.old).reads ≡ None }
    ensures quiet { IsQuiet 0 (H.view host.old) (H.view host.new) }
    ensures settled { result ≢ Err BootFailure.Device → IsSettled 0 (H.view host.new) }
    ensures failed { CountsBoot result (H.view host.old).faults (H.view host.new).faults }
{
    host.sync(0)?;
    let table = DeviceTable::load(alloc, host, 0, Some(0))?;
    Ok(table)
}

// Loads the space of an entry, if it is used.
fn load_entry<H: Host>(
    alloc: Global,
    host: &mut H,
    table: &DeviceTable,
    index: usize,
    epoch: u32,
) -> Result<Option<SpaceFile>, BootFailure>
    requires within { index < length (tables.part_of table.now).entries }
    requires number { tables.place_of table.now ≡ 0 }
    requires holds { H.tells.reads → tables.IsTableOf table.now ((H.view host.old).reads 0) }
    requires epoch { H.tells.reads → HasEpoch epoch ((H.view host.old).reads 0) }
    ensures fit { IfOk result (λ file. IsFileOf 0 (tables.part_of table.now) (get_or (tables.part_of table.now).entries index None) file) }
    ensures loaded { IfOk result (λ file. H.tells.reads
        → IsFileAt (tables.part_of table.now) epoch (get_or (tables.part_of table.now).entries index None) file ((H.view host.old).reads 0)) }
    ensures damaged { result ≡ Err BootFailure.Damaged → H.tells.reads → site_found device_count (H.view host.old).reads ≡ None }
    ensures quiet { IsQuiet 0 (H.view host.old) (H.view host.new) }
    ensures failed { CountsBoot result (H.view host.old).faults (H.view host.new).faults }
{
    match &table.entries()[index] {
        None => Ok(None),
        Some(entry) => {
            let place = place_of(table, entry);
            let map = PageMap::of(alloc, entry.extents.as_slice())?;
            let file = SpaceFile::load(alloc, host, &place, map, epoch)?;
            Ok(Some(file))
        }
    }
}

// Loads the space of each entry that is used.
fn load_files<H: Host>(
    alloc: Global,
    host: &mut H,
    table: &DeviceTable,
    epoch: u32,
) -> Result<Vec<Option<SpaceFile>>, BootFailure>
    requires number { tables.place_of table.now ≡ 0 }
    requires holds { H.tells.reads → tables.IsTableOf table.now ((H.view host.old).reads 0) }
    requires epoch { H.tells.reads → HasEpoch epoch ((H.view host.old).reads 0) }
    ensures fit { IfOk result (λ files. IsTogether 0 (tables.part_of table.now) files.items) }
    ensures loaded { IfOk result (λ files. H.tells.reads
        → AreFilesAt (tables.part_of table.now) epoch files.items ((H.view host.old).reads 0)) }
    ensures damaged { result ≡ Err BootFailure.Damaged → H.tells.reads → site_found device_count (H.view host.old).reads ≡ None }
    ensures quiet { IsQuiet 0 (H.view host.old) (H.view host.new) }
    ensures failed { CountsBoot result (H.view host.old).faults (H.view host.new).faults }
{
    let mut files = Vec::with_capacity(alloc, 16)?;
    for index in 0..16 {
        let file = load_entry(alloc, host, table, index, epoch)?;
        if files.push(file).is_err() {
            return Err(BootFailure::Memory);
        }
    }
    Ok(files)
}

// Loads the journal and the spaces beside a table.
fn load_disk<H: Host>(alloc: Global, host: &mut H, table: DeviceTable) -> Result<Disk, BootFailure>
    requires dev { (tables.dev_of table ≡ 0) × (tables.place_of table ≡ 0) }
    requires holds { H.tells.reads → tables.IsTableOf table ((H.view host.old).reads 0) }
    ensures loaded { IfOk result (λ d. H.tells.reads → IsLoaded d ((H.view host.old).reads 0)) }
    ensures damaged { result ≡ Err BootFailure.Damaged → H.tells.reads → site_found device_count (H.view host.old).reads ≡ None }
    ensures quiet { IsQuiet 0 (H.view host.old) (H.view host.new) }
    ensures failed { CountsBoot result (H.view host.old).faults (H.view host.new).faults }
{
    let journal = SiteJournal::load(alloc, host, 0)?;
    let files = load_files(alloc, host, &table, journal.epoch())?;
    Ok(Disk {
        table,
        journal,
        files,
    })
}

// Makes what device 0 reads what a stop leaves, and loads it; None where it is blank.
fn find<H: Host>(alloc: Global, host: &mut H) -> Result<Option<Disk>, BootFailure>
    ensures blank { IfOk result (λ found. IfNone found (H.tells.reads → length ((H.view host.old).reads 0) < header_bytes)) }
    ensures loaded { IfOk result (λ found. IfSome found (λ d. H.tells.reads → IsLoaded d ((H.view host.old).reads 0))) }
    ensures damaged { result ≡ Err BootFailure.Damaged → H.tells.reads → site_found device_count (H.view host.old).reads ≡ None }
    ensures quiet { IsQuiet 0 (H.view host.old) (H.view host.new) }
    ensures settled { result ≢ Err BootFailure.Device → IsSettled 0 (H.view host.new) }
    ensures failed { CountsBoot result (H.view host.old).faults (H.view host.new).faults }
{
    match look(alloc, host)? {
        None => Ok(None),
        Some(table) => Ok(Some(load_disk(alloc, host, table)?)),
    }
}

// Raises the epoch that was found, where there is a next one.
fn raise<H: Host>(host: &mut H, disk: Disk) -> Result<Manager, BootFailure>
    requires holds { H.tells.reads → IsLoaded disk ((H.view host.old).reads 0) }
    ensures first { IfOk result (λ m. m.next ≡ 0) }
    ensures raised { IfOk result (λ m. H.tells.reads → IsRaised disk m ((H.view host.new).reads 0)) }
    ensures damaged { result ≡ Err BootFailure.Damaged → epoch_of disk ≡ last_epoch }
    ensures untouched { result ≡ Err BootFailure.Damaged → host.new ≡ host.old }
    ensures left_alone { can_boot (site_with (Some disk) 0) ≡ false → host.new ≡ host.old }
    ensures stop { ((c : List ℕ) → (H.view host.old).may_leave 0 c → IsLoaded disk c)
        → WithinAll (AreFoundOrBooted (site_with (Some disk) 0)) (H.view host.old) (H.view host.new) }
    ensures on { IfOk result (λ m. ((c : List ℕ) → (H.view host.old).may_leave 0 c → IsLoaded disk c) → ImagesMatch m (H.view host.new)) }
    ensures failed { CountsBoot result (H.view host.old).faults (H.view host.new).faults }
    ensures rest { KeepsRest 0 (H.view host.old) (H.view host.new) }
    ensures memory { result ≢ Err BootFailure.Memory }
    ensures others { ((c : List ℕ) → (H.view host.old).may_leave 0 c → IsLoaded disk c) → LeavesOthers (H.view host.old) (H.view host.new) }
{
    if disk.journal.epoch() == u32::MAX {
        return Err(BootFailure::Damaged);
    }
    let mut disk = disk;
    disk.journal.raise_epoch(host)?;
    Ok(Manager {
        disk: Some(disk),
        next: 0,
    })
}

impl Manager {
    /// A boot: finds what device 0 stands for, makes it what a stop leaves, and raises its epoch; the
    /// number of the next message is 0. All memory is taken before the device is written to, so after
    /// `Memory` or `Damaged` nothing is written. Where a device failed, the devices stand for what they
    /// stood for, or for the boot of it.
    pub fn boot<H: Host>(alloc: Global, host: &mut H) -> Result<Manager, BootFailure>
        ensures first { IfOk result (λ m. m.next ≡ 0) }
        ensures booted { IfOk result (λ m. H.tells.reads → IsBooted m (H.view host.old) (H.view host.new)) }
        ensures damaged { result ≡ Err BootFailure.Damaged → H.tells.reads → is_bootable (site_found device_count (H.view host.old).reads) ≡ false }
        ensures untouched { result ≡ Err BootFailure.Damaged → (d : ℕ) → (H.view host.new).reads d ≡ (H.view host.old).reads d }
        ensures stop { H.tells.reads → (sites : List Site) → ((images : Images) → AreNow (H.view host.old) images → ImagesHaveAny sites images)
            → (found : Site) → site_found device_count (H.view host.old).reads ≡ Some found
            → WithinAll (AreOldOrBooted sites found) (H.view host.old) (H.view host.new) }
        ensures left_alone { H.tells.reads → is_bootable (site_found device_count (H.view host.old).reads) ≡ false
            → WithinAll (AreNow (H.view host.old)) (H.view host.old) (H.view host.new) }
        ensures memory { result ≡ Err BootFailure.Memory → WithinAll (AreNow (H.view host.old)) (H.view host.old) (H.view host.new) }
        ensures on { IfOk result (λ m. ImagesMatch m (H.view host.new)) }
        ensures settled { result ≡ Err BootFailure.Damaged → H.tells.reads → (images : Images) → AreNow (H.view host.new) images
            → site_found device_count images ≡ site_found device_count (H.view host.old).reads }
        ensures failed { CountsBoot result (H.view host.old).faults (H.view host.new).faults }
        ensures rest { KeepsBeside (H.view host.old) (H.view host.new) }
        ensures others { LeavesOthers (H.view host.old) (H.view host.new) }
    {
        match find(alloc, host)? {
            None => Ok(Manager {
                disk: None,
                next: 0,
            }),
            Some(disk) => raise(host, disk),
        }
    }
}
