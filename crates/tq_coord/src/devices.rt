// Devices: creations, erasures, listings, and what a boot says of the site.

ghost use Rattle.std.specs.Prelude.{◌≡◌, ◌≤◌, ℕ, IfOk, IfNone, None, Some, length, map, get_or};
ghost use Rattle.tq_model.specs.Step.{device_step, creation_refusal, create_device, erasure_refusal, erase_device, list_device, ready, site_asked, space_line};
ghost use Rattle.tq_model.specs.Site.{durable, capacity_of, space_count, spaces_on};
ghost use Rattle.tq_devtab.specs.Table.{entry_view};
ghost use Rattle.tq_coord.specs.Images.{ImagesMatch};
ghost use Rattle.tq_coord.specs.Manager.{site_of, placed_of, volume_in};
ghost use Rattle.tq_coord.specs.Serving.{IsServed, ChangesOnce};
ghost use Rattle.tq_coord.specs.Counts.{CountsFailure};

use crate::site::Disk;
use crate::{Failure, Manager};
use std::alloc::{AllocError, Global};
use tq_devtab::{DeviceTable, TableEntry, erase};
use tq_host::Host;
use tq_model::{
    Answer, Capacity, Creation, DeviceAnswer, DeviceRequest, Extent, Extents, Field, Identity,
    LEAST_CLUSTERS, Listing, MOST_CLUSTERS, Readiness, SpaceLine, SpaceLines,
};
use tq_site::SiteJournal;
use tq_spacefile::SpaceFile;

// The site number that is asked for.
fn site_number(creation: &Creation) -> u64
    ensures { result ≡ site_asked creation.now }
{
    match creation.site {
        None => 1,
        Some(site) => site,
    }
}

// The same extents once more.
fn copied(alloc: Global, extents: &[Extent]) -> Result<Extents, AllocError>
    ensures { IfOk result (λ copy. copy ≡ extents.now) }
{
    let mut copy = Extents::new(alloc);
    for extent in extents {
        copy.push(*extent)?;
    }
    Ok(copy)
}

// What is said of a space that is there.
fn line_of(alloc: Global, entry: &TableEntry, file: &SpaceFile) -> Result<SpaceLine, AllocError>
    ensures { IfOk result (λ line. line ≡ space_line (placed_of (entry_view entry.now) file.now)) }
{
    Ok(SpaceLine {
        name: entry.name,
        number: file.space().number(),
        pages: entry.pages,
        extents: copied(alloc, entry.extents.as_slice())?,
    })
}

// A place for the space of each entry, all empty.
fn no_files(alloc: Global) -> Result<Vec<Option<SpaceFile>>, AllocError>
    ensures count { IfOk result (λ files. length files.items ≡ 16) }
    ensures none { IfOk result (λ files. (i : ℕ) → get_or files.items i None ≡ None) }
{
    let mut files = Vec::with_capacity(alloc, 16)?;
    for _index in 0..16u32 {
        files.push(None)?;
    }
    Ok(files)
}

impl Disk {
    // How many spaces stand on it.
    fn space_count(&self) -> u32
        ensures { result ≡ length (spaces_on (volume_in self.now)) }
    {
        let mut count = 0;
        for entry in self.table.entries() {
            if entry.is_some() {
                count += 1;
            }
        }
        count
    }

    // Its clusters, and those that its header and its spaces leave.
    fn capacity(&self) -> Capacity
        ensures { result ≡ capacity_of (volume_in self.now) }
    {
        Capacity {
            clusters: self.table.clusters(),
            free: self.table.free(),
        }
    }

    // The lines on its spaces, in the order of the table.
    fn lines(&self, alloc: Global) -> Result<SpaceLines, AllocError>
        ensures { IfOk result (λ lines. lines ≡ map space_line (spaces_on (volume_in self.now))) }
    {
        let mut lines = SpaceLines::new(alloc);
        for index in 0..16 {
            let Some(entry) = &self.table.entries()[index] else {
                continue;
            };
            let Some(file) = &self.files[index] else {
                continue;
            };
            lines.push(line_of(alloc, entry, file)?)?;
        }
        Ok(lines)
    }
}

impl Manager {
    // How many spaces stand.
    fn space_count(&self) -> u32
        ensures { result ≡ space_count (site_of self.now) }
    {
        match &self.disk {
            None => 0,
            Some(disk) => disk.space_count(),
        }
    }

    /// What a boot that brought this site is answered.
    pub fn readiness(&self) -> Answer
        ensures { result ≡ ready (site_of self.now) }
    {
        let identity = match &self.disk {
            None => None,
            Some(disk) => Some(Identity {
                site: disk.table.site(),
                epoch: disk.journal.epoch(),
            }),
        };
        Answer::Ready(Readiness {
            identity,
            spaces: self.space_count(),
            in_doubt: 0,
        })
    }

    // The first reason not to create the device.
    fn creation_refusal(&self, creation: &Creation) -> Option<DeviceAnswer>
        ensures refused { result ≡ creation_refusal creation.now (site_of self.now) }
        ensures device { IfNone result (creation.now.dev ≡ 0) }
        ensures blank { IfNone result (self.now.disk ≡ None) }
        ensures clusters { IfNone result ((5 ≤ creation.now.clusters) × (creation.now.clusters ≤ 8192)) }
        ensures site { IfNone result ((1 ≤ site_asked creation.now) × (site_asked creation.now ≤ 4294967295)) }
    {
        if creation.dev != 0 {
            return Some(DeviceAnswer::NoDevice);
        }
        if self.disk.is_some() {
            return Some(DeviceAnswer::Exists);
        }
        if creation.clusters < u64::from(LEAST_CLUSTERS)
            || creation.clusters > u64::from(MOST_CLUSTERS)
        {
            return Some(DeviceAnswer::Range(Field::Clusters));
        }
        let site = site_number(creation);
        if site < 1 || site > u32::MAX as u64 {
            return Some(DeviceAnswer::Range(Field::Site));
        }
        None
    }

    // The first reason not to make the device blank.
    fn erasure_refusal(&self, dev: u8) -> Option<DeviceAnswer>
        ensures refused { result ≡ erasure_refusal dev (site_of self.now) }
        ensures device { IfNone result (dev ≡ 0) }
        ensures bare { IfNone result (space_count (site_of self.now) ≡ 0) }
    {
        if dev != 0 {
            return Some(DeviceAnswer::NoDevice);
        }
        match &self.disk {
            None => Some(DeviceAnswer::NotCreated),
            Some(disk) => match disk.space_count() {
                0 => None,
                spaces => Some(DeviceAnswer::NotEmpty(spaces)),
            },
        }
    }

    // What is said of the device with this number.
    fn listing(&self, alloc: Global, dev: u8) -> Result<DeviceAnswer, AllocError>
        ensures { IfOk result (λ answer. answer ≡ list_device dev (site_of self.now)) }
    {
        if dev != 0 {
            return Ok(DeviceAnswer::NoDevice);
        }
        match &self.disk {
            None => Ok(DeviceAnswer::NotCreated),
            Some(disk) => Ok(DeviceAnswer::Listed(Listing {
                capacity: disk.capacity(),
                spaces: disk.lines(alloc)?,
            })),
        }
    }

    // Makes device 0, where nothing refuses it. All memory is taken before the device is written to.
    fn create_device<H: Host>(
        &mut self,
        alloc: Global,
        host: &mut H,
        creation: &Creation,
    ) -> Result<Answer, Failure>
        requires on { ImagesMatch self.old (H.view host.old) }
        ensures served { IfOk result (IsServed (create_device creation.now (site_of self.old)) self.old self.new (H.view host.new)) }
        ensures stop { ChangesOnce (create_device creation.now (site_of self.old)) self.old (H.view host.old) (H.view host.new) }
        ensures failed { CountsFailure result (H.view host.old).faults (H.view host.new).faults }
        ensures idle { durable (create_device creation.now (site_of self.old)).site ≡ durable (site_of self.old) → host.new ≡ host.old }
    {
        if let Some(refusal) = self.creation_refusal(creation) {
            return Ok(Answer::Device(refusal));
        }
        let site = site_number(creation) as u32;
        let clusters = creation.clusters as u32;
        let journal = SiteJournal::new(alloc, 0)?;
        let files = no_files(alloc)?;
        let table = DeviceTable::create(alloc, host, 0, site, clusters)?;
        let disk = Disk {
            table,
            journal,
            files,
        };
        let capacity = disk.capacity();
        *self = Manager {
            disk: Some(disk),
            next: 0,
        };
        Ok(Answer::Device(DeviceAnswer::Created(capacity)))
    }

    // Makes device 0 blank, where nothing refuses it.
    fn erase_device<H: Host>(&mut self, host: &mut H, dev: u8) -> Result<Answer, Failure>
        requires on { ImagesMatch self.old (H.view host.old) }
        ensures served { IfOk result (IsServed (erase_device dev (site_of self.old)) self.old self.new (H.view host.new)) }
        ensures stop { ChangesOnce (erase_device dev (site_of self.old)) self.old (H.view host.old) (H.view host.new) }
        ensures failed { CountsFailure result (H.view host.old).faults (H.view host.new).faults }
        ensures idle { durable (erase_device dev (site_of self.old)).site ≡ durable (site_of self.old) → host.new ≡ host.old }
    {
        if let Some(refusal) = self.erasure_refusal(dev) {
            return Ok(Answer::Device(refusal));
        }
        erase(host, 0)?;
        *self = Manager {
            disk: None,
            next: 0,
        };
        Ok(Answer::Done)
    }

    /// Creates device 0, makes it blank, or lists a device: the answer is the machine's, a refusal
    /// too. A listing and a refusal call no host. Where a device failed, the devices stand for the site
    /// before or after the change; the manager is to be let go.
    pub fn serve_device<H: Host>(
        &mut self,
        alloc: Global,
        host: &mut H,
        request: &DeviceRequest,
    ) -> Result<Answer, Failure>
        requires on { ImagesMatch self.old (H.view host.old) }
        ensures served { IfOk result (IsServed (device_step (site_of self.old) request.now) self.old self.new (H.view host.new)) }
        ensures stop { ChangesOnce (device_step (site_of self.old) request.now) self.old (H.view host.old) (H.view host.new) }
        ensures failed { CountsFailure result (H.view host.old).faults (H.view host.new).faults }
        ensures idle { durable (device_step (site_of self.old) request.now).site ≡ durable (site_of self.old) → host.new ≡ host.old }
    {
        match request {
            DeviceRequest::Create(creation) => self.create_device(alloc, host, creation),
            DeviceRequest::Erase(dev) => self.erase_device(host, *dev),
            DeviceRequest::List(dev) => Ok(Answer::Device(self.listing(alloc, *dev)?)),
        }
    }
}
