// Spaces: the reasons not to make or remove one, and how one is made and removed.

ghost use Rattle.std.specs.Prelude.{◌≡◌, ◌≢◌, ◌<◌, ◌≤◌, ◌+◌, List, ℕ, IfOk, IfErr, IfSome, IfNone, OnOk, Some, None, get_or, length, is_some, true};
ghost use Rattle.tq_host.specs.View.{IsSettled};
ghost use Rattle.tq_host.specs.Calls.{HasCause};
ghost use Rattle.tq_host.specs.Within.{KeepsRest, Within};
ghost use Rattle.tq_extent.specs.Clusters.{clusters_of};
ghost use Rattle.tq_extent.specs.Pages.{page_count};
ghost use Rattle.std.specs.List.{find};
ghost use Rattle.tq_model.specs.Site.{durable, has_name, spaces_on};
ghost use Rattle.tq_model.specs.Space.{overhead_pages};
ghost use Rattle.tq_model.specs.Step.{create_space, remove_space, removal_refusal, space_refusal, field_refused, pages_asked, shape_asked};
ghost use Rattle.tq_devtab.specs.InMemory as tables;
ghost use Rattle.tq_devtab.specs.Reserved.{space_of};
ghost use Rattle.tq_devtab.specs.Volume.{IsReserved, with_new};
ghost use Rattle.tq_coord.specs.Images.{ImagesMatch};
ghost use Rattle.tq_coord.specs.Manager.{site_of, next_of, volume_in, placed_of};
ghost use Rattle.tq_coord.specs.Serving.{IsServed, ChangesOnce};
ghost use Rattle.tq_coord.specs.Counts.{CountsFailure};
ghost use Rattle.tq_coord.specs.Spaces.{IsShape, IsAllowed, HasPlace, HasNewPages, IsLaidOut, IsWithoutOrWith, HasEntryAt, entry_dropped};

use crate::site::Disk;
use crate::{Failure, Manager};
use std::alloc::Global;
use tq_devtab::{DeviceTable, ReserveError, Reserved, grow};
use tq_extent::PageMap;
use tq_host::Host;
use tq_model::{
    Answer, DeviceAnswer, Field, MOST_MEMORY, MOST_MESSAGES, MOST_PAGES, MOST_QUEUES,
    MOST_TRANSACTIONS, NewSpace, Shape, SpaceAnswer, SpaceCreation, SpacePages, SpaceRemoval,
    overhead_pages,
};
use tq_spacefile::{SpaceFile, SpacePlace, format};
use tq_types::Name;

// The first field that is out of its limit.
fn field_refused(creation: &SpaceCreation) -> Option<Field>
    ensures { result ≡ field_refused creation.now }
{
    if creation.pages < 1 || creation.pages > u64::from(MOST_PAGES) {
        return Some(Field::Pages);
    }
    if creation.queues < 1 || creation.queues > u64::from(MOST_QUEUES) {
        return Some(Field::Queues);
    }
    if creation.transactions < 1 || creation.transactions > u64::from(MOST_TRANSACTIONS) {
        return Some(Field::Transactions);
    }
    if creation.messages < 1 || creation.messages > u64::from(MOST_MESSAGES) {
        return Some(Field::Messages);
    }
    if creation.memory > MOST_MEMORY {
        return Some(Field::Memory);
    }
    None
}

// The shape of a space whose fields are in their limits.
fn shape_of(creation: &SpaceCreation) -> Shape
    requires { field_refused creation.now ≡ None }
    ensures { result ≡ shape_asked creation.now }
{
    Shape {
        pages: creation.pages as u32,
        queues: creation.queues as u16,
        messages: creation.messages as u16,
        transactions: creation.transactions as u16,
        memory: creation.memory,
        error: creation.error,
    }
}

// The pages that are asked for, and those of them that are not for messages.
fn pages_of(creation: &SpaceCreation) -> SpacePages
    requires { field_refused creation.now ≡ None }
    ensures { result ≡ pages_asked creation.now }
{
    SpacePages {
        overhead: overhead_pages(&shape_of(creation)),
        pages: creation.pages,
    }
}

// Makes the pages of the space, and enters it into the table of its device.
fn lay_out<H: Host>(
    host: &mut H,
    table: &mut DeviceTable,
    reserved: Reserved,
    shape: &Shape,
    map: &PageMap,
) -> Result<(), Failure>
    requires dev { tables.dev_of table.old ≡ 0 }
    requires number { tables.place_of table.old ≡ 0 }
    requires shape { IsShape shape.now }
    requires reserved { IsReserved (tables.part_of table.old) (space_of reserved) }
    requires pages { (space_of reserved).pages ≡ shape.now.pages }
    requires map { map.now ≡ clusters_of (space_of reserved).extents }
    requires enough { shape.now.pages ≤ page_count map.now }
    requires holds { H.tells.reads → tables.IsTableOf table.old ((H.view host.old).reads 0) }
    ensures part { OnOk result (tables.part_of table.new ≡ with_new (space_of reserved) (tables.part_of table.old)) }
    ensures dev { tables.dev_of table.new ≡ 0 }
    ensures number { tables.place_of table.new ≡ 0 }
    ensures table { OnOk result (H.tells.reads → tables.IsTableOf table.new ((H.view host.new).reads 0)) }
    ensures pages { OnOk result (H.tells.reads → HasNewPages (space_of reserved) shape.now ((H.view host.new).reads 0)) }
    // the step of the whole call: what lies outside the table and the new clusters is as it was, and the device is no shorter
    ensures stop { tables.AreTableOf table.old (H.view host.old)
        → Within 0 (IsLaidOut (space_of reserved)) (IsWithoutOrWith (tables.part_of table.old) (space_of reserved) shape.now)
        (H.view host.old) (H.view host.new) }
    ensures settled { OnOk result (IsSettled 0 (H.view host.new)) }
    ensures rest { KeepsRest 0 (H.view host.old) (H.view host.new) }
    ensures failed { CountsFailure result (H.view host.old).faults (H.view host.new).faults }
{
    grow(host, 0, reserved.end())?;
    format(host, 0, map, shape)?;
    table.enter(host, reserved)?;
    Ok(())
}

// The lowest entry without a space.
fn lowest_unused(files: &[Option<SpaceFile>]) -> Option<usize>
    ensures some { IfSome result (λ at. (at < length files.now) × (get_or files.now at None ≡ None)
        × ((i : ℕ) → i < at → is_some (get_or files.now i None) ≡ true)) }
    ensures none { IfNone result ((i : ℕ) → i < length files.now → is_some (get_or files.now i None) ≡ true) }
{
    files.iter().position(|file| file.is_none())
}

impl Disk {
    // The entry of the space of that name.
    pub(crate) fn entry_named(&self, name: &Name) -> Option<usize>
        ensures some { IfSome result (λ at. (at < 16) × (find (has_name name.now) (spaces_on (volume_in self.now)) ≡ get_or (volume_in self.now).entries at None)
            × (is_some (get_or (volume_in self.now).entries at None) ≡ true)) }
        ensures none { IfNone result (find (has_name name.now) (spaces_on (volume_in self.now)) ≡ None) }
    {
        for index in 0..16 {
            let Some(space) = &self.table.entries()[index] else {
                continue;
            };
            if space.name == *name {
                return Some(index);
            }
        }
        None
    }
}

impl Manager {
    // The first reason of the words, or of the site, not to make the space; those of its table come after it.
    fn creation_fault(&self, creation: &SpaceCreation) -> Option<Answer>
        ensures refused { IfSome result (λ answer. space_refusal creation.now (site_of self.now) ≡ Some answer) }
        ensures allowed { IfNone result (IsAllowed creation.now self.now) }
    {
        if creation.dev != 0 {
            return Some(Answer::Device(DeviceAnswer::NoDevice));
        }
        let Some(disk) = &self.disk else {
            return Some(Answer::Device(DeviceAnswer::NotCreated));
        };
        if disk.entry_named(&creation.name).is_some() {
            return Some(Answer::Space(SpaceAnswer::Taken));
        }
        if let Some(field) = field_refused(creation) {
            return Some(Answer::Device(DeviceAnswer::Range(field)));
        }
        let pages = pages_of(creation);
        if pages.pages <= pages.overhead {
            return Some(Answer::Space(SpaceAnswer::Small(pages)));
        }
        None
    }

    // Makes the pages of a space that has its place, and enters it. Takes no memory.
    fn enter_space<H: Host>(
        &mut self,
        alloc: Global,
        host: &mut H,
        creation: &SpaceCreation,
        reserved: Reserved,
        map: PageMap,
    ) -> Result<(), Failure>
        requires on { ImagesMatch self.old (H.view host.old) }
        requires place { HasPlace creation.now self.old (space_of reserved) }
        requires map { map ≡ clusters_of (space_of reserved).extents }
        requires enough { creation.now.pages ≤ page_count map }
        ensures site { OnOk result (site_of self.new ≡ (create_space creation.now (site_of self.old)).site) }
        ensures next { OnOk result (next_of self.new ≡ next_of self.old) }
        ensures images { OnOk result (ImagesMatch self.new (H.view host.new)) }
        ensures stop { ChangesOnce (create_space creation.now (site_of self.old)) self.old (H.view host.old) (H.view host.new) }
        ensures failed { CountsFailure result (H.view host.old).faults (H.view host.new).faults }
    {
        let Some(disk) = self.disk.take() else {
            unreachable!()
        };
        let Disk {
            table,
            journal,
            files,
        } = disk;
        let (mut table, mut files) = (table, files);
        let Some(index) = lowest_unused(&files) else {
            unreachable!()
        };
        let shape = shape_of(creation);
        let place = SpacePlace {
            dev: 0,
            pages: shape.pages,
            site: table.site(),
            number: 8 * reserved.ordinal(),
        };
        lay_out(host, &mut table, reserved, &shape, &map)?;
        files[index] = Some(SpaceFile::new(alloc, &place, map, &shape));
        let disk = Disk {
            table,
            journal,
            files,
        };
        self.disk = Some(disk);
        Ok(())
    }

    /// Makes a space on device 0, in its lowest free clusters, or says the first reason not to; a
    /// refusal calls no host. The device grows first, then the space's pages are made, and then the
    /// table names it. All memory is taken before the device is written to. Where a device failed, the
    /// devices stand for the site without the space or with it; the manager is to be let go.
    pub fn create_space<H: Host>(
        &mut self,
        alloc: Global,
        host: &mut H,
        creation: &SpaceCreation,
    ) -> Result<Answer, Failure>
        requires on { ImagesMatch self.old (H.view host.old) }
        ensures served { IfOk result (IsServed (create_space creation.now (site_of self.old)) self.old self.new (H.view host.new)) }
        ensures stop { ChangesOnce (create_space creation.now (site_of self.old)) self.old (H.view host.old) (H.view host.new) }
        ensures failed { CountsFailure result (H.view host.old).faults (H.view host.new).faults }
        ensures idle { durable (create_space creation.now (site_of self.old)).site ≡ durable (site_of self.old) → host.new ≡ host.old }
    {
        if let Some(refusal) = self.creation_fault(creation) {
            return Ok(refusal);
        }
        let pages = pages_of(creation);
        let Some(disk) = &self.disk else {
            unreachable!()
        };
        let table = &disk.table;
        let reserved = match table.reserve(alloc, creation.name, creation.pages as u32) {
            Ok(reserved) => reserved,
            Err(ReserveError::Taken) => return Ok(Answer::Space(SpaceAnswer::Taken)),
            Err(ReserveError::TableFull) => return Ok(Answer::Space(SpaceAnswer::TableFull)),
            Err(ReserveError::Lack(room)) => return Ok(Answer::Space(SpaceAnswer::Lack(room))),
            Err(ReserveError::NoMemory) => return Err(Failure::Memory),
        };
        let map = reserved.map().copy(alloc)?;
        let number = 8 * reserved.ordinal();
        self.enter_space(alloc, host, creation, reserved, map)?;
        Ok(Answer::Space(SpaceAnswer::Created(NewSpace { number, pages })))
    }

    // Drops the space of an entry, which has that ordinal.
    fn drop_entry<H: Host>(
        &mut self,
        host: &mut H,
        index: usize,
        ordinal: u32,
    ) -> Result<(), Failure>
        requires on { ImagesMatch self.old (H.view host.old) }
        requires there { HasEntryAt self.old index ordinal }
        ensures dropped { OnOk result (IsServed (entry_dropped index (site_of self.old)) self.old self.new (H.view host.new) Answer.Done) }
        ensures stop { ChangesOnce (entry_dropped index (site_of self.old)) self.old (H.view host.old) (H.view host.new) }
        ensures failed { CountsFailure result (H.view host.old).faults (H.view host.new).faults }
    {
        let Some(disk) = self.disk.take() else {
            unreachable!()
        };
        let Disk {
            table,
            journal,
            files,
        } = disk;
        let (mut table, mut files) = (table, files);
        table.drop_space(host, ordinal)?;
        files[index] = None;
        self.disk = Some(Disk {
            table,
            journal,
            files,
        });
        Ok(())
    }

    /// Removes a space and its messages, or says the first reason not to; a refusal calls no host. Its
    /// clusters are free afterwards, and no byte of it is read again. Takes no memory. Where a device
    /// failed, the devices stand for the site with the space or without it; the manager is to be let go.
    pub fn remove_space<H: Host>(
        &mut self,
        host: &mut H,
        removal: &SpaceRemoval,
    ) -> Result<Answer, Failure>
        requires on { ImagesMatch self.old (H.view host.old) }
        ensures served { IfOk result (IsServed (remove_space removal.now (site_of self.old)) self.old self.new (H.view host.new)) }
        ensures stop { ChangesOnce (remove_space removal.now (site_of self.old)) self.old (H.view host.old) (H.view host.new) }
        ensures failed { CountsFailure result (H.view host.old).faults (H.view host.new).faults }
        ensures idle { durable (remove_space removal.now (site_of self.old)).site ≡ durable (site_of self.old) → host.new ≡ host.old }
    {
        let Some(disk) = &self.disk else {
            return Ok(Answer::NoEntry);
        };
        let Some(index) = disk.entry_named(&removal.space) else {
            return Ok(Answer::NoEntry);
        };
        let Some(file) = &disk.files[index] else {
            unreachable!()
        };
        let messages = file.space().message_count();
        if !removal.force && messages > 0 {
            return Ok(Answer::Space(SpaceAnswer::NotEmpty(messages)));
        }
        let Some(entry) = &disk.table.entries()[index] else {
            unreachable!()
        };
        let ordinal = entry.ordinal;
        self.drop_entry(host, index, ordinal)?;
        Ok(Answer::Done)
    }
}
