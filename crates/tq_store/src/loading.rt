//! A space that is loaded from its pages.

ghost use Rattle.std.specs.Prelude.{true, ◌≡◌, ◌<◌, ◌≤◌, Err, IfOk, None};
ghost use Rattle.tq_host.specs.Calls.{HasCauseOf};
ghost use Rattle.tq_extent.specs.Bytes.{owned_bytes, reaches, IsQuiet};
ghost use Rattle.tq_extent.specs.Pages.{page_count};
ghost use Rattle.tq_slots.specs.SpaceReading.{space_read};
ghost use Rattle.tq_store.specs.declared.fault.FileError.TheVariants as file_error;
ghost use Rattle.tq_store.specs.File.{IsFile, clusters_of};
ghost use Rattle.tq_store.specs.Stored.{HasSpace};

use crate::filling::{Filled, fill};
use crate::reading::{Read, read_pages};
use crate::{FileError, SpaceFile, SpacePlace};
use std::alloc::Global;
use tq_extent::PageMap;
use tq_host::Host;

impl SpaceFile {
    /// The space that lies there on the clusters of this map. Nothing is written; each page of a chain is
    /// read twice at most, and no page that no slot names.
    ///
    /// # Errors
    /// `Damaged` exactly where its pages have no reading.
    pub fn load<H: Host>(
        alloc: Global,
        host: &mut H,
        place: &SpacePlace,
        map: PageMap,
    ) -> Result<SpaceFile, FileError>
        requires dev { place.now.dev < 8 }
        requires least { 1 ≤ place.now.pages }
        requires most { place.now.pages ≤ 262016 }
        requires enough { place.now.pages ≤ page_count map }
        requires reach { H.tells.reads → reaches map ((H.view host.old).reads place.now.dev) ≡ true }
        ensures place { IfOk result (λ file. file.place ≡ place.now) }
        ensures clusters { IfOk result (λ file. clusters_of file ≡ map) }
        ensures file { IfOk result (λ file. H.tells.reads → IsFile file ((H.view host.old).reads place.now.dev)) }
        // It is the space that is read there.
        ensures space { IfOk result (λ file. H.tells.reads → HasSpace place.now map file.space ((H.view host.old).reads place.now.dev)) }
        ensures damaged { result ≡ Err file_error.Damaged → H.tells.reads
            → space_read place.now.site place.now.number place.now.pages (owned_bytes map ((H.view host.old).reads place.now.dev)) ≡ None }
        ensures quiet { IsQuiet place.now.dev (H.view host.old) (H.view host.new) }
        ensures cause { HasCauseOf (result ≡ Err file_error.Device) (H.view host.old).faults (H.view host.new).faults }
    {
        let own = map.copy(alloc)?;
        let read = read_pages(alloc, host, place, own)?;
        let queues = read.slots.queues();
        let messages = read.slots.messages();
        let filled = fill(alloc, host, place, &read.shape, map, queues, messages)?;
        let Read { shape, log, slots } = read;
        let Filled { space, store } = filled;
        let table = slots.into_table(alloc)?;
        Ok(SpaceFile {
            place: *place,
            shape,
            space,
            table,
            store,
            log,
        })
    }
}
