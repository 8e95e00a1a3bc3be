ghost use Rattle.std.specs.Prelude.{true, false, ◌≡◌, ◌<◌, ◌≤◌, IfOk, IfErr, Some, None};
ghost use Rattle.tq_host.specs.Calls.{HasCauseOf};
ghost use Rattle.tq_extent.specs.Bytes.{reaches, IsQuiet};
ghost use Rattle.tq_extent.specs.Pages.{page_count};
ghost use Rattle.tq_gate.specs.Reading.{content_on};
ghost use Rattle.tq_gate.specs.Log.{layout_of, IsLog};
ghost use Rattle.tq_gate.specs.Loaded.{content_of};
ghost use Rattle.tq_spacefile.specs.declared.fault.FileError.TheVariants as file_error;
ghost use Rattle.tq_spacefile.specs.Place.{IsPlace, page_of, log_layout};
ghost use Rattle.tq_spacefile.specs.Page.{shape_in};
ghost use Rattle.tq_spacefile.specs.Loading.{IsUnread, loaded_space};
ghost use Rattle.tq_spacefile.specs.File.{place_in, clusters_in, has_space, held_in, log_of, IsFile};

use crate::page::decode_page;
use crate::replaying::replay;
use crate::{FileError, SpaceFile, SpacePlace};
use std::alloc::Global;
use tq_extent::PageMap;
use tq_gate::{GateLog, Loaded};
use tq_host::Host;
use tq_model::Shape;
use tq_space::Space;

/// The creation of the space that lies there, as its first page says it.
fn read_shape<H: Host>(host: &mut H, place: &SpacePlace, map: &PageMap) -> Result<Shape, FileError>
    requires place { IsPlace place.now map.now }
    requires reach { H.tells.reads → reaches map.now ((H.view host.old).reads place.now.dev) ≡ true }
    ensures shape { IfOk result (λ shape. H.tells.reads
        → shape_in place.now.pages (page_of map.now ((H.view host.old).reads place.now.dev)) ≡ Some shape) }
    ensures damaged { result ≡ Err file_error.Damaged → H.tells.reads
        → shape_in place.now.pages (page_of map.now ((H.view host.old).reads place.now.dev)) ≡ None }
    ensures quiet { IsQuiet place.now.dev (H.view host.old) (H.view host.new) }
    ensures cause { HasCauseOf (result ≡ Err file_error.Device) (H.view host.old).faults (H.view host.new).faults }
{
    let mut page = [0; 1024];
    map.read_at(host, place.dev, 0, &mut page)?;
    match decode_page(&page, place.pages) {
        Some(shape) => Ok(shape),
        None => Err(FileError::Damaged),
    }
}

/// The log of the space that lies there.
fn load_log<H: Host>(
    alloc: Global,
    host: &mut H,
    place: &SpacePlace,
    map: PageMap,
) -> Result<Loaded, FileError>
    requires place { IsPlace place.now map }
    requires reach { H.tells.reads → reaches map ((H.view host.old).reads place.now.dev) ≡ true }
    ensures loaded { IfOk result (λ loaded. H.tells.reads → IsLog loaded.log (content_of loaded) ((H.view host.old).reads place.now.dev)) }
    ensures layout { IfOk result (λ loaded. layout_of loaded.log ≡ log_layout place.now map) }
    ensures damaged { result ≡ Err file_error.Damaged → H.tells.reads → content_on (log_layout place.now map) ((H.view host.old).reads place.now.dev) ≡ None }
    ensures quiet { IsQuiet place.now.dev (H.view host.old) (H.view host.new) }
    ensures cause { HasCauseOf (result ≡ Err file_error.Device) (H.view host.old).faults (H.view host.new).faults }
{
    let loaded = GateLog::load(alloc, host, place.log_layout(map))?;
    Ok(loaded)
}

/// The space of that creation that the payloads of its log make.
fn open_space(
    alloc: Global,
    place: &SpacePlace,
    epoch: u32,
    shape: &Shape,
    loaded: Loaded,
) -> Result<SpaceFile, FileError>
    requires place { IsPlace place.now (layout_of loaded.log).map }
    requires layout { layout_of loaded.log ≡ log_layout place.now (layout_of loaded.log).map }
    ensures place { IfOk result (λ f. place_in f ≡ place.now) }
    ensures held { IfOk result (λ f. loaded_space epoch shape.now place.now (content_of loaded) ≡ Some (held_in f)) }
    ensures log { IfOk result (λ f. log_of f ≡ loaded.log) }
    ensures refused { IfErr result (IsUnread (loaded_space epoch shape.now place.now (content_of loaded))) }
{
    let Loaded {
        log,
        base: _,
        payloads,
    } = loaded;
    let space = Space::new(alloc, shape, place.site, place.number);
    let space = replay(alloc, space, epoch, &payloads)?;
    Ok(SpaceFile {
        place: *place,
        space,
        log,
    })
}

impl SpaceFile {
    /// Loads the space that lies there on the clusters of this map; its messages are of this epoch at
    /// most. Nothing is written.
    ///
    /// # Errors
    /// `Damaged` where its pages have no reading.
    pub fn load<H: Host>(
        alloc: Global,
        host: &mut H,
        place: &SpacePlace,
        map: PageMap,
        epoch: u32,
    ) -> Result<SpaceFile, FileError>
        requires dev { place.now.dev < 8 }
        requires least { 1 ≤ place.now.pages }
        requires most { place.now.pages ≤ 262016 }
        requires enough { place.now.pages ≤ page_count map }
        requires reach { H.tells.reads → reaches map ((H.view host.old).reads place.now.dev) ≡ true }
        ensures place { IfOk result (λ f. place_in f ≡ place.now) }
        ensures clusters { IfOk result (λ f. clusters_in f ≡ map) }
        ensures loaded { IfOk result (λ f. H.tells.reads → IsFile f epoch ((H.view host.old).reads place.now.dev)) }
        ensures damaged { result ≡ Err file_error.Damaged → H.tells.reads → has_space place.now map epoch ((H.view host.old).reads place.now.dev) ≡ false }
        ensures quiet { IsQuiet place.now.dev (H.view host.old) (H.view host.new) }
        ensures cause { HasCauseOf (result ≡ Err file_error.Device) (H.view host.old).faults (H.view host.new).faults }
    {
        let shape = read_shape(host, place, &map)?;
        let loaded = load_log(alloc, host, place, map)?;
        let file = open_space(alloc, place, epoch, &shape, loaded)?;
        Ok(file)
    }
}
