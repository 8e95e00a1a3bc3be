//! What is read of a space before its messages: its creation, its log and its slots.

ghost use Rattle.std.specs.Prelude.{true, ◌≡◌, ◌*◌, length, IfOk, MatchResult, Some, None, Err};
ghost use Rattle.tq_host.specs.Calls.{HasCauseOf};
ghost use Rattle.tq_extent.specs.Bytes.{owned_bytes, reaches, IsQuiet};
ghost use Rattle.tq_gate.specs.Reading.{content_on};
ghost use Rattle.tq_gate.specs.Log.{layout_of, IsLog};
ghost use Rattle.tq_gate.specs.Loaded.{content_of};
ghost use Rattle.tq_model.specs.Reading.{hold_all};
ghost use Rattle.tq_model.specs.Space.{slot_pages};
ghost use Rattle.tq_slots.specs.SpaceReading.{creation_in, slot_tests, space_read};
ghost use Rattle.tq_store.specs.declared.fault.FileError.TheVariants as file_error;
ghost use Rattle.tq_store.specs.Place.{IsPlace, IsCreation, log_layout};
ghost use Rattle.tq_store.specs.Reading.{HasRead, IsOpened, sound_slots_of};
ghost use Rattle.tq_store.specs.SlotReading.{IsMissing};
ghost use Rattle.tq_store.specs.Sound.{HasSlotsOf};

use crate::page::{PAGE, decode_page};
use crate::slots::{Slots, are_slots, read_slots};
use crate::{FileError, SpacePlace};
use std::alloc::Global;
use tq_extent::PageMap;
use tq_gate::{GateLog, Loaded};
use tq_host::Host;
use tq_model::Shape;

/// A space's creation, its log, and its slots, each of which is what it has to be.
#[derive(Drop)]
pub(crate) struct Read {
    pub(crate) shape: Shape,
    pub(crate) log: GateLog,
    pub(crate) slots: Slots,
}

/// The creation of the space that lies there, as its first page says it.
fn read_shape<H: Host>(host: &mut H, place: &SpacePlace, map: &PageMap) -> Result<Shape, FileError>
    requires place { IsPlace place.now map.now }
    requires reach { H.tells.reads → reaches map.now ((H.view host.old).reads place.now.dev) ≡ true }
    ensures shape { IfOk result (λ shape. H.tells.reads
        → creation_in place.now.pages (owned_bytes map.now ((H.view host.old).reads place.now.dev)) ≡ Some shape) }
    ensures creation { IfOk result (IsCreation place.now) }
    ensures damaged { result ≡ Err file_error.Damaged → H.tells.reads
        → creation_in place.now.pages (owned_bytes map.now ((H.view host.old).reads place.now.dev)) ≡ None }
    ensures quiet { IsQuiet place.now.dev (H.view host.old) (H.view host.new) }
    ensures cause { HasCauseOf (result ≡ Err file_error.Device) (H.view host.old).faults (H.view host.new).faults }
{
    let mut page = [0; PAGE];
    map.read_at(host, place.dev, 0, &mut page)?;
    match decode_page(&page, place.pages) {
        Some(shape) => Ok(shape),
        None => Err(FileError::Damaged),
    }
}

/// The log of the space of that creation that lies there.
fn load_log<H: Host>(
    alloc: Global,
    host: &mut H,
    place: &SpacePlace,
    map: PageMap,
    shape: &Shape,
) -> Result<Loaded, FileError>
    requires place { IsPlace place.now map }
    requires creation { IsCreation place.now shape.now }
    requires reach { H.tells.reads → reaches map ((H.view host.old).reads place.now.dev) ≡ true }
    ensures loaded { IfOk result (λ loaded. H.tells.reads → IsLog loaded.log (content_of loaded) ((H.view host.old).reads place.now.dev)) }
    ensures layout { IfOk result (λ loaded. layout_of loaded.log ≡ log_layout place.now shape.now map) }
    ensures base { IfOk result (λ loaded. length loaded.base.items ≡ 1024 * slot_pages shape.now) }
    ensures damaged { result ≡ Err file_error.Damaged → H.tells.reads
        → content_on (log_layout place.now shape.now map) ((H.view host.old).reads place.now.dev) ≡ None }
    ensures quiet { IsQuiet place.now.dev (H.view host.old) (H.view host.new) }
    ensures cause { HasCauseOf (result ≡ Err file_error.Device) (H.view host.old).faults (H.view host.new).faults }
{
    let loaded = GateLog::load(alloc, host, place.log_layout(map, shape))?;
    Ok(loaded)
}

/// The slots that the content of a log says, each of which has to be what it has to be.
fn open_slots(alloc: Global, shape: Shape, loaded: Loaded) -> Result<Read, FileError>
    requires { length loaded.base.items ≡ 1024 * slot_pages shape }
    ensures opened { IfOk result (IsOpened shape loaded) }
    ensures slots { MatchResult result (λ read. sound_slots_of shape (content_of loaded) ≡ Some read.slots) (IsMissing (sound_slots_of shape (content_of loaded))) }
{
    let Loaded {
        log,
        base,
        payloads,
    } = loaded;
    let slots = read_slots(alloc, &shape, &base, &payloads)?;
    if !are_slots(&slots) {
        return Err(FileError::Damaged);
    }
    Ok(Read { shape, log, slots })
}

/// Reads the creation, the log and the slots of the space that lies there. Nothing is written.
///
/// # Errors
/// `Damaged` where the space has no reading.
pub(crate) fn read_pages<H: Host>(
    alloc: Global,
    host: &mut H,
    place: &SpacePlace,
    map: PageMap,
) -> Result<Read, FileError>
    requires place { IsPlace place.now map }
    requires reach { H.tells.reads → reaches map ((H.view host.old).reads place.now.dev) ≡ true }
    ensures creation { IfOk result (λ read. IsCreation place.now read.shape) }
    ensures layout { IfOk result (λ read. layout_of read.log ≡ log_layout place.now read.shape map) }
    ensures size { IfOk result (λ read. HasSlotsOf read.shape read.slots) }
    ensures tests { IfOk result (λ read. hold_all (slot_tests read.slots) ≡ true) }
    ensures read { IfOk result (λ read. H.tells.reads → HasRead place.now map read ((H.view host.old).reads place.now.dev)) }
    ensures damaged { result ≡ Err file_error.Damaged → H.tells.reads
        → space_read place.now.site place.now.number place.now.pages (owned_bytes map ((H.view host.old).reads place.now.dev)) ≡ None }
    ensures quiet { IsQuiet place.now.dev (H.view host.old) (H.view host.new) }
    ensures cause { HasCauseOf (result ≡ Err file_error.Device) (H.view host.old).faults (H.view host.new).faults }
{
    let shape = read_shape(host, place, &map)?;
    let loaded = load_log(alloc, host, place, map, &shape)?;
    let read = open_slots(alloc, shape, loaded)?;
    Ok(read)
}
