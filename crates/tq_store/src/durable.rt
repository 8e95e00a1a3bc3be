//! What a change of a space writes on its device.

ghost use Rattle.std.specs.Prelude.{true, false, ◌≡◌, ◌≤◌, ◌+◌, List, ℕ, length, OnOk};
ghost use Rattle.tq_host.specs.Calls.{HasCause};
ghost use Rattle.tq_host.specs.Within.{KeepsRest, Within};
ghost use Rattle.tq_extent.specs.Bytes.{owned_bytes, reaches};
ghost use Rattle.tq_gate.specs.Frame.{IsFrame, payload_in};
ghost use Rattle.tq_gate.specs.Layout.{base_length, clusters_of as owner_of, has_two_areas, log_length};
ghost use Rattle.tq_gate.specs.Log.{FitsIn, layout_of};
ghost use Rattle.tq_model.specs.Moves.{IndexedSpace};
ghost use Rattle.tq_pages.specs.Store.{Store, size_of};
ghost use Rattle.tq_slots.specs.SlotImages.{RawSlots};
ghost use Rattle.tq_store.specs.Change.{HasNewChain, IsBaseOf, IsChange, IsOldOrChanged, IsPut, changed, with_log};
ghost use Rattle.tq_store.specs.File.{AreFile, FileState, IsFile, IsSound, clusters_of};
ghost use Rattle.tq_store.specs.Stored.{HasSpace, IsSameButSpace};

use tq_gate::GateLog;
use tq_host::{Device, Host};
use tq_pages::PageStore;

/// Makes the content of a log that is full this base alone, which says the slots of its space.
pub(crate) fn renew<H: Host>(
    host: &mut H,
    log: &mut GateLog,
    full: bool,
    base: &[u8],
) -> Result<(), Device>
    requires two { has_two_areas (layout_of log.old).areas ≡ true }
    requires base { full ≡ true → length base.now ≡ base_length (layout_of log.old) }
    requires reach { H.tells.reads → reaches (owner_of (layout_of log.old)) ((H.view host.old).reads (layout_of log.old).dev) ≡ true }
    ensures read { OnOk result (H.tells.reads → (f : FileState) → IsBaseOf f log.old full base.now
        → IsFile f ((H.view host.old).reads f.place.dev) → IsFile (with_log f log.new) ((H.view host.new).reads f.place.dev)) }
    ensures images { OnOk result ((f : FileState) → IsBaseOf f log.old full base.now → AreFile f (H.view host.old) → AreFile (with_log f log.new) (H.view host.new)) }
    // In each picture it is the same space.
    ensures stop { (f : FileState) → IsBaseOf f log.old full base.now → AreFile f (H.view host.old)
        → Within f.place.dev (IsSameButSpace (clusters_of f)) (HasSpace f.place (clusters_of f) f.space) (H.view host.old) (H.view host.new) }
    ensures outside { H.tells.reads
        → IsSameButSpace (owner_of (layout_of log.old)) ((H.view host.old).reads (layout_of log.old).dev) ((H.view host.new).reads (layout_of log.old).dev) }
    ensures layout { layout_of log.new ≡ layout_of log.old }
    ensures room { OnOk result ((n : ℕ) → (full ≡ true → n + 6 ≤ log_length (layout_of log.old)) → (full ≡ false → FitsIn log.old n) → FitsIn log.new n) }
    ensures rest { KeepsRest (layout_of log.old).dev (H.view host.old) (H.view host.new) }
    ensures cause { HasCause (H.view host.old).faults (H.view host.new).faults result }
{
    if full {
        log.replace(host, base)?;
    }
    Ok(())
}

/// Writes a message on the pages of its chain; nothing where there is no message.
fn put_message<H: Host>(
    host: &mut H,
    store: &mut PageStore,
    first: u32,
    message: &[u8],
) -> Result<(), Device>
    requires chain { 1 ≤ length message.now → size_of store.old first ≡ length message.now }
    requires reach { H.tells.reads → reaches store.old.clusters ((H.view host.old).reads store.old.dev) ≡ true }
    ensures put { OnOk result (H.tells.reads → IsPut store.new first message.now (owned_bytes store.old.clusters ((H.view host.new).reads store.old.dev))) }
    ensures store { store.new ≡ store.old }
    // A space that does not have the chain yet stays, also where the call fails, and in each picture.
    ensures read { H.tells.reads → (f : FileState) → IsSound f → HasNewChain f.store first message.now store.old
        → IsFile f ((H.view host.old).reads f.place.dev) → IsFile f ((H.view host.new).reads f.place.dev) }
    ensures stop { (f : FileState) → IsSound f → HasNewChain f.store first message.now store.old → AreFile f (H.view host.old)
        → Within f.place.dev (IsSameButSpace (clusters_of f)) (IsFile f) (H.view host.old) (H.view host.new) }
    ensures outside { H.tells.reads → IsSameButSpace store.old.clusters ((H.view host.old).reads store.old.dev) ((H.view host.new).reads store.old.dev) }
    ensures rest { KeepsRest store.old.dev (H.view host.old) (H.view host.new) }
    ensures cause { HasCause (H.view host.old).faults (H.view host.new).faults result }
{
    if !message.is_empty() {
        store.put(host, first, message)?;
    }
    Ok(())
}

/// Writes a change: a new base where the log is full, its message if it has one, and its record. The
/// chain of the message is durable with the record. After `Device` the log is to be loaded again.
pub(crate) fn write_change<H: Host>(
    host: &mut H,
    log: &mut GateLog,
    store: &mut PageStore,
    full: bool,
    base: &[u8],
    first: u32,
    message: &[u8],
    frame: &mut [u8],
) -> Result<(), Device>
    requires two { has_two_areas (layout_of log.old).areas ≡ true }
    requires base { full ≡ true → length base.now ≡ base_length (layout_of log.old) }
    requires chain { 1 ≤ length message.now → size_of store.old first ≡ length message.now }
    requires frame { IsFrame frame.old }
    requires empty { full ≡ true → length (payload_in frame.old) + 6 ≤ log_length (layout_of log.old) }
    requires fits { full ≡ false → FitsIn log.old (length (payload_in frame.old)) }
    requires dev { store.old.dev ≡ (layout_of log.old).dev }
    requires owner { store.old.clusters ≡ owner_of (layout_of log.old) }
    requires reach { H.tells.reads → reaches store.old.clusters ((H.view host.old).reads store.old.dev) ≡ true }
    ensures read { OnOk result (H.tells.reads → (f : FileState) (s : IndexedSpace) (raw : RawSlots) → IsBaseOf f log.old full base.now
        → IsChange f s raw store.old first message.now (payload_in frame.old)
        → IsFile f ((H.view host.old).reads f.place.dev) → IsFile (with_log (changed f s raw store.old) log.new) ((H.view host.new).reads f.place.dev)) }
    ensures images { OnOk result ((f : FileState) (s : IndexedSpace) (raw : RawSlots) → IsBaseOf f log.old full base.now
        → IsChange f s raw store.old first message.now (payload_in frame.old)
        → AreFile f (H.view host.old) → AreFile (with_log (changed f s raw store.old) log.new) (H.view host.new)) }
    // In each picture it is the old space, or the new one.
    ensures stop { (f : FileState) (s : IndexedSpace) (raw : RawSlots) → IsBaseOf f log.old full base.now
        → IsChange f s raw store.old first message.now (payload_in frame.old) → AreFile f (H.view host.old)
        → Within f.place.dev (IsSameButSpace (clusters_of f)) (IsOldOrChanged f s) (H.view host.old) (H.view host.new) }
    ensures outside { H.tells.reads → IsSameButSpace store.old.clusters ((H.view host.old).reads store.old.dev) ((H.view host.new).reads store.old.dev) }
    ensures store { store.new ≡ store.old }
    ensures layout { layout_of log.new ≡ layout_of log.old }
    ensures rest { KeepsRest store.old.dev (H.view host.old) (H.view host.new) }
    ensures cause { HasCause (H.view host.old).faults (H.view host.new).faults result }
{
    renew(host, log, full, base)?;
    put_message(host, store, first, message)?;
    log.append(host, frame)?;
    Ok(())
}
