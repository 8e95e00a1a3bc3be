ghost use Rattle.std.specs.Prelude.{true, ◌≡◌, ◌+◌, ◌≤◌, List, ℕ, length, OnOk};
ghost use Rattle.tq_host.specs.View.{IsSettled};
ghost use Rattle.tq_host.specs.Calls.{HasCause};
ghost use Rattle.tq_host.specs.Within.{Within, KeepsRest};
ghost use Rattle.tq_extent.specs.Bytes.{reaches};
ghost use Rattle.tq_gate.specs.Frame.{IsFrame, payload_in};
ghost use Rattle.tq_gate.specs.Layout.{clusters_of, base_length, other_area, has_two_areas};
ghost use Rattle.tq_gate.specs.Reading.{Content};
ghost use Rattle.tq_gate.specs.Log.{IsLog, HaveLog, added, replaced, FitsIn, IsSameButLog, IsSameButAreas, IsOpen, IsStaged, AreStagedOver, IsFilled, AreFilledOver, IsKeptLog, IsOpening, IsChoosing};
ghost use Rattle.tq_gate.specs.Layout as layouts;

use crate::GateLog;
use crate::frame::{CLOSED_GATE, close_frame};
use crate::layout::Areas;
use tq_host::{Failed, Host};

/// The byte of an open gate.
pub(crate) const OPEN_GATE: u8 = 0x4F;

// The first piece of adding a payload: behind the log's closed gate its length, the payload and a
// closed gate, and a sync.
pub(crate) fn stage<H: Host>(host: &mut H, log: &GateLog, frame: &mut [u8]) -> Result<(), Failed>
    requires frame { IsFrame frame.old }
    requires fits { FitsIn log.now (length (payload_in frame.old)) }
    requires reach { H.tells.reads → reaches (clusters_of log.now.layout) ((H.view host.old).reads log.now.layout.dev) ≡ true }

    // In each picture the content is an old one.
    ensures stop { HaveLog log.now (H.view host.old)
        → Within log.now.layout.dev (IsSameButLog log.now) (IsKeptLog log.now (IsSameButLog log.now) (H.view host.old)) (H.view host.old) (H.view host.new) }
    ensures staged { OnOk result (H.tells.reads → (k : Content) → IsLog log.now k ((H.view host.old).reads log.now.layout.dev)
        → IsStaged log.now k (payload_in frame.old) ((H.view host.new).reads log.now.layout.dev)) }
    ensures outside { H.tells.reads
        → IsSameButLog log.now ((H.view host.old).reads log.now.layout.dev) ((H.view host.new).reads log.now.layout.dev) }
    ensures settled { OnOk result (IsSettled log.now.layout.dev (H.view host.new)) }
    ensures rest { KeepsRest log.now.layout.dev (H.view host.old) (H.view host.new) }
    ensures cause { HasCause (H.view host.old).faults (H.view host.new).faults result }
{
    let dev = log.layout.dev;
    let map = &log.layout.map;
    close_frame(frame);
    map.write_at(host, dev, log.place(log.end + 1), &frame[1..])?;
    host.sync(dev)?;
    Ok(())
}

// The second piece: the gate before the payload is opened, and a sync.
pub(crate) fn open_gate<H: Host>(host: &mut H, log: &GateLog) -> Result<(), Failed>
    requires fits { FitsIn log.now 0 }
    requires reach { H.tells.reads → reaches (clusters_of log.now.layout) ((H.view host.old).reads log.now.layout.dev) ≡ true }

    // In each picture the content is the old one or the new one.
    ensures stop { (k : Content) → (payload read : List ℕ) → AreStagedOver log.now k payload read (H.view host.old)
        → Within log.now.layout.dev (IsSameButLog log.now) (IsOpening log.now k payload read) (H.view host.old) (H.view host.new) }
    ensures opened { OnOk result (H.tells.reads → (k : Content) → (payload : List ℕ) → IsStaged log.now k payload ((H.view host.old).reads log.now.layout.dev)
        → IsOpen log.now.layout log.now.area (log.now.end + (5 + length payload)) (added k payload) (layouts.bytes_in log.now.layout ((H.view host.new).reads log.now.layout.dev))) }
    ensures outside { H.tells.reads
        → IsSameButLog log.now ((H.view host.old).reads log.now.layout.dev) ((H.view host.new).reads log.now.layout.dev) }
    ensures settled { OnOk result (IsSettled log.now.layout.dev (H.view host.new)) }
    ensures rest { KeepsRest log.now.layout.dev (H.view host.old) (H.view host.new) }
    ensures cause { HasCause (H.view host.old).faults (H.view host.new).faults result }
{
    let dev = log.layout.dev;
    let map = &log.layout.map;
    map.write_at(host, dev, log.place(log.end), &[OPEN_GATE])?;
    host.sync(dev)?;
    Ok(())
}

// The first piece of a new base: the base and a closed gate in the area that is not chosen, and a
// sync.
pub(crate) fn fill_other<H: Host>(host: &mut H, log: &GateLog, base: &[u8]) -> Result<(), Failed>
    requires two { has_two_areas log.now.layout.areas ≡ true }
    requires base { length base.now ≡ base_length log.now.layout }
    requires reach { H.tells.reads → reaches (clusters_of log.now.layout) ((H.view host.old).reads log.now.layout.dev) ≡ true }

    // In each picture the content is an old one.
    ensures stop { HaveLog log.now (H.view host.old)
        → Within log.now.layout.dev (IsSameButAreas log.now) (IsKeptLog log.now (IsSameButAreas log.now) (H.view host.old)) (H.view host.old) (H.view host.new) }
    ensures filled { OnOk result (H.tells.reads → (k : Content) → IsLog log.now k ((H.view host.old).reads log.now.layout.dev)
        → IsFilled log.now k base.now ((H.view host.new).reads log.now.layout.dev)) }
    ensures outside { H.tells.reads
        → IsSameButAreas log.now ((H.view host.old).reads log.now.layout.dev) ((H.view host.new).reads log.now.layout.dev) }
    ensures settled { OnOk result (IsSettled log.now.layout.dev (H.view host.new)) }
    ensures rest { KeepsRest log.now.layout.dev (H.view host.old) (H.view host.new) }
    ensures cause { HasCause (H.view host.old).faults (H.view host.new).faults result }
{
    let dev = log.layout.dev;
    let map = &log.layout.map;
    let area = log.layout.other_area(log.area);
    map.write_at(host, dev, area, base)?;
    let gate = area + log.layout.base_length();
    // An area without log pages has no gate.
    let gates = log.layout.log_pages.min(1) as usize;
    map.write_at(host, dev, gate, &[CLOSED_GATE][..gates])?;
    host.sync(dev)?;
    Ok(())
}

// The second piece: the selector chooses that area, and a sync.
pub(crate) fn choose_other<H: Host>(host: &mut H, log: &GateLog) -> Result<(), Failed>
    requires two { has_two_areas log.now.layout.areas ≡ true }
    requires reach { H.tells.reads → reaches (clusters_of log.now.layout) ((H.view host.old).reads log.now.layout.dev) ≡ true }

    // In each picture the content is the old one or the base alone.
    ensures stop { (k : Content) → (base read : List ℕ) → AreFilledOver log.now k base read (H.view host.old)
        → Within log.now.layout.dev (IsSameButAreas log.now) (IsChoosing log.now k base read) (H.view host.old) (H.view host.new) }
    ensures chosen { OnOk result (H.tells.reads → (k : Content) → (base : List ℕ) → IsFilled log.now k base ((H.view host.old).reads log.now.layout.dev)
        → IsOpen log.now.layout (other_area log.now.layout log.now.area) 0 (replaced base) (layouts.bytes_in log.now.layout ((H.view host.new).reads log.now.layout.dev))) }
    ensures outside { H.tells.reads
        → IsSameButAreas log.now ((H.view host.old).reads log.now.layout.dev) ((H.view host.new).reads log.now.layout.dev) }
    ensures settled { OnOk result (IsSettled log.now.layout.dev (H.view host.new)) }
    ensures rest { KeepsRest log.now.layout.dev (H.view host.old) (H.view host.new) }
    ensures cause { HasCause (H.view host.old).faults (H.view host.new).faults result }
{
    let dev = log.layout.dev;
    let map = &log.layout.map;
    let Areas::Two { selector } = log.layout.areas else {
        unreachable!()
    };
    let chosen = u8::from(log.area == log.layout.first_area());
    map.write_at(host, dev, selector, &[chosen])?;
    host.sync(dev)?;
    Ok(())
}
