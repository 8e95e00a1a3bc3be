//! The pages of a new space.

ghost use Rattle.std.specs.Prelude.{true, ◌≡◌, ◌<◌, ◌≤◌, ◌+◌, ◌*◌, [], length, IfOk, OnOk, Err};
ghost use Rattle.tq_host.specs.View.{IsSettled};
ghost use Rattle.tq_host.specs.Calls.{HasCauseOf};
ghost use Rattle.tq_host.specs.Within.{KeepsRest, Within};
ghost use Rattle.tq_extent.specs.Bytes.{reaches, IsAny, AllReach};
ghost use Rattle.tq_extent.specs.Pages.{page_count};
ghost use Rattle.tq_model.specs.Space.{overhead_pages, slot_pages};
ghost use Rattle.tq_store.specs.declared.fault.CommitError.TheVariants as fault;
ghost use Rattle.tq_store.specs.New.{AreFirst, IsFormatted};
ghost use Rattle.tq_store.specs.Page.{IsZeroPadded};
ghost use Rattle.tq_store.specs.Stored.{IsSameButSpace};

use crate::CommitError;
use crate::bytes::put_behind;
use crate::page::{PAGE, encode_page};
use crate::place::slot_pages;
use std::alloc::{AllocError, Global};
use tq_extent::PageMap;
use tq_host::Host;
use tq_model::Shape;

/// The mark of a base.
const BASE_MARK: [u8; 4] = *b"TQSB";

/// Writes a first page over zeros, and the mark of a base behind it.
fn put_first(bytes: &mut [u8], shape: &Shape)
    requires { length bytes.old ≡ 1024 * (1 + slot_pages shape.now) + 1 }
    ensures { IsZeroPadded [] bytes.old → AreFirst shape.now bytes.new }
{
    put_behind(bytes, 0, &encode_page(shape));
    put_behind(bytes, PAGE, &BASE_MARK);
}

/// The first bytes of a new space: its first page, a base of slots that are all empty, and a closed
/// gate behind it.
fn first_bytes(alloc: Global, shape: &Shape) -> Result<Vec<u8>, AllocError>
    ensures { IfOk result (λ bytes. AreFirst shape.now bytes.items) }
{
    let size = PAGE * (1 + slot_pages(shape) as usize) + 1;
    let mut bytes = vec![in alloc; 0u8; size]?;
    put_first(&mut bytes, shape);
    Ok(bytes)
}

/// Makes the pages of a new space of this creation, within its limits, on the clusters of this map, to
/// whose end the device reaches; it ends with a sync. A space that no table names is not read, and
/// nothing outside the clusters is changed, so a stop inside leaves the device as it was.
///
/// # Errors
/// `NoMemory` before anything is written.
pub fn format<H: Host>(
    alloc: Global,
    host: &mut H,
    dev: u8,
    map: &PageMap,
    shape: &Shape,
) -> Result<(), CommitError>
    requires dev { dev < 8 }
    requires queues { (1 ≤ shape.now.queues) × (shape.now.queues ≤ 256) }
    requires messages { (1 ≤ shape.now.messages) × (shape.now.messages ≤ 8192) }
    requires transactions { (1 ≤ shape.now.transactions) × (shape.now.transactions ≤ 64) }
    requires memory { shape.now.memory ≤ 16777216 }
    requires pages { (overhead_pages shape.now < shape.now.pages) × (shape.now.pages ≤ 262016) }
    requires enough { shape.now.pages ≤ page_count map.now }
    requires reach { H.tells.reads → reaches map.now ((H.view host.old).reads dev) ≡ true }
    ensures done { OnOk result (H.tells.reads → IsFormatted shape.now map.now ((H.view host.new).reads dev)) }
    ensures kept { OnOk result (H.tells.reads → IsSameButSpace map.now ((H.view host.old).reads dev) ((H.view host.new).reads dev)) }
    ensures settled { OnOk result (IsSettled dev (H.view host.new)) }
    ensures stop { AllReach dev map.now (H.view host.old) → Within dev (IsSameButSpace map.now) IsAny (H.view host.old) (H.view host.new) }
    ensures rest { KeepsRest dev (H.view host.old) (H.view host.new) }
    ensures cause { HasCauseOf (result ≡ Err fault.Device) (H.view host.old).faults (H.view host.new).faults }
    ensures memory { result ≡ Err fault.NoMemory → host.new ≡ host.old }
{
    let bytes = first_bytes(alloc, shape)?;
    map.write_at(host, dev, 0, &bytes)?;
    host.sync(dev)?;
    Ok(())
}
