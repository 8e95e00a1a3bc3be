ghost use Rattle.std.specs.Prelude.{true, ◌≡◌, ◌<◌, ◌≤◌, OnOk};
ghost use Rattle.tq_host.specs.View.{IsSettled};
ghost use Rattle.tq_host.specs.Calls.{HasCause};
ghost use Rattle.tq_host.specs.Within.{KeepsRest, Within};
ghost use Rattle.tq_extent.specs.Bytes.{reaches, IsAny, AllReach};
ghost use Rattle.tq_extent.specs.Pages.{page_count};
ghost use Rattle.tq_model.specs.Space.{overhead_pages};
ghost use Rattle.tq_spacefile.specs.File.{IsFormatted, IsSameButSpace};

use crate::page::encode_page;
use tq_extent::PageMap;
use tq_host::{Failed, Host};
use tq_model::Shape;

/// Makes the pages of a new space of this shape, within its limits, on the clusters of this map, to
/// whose end the device reaches. A space that no table names is not read, and nothing outside the
/// clusters is changed, so a stop inside leaves the device as it was, and so does a call that failed.
pub fn format<H: Host>(host: &mut H, dev: u8, map: &PageMap, shape: &Shape) -> Result<(), Failed>
    requires dev { dev < 8 }
    requires queues { (1 ≤ shape.now.queues) × (shape.now.queues ≤ 256) }
    requires messages { (1 ≤ shape.now.messages) × (shape.now.messages ≤ 8192) }
    requires transactions { (1 ≤ shape.now.transactions) × (shape.now.transactions ≤ 64) }
    requires memory { shape.now.memory ≤ 16777216 }
    requires pages { (overhead_pages shape.now < shape.now.pages) × (shape.now.pages ≤ 262016) }
    requires enough { shape.now.pages ≤ page_count map.now }
    requires reach { H.tells.reads → reaches map.now ((H.view host.old).reads dev) ≡ true }
    ensures done { OnOk result (H.tells.reads → IsFormatted shape.now map.now ((H.view host.new).reads dev)) }
    ensures outside { H.tells.reads → IsSameButSpace map.now ((H.view host.old).reads dev) ((H.view host.new).reads dev) }
    ensures settled { OnOk result (IsSettled dev (H.view host.new)) }
    ensures stop { AllReach dev map.now (H.view host.old) → Within dev (IsSameButSpace map.now) IsAny (H.view host.old) (H.view host.new) }
    ensures rest { KeepsRest dev (H.view host.old) (H.view host.new) }
    ensures cause { HasCause (H.view host.old).faults (H.view host.new).faults result }
{
    map.write_at(host, dev, 0, &encode_page(shape))?;
    host.sync(dev)?;
    Ok(())
}
