//! The length of a device is changed.

ghost use Rattle.std.specs.Prelude.{◌<◌, ◌≤◌, length, OnOk};
ghost use Rattle.tq_host.specs.View.{IsSettled};
ghost use Rattle.tq_host.specs.Calls.{HasCause, IsPulled, IsResized};
ghost use Rattle.tq_host.specs.Within.{KeepsRest, Within};
ghost use Rattle.tq_devtab.specs.Device.{IsAny};

use tq_host::{Failed, Host};

/// Makes the device so many bytes long, at most 268,435,456, and that durable.
pub(crate) fn resize<H: Host>(host: &mut H, dev: u8, size: u64) -> Result<(), Failed>
    requires dev { dev < 8 }
    requires size { size ≤ 268435456 }
    ensures done { OnOk result (H.tells.reads → IsResized size ((H.view host.old).reads dev) ((H.view host.new).reads dev)) }
    ensures settled { OnOk result (IsSettled dev (H.view host.new)) }
    ensures stop { Within dev (IsPulled size) IsAny (H.view host.old) (H.view host.new) }
    ensures rest { KeepsRest dev (H.view host.old) (H.view host.new) }
    ensures cause { HasCause (H.view host.old).faults (H.view host.new).faults result }
{
    host.set_length(dev, size)?;
    host.sync(dev)
}
