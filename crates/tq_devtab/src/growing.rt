//! A device is made longer.

ghost use Rattle.std.specs.Prelude.{◌<◌, ◌≤◌, length, OnOk};
ghost use Rattle.tq_host.specs.View.{IsSettled};
ghost use Rattle.tq_host.specs.Calls.{HasCause};
ghost use Rattle.tq_host.specs.Within.{KeepsRest, Within};
ghost use Rattle.tq_devtab.specs.Device.{IsLonger, IsAny};

use tq_host::{Failed, Host};

/// Makes the device so many bytes long, at most 268,435,456, where it is shorter. A stop inside
/// leaves its bytes, with or without more behind them, and these are what is read after a call of
/// the outside that failed, which answers `Failed`.
pub fn grow<H: Host>(host: &mut H, dev: u8, size: u64) -> Result<(), Failed>
    requires dev { dev < 8 }
    requires size { size ≤ 268435456 }

    ensures done { OnOk result (H.tells.reads → IsLonger size ((H.view host.old).reads dev) ((H.view host.new).reads dev)
        × (size ≤ length ((H.view host.new).reads dev))) }
    ensures outside { H.tells.reads → IsLonger size ((H.view host.old).reads dev) ((H.view host.new).reads dev) }
    ensures settled { OnOk result (IsSettled dev (H.view host.new)) }
    ensures stop { Within dev (IsLonger size) IsAny (H.view host.old) (H.view host.new) }
    ensures rest { KeepsRest dev (H.view host.old) (H.view host.new) }
    ensures cause { HasCause (H.view host.old).faults (H.view host.new).faults result }
{
    // without it a stop may leave more bytes than are read, which the new length would cut off
    host.sync(dev)?;
    lengthen(host, dev, size)?;
    host.sync(dev)?;
    Ok(())
}

/// The same of a device with nothing pending, and without the sync.
fn lengthen<H: Host>(host: &mut H, dev: u8, size: u64) -> Result<(), Failed>
    requires dev { dev < 8 }
    requires size { size ≤ 268435456 }
    requires settled { IsSettled dev (H.view host.old) }

    ensures done { OnOk result (H.tells.reads → IsLonger size ((H.view host.old).reads dev) ((H.view host.new).reads dev)
        × (size ≤ length ((H.view host.new).reads dev))) }
    ensures outside { H.tells.reads → IsLonger size ((H.view host.old).reads dev) ((H.view host.new).reads dev) }
    ensures stop { Within dev (IsLonger size) IsAny (H.view host.old) (H.view host.new) }
    ensures rest { KeepsRest dev (H.view host.old) (H.view host.new) }
    ensures cause { HasCause (H.view host.old).faults (H.view host.new).faults result }
{
    if host.length(dev)? < size {
        host.set_length(dev, size)?;
    }
    Ok(())
}
