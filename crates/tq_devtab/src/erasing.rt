//! A device is made blank.

ghost use Rattle.std.specs.Prelude.{◌≡◌, ◌<◌, length, OnOk};
ghost use Rattle.tq_host.specs.View.{IsSettled};
ghost use Rattle.tq_host.specs.Calls.{HasCause};
ghost use Rattle.tq_host.specs.Within.{KeepsRest, Within};
ghost use Rattle.tq_devtab.specs.Device.{IsErasing, IsAny};

use crate::resizing::resize;
use tq_host::{Failed, Host};
use tq_model::HEADER_BYTES;

/// Makes a device blank: one byte too short first, and then empty, with a sync behind each. In each
/// picture the device is blank, or is not and has the bytes of one image of the start before the
/// last byte of its header, which say all where it has no space.
pub fn erase<H: Host>(host: &mut H, dev: u8) -> Result<(), Failed>
    requires dev { dev < 8 }
    ensures done { OnOk result (H.tells.reads → length ((H.view host.new).reads dev) ≡ 0) }
    ensures settled { OnOk result (IsSettled dev (H.view host.new)) }
    ensures stop { Within dev IsErasing IsAny (H.view host.old) (H.view host.new) }
    ensures rest { KeepsRest dev (H.view host.old) (H.view host.new) }
    ensures cause { HasCause (H.view host.old).faults (H.view host.new).faults result }
{
    resize(host, dev, HEADER_BYTES - 1)?;
    resize(host, dev, 0)
}
