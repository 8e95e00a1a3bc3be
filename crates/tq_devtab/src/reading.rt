//! The header of a device is read.

ghost use Rattle.std.specs.Prelude.{◌≡◌, ◌<◌, ◌≤◌, false, length, IfOk, IfSome, IfNone};
ghost use Rattle.tq_host.specs.Calls.{HasCause};
ghost use Rattle.tq_extent.specs.Bytes.{IsQuiet};
ghost use Rattle.tq_model.specs.DeviceForm.{header_bytes};
ghost use Rattle.tq_devtab.specs.Header.{HasHeader, header_holds};

use crate::bytes::number;
use crate::header::Header;
use tq_host::{Failed, Host};
use tq_model::{LEAST_CLUSTERS, MOST_CLUSTERS};

/// The bytes with which a device begins.
const MARK: &[u8; 8] = b"TQDEV001";

/// The byte that has the number of the device.
const NUMBER: usize = 8;

/// The bytes at which the site and the number of the clusters begin.
const SITE: usize = 12;

const CLUSTERS: usize = 16;

/// The bytes of a device up to the end of these.
const START_BYTES: usize = 20;

/// How many devices there can be.
const DEVICES: u8 = 8;

/// What a header with these first bytes says; `None` exactly where they break a rule of it. The
/// number is to be `place`, where one is given, and else one of a device.
fn decode_header(start: &[u8], place: Option<u8>) -> Option<Header>
    requires { length start.now ≡ 20 }
    ensures header { IfSome result (λ h. HasHeader place h start.now) }
    ensures none { IfNone result (header_holds place start.now ≡ false) }
{
    let place = place.unwrap_or(start[NUMBER]);
    let site = number(start, SITE);
    let clusters = number(start, CLUSTERS);
    let is_marked = &start[..8] == MARK.as_slice() && start[NUMBER] == place;
    let is_sized = LEAST_CLUSTERS <= clusters && clusters <= MOST_CLUSTERS;
    if is_marked && place < DEVICES && 1 <= site && is_sized {
        Some(Header {
            place,
            site,
            clusters,
        })
    } else {
        None
    }
}

/// Reads the header of a device that is not blank; `None` exactly where it breaks a rule. Its number
/// is to be `place`, where one is given, and else one of a device.
pub(crate) fn read_header<H: Host>(
    host: &mut H,
    dev: u8,
    place: Option<u8>,
) -> Result<Option<Header>, Failed>
    requires dev { dev < 8 }
    requires size { H.tells.reads → header_bytes ≤ length ((H.view host.old).reads dev) }
    ensures header { IfOk result (λ found. IfSome found (λ h. H.tells.reads → HasHeader place h ((H.view host.old).reads dev))) }
    ensures none { IfOk result (λ found. IfNone found (H.tells.reads → header_holds place ((H.view host.old).reads dev) ≡ false)) }
    ensures given { IfOk result (λ found. IfSome found (λ h. IfSome place (λ p. h.place ≡ p))) }
    ensures quiet { IsQuiet dev (H.view host.old) (H.view host.new) }
    ensures cause { HasCause (H.view host.old).faults (H.view host.new).faults result }
{
    let mut start = [0; START_BYTES];
    host.read_at(dev, 0, &mut start)?;
    Ok(decode_header(&start, place))
}
