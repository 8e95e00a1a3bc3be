//! Devices that are made, made longer and made blank again.

ghost use Rattle.std.specs.Prelude.{◌<◌};

use std::alloc::{AllocError, Global};
use std::test::Fail;
use tq_devtab::{create, erase, grow};
use tq_host::{Failed, MemHost};

/// The calls of a creation: two of each change of the length, and a sync behind 128 pages.
const CREATION: u64 = 133;

/// A new device of the site 16,909,060 with 8,192 clusters.
fn image_of(alloc: Global, dev: u8) -> Result<Vec<u8>, AllocError>
    requires { dev < 8 }
{
    let mut image = vec![in alloc; 0; 131_072]?;
    image[..20].copy_from_slice(b"TQDEV001\0\0\0\0\x01\x02\x03\x04\0\0\x20\0");
    image[8] = dev;
    image[1024..1032].copy_from_slice(b"TQTB\0\0\0\x01");
    if dev == 0 {
        image[82_944..82_952].copy_from_slice(b"TQSJ\0\0\0\x01");
    }
    Ok(image)
}

#[test]
fn devices_of_each_number(rt: HostRuntime) -> Result<(), Fail> {
    let alloc = rt.alloc();
    for dev in 0..8u8 {
        let mut host = MemHost::new(alloc, b"", 1)?;
        host.set_device(dev, b"some bytes")?;
        assert_eq!(rt; create(&mut host, dev, 16_909_060, 8192), Ok(()));
        let image = image_of(alloc, dev)?;
        assert!(rt; host.image(dev) == image.as_slice(), "device {dev}");
        assert_eq!(rt; host.image((dev + 1) % 8).len(), 0);

        assert_eq!(rt; grow(&mut host, dev, 163_840), Ok(()));
        assert_eq!(rt; grow(&mut host, dev, 131_073), Ok(()));
        assert_eq!(rt; host.image(dev).len(), 163_840);
        assert!(rt;
            host.image(dev).starts_with(image.as_slice()),
            "device {dev}"
        );

        assert_eq!(rt; erase(&mut host, dev), Ok(()));
        assert_eq!(rt; host.image(dev).len(), 0);
    }
    Ok(())
}

/// A creation that fails at one of its calls, as the first, the middle and the last page, leaves a
/// blank device, or all of the new one where its last sync failed.
#[test]
fn creations_that_fail(rt: HostRuntime) -> Result<(), Fail> {
    let alloc = rt.alloc();
    for call in [0, 1, 2, 66, 129, 130, 131, 132] {
        let mut host = MemHost::new(alloc, b"", 1)?;
        host.fail_at(call)?;
        assert_eq!(rt; create(&mut host, 3, 16_909_060, 8192), Err(Failed));
        let whole = host.image(3).len() == 131_072;
        assert_eq!(rt; whole, call + 1 == CREATION, "call {call}");
        assert_eq!(rt; create(&mut host, 3, 16_909_060, 8192), Ok(()));
        assert!(rt;
            host.image(3) == image_of(alloc, 3)?.as_slice(),
            "call {call}"
        );
    }
    Ok(())
}

/// An erasure that fails leaves the device, or one that is shorter.
#[test]
fn erasures_that_fail(rt: HostRuntime) -> Result<(), Fail> {
    let alloc = rt.alloc();
    for (call, length) in [(0, 131_072), (1, 131_071), (2, 131_071), (3, 0)] {
        let mut host = MemHost::new(alloc, b"", 1)?;
        assert_eq!(rt; create(&mut host, 5, 16_909_060, 8192), Ok(()));
        host.fail_at(CREATION + call)?;
        assert_eq!(rt; erase(&mut host, 5), Err(Failed));
        assert_eq!(rt; host.image(5).len(), length, "call {call}");
        let image = image_of(alloc, 5)?;
        assert!(rt; image.starts_with(host.image(5)), "call {call}");
    }
    Ok(())
}
