//! Who has which cluster, and where pages and bytes lie.

ghost use Rattle.std.specs.Prelude.{true, ◌≡◌, ◌≤◌, ◌+◌, [], ◌∷◌, length, IfOk, OnOk};
ghost use Rattle.tq_host.specs.Memory.{mem_view_of};
ghost use Rattle.tq_extent.specs.Bytes.{byte_count, reaches};

use std::alloc::{AllocError, Global};
use std::test::Fail;
use tq_extent::{ExtentList, NotFree, PageMap, TakeError};
use tq_host::{Failed, MemHost};
use tq_model::{ClusterRoom, Extent};

fn at(first: u32, count: u32) -> Extent
    ensures { result ≡ record { first = first; count = count } }
{
    Extent { first, count }
}

/// A device of 12 clusters, of which 6 and 7 have an owner: a cluster is of the header, not of the
/// device, has an owner, stands twice in the next extent, or in a later one.
#[test]
fn refused_claims(rt: HostRuntime) -> Result<(), Fail> {
    let mut list = ExtentList::new(rt.alloc(), 12)?;
    assert_eq!(rt; list.claim(&[at(6, 2)]), Ok(()));
    let rows: [&[Extent]; 6] = [
        &[at(3, 2)],
        &[at(11, 2)],
        &[at(4, 3)],
        &[at(4, 2), at(5, 1)],
        &[at(4, 1), at(8, 1), at(4, 1)],
        &[at(4_294_967_295, 4_294_967_295)],
    ];
    for row in rows {
        assert_eq!(rt; list.claim(row), Err(NotFree));
        assert_eq!(rt; list.free(), 6);
    }
    Ok(())
}

#[test]
fn clusters(rt: HostRuntime) -> Result<(), Fail> {
    let alloc = rt.alloc();
    let mut list = ExtentList::new(alloc, 12)?;
    assert_eq!(rt; (list.clusters(), list.free()), (12, 8));
    assert_eq!(rt; list.claim(&[at(6, 2)]), Ok(()));
    let lack = TakeError::Lack(ClusterRoom { need: 7, free: 6 });
    assert!(rt; matches!(list.take(alloc, 7), Err(error) if error == lack));
    let lowest = list.take(alloc, 4)?;
    assert_eq!(rt; lowest.as_slice(), [at(4, 2), at(8, 2)].as_slice());
    assert_eq!(rt; list.free(), 2);
    list.give_back(&[at(6, 2)]);
    let rest = list.take(alloc, 4)?;
    assert_eq!(rt; rest.as_slice(), [at(6, 2), at(10, 2)].as_slice());
    assert_eq!(rt; list.free(), 0);
    Ok(())
}

/// A page of a map of the clusters 7, 8 and 5, and where it lies.
const ADDRESSES: [(u32, u64); 4] = [(0, 229_376), (31, 261_120), (63, 293_888), (65, 164_864)];

#[test]
fn pages(rt: HostRuntime) -> Result<(), Fail> {
    let alloc = rt.alloc();
    let map = PageMap::of(alloc, &[at(7, 2), at(5, 1)])?;
    let copy = map.copy(alloc)?;
    let header = PageMap::header();
    assert_eq!(rt; (map.pages(), copy.pages(), header.pages()), (96, 96, 128));
    assert_eq!(rt; header.address(127), 130_048);
    for (page, address) in ADDRESSES {
        assert_eq!(rt; map.address(page), address);
        assert_eq!(rt; copy.address(page), address);
    }
    Ok(())
}

const TEXT: [u8; 20] = *b"abcdefghijklmnopqrst";

/// Where the text is written in the bytes of the clusters 7, 8 and 5, in how many calls, and where
/// its first and its last byte lie on the device.
const WRITES: [(u64, u64, usize, usize); 4] = [
    (100, 1, 229_476, 229_495),
    (32_758, 1, 262_134, 262_153),
    (65_526, 2, 294_902, 163_849),
    (98_284, 1, 196_588, 196_607),
];

/// A device of 9 clusters, of which each byte is 1, with the call of this number to fail.
fn device_of_ones(alloc: Global, failing: u64) -> Result<MemHost, Fail>
    ensures { IfOk result (λ host. length ((mem_view_of host).reads 2) ≡ 294912) }
{
    let mut host = MemHost::new(alloc, b"".as_slice(), 1)?;
    host.set_device(2, &vec![in alloc; 1u8; 294_912]?)?;
    host.fail_at(failing)?;
    Ok(host)
}

fn clusters_7_8_5(alloc: Global) -> Result<PageMap, AllocError>
    ensures { IfOk result (λ map. map ≡ 7 ∷ 8 ∷ 5 ∷ []) }
{
    PageMap::of(alloc, &[at(7, 2), at(5, 1)])
}

/// The text as it is read from this place on.
fn read_text(map: &PageMap, host: &mut MemHost, place: u64) -> Result<[u8; 20], Failed>
    requires within { place + 20 ≤ byte_count map.now }
    requires reach { reaches map.now ((mem_view_of host.old).reads 2) ≡ true }
    ensures kept { (mem_view_of host.new).reads 2 ≡ (mem_view_of host.old).reads 2 }
{
    let mut text = [0; 20];
    map.read_at(host, 2, place, &mut text)?;
    Ok(text)
}

fn write_text(map: &PageMap, host: &mut MemHost, place: u64) -> Result<(), Failed>
    requires within { place + 20 ≤ byte_count map.now }
    requires reach { reaches map.now ((mem_view_of host.old).reads 2) ≡ true }
    ensures reach { OnOk result (reaches map.now ((mem_view_of host.new).reads 2) ≡ true) }
{
    map.write_at(host, 2, place, &TEXT)
}

/// A write makes the calls of its row and leaves all other bytes, and a read makes as many.
#[test]
fn bytes(rt: HostRuntime) -> Result<(), Fail> {
    let alloc = rt.alloc();
    let map = clusters_7_8_5(alloc)?;
    for (place, calls, first, last) in WRITES {
        let mut host = device_of_ones(alloc, calls)?;
        write_text(&map, &mut host, place)?;
        let image = host.image(2);
        assert_eq!(rt;
            (image.get(first), image.get(last)),
            (Some(&b'a'), Some(&b't'))
        );
        assert_eq!(rt; image.iter().filter(|byte| **byte != 1).count(), 20);
        assert_eq!(rt; read_text(&map, &mut host, place), Err(Failed));
        host.fail_at(2 * calls + 1)?;
        assert_eq!(rt; read_text(&map, &mut host, place), Ok(TEXT));
        assert_eq!(rt; read_text(&map, &mut host, place), Err(Failed));
    }
    Ok(())
}

/// A write whose last call fails.
#[test]
fn last_write_fails(rt: HostRuntime) -> Result<(), Fail> {
    let alloc = rt.alloc();
    let map = clusters_7_8_5(alloc)?;
    for (place, calls, _, _) in WRITES {
        let mut host = device_of_ones(alloc, calls - 1)?;
        assert_eq!(rt; write_text(&map, &mut host, place), Err(Failed));
    }
    Ok(())
}
