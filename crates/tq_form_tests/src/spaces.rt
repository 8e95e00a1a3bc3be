//! Spaces read of their pages, on those of a device's header: one queue and one message, and each rule broken once.

ghost use Rattle.std.specs.Prelude.{true, ◌≡◌, length, IfOk};
ghost use Rattle.tq_host.specs.Memory.{mem_view_of};
ghost use Rattle.tq_extent.specs.Bytes.{reaches};
ghost use Rattle.tq_model.specs.Site.{header_clusters, numbers_from};

use std::alloc::Global;
use std::test::Fail;
use tq_extent::PageMap;
use tq_host::MemHost;
use tq_store::{FileError, SpaceFile, SpacePlace};

/// A byte of a space's pages, and what it is.
type Byte = (usize, u8);

// The first bytes of the base, of the queue's slot, of the two message slots, of the branch's slot, of the log, and of the message
// pages 37 and 38.
const BASE: usize = 1024;

const QUEUE: usize = 1088;

const MESSAGE: usize = 1600;

const OTHER: usize = 1664;

const BRANCH: usize = 1728;

const LOG: usize = 2048;

const CHAIN: usize = 37_888;

const NEXT_CHAIN: usize = 38_912;

// A space with 1 queue, 2 messages and 1 transaction, in which one message stands on page 37.
const SPACE: [Byte; 36] = [
    (0, b'T'),
    (1, b'Q'),
    (2, b'S'),
    (3, b'P'),
    (4, b'A'),
    (5, b'C'),
    (6, b'E'),
    (7, b'1'),
    (9, 1),
    (11, 1),
    (13, 2),
    (15, 1),
    (BASE, b'T'),
    (BASE + 1, b'Q'),
    (BASE + 2, b'S'),
    (BASE + 3, b'B'),
    (QUEUE, 1),
    (QUEUE + 1, 1),
    (QUEUE + 2, b'q'),
    (QUEUE + 134, 1),
    (QUEUE + 136, 1),
    (MESSAGE, 1),
    (MESSAGE + 4, 50),
    (MESSAGE + 5, 50),
    (MESSAGE + 15, 37),
    (MESSAGE + 19, 1),
    (MESSAGE + 59, 1),
    (CHAIN + 4, 1),
    (CHAIN + 5, 1),
    (CHAIN + 8 + 3, 1),
    (CHAIN + 8 + 11, 1),
    (CHAIN + 8 + 256, b'a'),
    // What no slot names is not read.
    (NEXT_CHAIN, 255),
    // Nor is what no table names.
    (600, 255),
    (QUEUE + 3, 255),
    (OTHER + 1, 255),
];

// Another message, on page 38.
const SECOND: [Byte; 14] = [
    (OTHER, 1),
    (OTHER + 1, 0),
    (OTHER + 4, 50),
    (OTHER + 5, 50),
    (OTHER + 15, 38),
    (OTHER + 19, 1),
    (OTHER + 23, 1),
    (OTHER + 59, 1),
    (OTHER + 63, 1),
    (NEXT_CHAIN, 0),
    (NEXT_CHAIN + 4, 1),
    (NEXT_CHAIN + 8 + 3, 1),
    (NEXT_CHAIN + 8 + 7, 1),
    (NEXT_CHAIN + 8 + 11, 0),
];

fn put(image: &mut [u8], bytes: &[Byte])
    ensures { length image.new ≡ length image.old }
{
    for (at, byte) in bytes {
        if *at < image.len() {
            image[*at] = *byte;
        }
    }
}

// Device 1 with the space, and these bytes changed.
fn device(alloc: Global, more: &[Byte], changes: &[Byte]) -> Result<MemHost, Fail>
    ensures { IfOk result (λ host. reaches (numbers_from 0 header_clusters) ((mem_view_of host).reads 1) ≡ true) }
{
    let mut image = vec![in alloc; 0u8; 131_072]?;
    put(&mut image, &SPACE);
    put(&mut image, more);
    put(&mut image, changes);
    let mut host = MemHost::new(alloc, b"".as_slice(), 1)?;
    host.set_device(1, &image)?;
    Ok(host)
}

// How many messages the space has; none where its pages have no reading.
fn messages(alloc: Global, more: &[Byte], changes: &[Byte]) -> Result<Option<u64>, Fail> {
    let mut host = device(alloc, more, changes)?;
    let place = SpacePlace {
        dev: 1,
        pages: 40,
        site: 1,
        number: 8,
    };
    match SpaceFile::load(alloc, &mut host, &place, PageMap::header()) {
        Ok(file) => Ok(Some(file.space().message_count())),
        Err(FileError::Damaged) => Ok(None),
        Err(_) => Err(Fail::from("the space is not read")),
    }
}

#[test]
fn a_space_and_near_misses(rt: HostRuntime) -> Result<(), Fail> {
    let alloc = rt.alloc();
    assert!(rt; messages(alloc, &[], &[])? == Some(1));
    assert!(rt; messages(alloc, &SECOND, &[])? == Some(2));
    // an even selector
    assert!(rt; messages(alloc, &[], &[(512, 2)])? == Some(1));
    // a record of no sets, and bytes behind a closed gate
    assert!(rt;
        messages(
            alloc,
            &[],
            &[(LOG, 79), (LOG + 4, 3), (LOG + 5, 6), (LOG + 9, 7)]
        )? == Some(1)
    );
    // no path in the slot: of the header's only the count is judged
    assert!(rt; messages(alloc, &[], &[(CHAIN + 8 + 84, 16)])? == Some(1));
    // of an empty branch slot nothing else is read
    assert!(rt; messages(alloc, &[], &[(BRANCH + 1, 65)])? == Some(1));
    // a record that empties the slot
    assert!(rt;
        messages(
            alloc,
            &[],
            &[
                (LOG, 79),
                (LOG + 4, 70),
                (LOG + 5, 1),
                (LOG + 7, 1),
                (LOG + 8, 1)
            ]
        )? == Some(0)
    );
    Ok(())
}

#[test]
fn creations_bases_and_records_with_a_fault(rt: HostRuntime) -> Result<(), Fail> {
    let alloc = rt.alloc();
    let rows: [Byte; 12] = [
        (7, b'2'),
        (9, 2),
        (11, 0),
        (13, 0),
        (15, 0),
        (16, 1),
        (24, 16),
        (512, 1),
        (BASE + 3, b'C'),
        (BRANCH, 1),
        (QUEUE, 2),
        (QUEUE + 2, b'-'),
    ];
    for row in rows {
        assert!(rt; messages(alloc, &[], &[row])? == None);
    }
    // no kind, a byte behind the sets, a slot that is not there, a gate too late in the log
    assert!(rt; messages(alloc, &[], &[(LOG, 79), (LOG + 4, 3)])? == None);
    assert!(rt; messages(alloc, &[], &[(LOG, 79), (LOG + 4, 4), (LOG + 5, 1)])? == None);
    assert!(rt;
        messages(
            alloc,
            &[],
            &[
                (LOG, 79),
                (LOG + 4, 70),
                (LOG + 5, 1),
                (LOG + 7, 1),
                (LOG + 8, 1),
                (LOG + 10, 2)
            ]
        )? == None
    );
    assert!(rt; messages(alloc, &[], &[(LOG, 79), (LOG + 3, 68)])? == None);
    Ok(())
}

#[test]
fn slots_of_queues_and_messages_with_a_fault(rt: HostRuntime) -> Result<(), Fail> {
    let alloc = rt.alloc();
    let rows: [Byte; 22] = [
        (QUEUE, 0),
        (QUEUE + 1, 16),
        (QUEUE + 130, 4),
        (QUEUE + 134, 2),
        (QUEUE + 135, 1),
        (QUEUE + 136, 2),
        (QUEUE + 143, 1),
        (QUEUE + 151, 1),
        (MESSAGE, 2),
        (MESSAGE + 1, 1),
        (MESSAGE + 2, 1),
        (MESSAGE + 3, 8),
        (MESSAGE + 4, 0),
        (MESSAGE + 5, 101),
        (MESSAGE + 6, 1),
        (MESSAGE + 11, 1),
        (MESSAGE + 19, 0),
        (MESSAGE + 23, 1),
        (MESSAGE + 31, 1),
        (MESSAGE + 55, 0),
        (MESSAGE + 59, 0),
        (MESSAGE + 63, 1),
    ];
    for row in rows {
        // The root's expiration is not read where its bit is not set.
        let near = row.0 == MESSAGE + 55;
        assert!(rt; messages(alloc, &[], &[row])?.is_some() == near);
    }
    // two slots of one arrival, and a page of two chains
    assert!(rt;
        messages(
            alloc,
            &SECOND,
            &[(OTHER + 23, 0), (OTHER + 63, 0), (NEXT_CHAIN + 15, 0)]
        )? == None
    );
    assert!(rt; messages(alloc, &SECOND, &[(OTHER + 15, 37)])? == None);
    Ok(())
}

#[test]
fn chains_and_headers_with_a_fault(rt: HostRuntime) -> Result<(), Fail> {
    let alloc = rt.alloc();
    let rows: [Byte; 14] = [
        (MESSAGE + 15, 36),
        (MESSAGE + 15, 38),
        (MESSAGE + 15, 40),
        (CHAIN + 3, 37),
        (CHAIN + 3, 40),
        (CHAIN + 4, 4),
        (CHAIN + 5, 2),
        (CHAIN + 8 + 3, 2),
        (CHAIN + 8 + 7, 1),
        (CHAIN + 8 + 11, 2),
        (CHAIN + 8 + 12, 1),
        (CHAIN + 8 + 13, 3),
        (CHAIN + 8 + 19, 1),
        (CHAIN + 8 + 84, 17),
    ];
    for row in rows {
        assert!(rt; messages(alloc, &[], &[row])? == None);
    }
    Ok(())
}
