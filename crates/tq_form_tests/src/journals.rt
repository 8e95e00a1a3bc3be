//! The journal of a site over a host in memory.

ghost use Rattle.std.specs.Prelude.{◌≡◌, ◌+◌, ◌≤◌, length, IfOk};

use std::alloc::Global;
use std::process::Abort;
use std::test::Fail;
use tq_host::MemHost;
use tq_site::{JournalError, SiteJournal};

// The bytes at which the bases of the areas A and B begin, and the log of area A.
const AREA_A: usize = 82_944;

const AREA_B: usize = 99_328;

const LOG_A: usize = 83_968;

// The byte that chooses one.
const SELECTOR: usize = 513;

// Writes these bytes from this place on.
fn put(image: &mut [u8], at: usize, bytes: &[u8])
    requires { at + length bytes.now ≤ length image.old }
    ensures { length image.new ≡ length image.old }
{
    image[at..at + bytes.len()].copy_from_slice(bytes);
}

// A device of the header's clusters, whose journal lies in area A: this base, and zeros behind it,
// and this log.
fn device(alloc: Global, base: &[u8], log: &[u8]) -> Result<Vec<u8>, Fail>
    requires base { length base.now ≤ 1024 }
    requires log { length log.now ≤ 15360 }
    ensures { IfOk result (λ v. length v.items ≡ 131072) }
{
    let mut image = vec![in alloc; 0u8; 131_072]?;
    put(&mut image, AREA_A, base);
    put(&mut image, LOG_A, log);
    Ok(image)
}

// The epoch that a load of this image finds.
fn epoch_of(alloc: Global, image: &[u8]) -> Result<u32, JournalError>
    requires { length image.now ≡ 131072 }
{
    let mut host = MemHost::new(alloc, b"".as_slice(), 1)?;
    host.set_device(0, image)?;
    Ok(SiteJournal::load(alloc, &mut host, 0)?.epoch())
}

#[test]
fn a_base_says_an_epoch(rt: HostRuntime) -> Result<(), Fail> {
    let alloc = rt.alloc();
    let rows: [(&[u8; 20], Option<u32>); 7] = [
        (b"TQSJ\0\0\0\x01\0\0\0\0\0\0\0\0\0\0\0\0", Some(1)),
        (
            b"TQSJ\xFF\xFF\xFF\xFF\0\0\0\0\0\0\0\0\0\0\0\0",
            Some(u32::MAX),
        ),
        // what is not read
        (
            b"TQSJ\0\0\0\x02\0OOO\xFF\xFF\xFF\xFF\xFF\xFF\xFF\xFF",
            Some(2),
        ),
        (b"TQSK\0\0\0\x01\0\0\0\0\0\0\0\0\0\0\0\0", None),
        (b"TQSJ\0\0\0\0\0\0\0\0\0\0\0\0\0\0\0\0", None),
        // a decision, and neither one nor none
        (b"TQSJ\0\0\0\x02\x01\0\0\0\0\0\0\x01\0\0\0\x07", None),
        (b"TQSJ\0\0\0\x02\x02\0\0\0\0\0\0\0\0\0\0\0", None),
    ];
    for (base, expected) in rows.iter() {
        let image = device(alloc, base.as_slice(), &[])?;
        assert_eq!(rt;
            epoch_of(alloc, &image),
            (*expected).ok_or(JournalError::Damaged)
        );
    }
    Ok(())
}

#[test]
fn a_selector_chooses_the_journal(rt: HostRuntime) -> Result<(), Fail> {
    let alloc = rt.alloc();
    let mut image = device(alloc, b"TQSJ\0\0\0\x03", &[])?;
    put(&mut image, AREA_B, b"TQSJ\0\0\0\x04");
    for (selector, epoch) in [(0, 3), (1, 4), (2, 3), (255, 4)] {
        put(&mut image, SELECTOR, &[selector]);
        assert_eq!(rt; epoch_of(alloc, &image), Ok(epoch));
    }
    Ok(())
}

// Behind a base of epoch 5.
#[test]
fn payloads_change_what_a_base_says(rt: HostRuntime) -> Result<(), Fail> {
    let alloc = rt.alloc();
    let rows: [(&[u8], Option<u32>); 14] = [
        (b"\0O\0\0\0\x01\x04", Some(5)),
        (b"O\0\0\0\x05\x01\0\0\0\x06", Some(6)),
        (
            b"O\0\0\0\x05\x01\0\0\0\x09O\0\0\0\x05\x01\0\0\0\x06",
            Some(6),
        ),
        (b"O\0\0\0\x05\x01\0\0\0\0", None),
        (b"O\0\0\0\x04\x01\0\0\0", None),
        // a decision
        (b"O\0\0\0\x09\x02\0\0\0\x05\0\0\0\x07", None),
        (b"O\0\0\0\x08\x02\0\0\0\x05\0\0\0", None),
        // one that is forgotten
        (
            b"O\0\0\0\x09\x02\0\0\0\x05\0\0\0\x07O\0\0\0\x01\x03",
            Some(5),
        ),
        (b"O\0\0\0\x01\x03", Some(5)),
        (b"O\0\0\0\x02\x03\0", None),
        // no kind, and another one
        (b"O\0\0\0\0", None),
        (b"O\0\0\0\x01\x04", None),
        // up to the end of the log, and one byte more
        (b"O\0\0\x3B\xFA\x03", None),
        (b"O\0\0\x3B\xFB\x03", None),
    ];
    for (log, expected) in rows.iter() {
        if log.len() <= 15_360 {
            let image = device(alloc, b"TQSJ\0\0\0\x05", log)?;
            assert_eq!(rt;
                epoch_of(alloc, &image),
                (*expected).ok_or(JournalError::Damaged)
            );
        }
    }
    Ok(())
}

// Whether the epoch is raised where the call of this number fails, and what the device reads then.
fn raise_failing(alloc: Global, image: &[u8], call: u64) -> Result<(bool, Vec<u8>), Fail>
    requires { length image.now ≡ 131072 }
{
    let mut host = MemHost::new(alloc, b"".as_slice(), 1)?;
    host.set_device(0, image)?;
    let mut journal = SiteJournal::load(alloc, &mut host, 0)?;
    if journal.epoch() == u32::MAX || call > 100 {
        return Ok((false, Vec::new(alloc)));
    }
    // a load makes three calls
    host.fail_at(3 + call)?;
    let raised = journal.raise_epoch(&mut host).is_ok();
    Ok((raised, host.image(0).to_vec(alloc)?))
}

#[test]
fn a_raise_that_fails_leaves_the_old_epoch_or_the_next(rt: HostRuntime) -> Result<(), Fail> {
    let alloc = rt.alloc();
    let old = device(alloc, b"TQSJ\0\0\0\x05", b"O\0\0\0\x05\x01\0\0\0\x09")?;
    let expected = [
        (false, 9),
        (false, 9),
        (false, 9),
        (false, 9),
        (false, 10),
        (true, 10),
    ];
    for (call, &(raised, epoch)) in expected.iter().enumerate() {
        let (done, image) = raise_failing(alloc, &old, call as u64)?;
        assert_eq!(rt; image.len(), 131_072);
        assert_eq!(rt; done, raised);
        assert_eq!(rt; epoch_of(alloc, &image), Ok(epoch));
    }
    Ok(())
}

// Raises the epoch: this base lies in the area that begins there, with zeros behind it. What the device
// reads then.
fn raised_in(
    rt: &impl Abort,
    alloc: Global,
    image: &[u8],
    area: usize,
    base: &[u8; 8],
) -> Result<Vec<u8>, Fail>
    requires image { length image.now ≡ 131072 }
    requires area { area + 1025 ≤ 131072 }
    ensures { IfOk result (λ v. length v.items ≡ 131072) }
{
    let (raised, next) = raise_failing(alloc, image, 99)?;
    assert!(rt; raised);
    assert_eq!(rt; next.len(), 131_072);
    assert_eq!(rt; &next[area..area + 8], base.as_slice());
    assert!(rt; next[area + 8..area + 1025].iter().all(|byte| *byte == 0));
    Ok(next)
}

#[test]
fn epochs_take_turns(rt: HostRuntime) -> Result<(), Fail> {
    let alloc = rt.alloc();
    let mut first = device(alloc, &[b'O'; 1024], b"O\0\0\0\x05\x01\0\0\0\x09")?;
    put(&mut first, AREA_A, b"TQSJ\0\0\0\x05\0");
    let second = raised_in(&rt, alloc, &first, AREA_B, b"TQSJ\0\0\0\x0A")?;
    let third = raised_in(&rt, alloc, &second, AREA_A, b"TQSJ\0\0\0\x0B")?;
    assert_eq!(rt; epoch_of(alloc, &third), Ok(11));
    Ok(())
}
