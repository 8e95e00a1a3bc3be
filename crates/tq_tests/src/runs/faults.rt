//! Damaged devices, and calls that fail in a run.

use super::{BLANK, MADE, SPACE, Sheet, made, outside, run_words};
use std::alloc::{AllocError, Global};
use std::process::Abort;
use std::test::Fail;
use tq_host::{CallKind, FuseHost, MemHost};
use tq_run::{Status, run};
use tq_script::first_line;

// Whether a run over this image is refused as damaged, gives nothing and leaves it; else it is done.
fn is_refused(rt: &impl Abort, alloc: Global, image: &[u8]) -> Result<bool, AllocError> {
    let mut host = outside(alloc, image, b"lidl 0\n".as_slice(), 9)?;
    let status = run(alloc, &run_words(alloc)?, &mut host);
    if status == Status::Damaged(0) {
        assert!(rt; host.output().is_empty() && host.image(0) == image);
        return Ok(true);
    }
    assert!(rt; status == Status::Done);
    Ok(false)
}

// These bytes with others from an address on.
pub(super) fn changed(
    alloc: Global,
    whole: &[u8],
    address: usize,
    bytes: &[u8],
) -> Result<Vec<u8>, AllocError> {
    let mut image = Vec::from_slice(alloc, whole)?;
    for (offset, byte) in bytes.iter().enumerate() {
        let at = address.wrapping_add(offset);
        if at < image.len() {
            image[at] = *byte;
        }
    }
    Ok(image)
}

fn digit_of(byte: u8) -> u8 {
    match byte {
        b'0'..=b'9' => byte - b'0',
        b'a'..=b'f' => byte - b'a' + 10,
        _ => 0,
    }
}

// The bytes that these hexadecimal digits spell.
fn bytes_of(alloc: Global, digits: &[u8]) -> Result<Vec<u8>, AllocError> {
    let mut bytes = Vec::new(alloc);
    let mut high = None;
    for byte in digits {
        let digit = digit_of(*byte);
        match high {
            None => high = Some(digit),
            Some(first) => {
                bytes.push(first.wrapping_mul(16) | digit)?;
                high = None;
            }
        }
    }
    Ok(bytes)
}

// The address that the first six digits of a row spell.
fn address_of(row: &[u8]) -> usize {
    let mut address = 0usize;
    for byte in row.iter().take(6) {
        address = address
            .wrapping_mul(10)
            .wrapping_add(usize::from(digit_of(*byte)));
    }
    address
}

// Each row of a text that is no comment: an address, the bytes from there on, and whether a device
// with them still has a reading (+) or is damaged (-).
pub(super) fn check_bytes(
    rt: &impl Abort,
    alloc: Global,
    whole: &[u8],
    rows: &[u8],
) -> Result<(), AllocError> {
    let mut rest = rows;
    while let Some((row, behind)) = first_line(rest) {
        if !row.starts_with(b"#".as_slice()) {
            let bytes = bytes_of(alloc, row.get(9..).unwrap_or(b""))?;
            let image = changed(alloc, whole, address_of(row), &bytes)?;
            let is_damaged = row.get(7) == Some(&b'-');
            assert!(rt; is_refused(rt, alloc, &image)? == is_damaged, "{row:?}");
        }
        rest = behind;
    }
    Ok(())
}

// What lies at some addresses.
pub(super) fn check_written(rt: &impl Abort, image: &[u8], rows: &[(usize, &[u8])]) {
    for (address, bytes) in rows {
        let behind = image.get(*address..).unwrap_or(b"");
        assert!(rt; behind.starts_with(*bytes), "at {address}");
    }
}

// Bytes of a device of 64 clusters: the header, the table, the journal.
const DEVICE: &[u8] = b"# the mark, the device's number, the site, the clusters, what is not read
000000 - 74
000007 - 32
000008 - 01
000015 - 00
000018 - 0004
000018 + 0005
000018 + 2000
000018 - 2001
000020 + 09
000511 + 09
# the selectors
000512 + 0202
000512 - 01
000513 - 01
000512 - ff
000513 - ff
000514 + 09
001023 + 09
# the table: the mark, the next ordinal, an entry, its extents
001024 - 58
001027 - 58
001028 - 00000000
001028 + 0fffffff
001028 - 10000000
001032 + 09
001056 - 01
003456 - 02
003616 + 09
# the journal: the mark, the epoch, the decisions, the log
082944 - 58
082947 - 58
082948 - 00000000
082948 + fffffffe
082948 - ffffffff
082952 - 01
082952 - 02
082957 + 09
083968 - 4f
083969 + 09
131071 + 09
";

#[test]
fn a_damaged_device_is_left_alone(rt: HostRuntime) -> Result<(), Fail> {
    let alloc = rt.alloc();
    let image = made(&rt, alloc, 64)?;
    let written: [(usize, &[u8]); 3] = [
        (0, b"TQDEV001\0\0\0\0\0\0\0\x01\0\0\0\x40\0"),
        (1024, b"TQTB\0\0\0\x01\0"),
        (82944, b"TQSJ\0\0\0\x01\0"),
    ];
    check_written(&rt, &image, &written);
    check_bytes(&rt, alloc, &image, DEVICE)?;
    Ok(())
}

// Bytes of a space S of 64 pages with a queue Q and a message.
const SPACE_BYTES: &[u8] = b"# the least clusters, the other table
000018 - 0005
000018 + 0006
000512 + 00
# the entry: used or not, the name, the ordinal, the pages, the extents
041991 + 03
042016 + 00
042016 - 02
042017 - 00
042017 - 1041414141414141414141414141414141
042017 + 0f414141414141414141414141414141
042018 - 2d
042017 - 024120
042151 - 00
042151 - 02
042152 - 00000000
042152 + 0000002e
042152 - 00000041
042152 - 0003ff81
042159 - 00
042159 - 02
042160 + 09
042176 - 01
# its extent
044577 - 03
044577 - 05
044579 - 01
044579 - 03
044580 + 09
# the first page: the mark, the version, the queues, the messages, the transactions, the memory, the error queue
131072 - 74
131079 - 32
131080 - 0000
131080 - 0002
131082 - 0000
131082 - 0101
131084 - 0000
131084 - 2001
131086 - 0000
131086 - 0041
131088 - 01
131092 + 01000000
131092 - 01000001
131096 - 01
131096 + 0145
131096 - 012d
131096 - 0245
131096 - 1045
131097 + 01
# the log: the queue, the message, and what is behind its end
133120 + 00
133122 - 01
133124 - 06
133125 - 04
133127 - 01
133129 - 2d
133130 + 00
133137 - 01
133141 - 00
133141 - 02
133145 + 09
133147 + 01
133147 - 4f
133148 + 4f
# in place of the message: no kind, an index that is too high, one again, a name again, a queue
133130 - 4f00000005040001014100
133130 - 4f00000005030004014100
133130 - 4f00000005030000014100
133130 - 4f00000005030001015100
133130 + 4f00000005030003014100
# one for no queue, one that is not there, one that goes again, a payload that is too long, one of no bytes
133132 - 00000b01000100
133130 - 4f0000000902000000010000000700
133147 + 4f0000000902000000010000000000
133130 - 4f0001a000
133130 - 4f0000000000
";

#[test]
fn a_damaged_space_is_left_alone(rt: HostRuntime) -> Result<(), Fail> {
    let alloc = rt.alloc();
    let rows = [
        ("crdl 0 64", "OK clusters=64 free=60"),
        SPACE,
        ("qcreate S Q", "OK"),
        ("tpenqueue 1 S Q data=\"a\"", "OK"),
    ];
    let mut image = Sheet::of(alloc, BLANK, &rows)?.check(&rt, alloc, b"")?;
    let written: [(usize, &[u8]); 7] = [
        (512, b"\x01\0\0"),
        (41984, b"TQTB\0\0\0\x02"),
        (42016, b"\x01\x01S\0"),
        (42148, b"\0\0\0\x01\0\0\0\x40\0\0\0\x01"),
        (44576, b"\0\x04\0\x02\0"),
        (
            131072,
            b"TQSPROV1\0\x01\0\x04\0\x10\0\x04\0\0\0\0\0\0\0\0\0",
        ),
        (
            133120,
            b"O\0\0\0\x05\x03\0\0\x01QO\0\0\0\x0c\x01\0\0\0\0\0\x01\0\0\0\0a\0\0",
        ),
    ];
    check_written(&rt, &image, &written);
    check_bytes(&rt, alloc, &image, SPACE_BYTES)?;
    // its last cluster is not whole
    assert!(rt; image.len() == 196608);
    image.truncate(196607);
    assert!(rt; is_refused(&rt, alloc, &image)?);
    Ok(())
}

// How a run ends.
#[derive(Clone, Copy, Debug, PartialEq, Eq)]
enum End {
    /// With this status, before the end of its script.
    Stop(Status),
    /// Done, and down.
    Down,
    /// Done, and up.
    Up,
}

fn end_of(status: Status, host: &MemHost) -> End {
    if status != Status::Done {
        return End::Stop(status);
    }
    if host.output().ends_with(b" TPESYSTEM\n".as_slice()) {
        return End::Down;
    }
    End::Up
}

// A run with this script over this image, in which this call fails.
fn failed(
    alloc: Global,
    image: &[u8],
    script: &[u8],
    call: u64,
) -> Result<(End, MemHost), AllocError> {
    let mut host = outside(alloc, image, script, 4096)?;
    host.fail_at(call)?;
    let status = run(alloc, &run_words(alloc)?, &mut host);
    Ok((end_of(status, &host), host))
}

#[test]
fn each_call_that_fails_has_its_end(rt: HostRuntime) -> Result<(), Fail> {
    let alloc = rt.alloc();
    let rows = [
        // attach, sync and length, line 0, the script and its end
        (0, End::Stop(Status::DeviceFault), BLANK),
        (1, End::Stop(Status::DeviceFault), BLANK),
        (2, End::Stop(Status::DeviceFault), BLANK),
        (3, End::Stop(Status::WriteFault), BLANK),
        (4, End::Stop(Status::ReadFault), BLANK),
        (5, End::Stop(Status::ReadFault), BLANK),
        // the length, sync, the pages
        (6, End::Down, BLANK),
        (7, End::Down, BLANK),
        (8, End::Down, BLANK),
        (72, End::Down, BLANK),
        (135, End::Down, BLANK),
        // sync, the length, sync, and the two answers
        (136, End::Down, BLANK),
        (137, End::Down, BLANK),
        (138, End::Down, MADE),
        (139, End::Stop(Status::WriteFault), MADE),
        (140, End::Stop(Status::WriteFault), MADE),
        (141, End::Up, MADE),
    ];
    for (call, end, ready) in rows {
        let script = b"crdl 0 64\nlidl 0\n".as_slice();
        let (found, host) = failed(alloc, b"".as_slice(), script, call)?;
        assert_eq!(rt; found, end, "at {call}");
        // nothing is given where line 0 fails
        assert!(rt; call > 3 || host.output().is_empty());
        Sheet::new(alloc, ready)?.check(&rt, alloc, host.image(0))?;
    }
    Ok(())
}

const NO_SPACE: &str = "TPENOENT";

const NO_QUEUE: &str = "TPEDIAGNOSTIC QMEBADQUEUE";

const NO_MESSAGE: &str = "TPEDIAGNOSTIC QMENOMSG";

const MESSAGE: &str = "OK data=\"a\" urcode=0";

// From one call to another: the end where it fails, and what a dequeue of the next run is answered.
const CALLS: [(u64, u64, End, &str); 16] = [
    // attach, sync, length, six reads, the next epoch in five calls, line 0, the script, its end
    (0, 14, End::Stop(Status::DeviceFault), NO_SPACE),
    (14, 15, End::Stop(Status::WriteFault), NO_SPACE),
    (15, 17, End::Stop(Status::ReadFault), NO_SPACE),
    // the length in four calls, the first page in two, the table in four
    (17, 26, End::Down, NO_SPACE),
    (26, 27, End::Down, NO_QUEUE),
    (27, 28, End::Stop(Status::WriteFault), NO_QUEUE),
    // each record in two calls, and its gate in two
    (28, 31, End::Down, NO_QUEUE),
    (31, 32, End::Down, NO_MESSAGE),
    (32, 33, End::Stop(Status::WriteFault), NO_MESSAGE),
    (33, 36, End::Down, NO_MESSAGE),
    (36, 37, End::Down, MESSAGE),
    (37, 38, End::Stop(Status::WriteFault), MESSAGE),
    (38, 41, End::Down, MESSAGE),
    (41, 42, End::Down, NO_MESSAGE),
    (42, 43, End::Stop(Status::WriteFault), NO_MESSAGE),
    (43, 44, End::Up, NO_MESSAGE),
];

const SPACE_LINES: &[u8] = b"qspacecreate S dev=0 pages=64 queues=4 trans=4 msgs=16 error=- memory=0
qcreate S Q
tpenqueue 1 S Q data=\"a\"
tpdequeue 1 S Q
";

// A run over what is left is ready, and answers a dequeue so.
fn check_left(
    rt: &impl Abort,
    alloc: Global,
    image: &[u8],
    answer: &str,
) -> Result<(), AllocError> {
    let mut host = outside(alloc, image, b"tpdequeue 1 S Q".as_slice(), 64)?;
    assert!(rt; run(alloc, &run_words(alloc)?, &mut host) == Status::Done);
    let line = format!(in alloc; "\n1 {answer}\n")?;
    assert!(rt;
        host.output()
            .starts_with(b"0 READY site=1 epoch=".as_slice())
    );
    assert!(rt; host.output().ends_with(line.as_bytes()), "{line}");
    Ok(())
}

#[test]
fn what_a_failed_line_leaves_is_read(rt: HostRuntime) -> Result<(), Fail> {
    let alloc = rt.alloc();
    let image = made(&rt, alloc, 64)?;
    for (from, to, end, answer) in CALLS {
        for call in from..to {
            let (found, host) = failed(alloc, &image, SPACE_LINES, call)?;
            assert_eq!(rt; found, end, "at {call}");
            check_left(&rt, alloc, host.image(0), answer)?;
        }
    }
    Ok(())
}

#[test]
fn a_run_goes_no_further_than_its_fuse(rt: HostRuntime) -> Result<(), Fail> {
    let alloc = rt.alloc();
    let words = run_words(alloc)?;
    let image = made(&rt, alloc, 64)?;
    for (calls, _to, end, answer) in CALLS {
        // what is down gives no answer
        let wanted = match end {
            End::Stop(status) => status,
            End::Down => Status::WriteFault,
            End::Up => Status::Done,
        };
        let mut host = FuseHost::new(outside(alloc, &image, SPACE_LINES, 4096)?, calls);
        assert!(rt; run(alloc, &words, &mut host) == wanted, "at {calls}");
        check_left(&rt, alloc, host.into_inner().image(0), answer)?;
    }
    Ok(())
}

#[test]
fn each_failing_kind_has_its_status(rt: HostRuntime) -> Result<(), Fail> {
    let alloc = rt.alloc();
    let words = run_words(alloc)?;
    let image = Sheet::of(alloc, MADE, &[SPACE])?.check(&rt, alloc, &made(&rt, alloc, 64)?)?;
    let ready = "0 READY site=1 epoch=3 spaces=1 indoubt=0\n";
    let listed = "1 OK clusters=64 free=58 spaces=1\n  S number=8 pages=64 extents=4+2\n";
    let both = format!(in alloc; "{ready}{listed}")?;
    // the status, the output, and the epoch that a later run finds
    let rows = [
        (CallKind::Attach, 0, Status::DeviceFault, "", 3),
        (CallKind::Length, 0, Status::DeviceFault, "", 3),
        // the device, and then the space: its first page, the base and the log
        (CallKind::Read, 0, Status::DeviceFault, "", 3),
        (CallKind::Read, 6, Status::DeviceFault, "", 3),
        (CallKind::Read, 7, Status::DeviceFault, "", 3),
        (CallKind::Read, 8, Status::DeviceFault, "", 3),
        (CallKind::Read, 9, Status::Done, both.as_str(), 4),
        (CallKind::SetLength, 0, Status::Done, both.as_str(), 4),
        (CallKind::Write, 0, Status::DeviceFault, "", 3),
        (CallKind::Sync, 0, Status::DeviceFault, "", 3),
        (CallKind::Take, 0, Status::ReadFault, ready, 4),
        (CallKind::Give, 0, Status::WriteFault, "", 4),
    ];
    for (kind, nth, status, output, epoch) in rows {
        let mut host = outside(alloc, &image, b"lidl 0\n".as_slice(), 64)?;
        host.fail_kind(kind, nth)?;
        assert!(rt; run(alloc, &words, &mut host) == status, "{kind:?} {nth}");
        assert_eq!(rt; str::from_utf8(host.output()), Ok(output), "{kind:?} {nth}");
        let later = format!(in alloc; "READY site=1 epoch={epoch} spaces=1 indoubt=0")?;
        Sheet::new(alloc, &later)?.check(&rt, alloc, host.image(0))?;
    }
    Ok(())
}
