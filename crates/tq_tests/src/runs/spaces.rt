//! Several spaces on one device: where they lie, what they keep apart, and what a removal leaves.

use super::faults::{changed, check_bytes, check_written};
use super::serial::Serial;
use super::{BLANK, MADE, Sheet, made, outside, run_words};
use std::alloc::{AllocError, Global};
use std::process::Abort;
use std::test::Fail;
use tq_host::{FuseHost, MemHost};
use tq_run::{Status, run};

const THREE_LISTED: &str = "OK clusters=64 free=53 spaces=3
  A number=8 pages=64 extents=4+2
  B number=16 pages=96 extents=6+3
  C number=24 pages=64 extents=9+2";

const TWO_LISTED: &str = "OK clusters=64 free=56 spaces=2
  A number=8 pages=64 extents=4+2
  C number=24 pages=64 extents=9+2";

const NEW_LISTED: &str = "OK clusters=64 free=51 spaces=3
  A number=8 pages=64 extents=4+2
  D number=32 pages=160 extents=6+3,11+2
  C number=24 pages=64 extents=9+2";

// What is taken out of the other two spaces afterwards, behind a listing.
const KEPT: &str = "
2 OK data=\"a\" urcode=0
3 OK data=\"c\" urcode=0
";

const REMOVAL: &str = "qspacedestroy B force=yes";

const CREATION: &str = "qspacecreate D dev=0 pages=160 queues=4 trans=4 msgs=16 error=- memory=0";

// A device with three spaces, each with a queue and a message in it.
fn with_three(rt: &impl Abort, alloc: Global) -> Result<Vec<u8>, AllocError> {
    let rows = [
        (
            "qspacecreate A dev=0 pages=64 queues=4 trans=4 msgs=16 error=- memory=0",
            "OK number=8 overhead=45 pages=64",
        ),
        (
            "qspacecreate B dev=0 pages=96 queues=4 trans=4 msgs=16 error=- memory=0",
            "OK number=16 overhead=45 pages=96",
        ),
        (
            "qspacecreate C dev=0 pages=64 queues=4 trans=4 msgs=16 error=- memory=0",
            "OK number=24 overhead=45 pages=64",
        ),
        ("lidl 0", THREE_LISTED),
        ("qcreate A Q", "OK"),
        ("qcreate B Q", "OK"),
        ("tpenqueue 1 C Q data=\"c\"", "TPEDIAGNOSTIC QMEBADQUEUE"),
        ("qcreate C Q", "OK"),
        (
            "tpenqueue 1 A Q flags=TPQMSGID data=\"a\"",
            "OK msgid=1.8.2.0",
        ),
        (
            "tpenqueue 1 B Q flags=TPQMSGID data=\"b\"",
            "OK msgid=1.16.2.1",
        ),
        (
            "tpenqueue 1 C Q flags=TPQMSGID data=\"c\"",
            "OK msgid=1.24.2.2",
        ),
    ];
    Sheet::of(alloc, MADE, &rows)?.check(rt, alloc, &made(rt, alloc, 64)?)
}

#[test]
fn the_clusters_of_a_removed_space_are_used_again(rt: HostRuntime) -> Result<(), Fail> {
    let alloc = rt.alloc();
    let rows = [
        ("lidl 0", THREE_LISTED),
        ("qspacedestroy B", "NOTEMPTY messages=1"),
        ("qspacedestroy b force=yes", "TPENOENT"),
        (REMOVAL, "OK"),
        (REMOVAL, "TPENOENT"),
        ("tpdequeue 1 B Q", "TPENOENT"),
        ("lidl 0", TWO_LISTED),
        (CREATION, "OK number=32 overhead=45 pages=160"),
        ("lidl 0", NEW_LISTED),
        // nothing of the removed space is there
        ("tpdequeue 1 D Q", "TPEDIAGNOSTIC QMEBADQUEUE"),
        ("qcreate D Q", "OK"),
        ("tpdequeue 1 D Q", "TPEDIAGNOSTIC QMENOMSG"),
        (
            "tpenqueue 1 D Q flags=TPQMSGID data=\"d\"",
            "OK msgid=1.32.3.0",
        ),
        ("boot", "READY site=1 epoch=4 spaces=3 indoubt=0"),
        ("lidl 0", NEW_LISTED),
    ];
    let ready = "READY site=1 epoch=3 spaces=3 indoubt=0";
    let image = Sheet::of(alloc, ready, &rows)?.check(&rt, alloc, &with_three(&rt, alloc)?)?;
    let rows = [
        ("lidl 0", NEW_LISTED),
        ("tpdequeue 1 D Q", "OK data=\"d\" urcode=0"),
        ("tpdequeue 1 D Q", "TPEDIAGNOSTIC QMENOMSG"),
        ("tpdequeue 1 C Q", "OK data=\"c\" urcode=0"),
        ("dsdl 0", "NOTEMPTY spaces=3"),
        ("qspacedestroy A", "NOTEMPTY messages=1"),
        ("tpdequeue 1 A Q", "OK data=\"a\" urcode=0"),
        ("qspacedestroy A", "OK"),
        ("qspacedestroy C", "OK"),
        (
            "lidl 0",
            "OK clusters=64 free=55 spaces=1\n  D number=32 pages=160 extents=6+3,11+2",
        ),
    ];
    let ready = "READY site=1 epoch=5 spaces=3 indoubt=0";
    Sheet::of(alloc, ready, &rows)?.check(&rt, alloc, &image)?;
    Ok(())
}

#[test]
fn a_device_has_sixteen_spaces(rt: HostRuntime) -> Result<(), Fail> {
    let alloc = rt.alloc();
    let mut sheet = Sheet::new(alloc, MADE)?;
    for at in 1u64..17 {
        let number = at.wrapping_mul(8);
        sheet.add(
            &format!(in alloc;
                "qspacecreate S{at} dev=0 pages=46 queues=4 trans=4 msgs=16 error=- memory=0"
            )?,
            &format!(in alloc; "OK number={number} overhead=45 pages=46")?,
        )?;
    }
    // the table is full before clusters are lacking
    let rows = [
        (
            "qspacecreate T dev=0 pages=46 queues=4 trans=4 msgs=16 error=- memory=0",
            "TABLEFULL",
        ),
        (
            "qspacecreate T dev=0 pages=8192 queues=4 trans=4 msgs=16 error=- memory=0",
            "TABLEFULL",
        ),
        (
            "qspacecreate T dev=0 pages=45 queues=4 trans=4 msgs=16 error=- memory=0",
            "SMALL overhead=45 pages=45",
        ),
        (
            "qspacecreate S9 dev=0 pages=46 queues=4 trans=4 msgs=16 error=- memory=0",
            "TAKEN",
        ),
        ("boot", "READY site=1 epoch=3 spaces=16 indoubt=0"),
        ("qspacedestroy S9", "OK"),
        (
            "qspacecreate T dev=0 pages=97 queues=4 trans=4 msgs=16 error=- memory=0",
            "LACK need=4 free=3",
        ),
        (
            "qspacecreate T dev=0 pages=65 queues=4 trans=4 msgs=16 error=- memory=0",
            "OK number=136 overhead=45 pages=65",
        ),
        (
            "qspacecreate U dev=0 pages=46 queues=4 trans=4 msgs=16 error=- memory=0",
            "TABLEFULL",
        ),
        ("boot", "READY site=1 epoch=4 spaces=16 indoubt=0"),
    ];
    for (line, answer) in rows {
        sheet.add(line, answer)?;
    }
    sheet.check(&rt, alloc, &made(&rt, alloc, 37)?)?;
    Ok(())
}

#[test]
fn a_device_is_made_blank(rt: HostRuntime) -> Result<(), Fail> {
    let alloc = rt.alloc();
    let rows = [
        ("dsdl 0", "NOTCREATED"),
        ("dsdl 1", "NODEVICE"),
        ("dsdl 0 1", "SYNTAX column=8"),
        ("qspacedestroy S", "TPENOENT"),
        ("crdl 0 64", "OK clusters=64 free=60"),
        (
            "qspacecreate S dev=0 pages=46 queues=4 trans=4 msgs=16 error=- memory=0",
            "OK number=8 overhead=45 pages=46",
        ),
        ("dsdl 0", "NOTEMPTY spaces=1"),
        ("qspacedestroy S force=no", "SYNTAX column=17"),
        ("qspacedestroy S", "OK"),
        ("dsdl 0", "OK"),
        ("lidl 0", "NOTCREATED"),
        ("boot", BLANK),
        ("crdl 0 8 site=7", "OK clusters=8 free=4"),
        (
            "qspacecreate S dev=0 pages=46 queues=4 trans=4 msgs=16 error=- memory=0",
            "OK number=8 overhead=45 pages=46",
        ),
        ("boot", "READY site=7 epoch=2 spaces=1 indoubt=0"),
        ("qspacedestroy S", "OK"),
        ("dsdl 0", "OK"),
    ];
    let image = Sheet::of(alloc, BLANK, &rows)?.check(&rt, alloc, b"")?;
    assert!(rt; image.is_empty());
    Sheet::new(alloc, BLANK)?.check(&rt, alloc, &image)?;
    Ok(())
}

// Three spaces, the second of them in the clusters that a removed one had and in two more.
fn with_a_new_one(rt: &impl Abort, alloc: Global) -> Result<Vec<u8>, AllocError> {
    let rows = [
        (REMOVAL, "OK"),
        (CREATION, "OK number=32 overhead=45 pages=160"),
    ];
    let ready = "READY site=1 epoch=3 spaces=3 indoubt=0";
    Sheet::of(alloc, ready, &rows)?.check(rt, alloc, &with_three(rt, alloc)?)
}

// Bytes of the table of these spaces, A, D and C: what goes together of two of them.
const TABLE: &[u8] = b"# two of one name; the name of none
042178 - 41
042178 - 43
042178 + 42
# two of one ordinal; one that none has, one that is not given yet
042308 - 00000001
042308 - 00000003
042308 + 00000002
042308 - 00000005
# pages for which its clusters are too few, or too many
042312 - 000000a1
042312 + 00000081
042312 - 00000080
# an entry less; an extent less, one more
042176 - 00
042316 - 00000001
042316 - 00000003
# clusters of the header, of A, of C twice, of C and of none, past the device's end, past its clusters
044580 - 0003
044580 - 0005
044580 - 0007
044580 - 0008
044584 - 000a
044584 - 000c
044584 - 003f
# an extent of no cluster, of one that C has
044582 - 0000
044582 - 0004
";

#[test]
fn spaces_that_do_not_go_together_are_damage(rt: HostRuntime) -> Result<(), Fail> {
    let alloc = rt.alloc();
    let image = with_a_new_one(&rt, alloc)?;
    let written: [(usize, &[u8]); 4] = [
        (42_016, b"\x01\x01A"),
        (42_176, b"\x01\x01D"),
        (42_308, b"\0\0\0\x04\0\0\0\xa0\0\0\0\x02"),
        (
            44_576,
            b"\0\x04\0\x02\0\x06\0\x03\0\x0b\0\x02\0\x09\0\x02\0\0",
        ),
    ];
    check_written(&rt, &image, &written);
    check_bytes(&rt, alloc, &image, TABLE)?;
    Ok(())
}

// Extents that could be one, and extents in no order, with the space's bytes where these lie.
#[test]
fn extents_of_any_form_are_read(rt: HostRuntime) -> Result<(), Fail> {
    let alloc = rt.alloc();
    let image = with_a_new_one(&rt, alloc)?;
    let split = changed(alloc, &image, 42_476, b"\0\0\0\x02")?;
    let split = changed(alloc, &split, 44_588, b"\0\x09\0\x01\0\x0a\0\x01")?;
    let listing = "OK clusters=64 free=51 spaces=3
  A number=8 pages=64 extents=4+2
  D number=32 pages=160 extents=6+3,11+2
  C number=24 pages=64 extents=9+1,10+1";
    assert!(rt; lists(alloc, &split, listing, KEPT)?);
    let mut turned = changed(alloc, &image, 44_580, b"\0\x0b\0\x02\0\x06\0\x03")?;
    for (from, to) in [(6usize, 11usize), (7, 12), (8, 6), (11, 7), (12, 8)] {
        let at = from.wrapping_mul(32_768);
        let cluster = image.get(at..at.wrapping_add(32_768)).unwrap_or(b"");
        turned = changed(alloc, &turned, to.wrapping_mul(32_768), cluster)?;
    }
    let listing = "OK clusters=64 free=51 spaces=3
  A number=8 pages=64 extents=4+2
  D number=32 pages=160 extents=11+2,6+3
  C number=24 pages=64 extents=9+2";
    assert!(rt; lists(alloc, &turned, listing, KEPT)?);
    Ok(())
}

// What a run over this image lists of the device, and then takes out of two spaces.
fn listed(alloc: Global, image: &[u8]) -> Result<Vec<u8>, AllocError> {
    let script = b"lidl 0\ntpdequeue 1 A Q\ntpdequeue 1 C Q\n".as_slice();
    let mut host = outside(alloc, image, script, 64)?;
    if run(alloc, &run_words(alloc)?, &mut host) != Status::Done {
        return Ok(Vec::new(alloc));
    }
    Vec::from_slice(alloc, host.output())
}

// Whether a run over this image lists this, and then takes out what was kept.
fn lists(alloc: Global, image: &[u8], listing: &str, kept: &str) -> Result<bool, AllocError> {
    let text = listed(alloc, image)?;
    Ok(text.ends_with(format!(in alloc; "\n1 {listing}{kept}")?.as_bytes()))
}

// What a line left that did not have to end: the device as it was, or as the line makes it, with the
// messages of the other spaces.
fn check_either(
    rt: &impl Abort,
    alloc: Global,
    host: &MemHost,
    old: &str,
    new: &str,
    kept: &str,
    call: u64,
) -> Result<bool, AllocError> {
    let is_new = lists(alloc, host.image(0), new, kept)?;
    assert!(rt;
        is_new || lists(alloc, host.image(0), old, kept)?,
        "at {call}"
    );
    // an answer that was given holds
    let is_done = host.output().ends_with(b"\n1 OK\n".as_slice());
    assert!(rt; is_new || !is_done, "at {call}");
    Ok(is_new)
}

// A line that stops, or in which a device fails, at each of these calls: first the device is as it was, and
// from some call on it is as the line makes it.
fn check_line(
    rt: &impl Abort,
    alloc: Global,
    image: &[u8],
    line: &str,
    old: &str,
    new: &str,
    kept: &str,
    calls: (u64, u64),
) -> Result<(), AllocError> {
    let mut done = false;
    for call in calls.0..calls.1 {
        let mut host = FuseHost::new(outside(alloc, image, line.as_bytes(), 4096)?, call);
        let _status = run(alloc, &run_words(alloc)?, &mut host);
        let is_new = check_either(rt, alloc, &host.into_inner(), old, new, kept, call)?;
        assert!(rt; is_new || !done, "at {call}");
        done = is_new;
        let mut host = outside(alloc, image, line.as_bytes(), 4096)?;
        host.fail_at(call)?;
        let _status = run(alloc, &run_words(alloc)?, &mut host);
        check_either(rt, alloc, &host, old, new, kept, call)?;
    }
    assert!(rt; done);
    Ok(())
}

#[test]
fn a_stop_leaves_a_removed_space_or_the_space(rt: HostRuntime) -> Result<(), Fail> {
    let alloc = rt.alloc();
    let image = with_three(&rt, alloc)?;
    // line 0, the script and its end, the table in four calls, the answer
    check_line(
        &rt,
        alloc,
        &image,
        REMOVAL,
        THREE_LISTED,
        TWO_LISTED,
        KEPT,
        (24, 34),
    )?;
    Ok(())
}

#[test]
fn a_stop_leaves_a_space_in_old_clusters_or_none(rt: HostRuntime) -> Result<(), Fail> {
    let alloc = rt.alloc();
    let ready = "READY site=1 epoch=3 spaces=3 indoubt=0";
    let image = Sheet::of(alloc, ready, &[(REMOVAL, "OK")])?.check(
        &rt,
        alloc,
        &with_three(&rt, alloc)?,
    )?;
    // line 0, the script and its end, the length, the first page, the table, the answer
    check_line(
        &rt,
        alloc,
        &image,
        CREATION,
        TWO_LISTED,
        NEW_LISTED,
        KEPT,
        (20, 38),
    )?;
    Ok(())
}

#[test]
fn a_stop_leaves_a_device_or_a_blank_one(rt: HostRuntime) -> Result<(), Fail> {
    let alloc = rt.alloc();
    let image = made(&rt, alloc, 64)?;
    let old = "OK clusters=64 free=60 spaces=0";
    // line 0, the script and its end, two lengths and their syncs, the answer
    let kept = "\n2 TPENOENT\n3 TPENOENT\n";
    check_line(
        &rt,
        alloc,
        &image,
        "dsdl 0",
        old,
        "NOTCREATED",
        kept,
        (14, 24),
    )?;
    Ok(())
}

const RUNS: [&[u8]; 2] = [
    b"crdl 0 24
qspacecreate A dev=0 pages=64 queues=2 trans=4 msgs=3 error=E memory=9
qspacecreate B dev=0 pages=40 queues=2 trans=4 msgs=3 error=E memory=9
qspacecreate C dev=0 pages=128 queues=2 trans=4 msgs=3 error=E memory=9
qspacecreate D dev=0 pages=40 queues=2 trans=4 msgs=3 error=E memory=9
qspacecreate E dev=0 pages=320 queues=2 trans=4 msgs=3 error=E memory=9
qspacecreate B dev=0 pages=40 queues=2 trans=4 msgs=3 error=E memory=9
lidl 0
qcreate A Q
qcreate B Q
qcreate C Q
qcreate C R
tpenqueue 1 A Q flags=TPQMSGID data=\"a\"
tpenqueue 1 B Q flags=TPQMSGID data=\"b\"
tpenqueue 1 C R flags=TPQMSGID data=\"r\"
tpenqueue 1 C Q flags=TPQMSGID data=\"c\"
tpdequeue 1 A R
tpdequeue 1 A Q
tpdequeue 1 B R
dsdl 0
qspacedestroy A
qspacedestroy C
qspacedestroy C force=yes
qspacedestroy F force=yes
qspacedestroy A force=YES
qspacedestroy
lidl 0
qspacecreate E dev=0 pages=320 queues=2 trans=4 msgs=3 error=E memory=9
lidl 0
qcreate E Q
tpdequeue 1 E Q
tpenqueue 1 E Q flags=TPQMSGID data=\"e\"
boot
tpdequeue 1 B Q flags=TPQMSGID
",
    b"lidl 0
tpdequeue 1 E Q flags=TPQMSGID
tpdequeue 1 E Q
tpdequeue 1 B Q
qspacedestroy E
qspacedestroy B
qspacecreate F dev=0 pages=384 queues=2 trans=4 msgs=3 error=E memory=9
lidl 0
dsdl 0
qspacedestroy F
qspacedestroy D
dsdl 0
dsdl 0
lidl 0
boot
crdl 0 5
qspacecreate A dev=0 pages=32 queues=1 trans=1 msgs=1 error=- memory=0
lidl 0
",
];

#[test]
fn runs_over_several_spaces_give_the_machine_s_text(rt: HostRuntime) -> Result<(), Fail> {
    let alloc = rt.alloc();
    let words = run_words(alloc)?;
    let mut serial = Serial::new(alloc)?;
    let mut image = Vec::new(alloc);
    for script in RUNS {
        let mut host = outside(alloc, &image, script, 5)?;
        assert!(rt; run(alloc, &words, &mut host) == Status::Done);
        let text = serial.run(alloc, script)?;
        assert_eq!(rt; str::from_utf8(host.output()), str::from_utf8(&text));
        image = Vec::from_slice(alloc, host.image(0))?;
    }
    Ok(())
}
