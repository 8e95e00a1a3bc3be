//! A space in the holes of a removed one, and each stop on the way there.

use super::{BLANK, Sheet, outside, run_words};
use std::alloc::{AllocError, Global};
use std::process::Abort;
use std::test::Fail;
use tq_host::{FuseHost, MemHost};
use tq_run::{Status, run};

// Two spaces with a message each; the first one goes, and a longer one comes.
const SCRIPT: &[u8] = b"qspacecreate A dev=0 pages=48 queues=1 trans=1 msgs=1 error=- memory=0
qspacecreate B dev=0 pages=48 queues=1 trans=1 msgs=1 error=- memory=0
qcreate A Q
qcreate B Q
tpenqueue 1 A Q data=\"a\"
tpenqueue 1 B Q data=\"b\"
qspacedestroy A force=yes
qspacecreate C dev=0 pages=96 queues=1 trans=1 msgs=1 error=- memory=0
";

// What a second run finds.
const QUESTIONS: &[u8] = b"lidl 0
tpdequeue 1 A Q
tpdequeue 1 B Q
";

// Its answers behind line 0, by the lines that the first run did.
const FOUND: [&[u8]; 9] = [
    b"1 OK clusters=16 free=12 spaces=0
2 TPENOENT
3 TPENOENT
",
    b"1 OK clusters=16 free=10 spaces=1
  A number=8 pages=48 extents=4+2
2 TPEDIAGNOSTIC QMEBADQUEUE
3 TPENOENT
",
    b"1 OK clusters=16 free=8 spaces=2
  A number=8 pages=48 extents=4+2
  B number=16 pages=48 extents=6+2
2 TPEDIAGNOSTIC QMEBADQUEUE
3 TPEDIAGNOSTIC QMEBADQUEUE
",
    b"1 OK clusters=16 free=8 spaces=2
  A number=8 pages=48 extents=4+2
  B number=16 pages=48 extents=6+2
2 TPEDIAGNOSTIC QMENOMSG
3 TPEDIAGNOSTIC QMEBADQUEUE
",
    b"1 OK clusters=16 free=8 spaces=2
  A number=8 pages=48 extents=4+2
  B number=16 pages=48 extents=6+2
2 TPEDIAGNOSTIC QMENOMSG
3 TPEDIAGNOSTIC QMENOMSG
",
    b"1 OK clusters=16 free=8 spaces=2
  A number=8 pages=48 extents=4+2
  B number=16 pages=48 extents=6+2
2 OK data=\"a\" urcode=0
3 TPEDIAGNOSTIC QMENOMSG
",
    b"1 OK clusters=16 free=8 spaces=2
  A number=8 pages=48 extents=4+2
  B number=16 pages=48 extents=6+2
2 OK data=\"a\" urcode=0
3 OK data=\"b\" urcode=0
",
    b"1 OK clusters=16 free=10 spaces=1
  B number=16 pages=48 extents=6+2
2 TPENOENT
3 OK data=\"b\" urcode=0
",
    b"1 OK clusters=16 free=7 spaces=2
  C number=24 pages=96 extents=4+2,8+1
  B number=16 pages=48 extents=6+2
2 TPENOENT
3 OK data=\"b\" urcode=0
",
];

// What a second run over this image answers behind line 0; nothing where it is not done.
fn found(alloc: Global, image: &[u8]) -> Result<Vec<u8>, AllocError> {
    let mut host = outside(alloc, image, QUESTIONS, 4096)?;
    if run(alloc, &run_words(alloc)?, &mut host) != Status::Done {
        return Ok(Vec::new(alloc));
    }
    let output = host.output();
    let ready = output.iter().position(|byte| *byte == b'\n').unwrap_or(0);
    Vec::from_slice(alloc, output.get(ready.wrapping_add(1)..).unwrap_or(b""))
}

// How many lines behind line 0 an output says to be done.
fn count_done(output: &[u8]) -> usize {
    let mut lines = 0usize;
    for line in output.split(|byte| *byte == b'\n') {
        let failed = line.ends_with(b" TPESYSTEM".as_slice());
        if !line.is_empty() && !failed && !line.starts_with(b"0 ".as_slice()) {
            lines = lines.wrapping_add(1);
        }
    }
    lines
}

// A second run finds the lines that were answered, or one more.
fn check_found(
    rt: &impl Abort,
    alloc: Global,
    host: &MemHost,
    call: u64,
) -> Result<usize, AllocError> {
    let done = count_done(host.output());
    let found = found(alloc, host.image(0))?;
    let is_done = FOUND
        .get(done)
        .map_or(false, |wanted| found.as_slice() == *wanted);
    let is_ahead = FOUND
        .get(done.wrapping_add(1))
        .map_or(false, |wanted| found.as_slice() == *wanted);
    assert!(rt; is_done || is_ahead, "at {call}");
    Ok(done)
}

// Each of these calls fails alone, and is the first of those that fail. Answers the lines that were done where the last one of them did.
fn check_calls(rt: &impl Abort, alloc: Global, from: u64, to: u64) -> Result<usize, AllocError> {
    let words = run_words(alloc)?;
    let rows = [("crdl 0 16 site=1", "OK clusters=16 free=12")];
    let image = Sheet::of(alloc, BLANK, &rows)?.check(rt, alloc, b"")?;
    let mut done = 0;
    for call in from..to {
        let mut host = outside(alloc, &image, SCRIPT, 4096)?;
        host.fail_at(call)?;
        let _status = run(alloc, &words, &mut host);
        done = check_found(rt, alloc, &host, call)?;
        let mut host = FuseHost::new(outside(alloc, &image, SCRIPT, 4096)?, call);
        let _status = run(alloc, &words, &mut host);
        check_found(rt, alloc, &host.into_inner(), call)?;
    }
    Ok(done)
}

#[test]
fn stops_from_the_start_leave_whole_lines(rt: HostRuntime) -> Result<(), Fail> {
    check_calls(&rt, rt.alloc(), 0, 13)?;
    Ok(())
}

#[test]
fn stops_in_the_first_creations_leave_whole_lines(rt: HostRuntime) -> Result<(), Fail> {
    check_calls(&rt, rt.alloc(), 13, 26)?;
    Ok(())
}

#[test]
fn stops_before_the_queues_leave_whole_lines(rt: HostRuntime) -> Result<(), Fail> {
    check_calls(&rt, rt.alloc(), 26, 39)?;
    Ok(())
}

#[test]
fn stops_among_messages_leave_whole_lines(rt: HostRuntime) -> Result<(), Fail> {
    check_calls(&rt, rt.alloc(), 39, 52)?;
    Ok(())
}

#[test]
fn stops_in_a_removal_leave_whole_lines(rt: HostRuntime) -> Result<(), Fail> {
    check_calls(&rt, rt.alloc(), 52, 65)?;
    Ok(())
}

#[test]
fn stops_in_a_creation_in_holes_leave_whole_lines(rt: HostRuntime) -> Result<(), Fail> {
    // from call 75 on all lines are done
    let done = check_calls(&rt, rt.alloc(), 65, 78)?;
    assert_eq!(rt; done, 8);
    Ok(())
}
