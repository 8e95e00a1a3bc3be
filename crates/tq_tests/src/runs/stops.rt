//! Runs that stop or fail at a call, and what the next boot finds.

use super::serial::Serial;
use super::{BLANK, MADE, SPACE, Sheet, made, outside, run_words};
use std::alloc::{AllocError, Global};
use std::fmt::Write;
use std::process::Abort;
use std::test::Fail;
use tq_host::{CallKind, FuseHost, MemHost};
use tq_model::{Answer, Request};
use tq_run::{Status, run};
use tq_script::parse;

// What a dequeue is answered after none of the lines but the first, after two, after three and after all.
const ANSWERS: [&str; 4] = [
    "TPENOENT",
    "TPEDIAGNOSTIC QMEBADQUEUE",
    "TPEDIAGNOSTIC QMENOMSG",
    "OK data=\"a\" urcode=0",
];

// Which of these answers a dequeue of a run over this image gets; their number where none.
fn answer_over(alloc: Global, image: &[u8]) -> Result<usize, AllocError> {
    let mut host = outside(alloc, image, b"tpdequeue 1 S Q".as_slice(), 64)?;
    if run(alloc, &run_words(alloc)?, &mut host) != Status::Done {
        return Ok(ANSWERS.len());
    }
    for (at, answer) in ANSWERS.iter().enumerate() {
        if host
            .output()
            .ends_with(format!(in alloc; "\n1 {answer}\n")?.as_bytes())
        {
            return Ok(at);
        }
    }
    Ok(ANSWERS.len())
}

// How many lines an output has.
fn count_lines(output: &[u8]) -> usize {
    let mut count = 0usize;
    for byte in output {
        if *byte == b'\n' {
            count = count.wrapping_add(1);
        }
    }
    count
}

// A run that stops after so many calls leaves what its answered lines did, or one line more. Line 0 changes
// no answer of a dequeue.
fn check_stop(
    rt: &impl Abort,
    alloc: Global,
    image: &[u8],
    script: &[u8],
    calls: u64,
) -> Result<usize, AllocError> {
    let mut host = FuseHost::new(outside(alloc, image, script, 4096)?, calls);
    let _status = run(alloc, &run_words(alloc)?, &mut host);
    let host = host.into_inner();
    let lines = count_lines(host.output());
    let at = answer_over(alloc, host.image(0))?;
    assert!(rt; at < ANSWERS.len(), "at {calls}");
    assert!(rt; lines.saturating_sub(1) <= at, "at {calls}");
    assert!(rt; at <= lines, "at {calls}");
    Ok(lines)
}

#[test]
fn a_stop_within_a_creation_leaves_a_device_or_none(rt: HostRuntime) -> Result<(), Fail> {
    let alloc = rt.alloc();
    let script = b"crdl 0 64 site=1\n".as_slice();
    // up to the last length the device is blank
    let rows = [
        (6u64, BLANK),
        (7, BLANK),
        (8, BLANK),
        (72, BLANK),
        (136, BLANK),
        (137, BLANK),
        (138, MADE),
        (139, MADE),
    ];
    for (calls, ready) in rows {
        let mut host = FuseHost::new(outside(alloc, b"".as_slice(), script, 4096)?, calls);
        let status = run(alloc, &run_words(alloc)?, &mut host);
        assert!(rt; status == Status::WriteFault, "at {calls}");
        let host = host.into_inner();
        let begun = format!(in alloc; "0 {BLANK}\n")?;
        assert!(rt; host.output() == begun.as_bytes(), "at {calls}");
        Sheet::new(alloc, ready)?.check(&rt, alloc, host.image(0))?;
    }
    Ok(())
}

// Each number of calls from one to another, over a device that was made.
fn check_stops(rt: &impl Abort, alloc: Global, from: u64, to: u64) -> Result<usize, AllocError> {
    let image = made(rt, alloc, 64)?;
    let mut lines = 0usize;
    for calls in from..to {
        lines = check_stop(rt, alloc, &image, LINES, calls)?;
    }
    Ok(lines)
}

const LINES: &[u8] = b"qspacecreate S dev=0 pages=64 queues=4 trans=4 msgs=16 error=- memory=0
qcreate S Q
tpenqueue 1 S Q flags=TPQMSGID data=\"a\"
";

#[test]
fn a_stop_leaves_a_space_or_none(rt: HostRuntime) -> Result<(), Fail> {
    let alloc = rt.alloc();
    assert!(rt; check_stops(&rt, alloc, 9, 28)? == 1);
    Ok(())
}

#[test]
fn a_stop_leaves_a_message_or_none(rt: HostRuntime) -> Result<(), Fail> {
    let alloc = rt.alloc();
    assert!(rt; check_stops(&rt, alloc, 28, 39)? == 4);
    Ok(())
}

#[test]
fn a_boot_brings_the_site_back(rt: HostRuntime) -> Result<(), Fail> {
    let alloc = rt.alloc();
    let rows = [
        // the sync of the record of the enqueue, and that of its gate
        (11, "TPEDIAGNOSTIC QMENOMSG"),
        (12, "OK data=\"a\" urcode=0"),
    ];
    for (nth, answer) in rows {
        let rows = [
            ("crdl 0 64", "OK clusters=64 free=60"),
            SPACE,
            ("qcreate S Q", "OK"),
            ("tpenqueue 1 S Q data=\"a\"", "TPESYSTEM"),
            ("tpenqueue 1 S Q data=\"b\"", "TPESYSTEM"),
            ("tpdequeue 1 S Q", "TPESYSTEM"),
            ("lidl 0", "TPESYSTEM"),
            ("lidl 9", "SYNTAX column=6"),
            ("# a comment", "OK"),
            ("", "OK"),
            ("boot", "READY site=1 epoch=2 spaces=1 indoubt=0"),
            ("tpdequeue 1 S Q", answer),
            (
                "tpenqueue 1 S Q flags=TPQMSGID data=\"c\"",
                "OK msgid=1.8.2.0",
            ),
            ("tpdequeue 1 S Q", "OK data=\"c\" urcode=0"),
        ];
        let sheet = Sheet::of(alloc, BLANK, &rows)?;
        let mut host = outside(alloc, b"".as_slice(), sheet.script.as_bytes(), 4096)?;
        host.fail_kind(CallKind::Sync, nth)?;
        assert!(rt; run(alloc, &run_words(alloc)?, &mut host) == Status::Done);
        assert_eq!(rt; str::from_utf8(host.output()), Ok(sheet.output.as_str()));
    }
    Ok(())
}

#[test]
fn no_boot_raises_the_last_epoch(rt: HostRuntime) -> Result<(), Fail> {
    let alloc = rt.alloc();
    let rows = [
        ("crdl 0 64", "OK clusters=64 free=60"),
        SPACE,
        ("qcreate S Q", "OK"),
        ("tpenqueue 1 S Q data=\"a\"", "OK"),
    ];
    let mut image = Sheet::of(alloc, BLANK, &rows)?.check(&rt, alloc, b"")?;
    assert!(rt; image.len() == 196608);
    image[82948] = 255;
    image[82949] = 255;
    image[82950] = 255;
    image[82951] = 254;
    let rows = [
        ("tpdequeue 1 S Q", "OK data=\"a\" urcode=0"),
        (
            "tpenqueue 1 S Q flags=TPQMSGID data=\"b\"",
            "OK msgid=1.8.4294967295.0",
        ),
        ("boot", "DAMAGED 0"),
        ("lidl 0", "TPESYSTEM"),
        ("# a comment", "OK"),
        ("crdl 0 64", "TPESYSTEM"),
        ("boot", "DAMAGED 0"),
        ("tpdequeue 1 S Q", "TPESYSTEM"),
    ];
    let ready = "READY site=1 epoch=4294967295 spaces=1 indoubt=0";
    Sheet::of(alloc, ready, &rows)?.check(&rt, alloc, &image)?;
    Ok(())
}

// The machine over one run in which devices fail: down from then on, until a boot.
#[derive(Drop)]
struct Faulty {
    serial: Serial,
    down: bool,
}

impl Faulty {
    // One line; where a device fails in it, it may be done or not.
    fn turn(&mut self, request: &Request, fault: Option<bool>) -> Result<Answer, AllocError> {
        if let Some(done) = fault {
            if done {
                self.serial.step(request)?;
            }
            self.down = true;
            return Ok(Answer::SystemError);
        }
        match request {
            Request::Boot => self.down = false,
            Request::Nothing | Request::Bad(_) | Request::TooLong => (),
            Request::Device(_) | Request::Space(_) | Request::Call(_) => {
                if self.down {
                    return Ok(Answer::SystemError);
                }
            }
        }
        self.serial.step(request)
    }
}

// Lines in which a device fails, and whether they are done.
fn fault_in(faults: &[(u64, bool)], number: u64) -> Option<bool> {
    for (line, done) in faults {
        if *line == number {
            return Some(*done);
        }
    }
    None
}

const TURNS: [&str; 11] = [
    "qspacecreate S dev=0 pages=64 queues=4 trans=4 msgs=16 error=- memory=0",
    "boot",
    "qcreate S Q",
    "tpenqueue 1 S Q flags=TPQMSGID data=\"a\"",
    "# a comment",
    "boot",
    "tpenqueue 1 S Q flags=TPQMSGID data=\"b\"",
    "tpdequeue 1 S Q flags=TPQMSGID",
    "frob",
    "boot",
    "tpdequeue 1 S Q flags=TPQMSGID",
];

// The text of these lines over a device that was made, where devices fail in some.
fn text_of(alloc: Global, faults: &[(u64, bool)]) -> Result<Vec<u8>, AllocError> {
    let mut serial = Serial::new(alloc)?;
    serial.run(alloc, b"crdl 0 64".as_slice())?;
    let mut faulty = Faulty {
        serial,
        down: false,
    };
    let mut text = tq_print::answer(alloc, 0, &faulty.turn(&Request::Boot, None)?)?;
    let mut number = 1u64;
    for line in TURNS {
        let request = parse(alloc, line.as_bytes())?;
        let answer = faulty.turn(&request, fault_in(faults, number))?;
        text.extend_from_slice(&tq_print::answer(alloc, number, &answer)?)?;
        number = number.wrapping_add(1);
    }
    Ok(text)
}

// A run with these lines over such a device, in which these calls fail.
fn run_with(alloc: Global, image: &[u8], calls: &[u64]) -> Result<(Status, Vec<u8>), AllocError> {
    let mut script = String::new(alloc);
    for line in TURNS {
        write!(script, "{line}\n")?;
    }
    let mut host = outside(alloc, image, script.as_bytes(), 4096)?;
    for call in calls {
        host.fail_at(*call)?;
    }
    let status = run(alloc, &run_words(alloc)?, &mut host);
    Ok((status, Vec::from_slice(alloc, host.output())?))
}

// From a call on, so many, the line in which each fails, and whether that line is done then: the run goes
// on from before the line or after it.
fn check_turns(
    rt: &impl Abort,
    alloc: Global,
    rows: &[(u64, u64, u64, bool)],
) -> Result<(), AllocError> {
    let image = made(rt, alloc, 64)?;
    for (from, count, line, done) in rows {
        let wanted = text_of(alloc, &[(*line, *done)])?;
        for at in 0..*count {
            let call = from.wrapping_add(at);
            let (status, text) = run_with(alloc, &image, &[call])?;
            assert!(rt; status == Status::Done, "at {call}");
            assert_eq!(rt; str::from_utf8(&text), str::from_utf8(&wanted), "at {call}");
        }
    }
    Ok(())
}

#[test]
fn a_boot_finds_what_a_failed_line_left(rt: HostRuntime) -> Result<(), Fail> {
    let alloc = rt.alloc();
    // the creations of a space and of a queue, and an enqueue: done from the last sync on
    let rows = [
        (17, 9, 1, false),
        (26, 1, 1, true),
        (45, 3, 3, false),
        (48, 1, 3, true),
        (50, 3, 4, false),
        (53, 1, 4, true),
    ];
    check_turns(&rt, alloc, &rows)?;
    Ok(())
}

#[test]
fn a_later_boot_finds_what_a_failed_line_left(rt: HostRuntime) -> Result<(), Fail> {
    let alloc = rt.alloc();
    // an enqueue, and dequeues before and behind the last boot
    let rows = [
        (73, 3, 7, false),
        (76, 1, 7, true),
        (78, 3, 8, false),
        (81, 1, 8, true),
        (101, 3, 11, false),
        (104, 1, 11, true),
    ];
    check_turns(&rt, alloc, &rows)?;
    Ok(())
}

#[test]
fn a_boot_finds_what_a_failed_boot_left(rt: HostRuntime) -> Result<(), Fail> {
    let alloc = rt.alloc();
    // the sync, the length and a read, the read of the log, and the raise of the epoch in five calls
    let rows = [
        (28, 3, 2, false),
        (38, 1, 2, false),
        (39, 4, 2, false),
        (43, 1, 2, true),
        (56, 1, 6, false),
        (67, 4, 6, false),
        (71, 1, 6, true),
        (84, 1, 10, false),
        (95, 4, 10, false),
        (99, 1, 10, true),
    ];
    check_turns(&rt, alloc, &rows)?;
    Ok(())
}

// Whether a text is one of a run in which devices fail in the first enqueue and in the boot behind it.
fn is_allowed(alloc: Global, text: &[u8]) -> Result<bool, AllocError> {
    for first in [false, true] {
        for second in [false, true] {
            if text == text_of(alloc, &[(4, first), (6, second)])?.as_slice() {
                return Ok(true);
            }
        }
    }
    Ok(false)
}

#[test]
fn a_boot_fails_where_a_line_failed(rt: HostRuntime) -> Result<(), Fail> {
    let alloc = rt.alloc();
    let image = made(&rt, alloc, 64)?;
    // the first and the last call of the enqueue, and calls of the boot
    for first in [50u64, 53] {
        for behind in [3u64, 4, 8, 14, 16, 17, 18] {
            let second = first.wrapping_add(behind);
            let (status, text) = run_with(alloc, &image, &[first, second])?;
            assert!(rt; status == Status::Done, "at {second}");
            assert!(rt; is_allowed(alloc, &text)?, "at {second}");
        }
    }
    Ok(())
}
