//! Rows of lines and answers of the top call over one device.

ghost use Rattle.std.specs.Prelude.{◌<◌};

mod faults;
mod holes;
mod messages;
mod serial;
mod spaces;
mod stops;

use std::alloc::{AllocError, Global};
use std::fmt::Write;
use std::process::Abort;
use std::test::Fail;
use tq_host::MemHost;
use tq_run::{Status, run, run_within};

// An outside with this image on device 0 and this input.
fn outside(alloc: Global, image: &[u8], script: &[u8], piece: usize) -> Result<MemHost, AllocError>
    requires { 0 < piece }
{
    let mut host = MemHost::new(alloc, script, piece)?;
    host.set_device(0, image)?;
    Ok(host)
}

fn words_of(alloc: Global, words: &[&str]) -> Result<Vec<String>, AllocError> {
    let mut all = Vec::new(alloc);
    for word in words {
        all.push(String::from_str(alloc, word)?)?;
    }
    Ok(all)
}

// The words of a run over one device.
fn run_words(alloc: Global) -> Result<Vec<String>, AllocError> {
    words_of(alloc, ["run", "dev0"].as_slice())
}

// The lines of a script, and the output that is wanted of them.
#[derive(Drop)]
struct Sheet {
    script: String,
    output: String,
    lines: u64,
}

impl Sheet {
    // No line, behind this answer of line 0.
    fn new(alloc: Global, ready: &str) -> Result<Sheet, AllocError> {
        Ok(Sheet {
            script: String::new(alloc),
            output: format!(in alloc; "0 {ready}\n")?,
            lines: 0,
        })
    }

    // These lines, each with its answer, behind this answer of line 0.
    fn of(alloc: Global, ready: &str, rows: &[(&str, &str)]) -> Result<Sheet, AllocError> {
        let mut sheet = Sheet::new(alloc, ready)?;
        for (line, answer) in rows {
            sheet.add(line, answer)?;
        }
        Ok(sheet)
    }

    // One line more, with its answer.
    fn add(&mut self, line: &str, answer: &str) -> Result<(), AllocError> {
        let number = self.lines.wrapping_add(1);
        self.lines = number;
        write!(self.script, "{line}\n")?;
        write!(self.output, "{number} {answer}\n")?;
        Ok(())
    }

    // A run over a device with this image, which gives the output that is wanted. Answers the image
    // after it.
    fn check(&self, rt: &impl Abort, alloc: Global, image: &[u8]) -> Result<Vec<u8>, AllocError> {
        let mut host = outside(alloc, image, self.script.as_bytes(), 4096)?;
        assert!(rt; run(alloc, &run_words(alloc)?, &mut host) == Status::Done);
        assert_eq!(rt; str::from_utf8(host.output()), Ok(self.output.as_str()));
        Vec::from_slice(alloc, host.image(0))
    }
}

const BLANK: &str = "READY site=- epoch=- spaces=0 indoubt=0";

const MADE: &str = "READY site=1 epoch=2 spaces=0 indoubt=0";

// A device of so many clusters that was made in one run.
fn made(rt: &impl Abort, alloc: Global, clusters: u16) -> Result<Vec<u8>, AllocError> {
    let mut sheet = Sheet::new(alloc, BLANK)?;
    let free = clusters.wrapping_sub(4);
    sheet.add(
        &format!(in alloc; "crdl 0 {clusters} site=1")?,
        &format!(in alloc; "OK clusters={clusters} free={free}")?,
    )?;
    sheet.check(rt, alloc, b"")
}

#[test]
fn a_device_is_created_and_read_again(rt: HostRuntime) -> Result<(), Fail> {
    let alloc = rt.alloc();
    let rows = [
        ("crdl 0 64 site=1", "OK clusters=64 free=60"),
        ("lidl 0", "OK clusters=64 free=60 spaces=0"),
        ("crdl 0 64", "EXISTS"),
        ("lidl 1", "NODEVICE"),
        ("crdl 0", "SYNTAX column=7"),
        ("", "OK"),
        ("# a comment", "OK"),
        ("frob", "SYNTAX column=1"),
        ("lidl 0", "OK clusters=64 free=60 spaces=0"),
    ];
    let mut image = Sheet::of(alloc, BLANK, &rows)?.check(&rt, alloc, b"")?;
    assert!(rt; image.len() == 131072);
    let rows = [("lidl 0", "OK clusters=64 free=60 spaces=0")];
    Sheet::of(alloc, MADE, &rows)?.check(&rt, alloc, &image)?;
    // one byte less is a blank device
    let rows = [("lidl 0", "NOTCREATED")];
    image.truncate(131071);
    Sheet::of(alloc, BLANK, &rows)?.check(&rt, alloc, &image)?;
    Ok(())
}

const SPACE: (&str, &str) = (
    "qspacecreate S dev=0 pages=64 queues=4 trans=4 msgs=16 error=- memory=0",
    "OK number=8 overhead=45 pages=64",
);

// Whether these words are no form of a run, and nothing is done then.
fn is_usage(alloc: Global, words: &[&str]) -> Result<bool, AllocError> {
    let mut host = outside(alloc, b"".as_slice(), b"lidl 0\n".as_slice(), 9)?;
    let status = run(alloc, &words_of(alloc, words)?, &mut host);
    Ok(status == Status::Usage && host.output().is_empty())
}

#[test]
fn words_of_another_form_are_usage(rt: HostRuntime) -> Result<(), Fail> {
    let alloc = rt.alloc();
    assert!(rt; is_usage(alloc, ["run"].as_slice())?);
    assert!(rt; is_usage(alloc, ["run", ""].as_slice())?);
    assert!(rt; is_usage(alloc, ["run", "-x"].as_slice())?);
    assert!(rt; is_usage(alloc, ["walk", "dev0"].as_slice())?);
    assert!(rt; is_usage(alloc, ["", "dev0"].as_slice())?);
    assert!(rt; is_usage(alloc, ["run", "dev0", "dev1"].as_slice())?);
    assert!(rt; !is_usage(alloc, ["run", "dev0"].as_slice())?);
    Ok(())
}

const LINES: &[u8] = b"lidl 0
 lidl  0 
\tlidl 0
lidl
lidl 
lidl x
lidl 8
lidl 7
lidl 00000000000000000000
lidl 000000000000000000000
lidl 0 1
lidl 0 site=1
Lidl 0
lidl \"0\"
crdl
crdl 0
crdl 0 
crdl 0 4
crdl 0 8193
crdl 0 18446744073709551615
crdl 0 18446744073709551616
crdl 0 64 site
crdl 0 64 site=
crdl 0 64 site=0
crdl 0 64 site=4294967296
crdl 0 64 site=1 site=1
crdl 0 64 size=1 site=x
crdl 0 64 site=x size=1
crdl 0 64 \xff
crdl 0 site=1 64
crdl 0 64 site=\"1 2
crdl 0 64 site=\"1\\\" 2
#
  # lidl
\"#\"
\0
crdl 9 4
crdl 1 4
boot
lidl 0#
crdl 0 00064  site=0007
 boot 
boot 1
lidl 0";

const LINES_OUTPUT: &[u8] = b"0 READY site=- epoch=- spaces=0 indoubt=0
1 NOTCREATED
2 NOTCREATED
3 SYNTAX column=1
4 SYNTAX column=5
5 SYNTAX column=6
6 SYNTAX column=6
7 SYNTAX column=6
8 NODEVICE
9 NOTCREATED
10 SYNTAX column=6
11 SYNTAX column=8
12 SYNTAX column=8
13 SYNTAX column=1
14 SYNTAX column=6
15 SYNTAX column=5
16 SYNTAX column=7
17 SYNTAX column=8
18 RANGE field=clusters
19 RANGE field=clusters
20 RANGE field=clusters
21 SYNTAX column=8
22 SYNTAX column=11
23 SYNTAX column=11
24 RANGE field=site
25 RANGE field=site
26 SYNTAX column=18
27 SYNTAX column=11
28 SYNTAX column=11
29 SYNTAX column=11
30 SYNTAX column=8
31 SYNTAX column=11
32 SYNTAX column=11
33 OK
34 OK
35 SYNTAX column=1
36 SYNTAX column=1
37 SYNTAX column=6
38 NODEVICE
39 READY site=- epoch=- spaces=0 indoubt=0
40 SYNTAX column=6
41 OK clusters=64 free=60
42 READY site=7 epoch=2 spaces=0 indoubt=0
43 SYNTAX column=6
44 OK clusters=64 free=60 spaces=0
";

#[test]
fn lines_have_their_answers_in_any_pieces(rt: HostRuntime) -> Result<(), Fail> {
    let alloc = rt.alloc();
    let words = run_words(alloc)?;
    for piece in [1usize, 7] {
        let mut host = outside(alloc, b"".as_slice(), LINES, piece)?;
        assert!(rt; run(alloc, &words, &mut host) == Status::Done);
        assert!(rt; host.output() == LINES_OUTPUT);
    }
    Ok(())
}

#[test]
fn too_much_input_is_not_read(rt: HostRuntime) -> Result<(), Fail> {
    let alloc = rt.alloc();
    let words = run_words(alloc)?;
    let begun = format!(in alloc; "0 {BLANK}\n")?;
    let done = format!(in alloc; "0 {BLANK}\n1 NOTCREATED\n")?;
    let rows = [
        (6u64, Status::TooMuchInput, begun.as_str()),
        (7, Status::TooMuchInput, begun.as_str()),
        (8, Status::Done, done.as_str()),
    ];
    for (limit, status, output) in rows {
        let mut host = outside(alloc, b"".as_slice(), b"lidl 0\n".as_slice(), 3)?;
        assert!(rt; run_within(alloc, &words, &mut host, limit) == status);
        assert_eq!(rt; str::from_utf8(host.output()), Ok(output));
    }
    Ok(())
}
