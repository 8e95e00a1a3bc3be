//! Rows of lines and answers of the slow machine over two devices.

ghost use Rattle.std.specs.Prelude.{◌≤◌, ◌<◌, ◌+◌, length};

use std::alloc::{AllocError, Global};
use std::process::Abort;
use std::test::Fail;
use tq_machine::Machine;
use tq_model::{Answer, Request};
use tq_print::answer;
use tq_script::parse;

fn ask(machine: &mut Machine, request: &Request) -> Result<Answer, AllocError>
    requires { machine.old.next < 4294967295 }
    ensures { machine.new.next ≤ machine.old.next + 1 }
{
    machine.step(request)
}

// Each line in turn, from blank devices on, with the text that answers it.
fn check(
    rt: &impl Abort,
    alloc: Global,
    devices: u8,
    rows: &[(&str, &str)],
) -> Result<(), AllocError>
    requires some { 1 ≤ devices }
    requires most { devices ≤ 8 }
    requires few { length rows.now < 4294967295 }
{
    let mut machine = Machine::new(alloc, devices)?;
    for (line, wanted) in rows {
        let request = parse(alloc, line.as_bytes())?;
        let text = answer(alloc, 1, &ask(&mut machine, &request)?)?;
        let wanted = format!(in alloc; "1 {wanted}\n")?;
        assert_eq!(rt; text.as_slice(), wanted.as_bytes(), "at {line}");
    }
    Ok(())
}

#[test]
fn two_devices(rt: HostRuntime) -> Result<(), Fail> {
    let rows = [
        ("crdl 1 4 site=0", "NOSITE"),
        ("crdl 0 8193", "RANGE field=clusters"),
        ("crdl 0 8192 site=4294967296", "RANGE field=site"),
        ("crdl 0 8192 site=4294967295", "OK clusters=8192 free=8188"),
        ("lidl 1", "NOTCREATED"),
        (
            "qspacecreate S dev=1 pages=46 queues=4 trans=4 msgs=16 error=- memory=0",
            "NOTCREATED",
        ),
        ("crdl 1 5 site=7", "OK clusters=5 free=1"),
        ("lidl 2", "NODEVICE"),
        (
            "qspacecreate S dev=2 pages=46 queues=4 trans=4 msgs=16 error=- memory=0",
            "NODEVICE",
        ),
        (
            "qspacecreate S dev=1 pages=46 queues=4 trans=4 msgs=16 error=- memory=0",
            "LACK need=2 free=1",
        ),
        (
            "qspacecreate S dev=0 pages=46 queues=4 trans=4 msgs=16 error=- memory=0",
            "OK number=8 overhead=45 pages=46",
        ),
        (
            "qspacecreate S dev=1 pages=0 queues=4 trans=4 msgs=16 error=- memory=0",
            "TAKEN",
        ),
        (
            "qspacecreate T dev=0 pages=46 queues=4 trans=4 msgs=16 error=- memory=0",
            "OK number=16 overhead=45 pages=46",
        ),
        ("lidl 1", "OK clusters=5 free=1 spaces=0"),
        (
            "lidl 0",
            "OK clusters=8192 free=8184 spaces=2\n  S number=8 pages=46 extents=4+2\n  T number=16 pages=46 extents=6+2",
        ),
        ("boot", "READY site=4294967295 epoch=2 spaces=2 indoubt=0"),
        ("dsdl 2", "NODEVICE"),
        ("dsdl 0", "NOTEMPTY spaces=2"),
        ("qspacedestroy T", "OK"),
        ("qspacedestroy S", "OK"),
        ("dsdl 0", "SITEINUSE devices=1"),
        ("dsdl 1", "OK"),
        ("dsdl 1", "NOTCREATED"),
        ("dsdl 0", "OK"),
        ("boot", "READY site=- epoch=- spaces=0 indoubt=0"),
    ];
    check(&rt, rt.alloc(), 2, &rows)?;
    Ok(())
}
