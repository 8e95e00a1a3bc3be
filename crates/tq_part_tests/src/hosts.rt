//! The hosts in memory, and the calls that are planned to fail.

ghost use Rattle.std.specs.Prelude.{◌<◌};

use std::alloc::Global;
use std::test::Fail;
use tq_host::{CallKind, FuseHost, Host, MemHost};

const KINDS: [CallKind; 8] = [
    CallKind::Attach,
    CallKind::SetLength,
    CallKind::Length,
    CallKind::Write,
    CallKind::Read,
    CallKind::Sync,
    CallKind::Take,
    CallKind::Give,
];

// One call of each kind, in the order of `KINDS`: which of them answered Ok.
fn call_each<H: Host>(host: &mut H) -> [bool; 8] {
    [
        host.attach(0, "disk").is_ok(),
        host.set_length(0, 4).is_ok(),
        host.length(0).is_ok(),
        host.write_at(0, 0, b"ab").is_ok(),
        host.read_at(0, 0, &mut []).is_ok(),
        host.sync(0).is_ok(),
        host.take(&mut [0, 0]).is_ok(),
        host.give(b"out").is_ok(),
    ]
}

// All but this call.
fn all_but(index: u8) -> [bool; 8] {
    let mut all = [true; 8];
    if index < 8 {
        all[index as usize] = false;
    }
    all
}

// The first calls, as many as that.
fn first(count: u8) -> [bool; 8] {
    let mut all = [false; 8];
    for index in 0..8u8 {
        all[index as usize] = index < count;
    }
    all
}

#[test]
fn planned_calls_fail(rt: HostRuntime) -> Result<(), Fail> {
    for index in 0..8u8 {
        let mut host = MemHost::new(rt.alloc(), b"script", 2)?;
        host.fail_at(u64::from(index))?;
        assert_eq!(rt; call_each(&mut host), all_but(index));
        host.fail_kind(KINDS[index as usize], 0)?;
        assert_eq!(rt; call_each(&mut host), all_but(index));
        assert_eq!(rt; call_each(&mut host), [true; 8]);
    }
    Ok(())
}

#[test]
fn fuse_passes_the_first_calls(rt: HostRuntime) -> Result<(), Fail> {
    for calls in 0..9u8 {
        let host = MemHost::new(rt.alloc(), b"script", 2)?;
        let mut fuse = FuseHost::new(host, u64::from(calls));
        assert_eq!(rt; call_each(&mut fuse), first(calls));
        let inner = fuse.into_inner();
        assert_eq!(rt; inner.output().len(), if calls == 8 { 3 } else { 0 });
    }
    Ok(())
}

// All that the host gives, taken until the end.
fn taken(alloc: Global, piece: usize) -> Result<Vec<u8>, Fail>
    requires { 0 < piece }
{
    let mut host = MemHost::new(alloc, b"abcdefg", piece)?;
    let mut all = Vec::new(alloc);
    for _ in 0..8u8 {
        let mut buffer = [0u8; 4];
        let count = host.take(&mut buffer)?;
        all.extend_from_slice(&buffer[..count])?;
        all.push(b'|')?;
    }
    Ok(all)
}

#[test]
fn takes_come_in_pieces(rt: HostRuntime) -> Result<(), Fail> {
    let ones = taken(rt.alloc(), 1)?;
    assert_eq!(rt; ones.as_slice(), b"a|b|c|d|e|f|g||".as_slice());
    let threes = taken(rt.alloc(), 3)?;
    assert_eq!(rt; threes.as_slice(), b"abc|def|g||||||".as_slice());
    let fours = taken(rt.alloc(), 9)?;
    assert_eq!(rt; fours.as_slice(), b"abcd|efg|||||||".as_slice());
    Ok(())
}

#[test]
fn devices_and_output(rt: HostRuntime) -> Result<(), Fail> {
    let mut host = MemHost::new(rt.alloc(), b"", 1)?;
    host.set_device(7, b"abc")?;
    host.write_at(7, 2, b"xy")?;
    assert_eq!(rt; host.image(7), b"abxy".as_slice());
    let mut middle = [0u8; 2];
    host.read_at(7, 1, &mut middle)?;
    assert_eq!(rt; middle, *b"bx");
    host.set_length(7, 6)?;
    assert_eq!(rt; host.image(7), b"abxy\0\0".as_slice());
    assert_eq!(rt; host.length(7)?, 6);
    host.set_length(7, 2)?;
    host.sync(7)?;
    assert_eq!(rt; host.image(7), b"ab".as_slice());
    assert_eq!(rt; host.image(0).len(), 0);
    host.give(b"one")?;
    host.give(b" two")?;
    assert_eq!(rt; host.output(), b"one two".as_slice());
    Ok(())
}
