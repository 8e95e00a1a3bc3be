//! `FileHost` over files of the operating system.

use std::path::PathBuf;
use std::test::Fail;
use std::{env, fs, io, process};
use tq_files::FileHost;
use tq_host::{Failed, Host};

// The path of a file of this process alone.
fn own_path(rt: HostRuntime, name: &str) -> io::Result<PathBuf> {
    let number = process::id(rt.process());
    let name = format!(in rt.alloc(); "qscript-{name}-{number}")?;
    let path = env::temp_dir(&rt)?.join(rt.alloc(), name.as_str())?;
    Ok(path)
}

// What one attached device reads and does, over a real file.
#[test]
fn works_on_a_file(rt: HostRuntime) -> Result<(), Fail> {
    let path = own_path(rt, "files")?;
    let mut host = FileHost::new(rt);
    assert_eq!(rt; host.attach(0, path.as_str()), Err(Failed), "absent");
    assert_eq!(rt; host.length(0), Err(Failed), "not attached");

    fs::write(&rt, path.as_str(), "")?;
    assert_eq!(rt; host.attach(0, path.as_str()), Ok(()));
    assert_eq!(rt; host.length(0), Ok(0));
    assert_eq!(rt; host.set_length(0, 8), Ok(()));
    assert_eq!(rt; host.write_at(0, 6, b"abcd"), Ok(()));
    assert_eq!(rt; host.sync(0), Ok(()));
    assert_eq!(rt; host.length(0), Ok(10));

    let mut bytes = [1u8; 4];
    assert_eq!(rt; host.read_at(0, 5, &mut bytes), Ok(()));
    assert_eq!(rt; bytes, *b"\0abc");
    assert_eq!(rt; host.read_at(0, 7, &mut bytes), Err(Failed), "past the end");
    assert_eq!(rt; host.set_length(0, 7), Ok(()));
    assert_eq!(rt;
        fs::read_to_string(&rt, path.as_str())?.as_str(),
        "\0\0\0\0\0\0a"
    );
    fs::remove_file(&rt, path.as_str())?;
    Ok(())
}

// A file is one device's of one run, from `attach` on until the host is dropped. What failed first
// is kept.
#[test]
fn locks_a_file(rt: HostRuntime) -> Result<(), Fail> {
    let path = own_path(rt, "lock")?;
    fs::write(&rt, path.as_str(), "")?;
    let mut second = FileHost::new(rt);
    {
        let mut first = FileHost::new(rt);
        assert_eq!(rt; first.attach(0, path.as_str()), Ok(()));
        assert!(rt; first.device_failure().is_none());
        assert_eq!(rt; second.attach(2, path.as_str()), Err(Failed), "another run");
        assert_eq!(rt; second.length(2), Err(Failed), "not attached");
        assert_eq!(rt;
            first.attach(1, path.as_str()),
            Err(Failed),
            "another device"
        );
        assert_eq!(rt; first.set_length(0, 3), Ok(()), "the device that has it");
    }
    assert_eq!(rt;
        second.attach(2, path.as_str()),
        Ok(()),
        "a run that has ended"
    );
    assert_eq!(rt; second.length(2), Ok(3));
    assert_eq!(rt; second.path(2), Some(path.as_str()));
    let kept = second
        .device_failure()
        .map(|failure| (failure.dev, failure.error.kind()));
    assert_eq!(rt;
        kept,
        Some((2, io::ErrorKind::WouldBlock)),
        "the first failure"
    );
    fs::remove_file(&rt, path.as_str())?;
    Ok(())
}
