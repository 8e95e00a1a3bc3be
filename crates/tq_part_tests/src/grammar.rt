//! Lines, and the requests that they spell.

use std::alloc::{AllocError, Global};
use std::test::Fail;
use tq_model::{
    CallRequest, Creation, DequeueWords, DeviceRequest, EnqueueWords, Flag, Flags, QueueCreation,
    Request, SpaceCreation, SpaceRemoval, SpaceRequest, name_in,
};
use tq_script::{first_line, parse};
use tq_types::Body;

/// Lines that spell no request, each above a mark of the column of what does not fit.
const MISFITS: &[u8] = b"\"#\"
^
LIDL 1
^
Boot
^
 boots
 ^
boot=1
^
boot\t
^
lid 1
^
lidls 1
^
  list 1
  ^
lidl\t1
^
\x00
^
\xff\xfe 1
^
lidl\" \"1
^
\"lidl 1\" 8
^
lidl 8
     ^
  lidl   8
         ^
lidl 1\t
     ^
lidl 1\r
     ^
lidl \x001
     ^
lidl \xb1
     ^
lidl \"1\"
     ^
lidl #
     ^
crdl 8 4
     ^
crdl -1 4
     ^
crdl +1 4
     ^
crdl 0x1 4
     ^
crdl 0 +4
       ^
crdl 0 4,
       ^
crdl 0 \"4 site=1
       ^
crdl 0 \"\\\"\" 4
       ^
crdl 0 18446744073709551616
       ^
crdl 0 99999999999999999999
       ^
crdl 0 000000000000000000004
       ^
crdl 000000000000000000000 4
     ^
crdl 0 site=1
       ^
crdl site=1 0 4
     ^
boot 1
     ^
boot x
     ^
  boot  x=1 y
        ^
boot site=1
     ^
boot #
     ^
lidl 1 2
       ^
lidl 1 site=1
       ^
lidl 1 \"a\\\" b\"
       ^
lidl 1 # 2
       ^
crdl 0 4 5
         ^
crdl 0 4 site
         ^
crdl 0 4 =1
         ^
crdl 0 4 site=
         ^
crdl 0 4 site=+1
         ^
crdl 0 4 site=1=1
         ^
crdl 0 4 site=18446744073709551616
         ^
crdl 0 4 Site=1
         ^
crdl 0 4 size=1 site=x
         ^
crdl 0 4 site=x size=1
         ^
crdl 0 4 site=1 size=1
                ^
crdl 0 4 site=1 site=2
                ^
crdl 0 4  site=1   site=x 
                   ^
qcreate sixteenbytesname Q
        ^
qcreate SP sixteenbytesname
           ^
qcreate -SP Q
        ^
qcreate .SP Q
        ^
qcreate S+P Q
        ^
qcreate \"SP\" Q
        ^
qcreate dev=0 Q
        ^
qcreate SP Q R
             ^
qcreate SP Q error=Q
             ^
qspacecreate - dev=0
             ^
tpenqueue 0 SP Q data=\"\"
          ^
tpenqueue 33 SP Q data=\"\"
          ^
tpdequeue 0 SP Q
          ^
tpdequeue  33  SP  Q
           ^
tpdequeue SP Q 1
          ^
qspacecreate SP dev=8
                ^
qspacecreate SP pages=-1
                ^
qspacecreate SP site=1
                ^
qspacecreate SP dev=0 error=-x
                      ^
qspacecreate SP dev=0 error=--
                      ^
qspacecreate SP dev=0 error=
                      ^
qspacecreate SP dev=0 error=sixteenbytesname
                      ^
qspacecreate SP dev=0 memory=1 dev=0
                               ^
qspacecreate SP dev=0 pages=9 queues=1 trans=1 msgs=1 error=- memory=0 error=-
                                                                       ^
tpdequeue 1 SP Q flags=
                 ^
tpdequeue 1 SP Q flags=tpqmsgid
                 ^
tpdequeue 1 SP Q flags=TPQMSGIDS
                 ^
tpdequeue 1 SP Q flags=TPQPEEK
                 ^
tpdequeue 1 SP Q flags=TPQMSGID|
                 ^
tpdequeue 1 SP Q flags=|TPQMSGID
                 ^
tpdequeue 1 SP Q flags=TPQMSGID||TPNOFLAGS
                 ^
tpdequeue 1 SP Q flags=TPQMSGID,TPNOFLAGS
                 ^
tpdequeue 1 SP Q flags=TPQMSGID|TPQMSGID
                 ^
tpdequeue 1 SP Q flags=TPNOFLAGS|TPQMSGID|TPNOFLAGS
                 ^
tpdequeue 1 SP Q flags=TPQMSGID flags=TPQMSGID
                                ^
tpdequeue 1 SP Q data=\"\"
                 ^
tpenqueue 1 SP Q data=
                 ^
tpenqueue 1 SP Q data=a
                 ^
tpenqueue 1 SP Q data=\"
                 ^
tpenqueue 1 SP Q data=\"a
                 ^
tpenqueue 1 SP Q data=\"a\\\"
                 ^
tpenqueue 1 SP Q data=\"a\"b
                 ^
tpenqueue 1 SP Q data=\"a\"\"b\"
                 ^
tpenqueue 1 SP Q data=\"\\x\"
                 ^
tpenqueue 1 SP Q data=\"\\4\"
                 ^
tpenqueue 1 SP Q data=\"\\4g\"
                 ^
tpenqueue 1 SP Q data=\"\\g4\"
                 ^
tpenqueue 1 SP Q data=\"\\n\"
                 ^
tpenqueue 1 SP Q data=\"\t\"
                 ^
tpenqueue 1 SP Q data=\"\x7f\"
                 ^
tpenqueue 1 SP Q data=\"\xff\"
                 ^
tpenqueue 1 SP Q data=\"a b\" \"c d\"
                            ^
tpenqueue 1 SP Q data=\"a b\" data=\"\"
                            ^
dsdl 8
     ^
dsdl 0 1
       ^
qspacedestroy -SP
              ^
qspacedestroy SP force=YES
                 ^
qspacedestroy SP force=yes force=yes
                           ^
lidl
    ^
dsdl
    ^
qspacedestroy
             ^
crdl
    ^
crdl 
     ^
crdl 0
      ^
 crdl 0  
         ^
qspacecreate
            ^
qspacecreate SP
               ^
qspacecreate SP dev=0 pages=9 queues=1 trans=1 msgs=1 error=-
                                                             ^
qspacecreate SP pages=9 queues=1 trans=1 msgs=1 error=- memory=0 
                                                                 ^
qcreate SP
          ^
tpenqueue 1 SP
              ^
tpenqueue 1 SP Q
                ^
tpenqueue 1 SP Q flags=TPQMSGID
                               ^
tpdequeue 1 SP
              ^
";

const COMMENTS: &[&[u8]] = &[
    b"",
    b" ",
    b"    ",
    b"#",
    b"# crdl 0 4",
    b"  # x",
    b"#lidl 1",
    b"#\" \x00\xff",
];

/// Lines that create a device.
const CREATIONS: &[(&[u8], Creation)] = &[
    (
        b"crdl 0 4",
        Creation {
            dev: 0,
            clusters: 4,
            site: None,
        },
    ),
    (
        b"crdl 0 4 site=0",
        Creation {
            dev: 0,
            clusters: 4,
            site: Some(0),
        },
    ),
    (
        b"  crdl   3  0   site=9  ",
        Creation {
            dev: 3,
            clusters: 0,
            site: Some(9),
        },
    ),
    (
        b"crdl 00000000000000000007 00000000000000000512",
        Creation {
            dev: 7,
            clusters: 512,
            site: None,
        },
    ),
    (
        b"crdl 7 18446744073709551615 site=18446744073709551615",
        Creation {
            dev: 7,
            clusters: u64::MAX,
            site: Some(u64::MAX),
        },
    ),
];

#[test]
fn misfits(rt: HostRuntime) -> Result<(), Fail> {
    let mut rest = MISFITS;
    while let Some((line, behind)) = first_line(rest) {
        let (mark, behind) = first_line(behind).ok_or("a mark")?;
        let column = mark.len() as u64;
        assert_eq!(rt;
            parse(rt.alloc(), line)?,
            Request::Bad(column),
            "at {line:?}"
        );
        rest = behind;
    }
    Ok(())
}

#[test]
fn comments(rt: HostRuntime) -> Result<(), Fail> {
    for line in COMMENTS {
        assert_eq!(rt; parse(rt.alloc(), line)?, Request::Nothing, "at {line:?}");
    }
    Ok(())
}

#[test]
fn boots(rt: HostRuntime) -> Result<(), Fail> {
    for line in ["boot", " boot ", "boot   "] {
        assert_eq!(rt;
            parse(rt.alloc(), line.as_bytes())?,
            Request::Boot,
            "at {line:?}"
        );
    }
    Ok(())
}

#[test]
fn creations(rt: HostRuntime) -> Result<(), Fail> {
    for (line, creation) in CREATIONS {
        let request = Request::Device(DeviceRequest::Create(creation.clone()?));
        assert_eq!(rt; parse(rt.alloc(), line)?, request, "at {line:?}");
    }
    Ok(())
}

#[test]
fn listings(rt: HostRuntime) -> Result<(), Fail> {
    for (line, dev) in [
        ("lidl 1", 1),
        ("  lidl   7  ", 7),
        ("lidl 00000000000000000000", 0),
    ] {
        let request = Request::Device(DeviceRequest::List(dev));
        assert_eq!(rt; parse(rt.alloc(), line.as_bytes())?, request, "at {line:?}");
    }
    Ok(())
}

#[test]
fn erasures(rt: HostRuntime) -> Result<(), Fail> {
    for (line, dev) in [("dsdl 1", 1), ("  dsdl   7  ", 7)] {
        let request = Request::Device(DeviceRequest::Erase(dev));
        assert_eq!(rt; parse(rt.alloc(), line.as_bytes())?, request, "at {line:?}");
    }
    Ok(())
}

#[test]
fn spaces(rt: HostRuntime) -> Result<(), Fail> {
    let lines: [(&[u8], Option<&[u8]>); 4] = [
        (
            b"qspacecreate SP dev=7 pages=400 queues=5 trans=0 msgs=31 error=- memory=18446744073709551615",
            None,
        ),
        (
            b"  qspacecreate SP  memory=18446744073709551615 error=SP msgs=31 trans=0 queues=5 pages=400 dev=7 ",
            Some(b"SP"),
        ),
        (
            b"qspacecreate SP error=a-b._123456789Z trans=00 dev=7 msgs=31 memory=18446744073709551615 pages=400 queues=5",
            Some(b"a-b._123456789Z"),
        ),
        (
            b"qspacecreate SP queues=5 msgs=31 pages=400 memory=18446744073709551615 dev=7 error=_ trans=0",
            Some(b"_"),
        ),
    ];
    for (line, error) in lines {
        let error = match error {
            Some(text) => name_in(text),
            None => None,
        };
        let creation = SpaceCreation {
            name: name_in(b"SP").ok_or("a name")?,
            dev: 7,
            pages: 400,
            queues: 5,
            transactions: 0,
            messages: 31,
            error,
            memory: u64::MAX,
        };
        let request = Request::Space(SpaceRequest::Create(creation));
        assert_eq!(rt; parse(rt.alloc(), line)?, request, "at {line:?}");
    }
    Ok(())
}

#[test]
fn removals(rt: HostRuntime) -> Result<(), Fail> {
    for (line, space, force) in [
        ("qspacedestroy SP", "SP", false),
        ("  qspacedestroy  1  force=yes ", "1", true),
    ] {
        let removal = SpaceRemoval {
            space: name_in(space.as_bytes()).ok_or("a name")?,
            force,
        };
        let request = Request::Space(SpaceRequest::Remove(removal));
        assert_eq!(rt; parse(rt.alloc(), line.as_bytes())?, request, "at {line:?}");
    }
    Ok(())
}

#[test]
fn queues(rt: HostRuntime) -> Result<(), Fail> {
    for (line, space, queue) in [
        ("qcreate SP Q", "SP", "Q"),
        ("  qcreate  1  fifteen.bytes_-  ", "1", "fifteen.bytes_-"),
    ] {
        let creation = QueueCreation {
            space: name_in(space.as_bytes()).ok_or("a name")?,
            queue: name_in(queue.as_bytes()).ok_or("a name")?,
        };
        let request = Request::Space(SpaceRequest::CreateQueue(creation));
        assert_eq!(rt; parse(rt.alloc(), line.as_bytes())?, request, "at {line:?}");
    }
    Ok(())
}

/// Lines that enqueue: the session, the flags and the body.
const ENQUEUES: &[(&[u8], u8, &[Flag], &[u8])] = &[
    (b"tpenqueue 1 SP Q data=\"\"", 1, &[], b""),
    (b"tpenqueue 32 SP Q data=\"a b  c\"", 32, &[], b"a b  c"),
    (
        b"tpenqueue 1 SP Q data=\"a\\\"b\\\\c\\00\\0A\\ff\\Fe\\7f |=#~\"  flags=TPQMSGID",
        1,
        &[Flag::MessageId],
        b"a\"b\\c\x00\x0a\xff\xfe\x7f |=#~",
    ),
    (
        b" tpenqueue  2 SP Q flags=TPNOFLAGS|TPQMSGID data=\"\\\\\"",
        2,
        &[Flag::NoFlags, Flag::MessageId],
        b"\\",
    ),
    (
        b"tpenqueue 2 SP Q data=\"\\\"\" flags=TPQMSGID|TPNOFLAGS ",
        2,
        &[Flag::MessageId, Flag::NoFlags],
        b"\"",
    ),
];

fn flags_of(alloc: Global, items: &[Flag]) -> Result<Flags, AllocError> {
    let mut flags = Flags::new(alloc);
    for flag in items {
        flags.push(*flag)?;
    }
    Ok(flags)
}

#[test]
fn enqueues(rt: HostRuntime) -> Result<(), Fail> {
    for (line, session, flags, body) in ENQUEUES {
        let words = EnqueueWords {
            space: name_in(b"SP").ok_or("a name")?,
            queue: name_in(b"Q").ok_or("a name")?,
            flags: flags_of(rt.alloc(), flags)?,
            body: Body::new(rt.alloc(), body)?,
        };
        let request = Request::Call(CallRequest::Enqueue(*session, words));
        assert_eq!(rt; parse(rt.alloc(), line)?, request, "at {line:?}");
    }
    Ok(())
}

#[test]
fn dequeues(rt: HostRuntime) -> Result<(), Fail> {
    let lines: [(&[u8], u8, &[Flag]); 3] = [
        (b"tpdequeue 1 SP Q", 1, &[]),
        (
            b" tpdequeue 32  SP Q flags=TPNOFLAGS ",
            32,
            &[Flag::NoFlags],
        ),
        (
            b"tpdequeue 9 SP Q flags=TPQMSGID|TPNOFLAGS",
            9,
            &[Flag::MessageId, Flag::NoFlags],
        ),
    ];
    for (line, session, flags) in lines {
        let words = DequeueWords {
            space: name_in(b"SP").ok_or("a name")?,
            queue: name_in(b"Q").ok_or("a name")?,
            flags: flags_of(rt.alloc(), flags)?,
        };
        let request = Request::Call(CallRequest::Dequeue(session, words));
        assert_eq!(rt; parse(rt.alloc(), line)?, request, "at {line:?}");
    }
    Ok(())
}

#[test]
fn long_lines(rt: HostRuntime) -> Result<(), Fail> {
    let mut line = vec![in rt.alloc(); b' '; 262_140]?;
    line.extend_from_slice(b"lidl")?;
    assert_eq!(rt; parse(rt.alloc(), &line)?, Request::Bad(262_145));
    line.push(b' ')?;
    assert_eq!(rt; parse(rt.alloc(), &line)?, Request::TooLong);
    let comment = vec![in rt.alloc(); b'#'; 262_144]?;
    assert_eq!(rt; parse(rt.alloc(), &comment)?, Request::Nothing);
    let mut flags = Vec::from_slice(rt.alloc(), b"tpdequeue 1 SP Q flags=TPNOFLAGS")?;
    flags.extend_from_slice(&vec![in rt.alloc(); b'|'; 262_112]?)?;
    assert_eq!(rt; parse(rt.alloc(), &flags)?, Request::Bad(18));
    let mut text = Vec::from_slice(rt.alloc(), b"tpenqueue 1 SP Q data=\"")?;
    text.extend_from_slice(&vec![in rt.alloc(); b'x'; 262_120]?)?;
    text.push(b'"')?;
    let Request::Call(CallRequest::Enqueue(1, words)) = parse(rt.alloc(), &text)? else {
        return Err("an enqueue".into());
    };
    assert_eq!(rt; words.body.len(), 262_120);
    Ok(())
}

#[test]
fn first_lines(rt: HostRuntime) {
    let table = [
        ("a", "a", ""),
        ("a\n", "a", ""),
        ("\n", "", ""),
        ("\n\n", "", "\n"),
        ("a\nb", "a", "b"),
        ("a\n\nb\n", "a", "\nb\n"),
        ("a\r\nb", "a\r", "b"),
        ("\x00 \x7f\n\n", "\x00 \x7f", "\n"),
    ];
    for (script, line, rest) in table {
        assert_eq!(rt;
            first_line(script.as_bytes()),
            Some((line.as_bytes(), rest.as_bytes())),
            "at {script:?}"
        );
    }
    assert_eq!(rt; first_line(b""), None);
}
