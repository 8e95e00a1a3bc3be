//! The texts of answers.

use std::alloc::{AllocError, Global};
use std::test::Fail;
use tq_model::{
    Answer, CallAnswer, Capacity, Delivery, DeviceAnswer, Extent, Extents, Listing, SpaceAnswer,
    SpaceLine, SpaceLines,
};
use tq_print::answer;
use tq_types::{Body, Lack, MsgId, Name, Resource};

const FIRST: Extent = Extent { first: 4, count: 1 };

const SECOND: Extent = Extent {
    first: 10,
    count: 20,
};

const LAST: Extent = Extent {
    first: 0,
    count: 4294967295,
};

fn space_line(
    alloc: Global,
    name: Name,
    number: u32,
    list: &[Extent],
) -> Result<SpaceLine, AllocError> {
    let mut extents = Extents::new(alloc);
    for extent in list {
        extents.push(*extent)?;
    }
    Ok(SpaceLine {
        name,
        number,
        pages: 512,
        extents,
    })
}

/// What is listed of spaces with these numbers and extents.
fn listed(alloc: Global, name: Name, rows: &[(u32, &[Extent])]) -> Result<Answer, AllocError> {
    let mut spaces = SpaceLines::new(alloc);
    for (number, list) in rows {
        spaces.push(space_line(alloc, name, *number, list)?)?;
    }
    Ok(Answer::Device(DeviceAnswer::Listed(Listing {
        capacity: Capacity {
            clusters: 64,
            free: 60,
        },
        spaces,
    })))
}

fn lacking(resource: Resource) -> Answer {
    Answer::Call(CallAnswer::NoSpace(Lack {
        resource,
        need: 1,
        held: 9,
        limit: 8,
    }))
}

fn delivered(
    alloc: Global,
    bytes: &[u8],
    urcode: i32,
    id: Option<MsgId>,
) -> Result<Answer, AllocError> {
    let body = Body::new(alloc, bytes)?;
    Ok(Answer::Call(CallAnswer::Dequeued(Delivery { body, urcode, id })))
}

const ID: MsgId = MsgId {
    site: 7,
    space: 8,
    epoch: 3,
    number: 4294967295,
};

#[test]
fn answers(rt: HostRuntime) -> Result<(), Fail> {
    let alloc = rt.alloc();
    let name = Name::new(b"_orders-1.East")?;
    let none = Answer::Device(DeviceAnswer::NoSite);
    let spaces: [(u32, &[Extent]); 2] = [
        (9, &[FIRST, SECOND]),
        (4294967295, &[FIRST, SECOND, LAST]),
    ];
    let table = [
        (1, none, "1 NOSITE\n"),
        (9, Answer::Damaged(7), "9 DAMAGED 7\n"),
        (
            8,
            Answer::Device(DeviceAnswer::SiteInUse(7)),
            "8 SITEINUSE devices=7\n",
        ),
        (
            6,
            Answer::Space(SpaceAnswer::Busy(4294967295)),
            "6 BUSY transactions=4294967295\n",
        ),
        (
            u64::MAX,
            Answer::Syntax(u64::MAX),
            "18446744073709551615 SYNTAX column=18446744073709551615\n",
        ),
        (
            10,
            listed(alloc, name, &spaces)?,
            "10 OK clusters=64 free=60 spaces=2\n  _orders-1.East number=9 pages=512 extents=4+1,10+20\n  _orders-1.East number=4294967295 pages=512 extents=4+1,10+20,0+4294967295\n",
        ),
        (
            5,
            lacking(Resource::Transactions),
            "5 TPEDIAGNOSTIC QMENOSPACE resource=transactions need=1 held=9 limit=8\n",
        ),
        (
            7,
            lacking(Resource::Depth),
            "7 TPEDIAGNOSTIC QMENOSPACE resource=depth need=1 held=9 limit=8\n",
        ),
        (
            99,
            lacking(Resource::Memory),
            "99 TPEDIAGNOSTIC QMENOSPACE resource=memory need=1 held=9 limit=8\n",
        ),
        (
            2,
            delivered(alloc, b"a \"b\" \\n\n", -1, Some(ID))?,
            "2 OK data=\"a \\\"b\\\" \\\\n\\0a\" urcode=-1 msgid=7.8.3.4294967295\n",
        ),
        (
            3,
            delivered(alloc, b"x", i32::MIN, None)?,
            "3 OK data=\"x\" urcode=-2147483648\n",
        ),
        (
            4,
            delivered(alloc, b"x", i32::MAX, None)?,
            "4 OK data=\"x\" urcode=2147483647\n",
        ),
    ];
    for (line, asked, wanted) in &table {
        let text = answer(alloc, *line, asked)?;
        assert_eq!(rt; text.as_slice(), wanted.as_bytes(), "at {wanted}");
    }
    Ok(())
}
