//! Values of messages, and the order of labels.

use std::cmp::Ordering;
use std::test::Fail;
use tq_types::{
    Arrival, AskedQos, BadMoment, BadName, BadOrder, BadPriority, BadXId, Body, CorrId, Criterion,
    Entry, Label, Last, Mark, Message, Moment, MsgId, Name, Order, Path, Priority, Qos, Root, XId,
    compare,
};

#[test]
fn names(rt: HostRuntime) -> Result<(), Fail> {
    let good: [&[u8]; 4] = [b"Q", b"_", b"a.b-C_9", b"123456789012345"];
    for text in good {
        assert_eq!(rt; Name::new(text)?.as_bytes(), text);
    }
    let bad: [(&[u8], BadName); 6] = [
        (b"", BadName::Length(0)),
        (b"1234567890123456", BadName::Length(16)),
        (b"-a", BadName::Byte(0)),
        (b".a", BadName::Byte(0)),
        (b"a b", BadName::Byte(1)),
        (b"ab/c\n", BadName::Byte(2)),
    ];
    for (text, fault) in bad {
        assert_eq!(rt; Name::new(text).err(), Some(fault));
    }
    assert!(rt; Name::new(b"ab")? < Name::new(b"b")?);
    assert!(rt; Name::new(b"a")? < Name::new(b"a.")?);
    Ok(())
}

#[test]
fn numbers(rt: HostRuntime) -> Result<(), Fail> {
    for n in [0, 253_402_300_799] {
        assert_eq!(rt; Moment::new(n)?.seconds(), n);
    }
    assert_eq!(rt;
        Moment::new(253_402_300_800).err(),
        Some(BadMoment {
            seconds: 253_402_300_800
        })
    );
    for n in [1, 50, 100] {
        assert_eq!(rt; Priority::new(n)?.level() as u64, n);
    }
    for n in [0, 101] {
        assert_eq!(rt; Priority::new(n).err(), Some(BadPriority { level: n }));
    }
    Ok(())
}

#[test]
fn orders(rt: HostRuntime) -> Result<(), Fail> {
    use Criterion::{Expiration, Priority, Time};
    let all = [Time, Priority, Expiration];
    for n in 0..4 {
        let order = Order::new(&all[..n], Last::Lifo)?;
        assert_eq!(rt; order.criteria(), &all[..n]);
        assert_eq!(rt; order.last(), Last::Lifo);
    }
    assert_eq!(rt;
        Order::new(&[Time, Priority, Time, Time], Last::Fifo).err(),
        Some(BadOrder { at: 2 })
    );
    assert_eq!(rt;
        Order::new(&[Time, Time], Last::Fifo).err(),
        Some(BadOrder { at: 1 })
    );
    Ok(())
}

#[test]
fn transaction_identifiers(rt: HostRuntime) -> Result<(), Fail> {
    let long = [7; 65];
    let xid = XId::new(2_147_483_647, &long[..64], &[1])?;
    assert_eq!(rt; xid.format(), 2_147_483_647);
    assert_eq!(rt; xid.gtrid(), &long[..64]);
    assert_eq!(rt; xid.bqual(), [1].as_slice());
    assert!(rt; xid == xid);
    assert!(rt; xid != XId::new(2_147_483_647, &long[..64], &[2])?);
    assert_eq!(rt;
        XId::new(2_147_483_648, &[], &[]).err(),
        Some(BadXId::Format)
    );
    assert_eq!(rt; XId::new(1, &long, &[]).err(), Some(BadXId::Gtrid(65)));
    assert_eq!(rt; XId::new(1, &[1], &[]).err(), Some(BadXId::Bqual(0)));
    Ok(())
}

#[test]
fn message_identifiers(rt: HostRuntime) {
    let id = MsgId {
        site: 1,
        space: 8,
        epoch: 258,
        number: 4_294_967_295,
    };
    let mut bytes = id.to_bytes();
    let numbers = [0, 0, 0, 1, 0, 0, 0, 8, 0, 0, 1, 2, 255, 255, 255, 255];
    assert_eq!(rt; &bytes[..16], numbers.as_slice());
    assert_eq!(rt; &bytes[16..], [0; 16].as_slice());
    assert_eq!(rt; MsgId::from_bytes(&bytes), Some(id));
    bytes[31] = 1;
    assert_eq!(rt; MsgId::from_bytes(&bytes), None);
}

const fn arrival(number: u32) -> Arrival {
    Arrival { epoch: 1, number }
}

fn plain(number: u32, priority: u8, available: u64, expiration: Option<u64>) -> Label {
    Label {
        root: Root {
            top: false,
            priority,
            available,
            expiration,
            arrival: arrival(number),
        },
        path: Path::empty(),
    }
}

fn on_top(number: u32) -> Label {
    let mut label = plain(number, 50, 0, None);
    label.root.top = true;
    label
}

fn before(label: &Label, number: u32) -> Result<Label, Fail> {
    Ok(label.before(arrival(number)).ok_or("the path is full")?)
}

#[test]
fn placement(rt: HostRuntime) -> Result<(), Fail> {
    let order = Order::new(&[], Last::Fifo)?;
    let a = plain(0, 50, 0, None);
    let b = on_top(1);
    let c = on_top(2);
    let d = before(&b, 3)?;
    assert_eq!(rt; d.own_arrival(), arrival(3));
    assert_eq!(rt; b.own_arrival(), arrival(1));
    let labels = [&c, &d, &b, &a];
    for i in 0..4 {
        for j in 0..4 {
            assert_eq!(rt; compare(&order, labels[i], labels[j]), i.cmp(&j));
        }
    }
    Ok(())
}

#[test]
fn criteria(rt: HostRuntime) -> Result<(), Fail> {
    use Criterion::{Expiration, Priority, Time};
    let plainly = plain(5, 50, 0, None);
    let pairs: [(&[Criterion], Last, Label, Label); 9] = [
        (&[], Last::Fifo, plainly, plain(6, 100, 0, Some(1))),
        (&[], Last::Lifo, plain(6, 1, 9, None), plainly),
        (&[Priority], Last::Fifo, plain(6, 51, 9, None), plainly),
        (&[Time], Last::Fifo, plainly, plain(4, 100, 1, Some(1))),
        (
            &[Expiration],
            Last::Fifo,
            plain(6, 1, 9, Some(300)),
            plain(4, 50, 0, Some(500)),
        ),
        (
            &[Expiration],
            Last::Fifo,
            plain(6, 1, 9, Some(300)),
            plainly,
        ),
        (
            &[Priority, Time],
            Last::Lifo,
            plainly,
            plain(6, 50, 1, None),
        ),
        (
            &[Time, Priority],
            Last::Lifo,
            plain(4, 60, 0, None),
            plainly,
        ),
        (
            &[Priority],
            Last::Lifo,
            before(&plainly, 7)?,
            before(&plainly, 8)?,
        ),
    ];
    for (criteria, last, first, second) in &pairs {
        let order = Order::new(criteria, *last)?;
        assert_eq!(rt; compare(&order, first, second), Ordering::Less);
        assert_eq!(rt; compare(&order, second, first), Ordering::Greater);
    }
    Ok(())
}

#[test]
fn depth(rt: HostRuntime) -> Result<(), Fail> {
    let order = Order::new(&[], Last::Fifo)?;
    let mut label = plain(0, 50, 0, None);
    for number in 1..17 {
        let next = before(&label, number)?;
        assert_eq!(rt; compare(&order, &next, &label), Ordering::Less);
        label = next;
    }
    assert_eq!(rt; label.path.len(), 16);
    assert!(rt; label.before(arrival(17)).is_none());
    Ok(())
}

#[test]
fn copies(rt: HostRuntime) -> Result<(), Fail> {
    let entry = Entry {
        queue: 3,
        label: on_top(1),
        mark: Mark::Taking(2),
        message: Message {
            id: MsgId {
                site: 1,
                space: 8,
                epoch: 1,
                number: 1,
            },
            corr: Some(CorrId { bytes: [1; 32] }),
            replyq: Some(Name::new(b"R")?),
            failq: None,
            priority: 50,
            available: 0,
            expiration: Some(9),
            qos: Qos::Persistent,
            reply_qos: AskedQos::Default,
            urcode: -1,
            retries: 2,
            body: Body::new(rt.alloc(), b"hello")?,
        },
    };
    assert_eq!(rt; entry.message.body.as_bytes(), b"hello".as_slice());
    assert!(rt; entry.copy()? == entry);
    Ok(())
}
