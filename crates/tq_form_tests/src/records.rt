//! Records of a space's log and headers of messages, in bytes.

ghost use Rattle.std.specs.Prelude.{◌≡◌, length, IfOk};

use std::alloc::Global;
use std::test::Fail;
use tq_moves::{MoveError, decode, decode_header, encode, encode_message, set_first};
use tq_slots::{MessageSlot, Rec, RecKind, Set};
use tq_types::{
    Arrival, AskedQos, Body, CorrId, Entry, Label, Mark, Message, MsgId, Name, Path, Qos, Root,
};

/// A record that sets the message slot of index 258: Free, in queue 1, with an expiration.
const MESSAGE: [u8; 70] = [
    1, 0, 1, 1, 1, 2, 1, 0, 1, 2, 50, 50, 0, 0, 0, 0, 0, 3, 0, 0, 1, 0, 0, 0, 0, 7, 0, 0, 0, 9, 0,
    0, 0, 0, 0, 0, 0, 5, 0, 0, 0, 0, 0, 0, 1, 1, 0, 0, 0, 0, 0, 0, 0, 6, 0, 0, 0, 0, 0, 0, 0, 0, 0,
    0, 0, 7, 0, 0, 0, 9,
];

const SLOT: MessageSlot = MessageSlot {
    mark: 1,
    branch: 0,
    queue: 1,
    bits: 2,
    priority: 50,
    root_priority: 50,
    numbers: 0,
    retries: 3,
    first: 256,
    epoch: 7,
    number: 9,
    available: 5,
    expiration: 257,
    root_available: 6,
    root_expiration: 0,
    root_epoch: 7,
    root_number: 9,
};

fn is_bad(found: Result<Rec, MoveError>, place: usize) -> bool {
    matches!(found, Err(MoveError::BadRecord { at }) if at == place)
}

#[test]
fn a_record_spelt_by_hand(rt: HostRuntime) -> Result<(), Fail> {
    let rec = decode(rt.alloc(), &MESSAGE)
        .ok()
        .ok_or("the bytes spell a record")?;
    assert!(rt; rec.kind == RecKind::Apply);
    assert!(rt; rec.sets.len() == 1);
    for set in &rec.sets {
        assert!(rt; *set == Set::Message(258, SLOT));
    }
    let frame = encode(rt.alloc(), &rec).ok().ok_or("there is memory")?;
    assert!(rt; frame.len() == 76);
    assert!(rt; &frame[5..75] == MESSAGE.as_slice());
    Ok(())
}

#[test]
fn bytes_that_spell_no_record(rt: HostRuntime) {
    assert!(rt; is_bad(decode(rt.alloc(), &[]), 0));
    assert!(rt; is_bad(decode(rt.alloc(), &[0, 0, 0]), 0));
    assert!(rt; is_bad(decode(rt.alloc(), &[7, 0, 0]), 0));
    assert!(rt; is_bad(decode(rt.alloc(), &[6, 0]), 2));
    assert!(rt; is_bad(decode(rt.alloc(), &[6, 0, 0, 0]), 3));
    assert!(rt; is_bad(decode(rt.alloc(), &[6, 0, 1, 4]), 3));
    assert!(rt; is_bad(decode(rt.alloc(), &[6, 0, 1, 0]), 3));
    assert!(rt; is_bad(decode(rt.alloc(), &[6, 0, 1, 3, 0]), 5));
    assert!(rt; is_bad(decode(rt.alloc(), &MESSAGE[..69]), 69));
    assert!(rt; decode(rt.alloc(), &[2, 0, 0]).is_ok());
}

// Byte 13 says nothing, and is 0 in what is spelt. Another number of sets leaves bytes missing.
#[test]
fn each_byte_changed(rt: HostRuntime) -> Result<(), Fail> {
    for place in 0..70 {
        let mut changed = MESSAGE;
        changed[place] = 255;
        match decode(rt.alloc(), &changed) {
            Ok(rec) => {
                let frame = encode(rt.alloc(), &rec).ok().ok_or("there is memory")?;
                changed[13] = 0;
                assert!(rt; frame.len() == 76);
                assert!(rt; &frame[5..75] == changed.as_slice());
            }
            Err(_) => {
                let at = if place == 1 || place == 2 { 70 } else { place };
                assert!(rt; is_bad(decode(rt.alloc(), &changed), at));
            }
        }
    }
    Ok(())
}

#[test]
fn another_first_page(rt: HostRuntime) -> Result<(), Fail> {
    let mut rec = Rec {
        kind: RecKind::Apply,
        sets: vec![in rt.alloc(); Set::Message(258, SLOT)]?,
    };
    let mut frame = encode(rt.alloc(), &rec)?;
    set_first(&mut rec, frame.as_mut_slice(), 0, 0x0102_0304);
    assert!(rt; frame.len() == 76);
    assert!(rt; &frame[23..27] == [1, 2, 3, 4].as_slice());
    Ok(())
}

fn entry(alloc: Global) -> Result<Entry, Fail>
    ensures { IfOk result (λ entry. length entry.message.body ≡ 5) }
{
    let mut path = Path::empty();
    for number in 1..17 {
        let Some(longer) = path.with(Arrival { epoch: 2, number }) else {
            return Err(Fail::from("the path is full"));
        };
        path = longer;
    }
    let name = Name::new(b"a234567890.-_zZ").ok().ok_or("a name")?;
    Ok(Entry {
        queue: 3,
        label: Label {
            root: Root {
                top: false,
                priority: 100,
                available: 0,
                expiration: None,
                arrival: Arrival {
                    epoch: 1,
                    number: 1,
                },
            },
            path,
        },
        mark: Mark::Free,
        message: Message {
            id: MsgId {
                site: 1,
                space: 1,
                epoch: 2,
                number: 16,
            },
            corr: Some(CorrId { bytes: [255; 32] }),
            replyq: Some(name),
            failq: Some(name),
            priority: 100,
            available: 0,
            expiration: None,
            qos: Qos::Persistent,
            reply_qos: AskedQos::NonPersistent,
            urcode: -2_147_483_648,
            retries: 0,
            body: Body::new(alloc, b"body!")?,
        },
    })
}

// The first `n` bytes, where there are so many.
fn first(bytes: &[u8], n: usize) -> &[u8] {
    if n <= bytes.len() { &bytes[..n] } else { bytes }
}

#[test]
fn a_header_at_its_limits(rt: HostRuntime) -> Result<(), Fail> {
    let entry = entry(rt.alloc())?;
    let bytes = encode_message(rt.alloc(), &entry)?;
    assert!(rt; bytes.len() == 261);
    assert!(rt; &bytes[12..20] == [7, 2, 0, 0, 128, 0, 0, 0].as_slice());
    assert!(rt; &bytes[84..92] == [16, 0, 0, 0, 0, 0, 0, 2].as_slice());
    assert!(rt; &bytes[256..261] == b"body!".as_slice());
    let header = decode_header(first(bytes.as_slice(), 256), 261).ok_or(
        "the bytes spell a header",
    )?;
    assert!(rt; header.body_length == 5);
    assert!(rt; header.urcode == -2_147_483_648);
    assert!(rt; header.reply_qos == AskedQos::NonPersistent);
    assert!(rt; header.corr == Some(CorrId { bytes: [255; 32] }));
    assert!(rt; header.replyq == entry.message.replyq);
    assert!(rt; header.failq == entry.message.failq);
    assert!(rt; header.path == entry.label.path);
    assert!(rt; decode_header(first(bytes.as_slice(), 256), 260).is_none());
    assert!(rt; decode_header(first(bytes.as_slice(), 255), 261).is_none());
    Ok(())
}
