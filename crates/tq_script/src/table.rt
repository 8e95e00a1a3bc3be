//! The verbs, their words and their keys.

ghost use Rattle.std.specs.Prelude.{◌≡◌, map};
ghost use Rattle.tq_model.specs.Grammar.{key_word, row_of, verb_named, verb_word};
ghost use Rattle.tq_script.specs.Rows.{key_row_of};

use tq_model::{Key, Kind, Verb};

/// A key of a verb.
#[derive(Clone, Copy)]
pub struct KeyRow {
    pub key: Key,
    pub kind: Kind,
    pub required: bool,
}

/// The positional words and the keys of a verb.
#[derive(Clone, Copy)]
pub struct Row {
    pub positional: &'static [Kind],
    pub keyed: &'static [KeyRow],
}

/// A key that has to be given.
macro_rules! needed {
    ($key:ident, $kind:ident) => {
        KeyRow {
            key: Key::$key,
            kind: Kind::$kind,
            required: true,
        }
    };
}

macro_rules! optional {
    ($key:ident, $kind:ident) => {
        KeyRow {
            key: Key::$key,
            kind: Kind::$kind,
            required: false,
        }
    };
}

/// Every verb.
const VERBS: [Verb; 9] = [
    Verb::Boot,
    Verb::CreateDevice,
    Verb::EraseDevice,
    Verb::ListDevice,
    Verb::CreateSpace,
    Verb::RemoveSpace,
    Verb::CreateQueue,
    Verb::Enqueue,
    Verb::Dequeue,
];

/// What stands behind a verb.
pub fn row_of(verb: Verb) -> Row
    ensures positional { result.positional.now ≡ (row_of verb).positional }
    ensures keyed { map key_row_of result.keyed.now ≡ (row_of verb).keyed }
{
    match verb {
        Verb::Boot => Row {
            positional: &[],
            keyed: &[],
        },
        Verb::CreateDevice => Row {
            positional: &[Kind::Device, Kind::Number],
            keyed: &[optional!(Site, Number)],
        },
        Verb::EraseDevice => Row {
            positional: &[Kind::Device],
            keyed: &[],
        },
        Verb::ListDevice => Row {
            positional: &[Kind::Device],
            keyed: &[],
        },
        Verb::CreateSpace => Row {
            positional: &[Kind::Name],
            keyed: &[
                needed!(Dev, Device),
                needed!(Pages, Number),
                needed!(Queues, Number),
                needed!(Transactions, Number),
                needed!(Messages, Number),
                needed!(Error, ErrorName),
                needed!(Memory, Number),
            ],
        },
        Verb::RemoveSpace => Row {
            positional: &[Kind::Name],
            keyed: &[optional!(Force, Yes)],
        },
        Verb::CreateQueue => Row {
            positional: &[Kind::Name, Kind::Name],
            keyed: &[],
        },
        Verb::Enqueue => Row {
            positional: &[Kind::Session, Kind::Name, Kind::Name],
            keyed: &[optional!(Flags, Flags), needed!(Data, Text)],
        },
        Verb::Dequeue => Row {
            positional: &[Kind::Session, Kind::Name, Kind::Name],
            keyed: &[optional!(Flags, Flags)],
        },
    }
}

fn verb_word(verb: Verb) -> &'static [u8]
    ensures { result.now ≡ verb_word verb }
{
    match verb {
        Verb::Boot => b"boot",
        Verb::CreateDevice => b"crdl",
        Verb::EraseDevice => b"dsdl",
        Verb::ListDevice => b"lidl",
        Verb::CreateSpace => b"qspacecreate",
        Verb::RemoveSpace => b"qspacedestroy",
        Verb::CreateQueue => b"qcreate",
        Verb::Enqueue => b"tpenqueue",
        Verb::Dequeue => b"tpdequeue",
    }
}

pub fn key_word(key: Key) -> &'static [u8]
    ensures { result.now ≡ key_word key }
{
    match key {
        Key::Site => b"site",
        Key::Dev => b"dev",
        Key::Pages => b"pages",
        Key::Queues => b"queues",
        Key::Transactions => b"trans",
        Key::Messages => b"msgs",
        Key::Error => b"error",
        Key::Memory => b"memory",
        Key::Flags => b"flags",
        Key::Data => b"data",
        Key::Force => b"force",
    }
}

/// The verb that is spelt so.
pub fn verb_named(word: &[u8]) -> Option<Verb>
    ensures { result ≡ verb_named word.now }
{
    for verb in &VERBS {
        if word == verb_word(*verb) {
            return Some(*verb);
        }
    }
    None
}
