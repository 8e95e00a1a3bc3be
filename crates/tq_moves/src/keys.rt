//! The keys by which sets ascend.

ghost use Rattle.std.specs.Prelude.{◌≡◌, ◌<◌};
ghost use Rattle.tq_slots.specs.RecordForm.{key_of};

use tq_slots::Set;

/// A set's tag and index as one number.
pub(crate) fn key(set: &Set) -> u32
    ensures key { result ≡ key_of set.now }
    ensures range { result < 262144 }
{
    match set {
        Set::Message(index, _) => 65536 + u32::from(*index),
        Set::Queue(index, _) => 131_072 + u32::from(*index),
        Set::Branch(index, _) => 196_608 + u32::from(*index),
    }
}
