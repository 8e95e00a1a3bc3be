ghost use Rattle.std.specs.Prelude.{◌+◌, ◌≤◌, ◌↔◌, IsTrue};

use thiserror::Error;

/// The bytes end before the field that begins at this place does.
#[derive(Clone, Copy, Debug, Drop, PartialEq, Eq, Error)]
#[error("the bytes end before the field at {0} does")]
pub struct Short(pub usize);

/// Whether `n` bytes from place `at` lie within `length` bytes, for every `at` and `n`.
pub(crate) fn has_room(length: usize, at: usize, n: usize) -> bool
    ensures { IsTrue result ↔ (at + n ≤ length) }
{
    at <= length && n <= length - at
}
