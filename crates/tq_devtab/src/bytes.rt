//! Numbers at a place in bytes.

ghost use Rattle.std.specs.Prelude.{◌≡◌, ◌+◌, ◌≤◌, length};
ghost use Rattle.tq_field.specs.Places.{number_at};

use tq_field::{get_u16, get_u32};

/// The number in the 4 bytes from this place on, which has to have them.
pub(crate) fn number(bytes: &[u8], at: usize) -> u32
    requires { at + 4 ≤ length bytes.now }
    ensures { result ≡ number_at at 4 bytes.now }
{
    get_u32(bytes, at).unwrap_or(0)
}

/// The number in the 2 bytes from this place on, which has to have them.
pub(crate) fn short(bytes: &[u8], at: usize) -> u16
    requires { at + 2 ≤ length bytes.now }
    ensures { result ≡ number_at at 2 bytes.now }
{
    get_u16(bytes, at).unwrap_or(0)
}
