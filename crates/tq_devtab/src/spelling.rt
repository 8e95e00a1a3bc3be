//! Numbers and runs of bytes, written at their places.

ghost use Rattle.std.specs.Prelude.{◌≡◌, ◌+◌, ◌≤◌, length};
ghost use Rattle.tq_field.specs.Places.{number_at};
ghost use Rattle.tq_host.specs.Calls.{IsSameOutside, HasBytesAt};

use tq_field::{put_u16, put_u32};

/// Writes the number into the 4 bytes from this place on, which has to have them.
pub(crate) fn set_number(bytes: &mut [u8], at: usize, n: u32)
    requires { at + 4 ≤ length bytes.old }
    ensures number { number_at at 4 bytes.new ≡ n }
    ensures outside { IsSameOutside at 4 bytes.old bytes.new }
{
    let _fits = put_u32(bytes, at, n);
}

/// Writes the number into the 2 bytes from this place on, which has to have them.
pub(crate) fn set_short(bytes: &mut [u8], at: usize, n: u16)
    requires { at + 2 ≤ length bytes.old }
    ensures number { number_at at 2 bytes.new ≡ n }
    ensures outside { IsSameOutside at 2 bytes.old bytes.new }
{
    let _fits = put_u16(bytes, at, n);
}

/// Writes these bytes from this place on, where they have to end within the others.
pub(crate) fn set_run(bytes: &mut [u8], at: usize, run: &[u8])
    requires { at + length run.now ≤ length bytes.old }
    ensures stands { HasBytesAt at run.now bytes.new }
    ensures outside { IsSameOutside at (length run.now) bytes.old bytes.new }
{
    bytes[at..at + run.len()].copy_from_slice(run);
}
