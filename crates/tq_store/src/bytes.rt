ghost use Rattle.std.specs.Prelude.{◌≡◌, ◌+◌, ◌^◌, ◌<◌, ◌≤◌, ◌++◌, ℕ, List, length, get_or};
ghost use Rattle.tq_field.specs.Digits.{digits};
ghost use Rattle.tq_field.specs.Places.{number_at};
ghost use Rattle.tq_store.specs.Page.{IsZeroPadded};

use tq_field::{get_u16, get_u32, get_u64, put_u16, put_u32, put_u64};

/// The 2 bytes of a number.
pub(crate) fn two_bytes(n: u16) -> [u8; 2]
    ensures { result ≡ digits 2 n }
{
    let mut bytes = [0; 2];
    match put_u16(&mut bytes, 0, n) {
        Ok(()) => bytes,
        Err(_) => unreachable!(),
    }
}

/// The 4 bytes of a number.
pub(crate) fn four_bytes(n: u32) -> [u8; 4]
    ensures bytes { result ≡ digits 4 n }
    ensures fits { n < 2 ^ 32 }
{
    let mut bytes = [0; 4];
    match put_u32(&mut bytes, 0, n) {
        Ok(()) => bytes,
        Err(_) => unreachable!(),
    }
}

/// The 8 bytes of a number.
pub(crate) fn eight_bytes(n: u64) -> [u8; 8]
    ensures { result ≡ digits 8 n }
{
    let mut bytes = [0; 8];
    match put_u64(&mut bytes, 0, n) {
        Ok(()) => bytes,
        Err(_) => unreachable!(),
    }
}

/// The number in the 2 bytes from this place on, which has to have them.
pub(crate) fn u16_at(bytes: &[u8], at: usize) -> u16
    requires { at + 2 ≤ length bytes.now }
    ensures { result ≡ number_at at 2 bytes.now }
{
    get_u16(bytes, at).unwrap_or(0)
}

/// The number in the 4 bytes from this place on, which has to have them.
pub(crate) fn u32_at(bytes: &[u8], at: usize) -> u32
    requires { at + 4 ≤ length bytes.now }
    ensures { result ≡ number_at at 4 bytes.now }
{
    get_u32(bytes, at).unwrap_or(0)
}

/// The number in the 8 bytes from this place on, which has to have them.
pub(crate) fn u64_at(bytes: &[u8], at: usize) -> u64
    requires { at + 8 ≤ length bytes.now }
    ensures { result ≡ number_at at 8 bytes.now }
{
    get_u64(bytes, at).unwrap_or(0)
}

/// So many zero bytes.
pub(crate) fn zeros<const N: usize>() -> [u8; N]
    ensures { (i : ℕ) → get_or result i 0 ≡ 0 }
{
    [0; N]
}

/// Writes a run behind the first bytes, where all is zero.
pub(crate) fn put_behind(bytes: &mut [u8], at: usize, run: &[u8])
    requires { at + length run.now ≤ length bytes.old }
    ensures { (start : List ℕ) → length start ≡ at → IsZeroPadded start bytes.old → IsZeroPadded (start ++ run.now) bytes.new }
{
    bytes[at..at + run.len()].copy_from_slice(run);
}
