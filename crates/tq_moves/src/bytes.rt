//! Numbers at a place in bytes, and numbers behind bytes.

ghost use Rattle.std.specs.Prelude.{◌≡◌, ◌+◌, ◌^◌, ◌≤◌, ◌<◌, ◌++◌, length, take, OnOk};
ghost use Rattle.tq_field.specs.Digits.{digits};
ghost use Rattle.tq_field.specs.Places.{number_at, run_at, with_number};
ghost use Rattle.tq_slots.specs.MessageForm as form;

use std::alloc::AllocError;
use tq_field::{get_run, get_u16, get_u32, get_u64, put_u16, put_u32, put_u64};

/// The number in the 2 bytes from this place on, which has to have them.
pub(crate) fn short(bytes: &[u8], at: usize) -> u16
    requires { at + 2 ≤ length bytes.now }
    ensures { result ≡ number_at at 2 bytes.now }
{
    get_u16(bytes, at).unwrap_or(0)
}

/// The number in the 4 bytes from this place on, which has to have them.
pub(crate) fn number(bytes: &[u8], at: usize) -> u32
    requires { at + 4 ≤ length bytes.now }
    ensures { result ≡ number_at at 4 bytes.now }
{
    get_u32(bytes, at).unwrap_or(0)
}

/// The number in the 8 bytes from this place on, which has to have them.
pub(crate) fn long(bytes: &[u8], at: usize) -> u64
    requires { at + 8 ≤ length bytes.now }
    ensures { result ≡ number_at at 8 bytes.now }
{
    get_u64(bytes, at).unwrap_or(0)
}

/// The `n` bytes from this place on, which has to have them.
pub(crate) fn run(bytes: &[u8], at: usize, n: usize) -> &[u8]
    requires { at + n ≤ length bytes.now }
    ensures { result.now ≡ run_at at n bytes.now }
{
    match get_run(bytes, at, n) {
        Ok(run) => run,
        Err(_) => unreachable!(),
    }
}

/// Adds a byte.
pub(crate) fn push_byte(out: &mut Vec<u8>, n: u8) -> Result<(), AllocError>
    ensures { OnOk result (out.new.items ≡ out.old.items ++ digits 1 n) }
{
    out.extend_from_slice(&[n])
}

/// Adds a number in 2 bytes.
pub(crate) fn push_short(out: &mut Vec<u8>, n: u16) -> Result<(), AllocError>
    ensures { OnOk result (out.new.items ≡ out.old.items ++ digits 2 n) }
{
    let mut field = [0; 2];
    let _fits = put_u16(&mut field, 0, n);
    out.extend_from_slice(&field)
}

/// Adds a number in 4 bytes.
pub(crate) fn push_number(out: &mut Vec<u8>, n: u32) -> Result<(), AllocError>
    ensures { OnOk result (out.new.items ≡ out.old.items ++ digits 4 n) }
{
    let mut field = [0; 4];
    let _fits = put_u32(&mut field, 0, n);
    out.extend_from_slice(&field)
}

/// Adds a number in 8 bytes.
pub(crate) fn push_long(out: &mut Vec<u8>, n: u64) -> Result<(), AllocError>
    ensures { OnOk result (out.new.items ≡ out.old.items ++ digits 8 n) }
{
    let mut field = [0; 8];
    let _fits = put_u64(&mut field, 0, n);
    out.extend_from_slice(&field)
}

/// Adds so many bytes 0.
pub(crate) fn push_zeros(out: &mut Vec<u8>, n: usize) -> Result<(), AllocError>
    ensures { OnOk result (out.new.items ≡ out.old.items ++ digits n 0) }
{
    for _ in 0..n {
        out.push(0)?;
    }
    Ok(())
}

/// Writes a number into the 4 bytes from this place on, which has to have them.
pub(crate) fn set_number(bytes: &mut [u8], at: usize, n: u32)
    requires { at + 4 ≤ length bytes.old }
    ensures { bytes.new ≡ with_number at 4 n bytes.old }
{
    let _fits = put_u32(bytes, at, n);
}

/// Bytes with zeros behind them.
pub(crate) fn filled<const N: usize>(run: &[u8]) -> [u8; N]
    requires { length run.now ≤ N }
    ensures { result ≡ form.filled N run.now }
{
    let mut bytes = [0; N];
    bytes[..run.len()].copy_from_slice(run);
    bytes
}

/// Writes bytes from that place on, and gives the place behind them.
pub(crate) fn put(into: &mut [u8], at: usize, run: &[u8]) -> usize
    requires { at + length run.now ≤ length into.old }
    ensures place { result ≡ at + length run.now }
    ensures front { take result into.new ≡ take at into.old ++ run.now }
    ensures size { length into.new ≡ length into.old }
{
    let end = at + run.len();
    into[at..end].copy_from_slice(run);
    end
}

/// Writes a byte so.
pub(crate) fn put_byte(into: &mut [u8], at: usize, n: u8) -> usize
    requires { at + 1 ≤ length into.old }
    ensures place { result ≡ at + 1 }
    ensures front { take result into.new ≡ take at into.old ++ digits 1 n }
    ensures size { length into.new ≡ length into.old }
    ensures range { n < 256 ^ 1 }
{
    put(into, at, &[n])
}

/// Writes a number so, in 4 bytes.
pub(crate) fn put_number(into: &mut [u8], at: usize, n: u32) -> usize
    requires { at + 4 ≤ length into.old }
    ensures place { result ≡ at + 4 }
    ensures front { take result into.new ≡ take at into.old ++ digits 4 n }
    ensures size { length into.new ≡ length into.old }
    ensures range { n < 256 ^ 4 }
{
    let mut field = [0; 4];
    let _fits = put_u32(&mut field, 0, n);
    put(into, at, &field)
}

/// Writes a number so, in 8 bytes.
pub(crate) fn put_long(into: &mut [u8], at: usize, n: u64) -> usize
    requires { at + 8 ≤ length into.old }
    ensures place { result ≡ at + 8 }
    ensures front { take result into.new ≡ take at into.old ++ digits 8 n }
    ensures size { length into.new ≡ length into.old }
    ensures range { n < 256 ^ 8 }
{
    let mut field = [0; 8];
    let _fits = put_u64(&mut field, 0, n);
    put(into, at, &field)
}

/// Writes so many bytes 0 so.
pub(crate) fn put_zeros(into: &mut [u8], at: usize, n: usize) -> usize
    requires { at + n ≤ length into.old }
    ensures place { result ≡ at + n }
    ensures front { take result into.new ≡ take at into.old ++ digits n 0 }
    ensures size { length into.new ≡ length into.old }
{
    let end = at + n;
    into[at..end].fill(0);
    end
}
