ghost use Rattle.std.specs.Prelude.{◌≡◌, ◌+◌, ◌<◌, ◌≤◌, length, IfOk, IfErr, OnOk, OnErr};
ghost use Rattle.tq_field.specs.Places.{run_at, number_at};

use crate::short::{Short, has_room};
use byteorder::{BigEndian, ByteOrder};

/// The number in the 2 bytes from place `at`. `Short(at)` exactly where the bytes end before they do.
pub fn get_u16(bytes: &[u8], at: usize) -> Result<u16, Short>
    ensures fits { OnOk result (at + 2 ≤ length bytes.now) }
    ensures number { IfOk result (λ n. n ≡ number_at at 2 bytes.now) }
    ensures short { OnErr result (length bytes.now < at + 2) }
    ensures place { IfErr result (λ e. e.0 ≡ at) }
{
    let field = get_run(bytes, at, 2)?;
    Ok(BigEndian::read_u16(field))
}

/// The number in the 4 bytes from place `at`. `Short(at)` exactly where the bytes end before they do.
pub fn get_u32(bytes: &[u8], at: usize) -> Result<u32, Short>
    ensures fits { OnOk result (at + 4 ≤ length bytes.now) }
    ensures number { IfOk result (λ n. n ≡ number_at at 4 bytes.now) }
    ensures short { OnErr result (length bytes.now < at + 4) }
    ensures place { IfErr result (λ e. e.0 ≡ at) }
{
    let field = get_run(bytes, at, 4)?;
    Ok(BigEndian::read_u32(field))
}

/// The number in the 8 bytes from place `at`. `Short(at)` exactly where the bytes end before they do.
pub fn get_u64(bytes: &[u8], at: usize) -> Result<u64, Short>
    ensures fits { OnOk result (at + 8 ≤ length bytes.now) }
    ensures number { IfOk result (λ n. n ≡ number_at at 8 bytes.now) }
    ensures short { OnErr result (length bytes.now < at + 8) }
    ensures place { IfErr result (λ e. e.0 ≡ at) }
{
    let field = get_run(bytes, at, 8)?;
    Ok(BigEndian::read_u64(field))
}

/// The `n` bytes from place `at`. `Short(at)` exactly where the bytes end before they do.
pub fn get_run(bytes: &[u8], at: usize, n: usize) -> Result<&[u8], Short>
    ensures fits { OnOk result (at + n ≤ length bytes.now) }
    ensures run { IfOk result (λ run. run.now ≡ run_at at n bytes.now) }
    ensures short { OnErr result (length bytes.now < at + n) }
    ensures place { IfErr result (λ e. e.0 ≡ at) }
{
    if !has_room(bytes.len(), at, n) {
        return Err(Short(at));
    }
    Ok(&bytes[at..at + n])
}
