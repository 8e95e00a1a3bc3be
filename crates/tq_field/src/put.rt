ghost use Rattle.std.specs.Prelude.{◌≡◌, ◌+◌, ◌<◌, ◌≤◌, List, ℕ, length, IfErr, OnOk, OnErr};
ghost use Rattle.tq_field.specs.Digits.{AreBytes, number_of};
ghost use Rattle.tq_field.specs.Places.{run_at, number_at, with_number};

use crate::short::{Short, has_room};
use byteorder::{BigEndian, ByteOrder};

/// Writes the 2 digits of `n` from place `at`. `Short(at)` exactly where the bytes end before they
/// do; nothing has changed then.
pub fn put_u16(bytes: &mut [u8], at: usize, n: u16) -> Result<(), Short>
    ensures fits { OnOk result (at + 2 ≤ length bytes.old) }
    ensures written { OnOk result (bytes.new ≡ with_number at 2 n bytes.old) }
    ensures read_back { OnOk result (number_at at 2 bytes.new ≡ n) }
    ensures copied { (source : List ℕ) → length source ≡ 2 → AreBytes source → n ≡ number_of source
        → OnOk result (run_at at 2 bytes.new ≡ source) }
    ensures same { n ≡ number_at at 2 bytes.old → AreBytes bytes.old → bytes.new ≡ bytes.old }
    ensures length_kept { length bytes.new ≡ length bytes.old }
    ensures short { OnErr result (length bytes.old < at + 2) }
    ensures place { IfErr result (λ e. e.0 ≡ at) }
    ensures unchanged { OnErr result (bytes.new ≡ bytes.old) }
{
    if !has_room(bytes.len(), at, 2) {
        return Err(Short(at));
    }
    BigEndian::write_u16(&mut bytes[at..at + 2], n);
    Ok(())
}

/// Writes the 4 digits of `n` from place `at`. `Short(at)` exactly where the bytes end before they
/// do; nothing has changed then.
pub fn put_u32(bytes: &mut [u8], at: usize, n: u32) -> Result<(), Short>
    ensures fits { OnOk result (at + 4 ≤ length bytes.old) }
    ensures written { OnOk result (bytes.new ≡ with_number at 4 n bytes.old) }
    ensures read_back { OnOk result (number_at at 4 bytes.new ≡ n) }
    ensures copied { (source : List ℕ) → length source ≡ 4 → AreBytes source → n ≡ number_of source
        → OnOk result (run_at at 4 bytes.new ≡ source) }
    ensures same { n ≡ number_at at 4 bytes.old → AreBytes bytes.old → bytes.new ≡ bytes.old }
    ensures length_kept { length bytes.new ≡ length bytes.old }
    ensures short { OnErr result (length bytes.old < at + 4) }
    ensures place { IfErr result (λ e. e.0 ≡ at) }
    ensures unchanged { OnErr result (bytes.new ≡ bytes.old) }
{
    if !has_room(bytes.len(), at, 4) {
        return Err(Short(at));
    }
    BigEndian::write_u32(&mut bytes[at..at + 4], n);
    Ok(())
}

/// Writes the 8 digits of `n` from place `at`. `Short(at)` exactly where the bytes end before they
/// do; nothing has changed then.
pub fn put_u64(bytes: &mut [u8], at: usize, n: u64) -> Result<(), Short>
    ensures fits { OnOk result (at + 8 ≤ length bytes.old) }
    ensures written { OnOk result (bytes.new ≡ with_number at 8 n bytes.old) }
    ensures read_back { OnOk result (number_at at 8 bytes.new ≡ n) }
    ensures copied { (source : List ℕ) → length source ≡ 8 → AreBytes source → n ≡ number_of source
        → OnOk result (run_at at 8 bytes.new ≡ source) }
    ensures same { n ≡ number_at at 8 bytes.old → AreBytes bytes.old → bytes.new ≡ bytes.old }
    ensures length_kept { length bytes.new ≡ length bytes.old }
    ensures short { OnErr result (length bytes.old < at + 8) }
    ensures place { IfErr result (λ e. e.0 ≡ at) }
    ensures unchanged { OnErr result (bytes.new ≡ bytes.old) }
{
    if !has_room(bytes.len(), at, 8) {
        return Err(Short(at));
    }
    BigEndian::write_u64(&mut bytes[at..at + 8], n);
    Ok(())
}
