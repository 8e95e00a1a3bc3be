//! The bytes with which the pages of a new device begin.

ghost use Rattle.std.specs.Prelude.{◌≡◌, ◌+◌, ◌*◌, ◌<◌, ◌≤◌, ℕ, length, get_or};
ghost use Rattle.tq_devtab.specs.Made.{IsHeaderStart, IsBaseStart, IsJournalStart, made_byte};

use crate::spelling::set_number;

/// These bytes, and zeros behind them.
pub(crate) fn padded<const N: usize>(start: &[u8]) -> [u8; N]
    requires { length start.now ≤ N }
    ensures { (i : ℕ) → get_or result i 0 ≡ get_or start.now i 0 }
{
    let mut bytes = [0; N];
    bytes[..start.len()].copy_from_slice(start);
    bytes
}

/// The first bytes of a device with this number.
pub(crate) fn header_start(dev: u8, site: u32, clusters: u32) -> [u8; 20]
    ensures { IsHeaderStart dev site clusters result }
{
    let mut start = padded::<20>(b"TQDEV001");
    start[8] = dev;
    set_number(&mut start, 12, site);
    set_number(&mut start, 16, clusters);
    start
}

/// The first bytes of a base: its mark, and its first number.
pub(crate) fn base_start(mark: &[u8; 4], n: u32) -> [u8; 8]
    ensures { IsBaseStart mark.now n result }
{
    let mut start = padded::<8>(mark);
    set_number(&mut start, 4, n);
    start
}

/// The first bytes of the site journal of a new device: of epoch 1 on device 0, and none on the
/// others.
pub(crate) fn journal_start(dev: u8) -> [u8; 8]
    ensures { IsJournalStart dev result }
{
    if dev == 0 {
        base_start(b"TQSJ", 1)
    } else {
        [0; 8]
    }
}

/// The first bytes of the page with this number; all behind them is zero.
pub(crate) fn page_start<'a>(
    number: u64,
    header: &'a [u8],
    table: &'a [u8],
    journal: &'a [u8],
) -> &'a [u8]
    requires header { length header.now ≤ 1024 }
    requires table { length table.now ≤ 1024 }
    requires journal { length journal.now ≤ 1024 }
    ensures bytes { (i : ℕ) → i < 1024 → get_or result.now i 0 ≡ made_byte header.now table.now journal.now (1024 * number + i) }
    ensures short { length result.now ≤ 1024 }
{
    match number {
        0 => header,
        1 => table,
        81 => journal,
        _ => &[],
    }
}
