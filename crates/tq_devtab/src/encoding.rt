//! A table's base, spelt.

ghost use Rattle.std.specs.Prelude.{◌≡◌, ◌+◌, ◌*◌, ◌<◌, ◌≤◌, ℕ, true, false, length, get_or, map, Some, option_map};
ghost use Rattle.tq_field.specs.Places.{number_at};
ghost use Rattle.tq_host.specs.Calls.{IsSameOutside};
ghost use Rattle.tq_types.specs.Name.{IsName};
ghost use Rattle.tq_model.specs.Site.{most_clusters};
ghost use Rattle.tq_model.specs.DeviceForm.{raw_entry, raw_entries, raw_table, extents_at, table_bytes, extents_start};
ghost use Rattle.tq_devtab.specs.Table.{IsTable, entry_view, entries_view, raw_of, table_of};
ghost use Rattle.tq_devtab.specs.Spelling.{IsEntryAt, IsSameOutsideBoth, IsSpellable, IsZero, IsZeroBehind, IsZeroBeside, IsZeroBetween, are_short, is_short, names_byte};

use crate::TableEntry;
use crate::layout::{
    ENTRIES_START, ENTRY_BYTES, EXTENT_BYTES, EXTENT_COUNT, EXTENTS_START, NAME, ORDINAL, PAGES,
};
use crate::spelling::{set_number, set_run, set_short};
use tq_model::Extent;

/// Spells a table into the bytes of a base.
pub(crate) fn encode_table(base: &mut [u8], next: u32, entries: &[Option<TableEntry>])
    requires base { length base.old ≡ table_bytes }
    requires table { (clusters : ℕ) × (size : ℕ) × (clusters ≤ most_clusters) × IsTable next clusters size (entries_view entries.now) }
    ensures spelt { raw_table 0 base.new ≡ table_of next (entries_view entries.now) }
    // Where the table says nothing a base is zero, whatever stood there.
    ensures zero { IsZeroBeside (entries_view entries.now) base.new }
    ensures size { length base.new ≡ table_bytes }
{
    base.fill(0);
    set_run(base, 0, b"TQTB");
    set_number(base, 4, next);
    set_entries(base, entries);
}

/// Spells the entries of a table into a base that is zero from the first of them on.
fn set_entries(base: &mut [u8], entries: &[Option<TableEntry>])
    requires base { length base.old ≡ table_bytes }
    requires zero { IsZero 32 40928 base.old }
    requires entries { IsSpellable (entries_view entries.now) }
    ensures spelt { raw_entries (length entries.now) 32 extents_start base.new ≡ map raw_of (entries_view entries.now) }
    ensures between { IsZeroBetween (entries_view entries.now) base.new }
    ensures behind { IsZeroBehind (entries_view entries.now) base.new }
    ensures before { (i : ℕ) → i < 32 → get_or base.new i 0 ≡ get_or base.old i 0 }
{
    let mut extents = EXTENTS_START;
    for (i, entry) in entries.iter().enumerate() {
        extents = set_entry(base, ENTRIES_START + ENTRY_BYTES * i, extents, entry);
    }
}

/// Spells an entry, its extents from that byte on, and gives the byte behind them.
fn set_entry(base: &mut [u8], at: usize, extents: usize, entry: &Option<TableEntry>) -> usize
    requires base { length base.old ≡ table_bytes }
    requires before { at + 160 ≤ extents }
    requires zero { IsZero at 160 base.old }
    requires within { extents + 4 * length (raw_of (option_map entry_view entry.now)).extents ≤ table_bytes }
    requires short { are_short (raw_of (option_map entry_view entry.now)).extents ≡ true }
    ensures behind { result ≡ extents + 4 * length (raw_of (option_map entry_view entry.now)).extents }
    ensures spelt { raw_entry at extents base.new ≡ raw_of (option_map entry_view entry.now) }
    ensures between { (i : ℕ) → i < 160 → names_byte (option_map entry_view entry.now) i ≡ false → get_or base.new (at + i) 0 ≡ 0 }
    ensures outside { IsSameOutsideBoth at 160 extents (4 * length (raw_of (option_map entry_view entry.now)).extents) base.old base.new }
{
    match entry {
        None => extents,
        Some(space) => {
            set_extents(base, extents, space.extents.as_slice());
            set_space(base, at, space);
            extents + EXTENT_BYTES * space.extents.as_slice().len()
        }
    }
}

/// Spells the entry of a space but for its extents.
fn set_space(base: &mut [u8], at: usize, space: &TableEntry)
    requires within { at + 160 ≤ length base.old }
    requires few { length space.now.extents ≤ 65536 }
    ensures spelt { IsEntryAt at (entry_view space.now) base.new }
    ensures name { IsName space.now.name }
    ensures between { (i : ℕ) → i < 160 → names_byte (Some (entry_view space.now)) i ≡ false → get_or base.new (at + i) 0 ≡ get_or base.old (at + i) 0 }
    ensures outside { IsSameOutside at 160 base.old base.new }
{
    let name = space.name.as_bytes();
    set_run(base, at, &[1, name.len() as u8]);
    set_run(base, at + NAME, name);
    set_number(base, at + ORDINAL, space.ordinal);
    set_number(base, at + PAGES, space.pages);
    set_number(
        base,
        at + EXTENT_COUNT,
        space.extents.as_slice().len() as u32,
    );
}

/// Spells extents, one behind another from this byte on.
fn set_extents(base: &mut [u8], at: usize, extents: &[Extent])
    requires within { at + 4 * length extents.now ≤ length base.old }
    requires short { are_short extents.now ≡ true }
    ensures spelt { extents_at (length extents.now) at base.new ≡ extents.now }
    ensures outside { IsSameOutside at (4 * length extents.now) base.old base.new }
{
    for (i, extent) in extents.iter().enumerate() {
        set_extent(base, at + EXTENT_BYTES * i, *extent);
    }
}

/// Spells an extent.
fn set_extent(base: &mut [u8], at: usize, extent: Extent)
    requires within { at + 4 ≤ length base.old }
    requires short { is_short extent ≡ true }
    ensures first { number_at at 2 base.new ≡ extent.first }
    ensures count { number_at (at + 2) 2 base.new ≡ extent.count }
    ensures outside { IsSameOutside at 4 base.old base.new }
{
    set_short(base, at, extent.first as u16);
    set_short(base, at + 2, extent.count as u16);
}
