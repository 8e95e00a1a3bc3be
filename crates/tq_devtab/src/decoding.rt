//! A table's base, read.

ghost use Rattle.std.specs.Prelude.{◌≡◌, ◌≤◌, ◌<◌, ◌+◌, ◌*◌, ℕ, true, false, length, get_or, map, if◌then◌else◌, Some, None, IfOk, IfSome, IfNone};
ghost use Rattle.tq_field.specs.Places.{run_at, number_at};
ghost use Rattle.tq_model.specs.Names.{is_name};
ghost use Rattle.tq_model.specs.Site.{least_clusters, most_clusters};
ghost use Rattle.tq_model.specs.DeviceForm as form;
ghost use Rattle.tq_model.specs.DeviceForm.{raw_entry, raw_table, table_bytes, extents_start};
ghost use Rattle.tq_model.specs.Reading.{hold_all, named_in, used_entries};
ghost use Rattle.tq_devtab.specs.Table.{base_tests, IsBase, IsTable, entry_view, entries_view};
ghost use Rattle.tq_devtab.specs.TableParts as parts;
ghost use Rattle.tq_devtab.specs.TableParts.{entry_holds};

use crate::TableEntry;
use crate::bytes::number;
use crate::extents::{decode_extents, has_clusters};
use crate::layout::{
    ENTRIES, ENTRIES_START, ENTRY_BYTES, EXTENT_BYTES, EXTENT_COUNT, EXTENTS_START, NAME, ORDINAL,
    PAGES,
};
use crate::spaces::owned_clusters;
use std::alloc::{AllocError, Global};
use tq_model::{LAST_SPACE, MOST_PAGES, name_in};
use tq_types::Name;

/// What a table's base says.
#[derive(Drop)]
pub(crate) struct DecodedTable {
    /// The ordinal of the next space.
    pub(crate) next: u32,
    /// 16 entries
    pub(crate) entries: Vec<Option<TableEntry>>,
}

/// What the spaces of a table keep within: the ordinal of the next one, and the clusters and the
/// bytes of the device.
#[derive(Clone, Copy)]
struct Limits {
    next: u32,
    clusters: u32,
    size: u64,
}

/// What the base of a table says of a device of so many clusters and bytes; `None` exactly where it
/// breaks one of the rules of a table.
pub(crate) fn decode_table(
    alloc: Global,
    base: &[u8],
    clusters: u32,
    size: u64,
) -> Result<Option<DecodedTable>, AllocError>
    requires base { length base.now ≡ table_bytes }
    requires least { least_clusters ≤ clusters }
    requires most { clusters ≤ most_clusters }
    ensures damaged { IfOk result (λ found. IfNone found (hold_all (base_tests clusters size base.now) ≡ false)) }
    ensures holds { IfOk result (λ found. IfSome found (λ t. hold_all (base_tests clusters size base.now) ≡ true)) }
    ensures base { IfOk result (λ found. IfSome found (λ t. IsBase t.next (entries_view t.entries.items) base.now)) }
    ensures table { IfOk result (λ found. IfSome found (λ t. IsTable t.next clusters size (entries_view t.entries.items))) }
    // What is read are bytes, so that a name ends within the base.
    ensures bytes { (i : ℕ) → get_or base.now i 0 < 256 }
{
    if !is_headed(base) || !is_counted(base) {
        return Ok(None);
    }
    let next = number(base, 4);
    let limits = Limits {
        next,
        clusters,
        size,
    };
    let Some(entries) = decode_entries(alloc, base, limits)? else {
        return Ok(None);
    };
    let Some(_owned) = owned_clusters(alloc, clusters, entries.as_slice())? else {
        return Ok(None);
    };
    Ok(Some(DecodedTable { next, entries }))
}

/// Whether the mark and the next ordinal are those of a table.
fn is_headed(base: &[u8]) -> bool
    requires { length base.now ≡ table_bytes }
    ensures { result ≡ parts.is_headed (raw_table 0 base.now) }
{
    &base[..4] == b"TQTB".as_slice() && (1 <= number(base, 4) && number(base, 4) <= LAST_SPACE)
}

/// How many extents the entry at this place has.
fn extent_count(base: &[u8], at: usize) -> u32
    requires { at + 160 ≤ length base.now }
    ensures { result ≡ form.extent_count at base.now }
{
    match base[at] {
        0 => 0,
        _ => number(base, at + EXTENT_COUNT),
    }
}

/// Whether each entry is used or not, and the extents of all end within the base.
fn is_counted(base: &[u8]) -> bool
    requires { length base.now ≡ table_bytes }
    ensures { result ≡ parts.is_counted (raw_table 0 base.now) }
{
    let mut end = EXTENTS_START;
    for index in 0..ENTRIES {
        let at = ENTRIES_START + ENTRY_BYTES * index;
        if base[at] > 1 {
            return false;
        }
        end += EXTENT_BYTES * extent_count(base, at) as usize;
    }
    end <= base.len()
}

/// The entries of a base, whose extents end within it; `None` exactly where one of them is not that
/// of a space within these limits.
fn decode_entries(
    alloc: Global,
    base: &[u8],
    limits: Limits,
) -> Result<Option<Vec<Option<TableEntry>>>, AllocError>
    requires base { length base.now ≡ table_bytes }
    requires counted { parts.is_counted (raw_table 0 base.now) ≡ true }
    ensures damaged { IfOk result (λ found. IfNone found (parts.each_holds limits.next limits.clusters limits.size (used_entries (raw_table 0 base.now)) ≡ false)) }
    ensures holds { IfOk result (λ found. IfSome found (λ _. parts.each_holds limits.next limits.clusters limits.size (used_entries (raw_table 0 base.now)) ≡ true)) }
    ensures entries { IfOk result (λ found. IfSome found (λ entries. map named_in (raw_table 0 base.now).entries ≡ entries_view entries.items)) }
{
    let mut entries = Vec::with_capacity(alloc, ENTRIES)?;
    let mut extents = EXTENTS_START;
    for index in 0..ENTRIES {
        let at = ENTRIES_START + ENTRY_BYTES * index;
        if base[at] == 0 {
            entries.push(None)?;
        } else {
            let Some(space) = decode_space(alloc, base, at, extents, limits)? else {
                return Ok(None);
            };
            extents += EXTENT_BYTES * space.extents.as_slice().len();
            entries.push(Some(space))?;
        }
    }
    Ok(Some(entries))
}

/// The space in the used entry at this place, whose extents begin at that one; `None` exactly where
/// it is not within these limits.
fn decode_space(
    alloc: Global,
    base: &[u8],
    at: usize,
    extents: usize,
    limits: Limits,
) -> Result<Option<TableEntry>, AllocError>
    requires base { length base.now ≡ table_bytes }
    requires entry { at + 160 ≤ extents_start }
    requires used { get_or base.now at 0 ≡ 1 }
    requires extents { extents + 4 * form.extent_count at base.now ≤ table_bytes }
    ensures damaged { IfOk result (λ found. IfNone found (entry_holds limits.next limits.clusters limits.size (raw_entry at extents base.now) ≡ false)) }
    ensures holds { IfOk result (λ found. IfSome found (λ _. entry_holds limits.next limits.clusters limits.size (raw_entry at extents base.now) ≡ true)) }
    ensures space { IfOk result (λ found. IfSome found (λ space. named_in (raw_entry at extents base.now) ≡ Some (entry_view space))) }
    ensures count { IfOk result (λ found. IfSome found (λ space. length space.extents ≡ form.extent_count at base.now)) }
{
    let Some(name) = name_at(base, at) else {
        return Ok(None);
    };
    let ordinal = number(base, at + ORDINAL);
    let pages = number(base, at + PAGES);
    if !is_numbered(ordinal, pages, limits.next) {
        return Ok(None);
    }
    let extents = decode_extents(alloc, base, extents, extent_count(base, at) as usize)?;
    if !has_clusters(extents.as_slice(), pages, limits.clusters, limits.size) {
        return Ok(None);
    }
    Ok(Some(TableEntry {
        name,
        ordinal,
        pages,
        extents,
    }))
}

/// The name in the entry at this place, where it is one.
fn name_at(base: &[u8], at: usize) -> Option<Name>
    requires base { length base.now ≡ table_bytes }
    requires entry { at + 160 ≤ extents_start }
    ensures { let text = run_at (at + 2) (get_or base.now (at + 1) 0) base.now in result ≡ (if is_name text then Some text else None) }
{
    let start = at + NAME;
    name_in(&base[start..start + usize::from(base[at + 1])])
}

/// Whether an ordinal and a number of pages are those of a space.
fn is_numbered(ordinal: u32, pages: u32, next: u32) -> bool
    ensures { result ≡ parts.is_numbered next ordinal pages }
{
    (1 <= ordinal && ordinal < next) && (1 <= pages && pages <= MOST_PAGES)
}
