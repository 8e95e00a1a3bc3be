//! The spaces of a table beside each other.

ghost use Rattle.std.specs.Prelude.{◌≡◌, Option, ◌≤◌, ◌<◌, true, false, not, nat_lt, length, get_or, set, is_some, Some, None, IfOk, IfSome, IfNone};
ghost use Rattle.std.specs.List.{list_all};
ghost use Rattle.std.specs.Str.{bytes_eq};
ghost use Rattle.tq_model.specs.Site.{least_clusters, most_clusters, present};
ghost use Rattle.tq_model.specs.Reading.{NamedSpace, no_two};
ghost use Rattle.tq_extent.specs.Clusters.{clusters_of, new_clusters, can_claim};
ghost use Rattle.tq_devtab.specs.Table.{changed_entry, entry_of, entry_view, entries_view, extents_of, owned_by, with_entry};
ghost use Rattle.tq_devtab.specs.TableParts as parts;
ghost use Rattle.tq_devtab.specs.TableParts.{spaces_of};

use crate::TableEntry;
use std::alloc::{AllocError, Global};
use tq_extent::ExtentList;

/// Whether two spaces have one name or one ordinal.
fn are_alike(a: &TableEntry, b: &TableEntry) -> bool
    ensures { result ≡ parts.are_alike (entry_view a.now) (entry_view b.now) }
{
    a.name == b.name || a.ordinal == b.ordinal
}

/// Whether a space has a name and an ordinal that none of these has.
fn is_new(space: &TableEntry, entries: &[Option<TableEntry>]) -> bool
    ensures { result ≡ list_all (λ other. not (parts.are_alike (entry_view space.now) other)) (spaces_of entries.now) }
{
    for entry in entries {
        let Some(other) = entry else {
            continue;
        };
        if are_alike(space, other) {
            return false;
        }
    }
    true
}

/// Whether no two spaces have one name or one ordinal.
fn are_distinct(entries: &[Option<TableEntry>]) -> bool
    ensures { result ≡ no_two parts.are_alike (spaces_of entries.now) }
{
    for (index, entry) in entries.iter().enumerate() {
        let Some(space) = entry else {
            continue;
        };
        if !is_new(space, &entries[index + 1..]) {
            return false;
        }
    }
    true
}

/// The clusters of a device of which these spaces have theirs; `None` exactly where a cluster is not
/// free, or is one of two extents.
fn claim(
    alloc: Global,
    clusters: u32,
    entries: &[Option<TableEntry>],
) -> Result<Option<ExtentList>, AllocError>
    requires least { least_clusters ≤ clusters }
    requires most { clusters ≤ most_clusters }
    ensures not_free { IfOk result (λ found. IfNone found (can_claim (clusters_of (extents_of (entries_view entries.now))) (new_clusters clusters) ≡ false)) }
    ensures free { IfOk result (λ found. IfSome found (λ _. can_claim (clusters_of (extents_of (entries_view entries.now))) (new_clusters clusters) ≡ true)) }
    ensures owned { IfOk result (λ found. IfSome found (λ owned. owned ≡ owned_by clusters (entries_view entries.now))) }
{
    let mut owned = ExtentList::new(alloc, clusters)?;
    for entry in entries {
        let Some(space) = entry else {
            continue;
        };
        if owned.claim(space.extents.as_slice()).is_err() {
            return Ok(None);
        }
    }
    Ok(Some(owned))
}

/// The clusters of a device of which these spaces have theirs; `None` exactly where two spaces have
/// one name or one ordinal, or a cluster is not free, or is one of two extents.
pub(crate) fn owned_clusters(
    alloc: Global,
    clusters: u32,
    entries: &[Option<TableEntry>],
) -> Result<Option<ExtentList>, AllocError>
    requires least { least_clusters ≤ clusters }
    requires most { clusters ≤ most_clusters }
    ensures broken { IfOk result (λ found. IfNone found (parts.go_together clusters entries.now ≡ false)) }
    ensures holds { IfOk result (λ found. IfSome found (λ _. parts.go_together clusters entries.now ≡ true)) }
    ensures owned { IfOk result (λ found. IfSome found (λ owned. owned ≡ owned_by clusters (entries_view entries.now))) }
{
    if !are_distinct(entries) {
        return Ok(None);
    }
    claim(alloc, clusters, entries)
}

/// Whether one of these spaces has this name.
pub(crate) fn has_named(name: &[u8], entries: &[Option<TableEntry>]) -> bool
    ensures { result ≡ not (list_all (λ m. not (bytes_eq name.now m.name)) (spaces_of entries.now)) }
{
    for entry in entries {
        let Some(space) = entry else {
            continue;
        };
        if name == space.name.as_bytes() {
            return true;
        }
    }
    false
}

/// Whether one of these entries is not used.
pub(crate) fn has_unused(entries: &[Option<TableEntry>]) -> bool
    ensures { result ≡ nat_lt (length (spaces_of entries.now)) (length entries.now) }
{
    for entry in entries {
        if entry.is_none() {
            return true;
        }
    }
    false
}

/// The space of that ordinal.
pub(crate) fn with_ordinal(entries: &[Option<TableEntry>], ordinal: u32) -> Option<&TableEntry>
    ensures some { IfSome result (λ space. entry_of ordinal (entries_view entries.now) ≡ Some (entry_view space.now)) }
    ensures none { IfNone result (entry_of ordinal (entries_view entries.now) ≡ None) }
{
    for entry in entries {
        let Some(space) = entry else {
            continue;
        };
        if space.ordinal == ordinal {
            return Some(space);
        }
    }
    None
}

/// The lowest entry that is not used, where there is one.
pub(crate) fn lowest_unused(entries: &[Option<TableEntry>]) -> usize
    requires room { length (present (entries_view entries.now)) < length entries.now }
    ensures within { result < length entries.now }
    ensures lowest { (n : NamedSpace) → with_entry n (entries_view entries.now) ≡ set (entries_view entries.now) result (Some n) }
{
    for (index, entry) in entries.iter().enumerate() {
        let Some(_space) = entry else {
            return index;
        };
    }
    0
}

/// The entry of the space of that ordinal, which is there.
pub(crate) fn space_at(entries: &[Option<TableEntry>], ordinal: u32) -> usize
    requires there { is_some (entry_of ordinal (entries_view entries.now)) ≡ true }
    ensures within { result < length entries.now }
    ensures space { get_or (entries_view entries.now) result None ≡ entry_of ordinal (entries_view entries.now) }
    ensures change { (change : NamedSpace → Option NamedSpace) (n : NamedSpace) → entry_of ordinal (entries_view entries.now) ≡ Some n
        → changed_entry ordinal change (entries_view entries.now) ≡ set (entries_view entries.now) result (change n) }
{
    for (index, entry) in entries.iter().enumerate() {
        let Some(space) = entry else {
            continue;
        };
        if space.ordinal == ordinal {
            return index;
        }
    }
    0
}
