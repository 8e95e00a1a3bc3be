//! The extents of a table, read and judged.

ghost use Rattle.std.specs.Prelude.{◌≡◌, ◌+◌, ◌*◌, ◌≤◌, ◌<◌, ◌^◌, ℕ, length, IfOk};
ghost use Rattle.std.specs.List.{list_all, sum_by};
ghost use Rattle.tq_model.specs.Site as site;
ghost use Rattle.tq_model.specs.DeviceForm.{extents_at, cluster_bytes};
ghost use Rattle.tq_model.specs.Reading as reading;
ghost use Rattle.tq_model.specs.declared.answer.Extent.{Extent};
ghost use Rattle.tq_devtab.specs.Table.{AreReached};
ghost use Rattle.tq_devtab.specs.TableParts as parts;

use crate::bytes::short;
use crate::layout::EXTENT_BYTES;
use std::alloc::{AllocError, Global};
use tq_model::{CLUSTER_BYTES, Extent, Extents};

/// The clusters of the header, which no space has.
pub(crate) const HEADER_CLUSTERS: u32 = 4;

/// The pages of a cluster.
const CLUSTER_PAGES: u64 = 32;

/// So many extents, one after another from this place on.
pub(crate) fn decode_extents(
    alloc: Global,
    base: &[u8],
    start: usize,
    count: usize,
) -> Result<Extents, AllocError>
    requires { start + 4 * count ≤ length base.now }
    ensures { IfOk result (λ extents. extents ≡ extents_at count start base.now) }
{
    let mut extents = Extents::new(alloc);
    for index in 0..count {
        let at = start + EXTENT_BYTES * index;
        extents.push(Extent {
            first: short(base, at).into(),
            count: short(base, at + 2).into(),
        })?;
    }
    Ok(extents)
}

/// Whether these are clusters behind the header's, on a device of so many clusters and bytes.
fn is_extent(extent: Extent, clusters: u32, size: u64) -> bool
    ensures { result ≡ reading.is_extent clusters size extent }
{
    let end = u64::from(extent.first) + u64::from(extent.count);
    1 <= extent.count
        && HEADER_CLUSTERS <= extent.first
        && (end <= u64::from(clusters) && CLUSTER_BYTES * end <= size)
}

/// How many clusters these are.
fn cluster_count(extents: &[Extent]) -> u64
    requires { length extents.now < 2 ^ 32 }
    ensures { result ≡ sum_by (λ (e : Extent). e.count) extents.now }
{
    extents.iter().map(|extent| u64::from(extent.count)).sum()
}

/// The bytes that a device has to have so that it reaches to the end of an extent.
fn extent_end(extent: Extent) -> u64
    ensures { result ≡ cluster_bytes * (extent.first + extent.count) }
{
    CLUSTER_BYTES * (u64::from(extent.first) + u64::from(extent.count))
}

/// The bytes that a device has to have so that it reaches to the end of these extents.
pub(crate) fn end_of(extents: &[Extent]) -> u64
    ensures reach { (size : ℕ) → result ≤ size → AreReached size extents.now }
    ensures least { (size : ℕ) → AreReached size extents.now → result ≤ size }
{
    let mut end = 0;
    for extent in extents {
        end = end.max(extent_end(*extent));
    }
    end
}

/// Whether each of these extents lies on a device of so many clusters and bytes.
fn are_extents(extents: &[Extent], clusters: u32, size: u64) -> bool
    ensures { result ≡ list_all (reading.is_extent clusters size) extents.now }
{
    extents
        .iter()
        .all(|extent| is_extent(*extent, clusters, size))
}

/// How many clusters a space with so many pages has.
pub(crate) fn clusters_for(pages: u32) -> u64
    ensures { result ≡ site.clusters_for pages }
{
    (u64::from(pages) + (CLUSTER_PAGES - 1)) / CLUSTER_PAGES
}

/// Whether these are the clusters of a space with so many pages, on a device of so many clusters and
/// bytes.
pub(crate) fn has_clusters(extents: &[Extent], pages: u32, clusters: u32, size: u64) -> bool
    requires { length extents.now < 2 ^ 32 }
    ensures { result ≡ parts.has_clusters clusters size pages extents.now }
{
    are_extents(extents, clusters, size) && cluster_count(extents) == clusters_for(pages)
}
