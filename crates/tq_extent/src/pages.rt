//! Where the pages of an owner of clusters lie.

ghost use Rattle.std.specs.Prelude.{true, length, get_or, ◌≡◌, ◌≢◌, ℕ, ◌+◌, ◌≤◌, ◌<◌, nat_lt, ◌∷◌, ◌++◌, IfOk, OnOk};
ghost use Rattle.std.specs.List.{list_all};
ghost use Rattle.tq_model.specs.Site.{header_clusters, most_clusters, numbers_from};
ghost use Rattle.tq_extent.specs.Clusters.{clusters_of};
ghost use Rattle.tq_extent.specs.Pages.{page_count, page_address, AreApart, AreMappable, HasPages};

use crate::clusters::HEADER;
use std::alloc::{AllocError, Global};
use std::marker::Model;
use tq_model::Extent;

pub(crate) const CLUSTER_BYTES: u64 = 32_768;

const PAGE_BYTES: u64 = 1024;

/// The pages of a cluster.
pub(crate) const PAGES: u32 = 32;

#[derive(Drop)]
enum Owner {
    Header,
    Space(Vec<u32>),
}

/// Where the pages of an owner lie: 32 in each of its clusters, in their order.
#[derive(Drop)]
pub struct PageMap {
    owner: Owner,
}

impl Model for PageMap {
    ghost use Rattle.std.specs.Prelude.{List, ℕ};

    ghost Value = { List ℕ };

    ghost use Rattle.tq_extent.specs.Pages.{HasPages};
    ghost use Rattle.tq_extent.specs.Owner.{owner_clusters};

    ghost view = { λ a. owner_clusters a.owner };

    ghost invariant = { λ a. HasPages (owner_clusters a.owner) };
}

impl PageMap {
    /// The pages of a device's header.
    pub fn header() -> PageMap
        ensures { result ≡ numbers_from 0 header_clusters }
    {
        PageMap {
            owner: Owner::Header,
        }
    }

    /// The pages of the owner of these extents.
    pub fn of(alloc: Global, extents: &[Extent]) -> Result<PageMap, AllocError>
        requires { AreMappable extents.now }
        ensures { IfOk result (λ map. map ≡ clusters_of extents.now) }
    {
        let mut clusters = Vec::new(alloc);
        for extent in extents {
            push_clusters(&mut clusters, *extent)?;
        }
        Ok(PageMap {
            owner: Owner::Space(clusters),
        })
    }

    /// How many pages there are.
    pub fn pages(&self) -> u32
        ensures pages { result ≡ page_count self.now }
        // An owner has no more clusters than the largest device.
        ensures few { length self.now ≤ most_clusters }
    {
        match &self.owner {
            Owner::Header => PAGES * HEADER,
            Owner::Space(clusters) => PAGES * clusters.len() as u32,
        }
    }

    /// The byte of the device at which a page begins.
    pub fn address(&self, page: u32) -> u64
        requires { page < page_count self.now }
        ensures address { result ≡ page_address self.now page }
        // Two pages share no byte.
        ensures apart { (other : ℕ) → other < page_count self.now → other ≢ page → AreApart result (page_address self.now other) }
    {
        let cluster = self.cluster(u64::from(page / PAGES));
        CLUSTER_BYTES * cluster + PAGE_BYTES * u64::from(page % PAGES)
    }

    /// The cluster at this place.
    pub(crate) fn cluster(&self, at: u64) -> u64
        requires { at < length self.now }
        ensures cluster { result ≡ get_or self.now at 0 }
        ensures below { result < most_clusters }
        ensures pages { HasPages self.now }
    {
        match &self.owner {
            Owner::Header => at,
            Owner::Space(clusters) => clusters[at as usize].into(),
        }
    }

    /// The same pages once more.
    pub fn copy(&self, alloc: Global) -> Result<PageMap, AllocError>
        ensures { IfOk result (λ map. map ≡ self.now) }
    {
        let owner = match &self.owner {
            Owner::Header => Owner::Header,
            Owner::Space(clusters) => Owner::Space(Vec::from_slice(alloc, clusters.as_slice())?),
        };
        Ok(PageMap { owner })
    }
}

/// Adds the clusters of an extent.
fn push_clusters(clusters: &mut Vec<u32>, extent: Extent) -> Result<(), AllocError>
    requires { list_all (λ cluster. nat_lt cluster most_clusters) (numbers_from extent.first extent.count) ≡ true }
    ensures { OnOk result (clusters.new.items ≡ clusters.old.items ++ numbers_from extent.first extent.count) }
{
    for at in 0..extent.count {
        clusters.push(extent.first + at)?;
    }
    Ok(())
}
