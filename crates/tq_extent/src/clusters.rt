//! The clusters of a device, and which of them have an owner.

ghost use Rattle.std.specs.Prelude.{◌≡◌, ℕ, ◌+◌, ◌≤◌, ◌<◌, nat_lt, ◌==◌, Bool, true, false, List, ◌∷◌, length, take, IfOk, IfErr, OnOk, OnErr};
ghost use Rattle.std.specs.List.{list_all};
ghost use Rattle.tq_model.specs.Site.{Volume, header_clusters, least_clusters, most_clusters, numbers_from, as_extents, lowest_free, free_clusters};
ghost use Rattle.tq_extent.specs.Clusters.{new_clusters, is_free, is_given, free_in, clusters_of, are_distinct, can_claim, with_mark, extents_on, IsOf};
ghost use Rattle.tq_extent.specs.Pages.{HavePagesApart, AreMappable, are_others};
ghost use Rattle.tq_extent.specs.Bytes.{ShareNone};
ghost use Rattle.tq_extent.specs.declared.clusters.TakeError.TheVariants as error;

use crate::joining::{NO_RUN, close, join};
use std::alloc::{AllocError, Global};
use std::marker::Model;
use thiserror::Error;
use tq_model::{ClusterRoom, Extent, Extents};

/// The clusters of the header, which no owner has.
pub(crate) const HEADER: u32 = 4;

/// Why no clusters are given.
#[derive(Clone, Copy, Debug, Drop, PartialEq, Eq, Error)]
pub enum TakeError {
    #[error("{} clusters are needed and {} are free", .0.need, .0.free)]
    Lack(ClusterRoom),
    #[error("there is no memory")]
    NoMemory,
}

impl From<AllocError> for TakeError {
    ghost from_gives = { λ _ e. e ≡ error.NoMemory };

    fn from(_no_memory: AllocError) -> TakeError {
        TakeError::NoMemory
    }
}

/// A cluster is not of the device, or of its header, or has an owner, or stands twice.
#[derive(Clone, Copy, Debug, Drop, PartialEq, Eq, Error)]
#[error("a cluster is not free")]
pub struct NotFree;

/// The clusters of a device, and which of them have an owner.
#[derive(Drop)]
pub struct ExtentList {
    owned: Vec<bool>,
}

impl Model for ExtentList {
    ghost use Rattle.std.specs.Prelude.{List, Bool};

    ghost Value = { List Bool };

    ghost use Rattle.tq_extent.specs.Clusters.{HasClusters};

    ghost view = { λ a. a.owned.items };

    ghost invariant = { λ a. HasClusters a.owned.items };
}

impl ExtentList {
    ghost use Rattle.tq_extent.specs.TakeError.{IsCause};

    /// The clusters of a device that has no spaces.
    pub fn new(alloc: Global, clusters: u32) -> Result<ExtentList, AllocError>
        requires least { least_clusters ≤ clusters }
        requires most { clusters ≤ most_clusters }
        ensures { IfOk result (λ list. list ≡ new_clusters clusters) }
    {
        let mut owned = vec![in alloc; true; HEADER as usize]?;
        owned.resize(clusters as usize, false)?;
        Ok(ExtentList { owned })
    }

    /// How many clusters there are, those of the header included.
    pub fn clusters(&self) -> u32
        ensures all { result ≡ length self.now }
        ensures least { least_clusters ≤ result }
        ensures most { result ≤ most_clusters }
    {
        self.owned.len() as u32
    }

    /// How many clusters are free.
    pub fn free(&self) -> u32
        ensures free { result ≡ length (free_in self.now) }
        ensures within { (result + header_clusters ≤ length self.now) × (length self.now ≤ most_clusters) }
        // Of the spaces' volume, where no two of them have a cluster.
        ensures capacity { (v : Volume) → IsOf v self.now → can_claim (clusters_of (extents_on v)) (new_clusters v.clusters) ≡ true → result ≡ free_clusters v }
    {
        let mut free = 0;
        for cluster in HEADER..self.clusters() {
            if self.is_free(cluster.into()) {
                free += 1;
            }
        }
        free
    }

    fn is_free(&self, cluster: u64) -> bool
        ensures { result ≡ is_free cluster self.now }
    {
        match self.owned.get(cluster as usize) {
            Some(owned) => cluster >= u64::from(HEADER) && !*owned,
            None => false,
        }
    }

    /// Gives the lowest `n` free clusters. After an error none is given.
    pub fn take(&mut self, alloc: Global, n: u32) -> Result<Extents, TakeError>
        ensures extents { IfOk result (λ extents. extents ≡ as_extents (take n (free_in self.old))) }
        ensures clusters { IfOk result (λ extents. clusters_of extents ≡ take n (free_in self.old)) }
        ensures owned { IfOk result (λ extents. self.new ≡ with_mark true (clusters_of extents) self.old) }

        // Enough are free at Ok; an error is for want of clusters exactly where they are fewer, and else for want of memory.
        ensures enough { OnOk result (n ≤ length (free_in self.old)) }
        ensures cause { IfErr result (IsCause n (length (free_in self.old))) }
        ensures unchanged { OnErr result (self.new ≡ self.old) }

        // Of the spaces' volume they are the lowest free ones.
        ensures lowest { IfOk result (λ extents. (v : Volume) → IsOf v self.old → extents ≡ as_extents (lowest_free n v)) }

        // Their pages share no byte with the header's, nor with those of clusters that had an owner.
        ensures apart { IfOk result (λ extents. (others : List ℕ) → are_others others self.old ≡ true → HavePagesApart (clusters_of extents) others) }
        ensures shares_none { IfOk result (λ extents. (others : List ℕ) → are_others others self.old ≡ true → ShareNone (clusters_of extents) others) }
        ensures mappable { IfOk result AreMappable }
        ensures left { IfOk result (λ extents. length (clusters_of extents) + length (free_in self.new) ≡ length (free_in self.old)) }
    {
        let free = self.free();
        if free < n {
            return Err(TakeError::Lack(ClusterRoom {
                need: n.into(),
                free: free.into(),
            }));
        }
        let extents = self.lowest(alloc, n)?;
        self.mark(extents.as_slice(), true);
        Ok(extents)
    }

    /// The lowest `n` free clusters, or all where they are fewer.
    fn lowest(&self, alloc: Global, n: u32) -> Result<Extents, AllocError>
        ensures { IfOk result (λ extents. extents ≡ as_extents (take n (free_in self.now))) }
    {
        let mut extents = Extents::new(alloc);
        let mut run = NO_RUN;
        let mut left = n;
        for cluster in HEADER..self.clusters() {
            if left > 0 && self.is_free(cluster.into()) {
                join(&mut extents, &mut run, cluster)?;
                left -= 1;
            }
        }
        close(&mut extents, run)?;
        Ok(extents)
    }

    /// Gives these clusters. After an error none is given.
    pub fn claim(&mut self, extents: &[Extent]) -> Result<(), NotFree>
        ensures ok { OnOk result (self.new ≡ with_mark true (clusters_of extents.now) self.old) }

        // They are given exactly where each is free and none stands twice.
        ensures free { OnOk result (can_claim (clusters_of extents.now) self.old ≡ true) }
        ensures not_free { OnErr result (can_claim (clusters_of extents.now) self.old ≡ false) }
        ensures unchanged { OnErr result (self.new ≡ self.old) }

        // Their pages share no byte with the header's, nor with those of clusters that had an owner.
        ensures apart { OnOk result ((others : List ℕ) → are_others others self.old ≡ true → HavePagesApart (clusters_of extents.now) others) }
        ensures shares_none { OnOk result ((others : List ℕ) → are_others others self.old ≡ true → ShareNone (clusters_of extents.now) others) }
        ensures mappable { OnOk result (AreMappable extents.now) }
        ensures left { OnOk result (length (clusters_of extents.now) + length (free_in self.new) ≡ length (free_in self.old)) }
    {
        for at in 0..extents.len() {
            if !self.are_free(extents[at]) {
                self.mark(&extents[..at], false);
                return Err(NotFree);
            }
            self.mark_extent(extents[at], true);
        }
        Ok(())
    }

    /// Whether each cluster of an extent is free.
    fn are_free(&self, extent: Extent) -> bool
        ensures { result ≡ list_all (λ cluster. is_free cluster self.now) (numbers_from extent.first extent.count) }
    {
        let first = u64::from(extent.first);
        for cluster in first..first + u64::from(extent.count) {
            if !self.is_free(cluster) {
                return false;
            }
        }
        true
    }

    /// Takes clusters back, which are free then.
    pub fn give_back(&mut self, extents: &[Extent])
        requires { list_all (λ cluster. is_given cluster self.old) (clusters_of extents.now) ≡ true }
        ensures { self.new ≡ with_mark false (clusters_of extents.now) self.old }
    {
        self.mark(extents, false);
    }

    fn mark(&mut self, extents: &[Extent], owned: bool)
        requires { list_all (λ cluster. nat_lt cluster (length self.old)) (clusters_of extents.now) ≡ true }
        ensures { self.new ≡ with_mark owned (clusters_of extents.now) self.old }
    {
        for extent in extents {
            self.mark_extent(*extent, owned);
        }
    }

    fn mark_extent(&mut self, extent: Extent, owned: bool)
        requires { list_all (λ cluster. nat_lt cluster (length self.old)) (numbers_from extent.first extent.count) ≡ true }
        ensures marked { self.new ≡ with_mark owned (numbers_from extent.first extent.count) self.old }
        ensures most { length self.old ≤ most_clusters }
    {
        let first = extent.first as usize;
        for cluster in first..first + extent.count as usize {
            self.owned[cluster] = owned;
        }
    }
}
