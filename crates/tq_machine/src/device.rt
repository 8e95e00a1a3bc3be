//! A device that is created, and the spaces of its table.

ghost use Rattle.std.specs.Prelude.{◌≡◌, ◌<◌, ◌≤◌, ◌+◌, ◌-◌, None, Some, IsSome, MatchOption, IfOk, OnOk, OnErr, length, map, option_map, option_to_list, ◌++◌, slice_index_or};
ghost use Rattle.std.specs.List.{find, list_any, position, sum_by};
ghost use Rattle.tq_model.specs.Site.{Site, last_space, no_entries, present, spaces_on, has_name, on_spaces, entry_beside, entries_with, is_taken, lowest_free, as_extents, free_clusters, capacity_of, durable_space};
ghost use Rattle.tq_model.specs.Step.{new_volume, space_line, is_table_full, placing_refusal, pages_refusal, pages_asked, removal_refusal, with_space_made, number_of};
ghost use Rattle.tq_machine.specs.SpaceCalls.{IsReply, after_call, logged_outcome};
ghost use Rattle.tq_machine.specs.Fields.{HasFieldsWithin};
ghost use Rattle.tq_machine.specs.Tables.{space_clusters, is_placed, is_unused, entry_changed, entry_covers, without_named};

use crate::joining::{NO_RUN, close, join};
use crate::placed::{HEADER_CLUSTERS, PlacedSpace, clusters_for, number_of, shape_asked};
use crate::space_call::{Reply, SpaceCall};
use std::alloc::{AllocError, Global};
use std::marker::Model;
use tq_model::{
    Answer, Capacity, ClusterRoom, Extents, LAST_SPACE, NewSpace, SpaceAnswer, SpaceCreation,
    SpaceLines, SpacePages, overhead_pages,
};
use tq_types::Name;

const TABLE_ENTRIES: usize = 16;

/// A device that is created, and the 16 entries of its table.
#[derive(Drop)]
pub(crate) struct CreatedDevice {
    clusters: u32,
    next_space: u32,
    entries: Vec<Option<PlacedSpace>>,
}

impl Model for CreatedDevice {
    ghost use Rattle.std.specs.Prelude.{◌≡◌, length};
    ghost use Rattle.tq_model.specs.Site.{Volume};

    ghost Value = { Volume };

    ghost view = { λ d. record { clusters = d.clusters; next_space = d.next_space; entries = d.entries.items } };

    ghost invariant = { λ d. length d.entries.items ≡ 16 };
}

impl CreatedDevice {
    /// A device without spaces.
    pub(crate) fn new(alloc: Global, clusters: u32) -> Result<CreatedDevice, AllocError>
        ensures { IfOk result (λ d. d ≡ new_volume clusters) }
    {
        Ok(CreatedDevice {
            clusters,
            next_space: 1,
            entries: empty_table(alloc)?,
        })
    }

    pub(crate) fn capacity(&self) -> Capacity
        ensures { result ≡ capacity_of self.now }
    {
        Capacity {
            clusters: self.clusters,
            free: self.free_clusters(),
        }
    }

    /// The clusters of neither the header nor a space.
    fn free_clusters(&self) -> u32
        ensures { result ≡ free_clusters self.now }
    {
        left_of(self.clusters.saturating_sub(HEADER_CLUSTERS), &self.entries)
    }

    /// How many spaces there are.
    pub(crate) fn space_count(&self) -> usize
        ensures count { result ≡ length (spaces_on self.now) }
        ensures most { result ≤ 16 }
    {
        count_spaces(&self.entries)
    }

    /// What is said of the spaces in the listing of the device.
    pub(crate) fn lines(&self, alloc: Global) -> Result<SpaceLines, AllocError>
        ensures { IfOk result (λ lines. lines ≡ map space_line (spaces_on self.now)) }
    {
        lines_of(alloc, &self.entries)
    }

    /// Leaves what is there after a crash.
    pub(crate) fn crash(&mut self)
        ensures { self.new ≡ on_spaces durable_space self.old }
    {
        crash_all(&mut self.entries);
    }

    /// Why no space of these pages can be made, if none can.
    pub(crate) fn pages_refusal(&self, creation: &SpaceCreation) -> Option<Answer>
        requires { HasFieldsWithin creation.now }
        ensures { result ≡ pages_refusal creation.now self.now }
    {
        let pages = pages_asked(creation);
        if pages.pages <= pages.overhead {
            return Some(Answer::Space(SpaceAnswer::Small(pages)));
        }
        self.placing_refusal(creation)
    }

    /// Why the space has no place here, if it has none.
    fn placing_refusal(&self, creation: &SpaceCreation) -> Option<Answer>
        requires { HasFieldsWithin creation.now }
        ensures { result ≡ placing_refusal creation.now self.now }
    {
        if self.is_table_full() {
            return Some(Answer::Space(SpaceAnswer::TableFull));
        }
        let need = clusters_for(creation.pages);
        let free = u64::from(self.free_clusters());
        if free < need {
            return Some(Answer::Space(SpaceAnswer::Lack(ClusterRoom { need, free })));
        }
        None
    }

    /// Whether there is no entry or no ordinal for a further space.
    fn is_table_full(&self) -> bool
        ensures { result ≡ is_table_full self.now }
    {
        self.space_count() >= TABLE_ENTRIES || self.next_space >= LAST_SPACE
    }

    /// Whether a space has that cluster.
    fn is_taken(&self, cluster: u32) -> bool
        ensures { result ≡ is_taken self.now cluster }
    {
        any_covers(&self.entries, cluster)
    }

    /// The lowest so many free clusters, or all where they are fewer.
    fn lowest_free(&self, alloc: Global, n: u64) -> Result<Extents, AllocError>
        ensures { IfOk result (λ extents. extents ≡ as_extents (lowest_free n self.now)) }
    {
        let mut extents = Extents::new(alloc);
        let mut run = NO_RUN;
        let mut left = n;
        for cluster in HEADER_CLUSTERS..self.clusters {
            if left > 0 && !self.is_taken(cluster) {
                join(&mut extents, &mut run, cluster)?;
                left -= 1;
            }
        }
        close(&mut extents, run)?;
        Ok(extents)
    }

    /// Makes a space in the lowest unused entry and the lowest free clusters. After an `Err` the
    /// device is as it was.
    pub(crate) fn make_space(
        &mut self,
        alloc: Global,
        creation: &SpaceCreation,
        site: u32,
    ) -> Result<Answer, AllocError>
        requires fields { HasFieldsWithin creation.now }
        requires next { self.old.next_space < last_space }
        ensures answer { IfOk result (λ a. a ≡ Answer.Space
            (SpaceAnswer.Created (record { number = number_of creation.now.dev self.old.next_space; pages = pages_asked creation.now }))) }
        ensures device { OnOk result (self.new ≡ with_space_made creation.now site self.old) }
        ensures unchanged { OnErr result (self.new ≡ self.old) }
    {
        let ordinal = self.next_space;
        let extents = self.lowest_free(alloc, clusters_for(creation.pages))?;
        let placed = PlacedSpace::new(alloc, creation, site, ordinal, extents);
        enter(&mut self.entries, placed);
        self.next_space = ordinal + 1;
        Ok(Answer::Space(SpaceAnswer::Created(NewSpace {
            number: number_of(creation.dev, ordinal),
            pages: pages_asked(creation),
        })))
    }

    /// Why the space of an entry may not be removed, if it may not.
    pub(crate) fn removal_refusal(&self, entry: usize, force: bool) -> Option<Answer>
        requires { IsSome (slice_index_or self.now.entries entry None) }
        ensures { (s : Site) → MatchOption (slice_index_or self.now.entries entry None) ⊥ (λ p. result ≡ removal_refusal force s p) }
    {
        match &self.entries[entry] {
            Some(placed) => placed.removal_refusal(force),
            None => unreachable!(),
        }
    }

    /// Takes out each space of that name.
    pub(crate) fn remove(&mut self, name: &Name)
        ensures { self.new ≡ without_named name.now self.old }
    {
        remove_all(&mut self.entries, name);
    }

    /// The entry of a space of that name.
    pub(crate) fn entry_named(&self, name: &Name) -> Option<usize>
        ensures { MatchOption result (find (has_name name.now) (spaces_on self.now) ≡ None)
            (λ e. (find (has_name name.now) (spaces_on self.now) ≡ slice_index_or self.now.entries e None) × IsSome (slice_index_or self.now.entries e None)) }
    {
        place_named(&self.entries, name)
    }

    /// Does a call on the space of an entry. After an `Err` the device is as it was.
    pub(crate) fn call(&mut self, entry: usize, call: &SpaceCall) -> Result<Reply, AllocError>
        requires { IsSome (slice_index_or self.old.entries entry None) }
        ensures reply { IfOk result (λ reply. MatchOption (slice_index_or self.old.entries entry None) ⊥
            (λ p. IsReply (logged_outcome call.now p) reply)) }
        ensures device { OnOk result (self.new ≡ entry_changed entry (after_call call.now) self.old) }
        ensures unchanged { OnErr result (self.new ≡ self.old) }
    {
        match &mut self.entries[entry] {
            Some(placed) => placed.call(call),
            None => unreachable!(),
        }
    }
}

/// A table of which no entry is used.
fn empty_table(alloc: Global) -> Result<Vec<Option<PlacedSpace>>, AllocError>
    ensures { IfOk result (λ entries. entries.items ≡ no_entries) }
{
    let mut entries = Vec::new(alloc);
    for _at in 0..TABLE_ENTRIES {
        entries.push(None)?;
    }
    Ok(entries)
}

/// Puts a space into the first entry that is not used, if there is one.
fn enter(entries: &mut [Option<PlacedSpace>], placed: PlacedSpace)
    ensures { entries.new ≡ entries_with placed entries.old }
{
    if let Some(at) = place_unused(entries) {
        entries[at] = Some(placed);
    }
}

/// The first place that is not used.
fn place_unused(entries: &[Option<PlacedSpace>]) -> Option<usize>
    ensures { result ≡ position is_unused entries.now }
{
    entries.iter().position(is_unused)
}

fn is_unused(entry: &Option<PlacedSpace>) -> bool
    ensures { result ≡ is_unused entry.now }
{
    entry.is_none()
}

fn any_covers(entries: &[Option<PlacedSpace>], cluster: u32) -> bool
    ensures { result ≡ list_any (entry_covers cluster) entries.now }
{
    entries.iter().any(|entry| entry_covers(entry, cluster))
}

/// Whether the space of an entry has that cluster.
fn entry_covers(entry: &Option<PlacedSpace>, cluster: u32) -> bool
    ensures { result ≡ entry_covers cluster entry.now }
{
    match entry {
        Some(placed) => placed.has_cluster(cluster),
        None => false,
    }
}

fn remove_all(entries: &mut [Option<PlacedSpace>], name: &Name)
    ensures { entries.new ≡ map (entry_beside name.now) entries.old }
{
    for at in 0..entries.len() {
        remove_entry(&mut entries[at], name);
    }
}

fn remove_entry(entry: &mut Option<PlacedSpace>, name: &Name)
    ensures { entry.new ≡ entry_beside name.now entry.old }
{
    if is_placed(entry, name) {
        *entry = None;
    }
}

/// The pages that are asked for, and those of them that are not for messages.
fn pages_asked(creation: &SpaceCreation) -> SpacePages
    requires { HasFieldsWithin creation.now }
    ensures { result ≡ pages_asked creation.now }
{
    SpacePages {
        overhead: overhead_pages(&shape_asked(creation)),
        pages: creation.pages,
    }
}

/// What is left of so many clusters without those of the spaces.
fn left_of(clusters: u32, entries: &[Option<PlacedSpace>]) -> u32
    ensures { result ≡ clusters - sum_by space_clusters (present entries.now) }
{
    let mut left = clusters;
    for entry in entries {
        left = left_without(left, entry);
    }
    left
}

fn left_without(clusters: u32, entry: &Option<PlacedSpace>) -> u32
    ensures { result ≡ clusters - sum_by space_clusters (option_to_list entry.now) }
{
    match entry {
        Some(placed) => placed.left(clusters),
        None => clusters,
    }
}

fn count_spaces(entries: &[Option<PlacedSpace>]) -> usize
    ensures count { result ≡ length (present entries.now) }
    ensures most { result ≤ length entries.now }
{
    let mut count = 0;
    for entry in entries {
        count += count_of(entry);
    }
    count
}

fn count_of(entry: &Option<PlacedSpace>) -> usize
    ensures count { result ≡ length (option_to_list entry.now) }
    ensures most { result ≤ 1 }
{
    match entry {
        Some(_) => 1,
        None => 0,
    }
}

fn lines_of(alloc: Global, entries: &[Option<PlacedSpace>]) -> Result<SpaceLines, AllocError>
    ensures { IfOk result (λ lines. lines ≡ map space_line (present entries.now)) }
{
    let mut lines = SpaceLines::new(alloc);
    for entry in entries {
        add_line(alloc, &mut lines, entry)?;
    }
    Ok(lines)
}

fn add_line(
    alloc: Global,
    lines: &mut SpaceLines,
    entry: &Option<PlacedSpace>,
) -> Result<(), AllocError>
    ensures { OnOk result (lines.new ≡ lines.old ++ map space_line (option_to_list entry.now)) }
{
    if let Some(placed) = entry {
        lines.push(placed.line(alloc)?)?;
    }
    Ok(())
}

fn crash_all(entries: &mut [Option<PlacedSpace>])
    ensures { entries.new ≡ map (option_map durable_space) entries.old }
{
    for at in 0..entries.len() {
        crash_entry(&mut entries[at]);
    }
}

fn crash_entry(entry: &mut Option<PlacedSpace>)
    ensures { entry.new ≡ option_map durable_space entry.old }
{
    if let Some(placed) = entry {
        placed.crash();
    }
}

fn is_placed(entry: &Option<PlacedSpace>, name: &Name) -> bool
    ensures { result ≡ is_placed name.now entry.now }
{
    match entry {
        Some(placed) => placed.is_named(name),
        None => false,
    }
}

/// The first place of a space of that name.
fn place_named(entries: &[Option<PlacedSpace>], name: &Name) -> Option<usize>
    ensures { result ≡ position (is_placed name.now) entries.now }
{
    entries.iter().position(|entry| is_placed(entry, name))
}
