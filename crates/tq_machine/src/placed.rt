//! A space in its place on a device, with what is taken of its log.

ghost use Rattle.std.specs.Prelude.{◌≡◌, ◌<◌, ◌+◌, ◌-◌, ◌^◌, None, IfOk, OnOk, OnErr};
ghost use Rattle.std.specs.List.{list_any, sum_by};
ghost use Rattle.tq_model.specs.Site.{Site, last_space, has_name, clusters_for, covers, durable_space};
ghost use Rattle.tq_model.specs.SpaceForm.{log_bytes};
ghost use Rattle.tq_model.specs.Step.{shape_asked, number_of, placed_new, space_line, log_refusal, removal_refusal};
ghost use Rattle.tq_machine.specs.SpaceCalls.{IsReply, after_call, logged_outcome};
ghost use Rattle.tq_machine.specs.Fields.{HasFieldsWithin};

use crate::space_call::{Reply, SpaceCall};
use crate::space_lists::SpaceLists;
use std::alloc::{AllocError, Global};
use std::marker::Model;
use tq_model::{Answer, Extent, Extents, LogRoom, Shape, SpaceAnswer, SpaceCreation, SpaceLine};
use tq_types::Name;

pub(crate) const HEADER_CLUSTERS: u32 = 4;

/// A space in its place on a device.
#[derive(Drop)]
pub(crate) struct PlacedSpace {
    name: Name,
    pages: u32,
    extents: Extents,
    logged: u64,
    space: SpaceLists,
}

impl Model for PlacedSpace {
    ghost use Rattle.tq_model.specs.Site.{SpaceOnDevice};

    ghost Value = { SpaceOnDevice };

    ghost view = { λ p. record { name = p.name; pages = p.pages; extents = p.extents; logged = p.logged; space = p.space } };
}

impl PlacedSpace {
    /// A new space in these clusters of its device, by its ordinal there.
    pub(crate) fn new(
        alloc: Global,
        creation: &SpaceCreation,
        site: u32,
        ordinal: u32,
        extents: Extents,
    ) -> PlacedSpace
        requires fields { HasFieldsWithin creation.now }
        requires ordinal { ordinal < last_space }
        ensures { result ≡ placed_new creation.now site ordinal extents }
    {
        let number = number_of(creation.dev, ordinal);
        PlacedSpace {
            name: creation.name,
            pages: creation.pages as u32,
            extents,
            logged: 0,
            space: SpaceLists::new(alloc, &shape_asked(creation), site, number),
        }
    }

    pub(crate) fn is_named(&self, name: &Name) -> bool
        ensures { result ≡ has_name name.now self.now }
    {
        self.name == *name
    }

    /// Whether the space has that cluster.
    pub(crate) fn has_cluster(&self, cluster: u32) -> bool
        ensures { result ≡ list_any (covers cluster) self.now.extents }
    {
        any_covers(self.extents.as_slice(), cluster)
    }

    /// Why the space may not be removed, if it may not: for now no transaction counts in it.
    pub(crate) fn removal_refusal(&self, force: bool) -> Option<Answer>
        ensures { (s : Site) → result ≡ removal_refusal force s self.now }
    {
        let messages = self.space.messages_held();
        if !force && messages > 0 {
            Some(Answer::Space(SpaceAnswer::NotEmpty(messages)))
        } else {
            None
        }
    }

    /// What is left of so many clusters without those of the space.
    pub(crate) fn left(&self, clusters: u32) -> u32
        ensures { result ≡ clusters - sum_by (λ e. e.count) self.now.extents }
    {
        left_of(clusters, self.extents.as_slice())
    }

    /// What is said of the space in its device's listing.
    pub(crate) fn line(&self, alloc: Global) -> Result<SpaceLine, AllocError>
        ensures { IfOk result (λ line. line ≡ space_line self.now) }
    {
        Ok(SpaceLine {
            name: self.name,
            number: self.space.number(),
            pages: self.pages,
            extents: copied(alloc, self.extents.as_slice())?,
        })
    }

    /// Leaves what is there after a crash.
    pub(crate) fn crash(&mut self)
        ensures { self.new ≡ durable_space self.old }
    {
        self.space.crash();
    }

    /// Why a payload of so many bytes does not fit, if it does not.
    fn log_refusal(&self, length: u64) -> Option<Answer>
        requires { length < 2 ^ 63 + 16 }
        ensures { result ≡ log_refusal self.now.pages self.now.logged length }
    {
        let need = length + 6;
        let free = log_bytes(self.pages).saturating_sub(self.logged);
        if free < need {
            Some(Answer::LogFull(LogRoom { need, free }))
        } else {
            None
        }
    }

    /// Does a call. After an `Err` the space is as it was.
    pub(crate) fn call(&mut self, call: &SpaceCall) -> Result<Reply, AllocError>
        ensures reply { IfOk result (IsReply (logged_outcome call.now self.old)) }
        ensures space { OnOk result (self.new ≡ after_call call.now self.old) }
        ensures unchanged { OnErr result (self.new ≡ self.old) }
    {
        if let Some(refusal) = self.space.refusal(call) {
            self.space.refuse(call);
            return Ok(Reply {
                answer: refusal,
                numbers: 0,
            });
        }
        if let Some(full) = self.log_refusal(call.payload_length()) {
            return Ok(Reply {
                answer: full,
                numbers: 0,
            });
        }
        let answer = self.space.grant(call)?;
        // The sum fits, as the log of any `u32` of pages does.
        let _pages = self.pages;
        self.logged += 5 + call.payload_length();
        Ok(Reply {
            answer,
            numbers: call.numbers_taken(),
        })
    }
}

/// The shape that is asked for.
pub(crate) fn shape_asked(creation: &SpaceCreation) -> Shape
    requires { HasFieldsWithin creation.now }
    ensures { result ≡ shape_asked creation.now }
{
    Shape {
        pages: creation.pages as u32,
        queues: creation.queues as u16,
        messages: creation.messages as u16,
        transactions: creation.transactions as u16,
        memory: creation.memory,
        error: creation.error,
    }
}

/// The clusters for so many pages.
pub(crate) fn clusters_for(pages: u64) -> u64
    requires { pages < 2 ^ 63 }
    ensures { result ≡ clusters_for pages }
{
    (pages + 31) / 32
}

/// The number of a space: its ordinal on the device, and the device.
pub(crate) fn number_of(dev: u8, ordinal: u32) -> u32
    requires { ordinal < last_space }
    ensures { result ≡ number_of dev ordinal }
{
    8 * ordinal + u32::from(dev)
}

/// The bytes of the log of a space with so many pages.
fn log_bytes(pages: u32) -> u64
    ensures { result ≡ log_bytes pages }
{
    1024 * u64::from(pages.saturating_sub(2))
}

fn any_covers(extents: &[Extent], cluster: u32) -> bool
    ensures { result ≡ list_any (covers cluster) extents.now }
{
    extents.iter().any(|extent| covers(extent, cluster))
}

/// Whether the cluster is one of the extent.
fn covers(extent: &Extent, cluster: u32) -> bool
    ensures { result ≡ covers cluster extent.now }
{
    extent.first <= cluster
        && u64::from(cluster) < u64::from(extent.first) + u64::from(extent.count)
}

fn left_of(clusters: u32, extents: &[Extent]) -> u32
    ensures { result ≡ clusters - sum_by (λ e. e.count) extents.now }
{
    let mut left = clusters;
    for extent in extents {
        left = left.saturating_sub(extent.count);
    }
    left
}

fn copied(alloc: Global, extents: &[Extent]) -> Result<Extents, AllocError>
    ensures { IfOk result (λ copy. copy ≡ extents.now) }
{
    let mut copy = Extents::new(alloc);
    for extent in extents {
        copy.push(*extent)?;
    }
    Ok(copy)
}
