//! A space on its device and in memory.

ghost use Rattle.std.specs.Prelude.{true, ◌≡◌, ◌<◌, ◌≤◌, length, IfOk, OnErr, OnOk, Err};
ghost use Rattle.tq_host.specs.Calls.{HasCauseOf};
ghost use Rattle.tq_host.specs.Within.{KeepsRest, Within};
ghost use Rattle.tq_extent.specs.Bytes.{reaches};
ghost use Rattle.tq_store.specs.declared.fault.CommitError.TheVariants as fault;
ghost use Rattle.tq_store.specs.Commit.{CanCommit, IsDone, IsOldOrDone};
ghost use Rattle.tq_store.specs.Drafted.{IsReady};
ghost use Rattle.tq_store.specs.File.{AreFile, IsFile, IsSound, clusters_of};
ghost use Rattle.tq_store.specs.Stored.{IsSameButSpace};

use crate::changing::{Change, make_change};
use crate::durable::write_change;
use crate::{CommitError, SpacePlace};
use std::alloc::{AllocError, Global};
use std::marker::Model;
use tq_gate::GateLog;
use tq_host::Host;
use tq_model::Shape;
use tq_pages::PageStore;
use tq_slottable::SlotTable;
use tq_space::{Plan, Space};

/// A queue space: in memory with its slots and the pages of its messages, and on its device in slots,
/// records and chains. Each message has its body in memory.
#[derive(Drop)]
pub struct SpaceFile {
    pub(crate) place: SpacePlace,
    pub(crate) shape: Shape,
    pub(crate) space: Space,
    pub(crate) table: SlotTable,
    pub(crate) store: PageStore,
    pub(crate) log: GateLog,
}

impl Model for SpaceFile {
    ghost use Rattle.tq_store.specs.File.{FileState};

    ghost Value = { FileState };

    ghost use Rattle.tq_store.specs.FileView.{file_view, IsSoundFile};

    ghost view = { file_view };

    ghost invariant = { IsSoundFile };
}

impl SpaceFile {
    /// The space in memory.
    pub fn space(&self) -> &Space
        ensures held { result.now.held ≡ self.now.space }
        // Its slots, its pages and its log go together.
        ensures sound { IsSound self.now }
    {
        &self.space
    }

    /// Makes a plan of one move in memory, and gives what is to be written of it. After an error
    /// nothing is changed.
    fn prepare(&mut self, alloc: Global, plan: Plan) -> Result<Change, AllocError>
        requires can { CanCommit plan self.old.space }
        requires some { 1 ≤ length plan.moves }
        ensures ready { IfOk result (IsReady self.old self.new plan) }
        ensures same { OnErr result (self.new ≡ self.old) }
    {
        self.space.reserve(&plan)?;
        let change = make_change(
            alloc,
            &self.shape,
            &self.log,
            &mut self.table,
            &mut self.store,
            &plan.moves.as_slice()[0],
        )?;
        self.space.apply(plan);
        Ok(change)
    }

    /// Does a plan, and makes it durable: in memory first, and then on the device, where a new message
    /// costs one write for each run of its pages, and the record two writes and two syncs. Where the log
    /// has no room for the record, a base of the slots takes its place before, with two syncs more. A
    /// plan without moves makes no call of the host. Pages of a message that goes are taken again by a
    /// later plan alone, when the record is durable.
    ///
    /// # Errors
    /// `NoMemory` before anything is changed. After `Device` the space is to be loaded again.
    pub fn commit<H: Host>(
        &mut self,
        alloc: Global,
        host: &mut H,
        plan: Plan,
    ) -> Result<(), CommitError>
        requires can { CanCommit plan self.old.space }
        requires reach { H.tells.reads → reaches (clusters_of self.old) ((H.view host.old).reads self.old.place.dev) ≡ true }
        ensures done { OnOk result (IsDone plan self.old self.new) }
        // What is read, and each image, has then what memory has.
        ensures read { OnOk result (H.tells.reads → IsFile self.old ((H.view host.old).reads self.old.place.dev)
            → IsFile self.new ((H.view host.new).reads self.old.place.dev)) }
        ensures images { OnOk result (AreFile self.old (H.view host.old) → AreFile self.new (H.view host.new)) }

        // In each picture the space is the one before the plan, or the one after it.
        ensures stop { AreFile self.old (H.view host.old)
            → Within self.old.place.dev (IsSameButSpace (clusters_of self.old)) (IsOldOrDone self.old plan) (H.view host.old) (H.view host.new) }
        // What is read outside the space stays in any case.
        ensures outside { H.tells.reads
            → IsSameButSpace (clusters_of self.old) ((H.view host.old).reads self.old.place.dev) ((H.view host.new).reads self.old.place.dev) }
        ensures place { self.new.place ≡ self.old.place }
        ensures clusters { clusters_of self.new ≡ clusters_of self.old }
        ensures rest { KeepsRest self.old.place.dev (H.view host.old) (H.view host.new) }
        ensures cause { HasCauseOf (result ≡ Err fault.Device) (H.view host.old).faults (H.view host.new).faults }
        ensures memory { result ≡ Err fault.NoMemory → (host.new ≡ host.old) × (self.new ≡ self.old) }
    {
        let _sound = self.space();
        if plan.moves.as_slice().is_empty() {
            return Ok(());
        }
        let mut change = self.prepare(alloc, plan)?;
        write_change(
            host,
            &mut self.log,
            &mut self.store,
            change.full,
            &change.base,
            change.first,
            &change.message,
            &mut change.frame,
        )?;
        Ok(())
    }
}
