ghost use Rattle.std.specs.Prelude.{true, ◌≡◌, ◌≤◌, ℕ, length, IfOk, IfErr, OnOk};
ghost use Rattle.tq_host.specs.Within.{Within};
ghost use Rattle.tq_gate.specs.Frame.{IsFrame, payload_in};
ghost use Rattle.tq_gate.specs.Log.{FitsIn};
ghost use Rattle.tq_model.specs.declared.record.SpaceRecord.{SpaceRecord};
ghost use Rattle.tq_model.specs.SpaceForm.{spelt};
ghost use Rattle.tq_space.specs.Loggable.{IsLoggable};
ghost use Rattle.tq_extent.specs.Bytes.{reaches};
ghost use Rattle.tq_spacefile.specs.Payload.{IsPayloadOf};
ghost use Rattle.tq_spacefile.specs.Record.{IsRecorded};
ghost use Rattle.tq_spacefile.specs.File.{place_in, clusters_in, held_in, IsSameButSpace};
ghost use Rattle.tq_spacefile.specs.Commit.{AreReady, IsDone, IsOldOrDone, HasFailed, IsUnprepared};

use crate::recording::frame_plan;
use crate::{CommitError, SpaceFile};
use std::alloc::Global;
use tq_gate::{AROUND_PAYLOAD, GateLog};
use tq_host::Host;
use tq_model::LogRoom;
use tq_space::{Plan, Space};

/// A frame with the payload of a plan, for which the log has room, and room for the plan in memory.
fn prepare(
    alloc: Global,
    space: &mut Space,
    log: &GateLog,
    plan: &Plan,
) -> Result<Vec<u8>, CommitError>
    requires { (r : SpaceRecord) × IsRecorded space.old.held plan.now r }
    ensures frame { IfOk result (λ v. IsFrame v.items) }
    ensures payload { IfOk result (λ v. (r : SpaceRecord) → IsRecorded space.old.held plan.now r → IsPayloadOf r (payload_in v.items)) }
    ensures fits { IfOk result (λ v. FitsIn log.now (length (payload_in v.items))) }
    ensures ready { OnOk result (length plan.now.moves ≤ space.new.ready) }
    ensures held { space.new.held ≡ space.old.held }
    ensures failed { (r : SpaceRecord) → IsRecorded space.old.held plan.now r → IfErr result (IsUnprepared log.now (length (spelt r))) }
{
    let frame = frame_plan(alloc, plan)?;
    let size = (frame.len() - AROUND_PAYLOAD) as u64;
    if !log.fits(size) {
        let free = log.free();
        return Err(CommitError::LogFull(LogRoom {
            need: size + 6,
            free,
        }));
    }
    space.reserve(plan)?;
    Ok(frame)
}

impl SpaceFile {
    /// The space in memory.
    pub fn space(&self) -> &Space
        ensures { result.now.held ≡ held_in self.now }
    {
        &self.space
    }

    /// Makes a plan durable, and then does it. All memory is taken before the device is written to.
    /// After `Device` the file is to be loaded again.
    ///
    /// # Errors
    /// `LogFull` exactly where the plan's payload, with its gate, its length and a further gate,
    /// does not fit in the log; nothing is done then, nor for want of memory.
    pub fn commit<H: Host>(
        &mut self,
        alloc: Global,
        host: &mut H,
        plan: Plan,
    ) -> Result<(), CommitError>
        requires loggable { IsLoggable (held_in self.old) plan }
        requires reach { H.tells.reads → reaches (clusters_in self.old) ((H.view host.old).reads (place_in self.old).dev) ≡ true }
        ensures done { OnOk result (IsDone H.tells self.old self.new plan (H.view host.old) (H.view host.new)) }

        // In each picture the space is the one before the plan, or the one after it.
        ensures stop { (epoch : ℕ) → AreReady self.old epoch plan (H.view host.old)
            → Within (place_in self.old).dev (IsSameButSpace (clusters_in self.old)) (IsOldOrDone self.old epoch plan) (H.view host.old) (H.view host.new) }
        // What is read outside the space stays in any case.
        ensures outside { H.tells.reads
            → IsSameButSpace (clusters_in self.old) ((H.view host.old).reads (place_in self.old).dev) ((H.view host.new).reads (place_in self.old).dev) }
        ensures failed { IfErr result (HasFailed self.old self.new plan (host.new ≡ host.old) (H.view host.old) (H.view host.new)) }
    {
        let mut frame = prepare(alloc, &mut self.space, &self.log, &plan)?;
        self.log.append(host, &mut frame)?;
        self.space.apply(plan);
        Ok(())
    }
}
