// Calls on a space: it is found, the call is planned, the plan is made durable, and then it is answered.

ghost use Rattle.std.specs.Prelude.{◌≡◌, ◌<◌, ◌≤◌, ◌+◌, IfOk, OnOk};
ghost use Rattle.tq_host.specs.Within.{Within};
ghost use Rattle.tq_model.specs.Site.{durable};
ghost use Rattle.tq_model.specs.Step.{next_arrival, on_space};
ghost use Rattle.tq_spacefile.specs.File.{place_in, clusters_in, logged_in, AreFile, IsSameButSpace};
ghost use Rattle.tq_coord.specs.Calls.{IsCalled, IsSameOrChanged, AreBehind, outcome_in, logged_outcome_in};
ghost use Rattle.tq_coord.specs.Manager.{site_of, next_of};
ghost use Rattle.tq_coord.specs.Serving.{IsServed, ChangesOnce, HasFailed};
ghost use Rattle.tq_coord.specs.Counts.{CountsFailure};
ghost use Rattle.tq_coord.specs.SpaceCalls.{space_name, outcome_of, IsAsked};
ghost use Rattle.tq_coord.specs.Images.{ImagesMatch};

use crate::planning::{Planned, plan};
use crate::{Failure, Manager, SpaceCall};
use std::alloc::Global;
use tq_host::Host;
use tq_model::Answer;
use tq_spacefile::{CommitError, SpaceFile};
use tq_types::Arrival;

// What a call on a space is answered, and how many numbers of messages it took.
#[derive(Drop)]
pub struct Reply {
    answer: Answer,
    numbers: u32,
}

// Plans a call and makes its plan durable.
fn call_file<H: Host>(
    alloc: Global,
    host: &mut H,
    file: &mut SpaceFile,
    call: SpaceCall,
    next: Arrival,
) -> Result<Reply, Failure>
    requires asked { IsAsked next call }
    requires dev { (place_in file.old).dev ≡ 0 }
    requires behind { AreBehind file.old next (H.view host.old) }
    ensures called { IfOk result (IsCalled file.old file.new next (logged_outcome_in file.old (outcome_in file.old call))) }
    ensures most { IfOk result (λ reply. reply.numbers ≤ 1) }
    ensures place { place_in file.new ≡ place_in file.old }
    ensures clusters { clusters_in file.new ≡ clusters_in file.old }
    ensures on { OnOk result (AreFile file.new next.epoch (H.view host.new)) }
    ensures stop { H.tells.stops → Within 0 (IsSameButSpace (clusters_in file.old))
        (IsSameOrChanged file.old next (logged_outcome_in file.old (outcome_in file.old call))) (H.view host.old) (H.view host.new) }
    ensures failed { HasFailed result (H.view host.old) (H.view host.new) }
    // what takes nothing of the log makes no call of the host
    ensures idle { (logged_outcome_in file.old (outcome_in file.old call)).logged ≡ logged_in file.old → host.new ≡ host.old }
{
    let numbers = call.numbers();
    match plan(alloc, file, call, next)? {
        Planned::Refused(answer) => Ok(Reply { answer, numbers: 0 }),
        Planned::Granted(plan, answer) => match file.commit(alloc, host, plan) {
            Ok(()) => Ok(Reply { answer, numbers }),
            Err(CommitError::LogFull(room)) => Ok(Reply {
                answer: Answer::LogFull(room),
                numbers: 0,
            }),
            Err(CommitError::Device) => Err(Failure::Device),
            Err(CommitError::NoMemory) => Err(Failure::Memory),
        },
    }
}

impl Manager {
    /// A call on a space: it is planned, its plan is made durable, and then it is done in memory and
    /// answered; or the first reason against it. A refusal takes no number of a message and calls no
    /// host. All memory is taken before the device is written to. Where a device failed, the devices
    /// stand for the site before the call or after it; the manager is to be let go.
    pub fn call_space<H: Host>(
        &mut self,
        alloc: Global,
        host: &mut H,
        call: SpaceCall,
    ) -> Result<Answer, Failure>
        requires asked { IsAsked (next_arrival (site_of self.old)) call }
        requires next { next_of self.old < 4294967295 }
        requires on { ImagesMatch self.old (H.view host.old) }
        ensures served { IfOk result (IsServed (on_space (space_name call) (outcome_of call) (site_of self.old)) self.old self.new (H.view host.new)) }
        ensures stop { ChangesOnce (on_space (space_name call) (outcome_of call) (site_of self.old)) self.old (H.view host.old) (H.view host.new) }
        ensures failed { CountsFailure result (H.view host.old).faults (H.view host.new).faults }
        // what changes nothing that lasts makes no call of the host
        ensures idle { durable (on_space (space_name call) (outcome_of call) (site_of self.old)).site ≡ durable (site_of self.old) → host.new ≡ host.old }
    {
        let name = call.space();
        let next = self.next_arrival();
        let Some(disk) = &mut self.disk else {
            return Ok(Answer::NoEntry);
        };
        let Some(index) = disk.entry_named(&name) else {
            return Ok(Answer::NoEntry);
        };
        let Some(file) = &mut disk.files[index] else {
            unreachable!()
        };
        let reply = call_file(alloc, host, file, call, next)?;
        self.next += reply.numbers;
        Ok(reply.answer)
    }
}
