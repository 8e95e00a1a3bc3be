ghost use Rattle.std.specs.Prelude.{◌≡◌, ◌≢◌, ◌<◌, ◌≤◌, ◌+◌, IfOk, OnOk};
ghost use Rattle.tq_host.specs.View.{TellsAll};
ghost use Rattle.tq_host.specs.Within.{KeepsBeside};
ghost use Rattle.tq_model.specs.declared.request.Request.{Request};
ghost use Rattle.tq_model.specs.declared.request.Request.TheVariants as requests;
ghost use Rattle.tq_model.specs.MachineWithFaults.{down_answer};
ghost use Rattle.tq_coord.specs.Frame.{LeavesOthers};
ghost use Rattle.tq_run.specs.Standing.{next_in, StateImagesMatch, HasTurned, IsTurning};

use crate::serving::serve;
use crate::state::State;
use std::alloc::{AllocError, Global};
use tq_coord::{BootFailure, Failure, Manager};
use tq_host::Host;
use tq_model::{Answer, Request};

// What a request is answered where there is no site.
fn down_answer(request: &Request) -> Answer
    ensures { result ≡ down_answer request.now }
{
    match request {
        Request::Nothing => Answer::Done,
        Request::Bad(column) => Answer::Syntax(*column),
        Request::TooLong => Answer::TooLong,
        Request::Boot | Request::Device(_) | Request::Space(_) | Request::Call(_) => {
            Answer::SystemError
        }
    }
}

// A boot within a run: what was in memory is gone.
fn reboot<H: Host>(alloc: Global, host: &mut H, state: &mut State) -> Result<Answer, AllocError>
    requires on { StateImagesMatch state.old (H.view host.old) }
    ensures next { OnOk result (next_in state.new ≡ 0) }
    ensures on { OnOk result (StateImagesMatch state.new (H.view host.new)) }
    ensures turned { IfOk result (λ a. TellsAll H.tells → HasTurned state.old state.new requests.Boot a (H.view host.old) (H.view host.new)) }
    ensures stop { TellsAll H.tells → IsTurning state.old requests.Boot (H.view host.old) (H.view host.new) }
    ensures later { (H.view host.old).faults ≤ (H.view host.new).faults }
    ensures rest { KeepsBeside (H.view host.old) (H.view host.new) }
    ensures others { LeavesOthers (H.view host.old) (H.view host.new) }
{
    match Manager::boot(alloc, host) {
        Ok(manager) => {
            let answer = manager.readiness();
            *state = State::Up(manager);
            Ok(answer)
        }
        Err(BootFailure::Damaged) => {
            *state = State::Down;
            Ok(Answer::Damaged(0))
        }
        Err(BootFailure::Device) => {
            *state = State::Down;
            Ok(Answer::SystemError)
        }
        Err(BootFailure::Memory) => Err(AllocError),
    }
}

// Does what a line other than a boot asks for, where there is a site.
#[tactic(auto, using(tq_coord::proofs::ForCallers::beside_kept))]
fn serve_standing<H: Host>(
    alloc: Global,
    host: &mut H,
    state: &mut State,
    request: Request,
) -> Result<Answer, AllocError>
    requires boot { request ≢ Request.Boot }
    requires next { next_in state.old < 4294967295 }
    requires on { StateImagesMatch state.old (H.view host.old) }
    ensures next { OnOk result (next_in state.new ≤ next_in state.old + 1) }
    ensures on { OnOk result (StateImagesMatch state.new (H.view host.new)) }
    ensures turned { IfOk result (λ a. TellsAll H.tells → HasTurned state.old state.new request a (H.view host.old) (H.view host.new)) }
    ensures stop { TellsAll H.tells → IsTurning state.old request (H.view host.old) (H.view host.new) }
    ensures later { (H.view host.old).faults ≤ (H.view host.new).faults }
    ensures rest { KeepsBeside (H.view host.old) (H.view host.new) }
    ensures others { LeavesOthers (H.view host.old) (H.view host.new) }
{
    let served = match state {
        State::Up(manager) => serve(alloc, host, manager, request),
        State::Down => return Ok(down_answer(&request)),
    };
    match served {
        Ok(answer) => Ok(answer),
        Err(Failure::Device) => {
            *state = State::Down;
            Ok(Answer::SystemError)
        }
        Err(Failure::Memory) => Err(AllocError),
    }
}

/// Does what a line asks for, in whatever state the run is; the answer is that of the machine with
/// faults. A device failure takes the site away until a boot.
pub fn respond<H: Host>(
    alloc: Global,
    host: &mut H,
    state: &mut State,
    request: Request,
) -> Result<Answer, AllocError>
    requires next { next_in state.old < 4294967295 }
    requires on { StateImagesMatch state.old (H.view host.old) }
    ensures next { OnOk result (next_in state.new ≤ next_in state.old + 1) }
    ensures on { OnOk result (StateImagesMatch state.new (H.view host.new)) }
    ensures turned { IfOk result (λ a. TellsAll H.tells → HasTurned state.old state.new request a (H.view host.old) (H.view host.new)) }
    ensures stop { TellsAll H.tells → IsTurning state.old request (H.view host.old) (H.view host.new) }
    ensures later { (H.view host.old).faults ≤ (H.view host.new).faults }
    ensures rest { KeepsBeside (H.view host.old) (H.view host.new) }
    ensures others { LeavesOthers (H.view host.old) (H.view host.new) }
{
    if let Request::Boot = request {
        return reboot(alloc, host, state);
    }
    serve_standing(alloc, host, state, request)
}
