ghost use Rattle.std.specs.Prelude.{◌≡◌, ◌≢◌, ◌<◌, ◌≤◌, ◌+◌, ◌++◌, [], ◌∷◌, List, ℕ, length, IfOk, OnOk};
ghost use Rattle.tq_host.specs.View.{TellsAll};
ghost use Rattle.tq_host.specs.Calls.{IsGiven, IsGiving, next_count};
ghost use Rattle.tq_host.specs.Within.{Ran};
ghost use Rattle.tq_model.specs.declared.request.Request.{Request};
ghost use Rattle.tq_model.specs.declared.request.CallRequest.{CallRequest};
ghost use Rattle.tq_model.specs.MachineWithFaults.{Failures};
ghost use Rattle.tq_model.specs.Step.{step, space_step};
ghost use Rattle.tq_model.specs.Text.{line_text};
ghost use Rattle.tq_model.specs.Grammar.{line_request, script_requests};
ghost use Rattle.tq_coord.specs.Frame.{LeavesOthers};
ghost use Rattle.tq_run.specs.Counts.{HasCounts, HasRunCounts, run_end_of_line};
ghost use Rattle.tq_coord.specs.Images.{ImagesMatch, HasNoNewImage};
ghost use Rattle.tq_run.specs.Turns.{Origin, RunsOver};
ghost use Rattle.tq_run.specs.Standing.{next_in, StateImagesMatch, HasReached, HasRun};
ghost use Rattle.tq_coord.specs.Manager.{site_of, next_of};
ghost use Rattle.tq_coord.specs.Serving.{IsServed, ChangesOnce};
ghost use Rattle.tq_coord.specs.Counts.{CountsFailure};
ghost use Rattle.tq_run.specs.Output.{TellsMore, StaysAttached, KeepsInput};
ghost use Rattle.tq_model.specs.Site.{Site, durable};

use crate::calls::serve_call;
use crate::responding::respond;
use crate::state::State;
use crate::status::LineEnd;
use std::alloc::Global;
use tq_coord::{Failure, Manager, SpaceCall};
use tq_host::Host;
use tq_model::{Answer, QueueCreation, Request, SpaceRequest};
use tq_script::{first_line, parse};

// Gives the answer of a line.
#[tactic(auto, using(crate::proofs::FrameLemmas::others_giving, crate::proofs::AttachLemmas::stays_giving, crate::proofs::AttachLemmas::stays_same))]
pub fn give_answer<H: Host>(
    alloc: Global,
    host: &mut H,
    line: u64,
    answer: &Answer,
) -> Result<(), LineEnd>
    ensures gave { OnOk result (H.tells.output → IsGiven (length (line_text line answer.now)) (line_text line answer.now) (H.view host.old) (H.view host.new)) }
    ensures some { H.tells.output → (k : ℕ) × IsGiven k (line_text line answer.now) (H.view host.old) (H.view host.new) }
    ensures attached { H.tells.output → StaysAttached (H.view host.old) (H.view host.new) }
    ensures input { KeepsInput (H.view host.old) (H.view host.new) }
    ensures still { (d : ℕ) → (H.view host.new).reads d ≡ (H.view host.old).reads d }
    ensures faults { (H.view host.new).faults ≡ (H.view host.old).faults }
    ensures gives { Ran (IsGiving (line_text line answer.now) (H.view host.old) (H.view host.new)) (H.view host.old) (H.view host.new) }
    ensures images { HasNoNewImage (H.view host.old) (H.view host.new) }
    ensures counts { HasCounts run_end_of_line result (H.view host.old) (H.view host.new) }
    ensures clock { OnOk result ((H.view host.new).clock ≡ next_count (H.view host.old).clock) }
    ensures others { LeavesOthers (H.view host.old) (H.view host.new) }
{
    let text = tq_print::answer(alloc, line, answer)?;
    host.give(&text).map_err(|_| LineEnd::Output)
}

// Does what is asked of spaces and their queues.
fn serve_space<H: Host>(
    alloc: Global,
    host: &mut H,
    manager: &mut Manager,
    request: &SpaceRequest,
) -> Result<Answer, Failure>
    requires next { next_of manager.old < 4294967295 }
    requires on { ImagesMatch manager.old (H.view host.old) }
    ensures served { IfOk result (IsServed (space_step (site_of manager.old) request.now) manager.old manager.new (H.view host.new)) }
    ensures stop { ChangesOnce (space_step (site_of manager.old) request.now) manager.old (H.view host.old) (H.view host.new) }
    ensures failed { CountsFailure result (H.view host.old).faults (H.view host.new).faults }
    ensures idle { durable (space_step (site_of manager.old) request.now).site ≡ durable (site_of manager.old) → host.new ≡ host.old }
{
    match request {
        SpaceRequest::Create(creation) => manager.create_space(alloc, host, creation),
        SpaceRequest::Remove(removal) => manager.remove_space(host, removal),
        SpaceRequest::CreateQueue(creation) => {
            let call = SpaceCall::CreateQueue(QueueCreation {
                space: creation.space,
                queue: creation.queue,
            });
            manager.call_space(alloc, host, call)
        }
    }
}

// Does what a line asks for, but for a call.
fn serve_other<H: Host>(
    alloc: Global,
    host: &mut H,
    manager: &mut Manager,
    request: &Request,
) -> Result<Answer, Failure>
    requires boot { request.now ≢ Request.Boot }
    requires other { (call : CallRequest) → request.now ≢ Request.Call call }
    requires next { next_of manager.old < 4294967295 }
    requires on { ImagesMatch manager.old (H.view host.old) }
    ensures served { IfOk result (IsServed (step (site_of manager.old) request.now) manager.old manager.new (H.view host.new)) }
    ensures stop { ChangesOnce (step (site_of manager.old) request.now) manager.old (H.view host.old) (H.view host.new) }
    ensures failed { CountsFailure result (H.view host.old).faults (H.view host.new).faults }
    ensures idle { durable (step (site_of manager.old) request.now).site ≡ durable (site_of manager.old) → host.new ≡ host.old }
{
    match request {
        Request::Nothing => Ok(Answer::Done),
        Request::Bad(column) => Ok(Answer::Syntax(*column)),
        Request::TooLong => Ok(Answer::TooLong),
        Request::Device(request) => manager.serve_device(alloc, host, request),
        Request::Space(request) => serve_space(alloc, host, manager, request),
        Request::Boot | Request::Call(_) => unreachable!(),
    }
}

/// Does what a line other than a boot asks for.
pub fn serve<H: Host>(
    alloc: Global,
    host: &mut H,
    manager: &mut Manager,
    request: Request,
) -> Result<Answer, Failure>
    requires boot { request ≢ Request.Boot }
    requires next { next_of manager.old < 4294967295 }
    requires on { ImagesMatch manager.old (H.view host.old) }
    ensures served { IfOk result (IsServed (step (site_of manager.old) request) manager.old manager.new (H.view host.new)) }
    ensures stop { ChangesOnce (step (site_of manager.old) request) manager.old (H.view host.old) (H.view host.new) }
    ensures failed { CountsFailure result (H.view host.old).faults (H.view host.new).faults }
    // what leaves alone what lasts makes no call
    ensures idle { durable (step (site_of manager.old) request).site ≡ durable (site_of manager.old) → host.new ≡ host.old }
{
    if let Request::Call(call) = request {
        return serve_call(alloc, host, manager, call);
    }
    serve_other(alloc, host, manager, &request)
}

// Answers one line.
#[tactic(auto, using(tq_coord::proofs::FrameLemmas::others_on, crate::proofs::AttachLemmas::stays_same, crate::proofs::AttachLemmas::stays_beside, crate::proofs::AttachLemmas::stays_on))]
fn serve_line<H: Host>(
    alloc: Global,
    host: &mut H,
    state: &mut State,
    number: u64,
    line: &[u8],
) -> Result<(), LineEnd>
    requires next { next_in state.old < 4294967295 }
    requires on { StateImagesMatch state.old (H.view host.old) }
    ensures next { OnOk result (next_in state.new ≤ next_in state.old + 1) }
    ensures on { OnOk result (StateImagesMatch state.new (H.view host.new)) }
    ensures reached { OnOk result (TellsAll H.tells → (o : Origin) (found : Site) (failed : Failures) (done : List Request) → number ≡ length done
        → HasReached o found failed done state.old (H.view host.old) → HasRun o found failed (done ++ line_request line.now ∷ []) state.new (H.view host.old) (H.view host.new)) }
    ensures stop { TellsAll H.tells → (o : Origin) (found : Site) (failed : Failures) (done : List Request) → number ≡ length done
        → HasReached o found failed done state.old (H.view host.old) → RunsOver o found failed (done ++ line_request line.now ∷ []) (H.view host.old) (H.view host.new) }
    ensures told { H.tells.output → TellsMore (H.view host.old) (H.view host.new) }
    ensures attached { H.tells.output → StaysAttached (H.view host.old) (H.view host.new) }
    ensures input { KeepsInput (H.view host.old) (H.view host.new) }
    ensures later { (H.view host.old).faults ≤ (H.view host.new).faults }
    ensures counts { HasRunCounts run_end_of_line result (H.view host.old) (H.view host.new) }
    ensures others { LeavesOthers (H.view host.old) (H.view host.new) }
{
    let request = parse(alloc, line)?;
    let answer = respond(alloc, host, state, request)?;
    give_answer(alloc, host, number, &answer)
}

/// Answers the lines of a script, from line 1 on, in whatever state the run is.
#[tactic(auto, using(crate::proofs::LineByLineLemmas::tells_on, crate::proofs::AttachLemmas::stays_on))]
pub fn serve_lines<H: Host>(
    alloc: Global,
    host: &mut H,
    state: &mut State,
    script: &[u8],
) -> Result<(), LineEnd>
    requires numbers { next_in state.old + length script.now ≤ 4294967295 }
    requires on { StateImagesMatch state.old (H.view host.old) }
    ensures reached { OnOk result (TellsAll H.tells → (o : Origin) (found : Site) (failed : Failures) (first : Request)
        → HasReached o found failed (first ∷ []) state.old (H.view host.old) → HasRun o found failed (first ∷ script_requests script.now) state.new (H.view host.old) (H.view host.new)) }
    ensures stop { TellsAll H.tells → (o : Origin) (found : Site) (failed : Failures) (first : Request)
        → HasReached o found failed (first ∷ []) state.old (H.view host.old) → RunsOver o found failed (first ∷ script_requests script.now) (H.view host.old) (H.view host.new) }
    ensures told { H.tells.output → TellsMore (H.view host.old) (H.view host.new) }
    ensures attached { H.tells.output → StaysAttached (H.view host.old) (H.view host.new) }
    ensures input { KeepsInput (H.view host.old) (H.view host.new) }
    ensures later { (H.view host.old).faults ≤ (H.view host.new).faults }
    ensures counts { HasRunCounts run_end_of_line result (H.view host.old) (H.view host.new) }
    ensures others { LeavesOthers (H.view host.old) (H.view host.new) }
{
    let mut rest = script;
    let mut number = 1;
    while let Some((line, behind)) = first_line(rest) {
        serve_line(alloc, host, state, number, line)?;
        number += 1;
        rest = behind;
    }
    Ok(())
}
