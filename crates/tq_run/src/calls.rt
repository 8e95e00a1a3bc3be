// Calls of sessions: the words of one become a call on a space, or are refused.

ghost use Rattle.std.specs.Prelude.{◌≡◌, ◌<◌, IfOk, IfErr};
ghost use Rattle.tq_model.specs.Site.{durable};
ghost use Rattle.tq_model.specs.Step.{enqueue_ask, dequeue_ask, refusal_answer, call_step};
ghost use Rattle.tq_coord.specs.Counts.{CountsFailure};
ghost use Rattle.tq_coord.specs.Images.{ImagesMatch};
ghost use Rattle.tq_coord.specs.Manager.{site_of, next_of};
ghost use Rattle.tq_coord.specs.Serving.{IsServed, ChangesOnce};
ghost use Rattle.tq_run.specs.CallWords.{AreWordsOf, AreRefused};

use std::alloc::Global;
use tq_calls::{check_dequeue, check_enqueue};
use tq_coord::{Failure, Manager, SpaceCall};
use tq_host::Host;
use tq_model::{
    Answer, CallRefusal, CallRequest, DequeueAsk, DequeueCall, EnqueueAsk, EnqueueCall,
};

// What a space is asked at an enqueue of a session.
fn enqueue_ask(session: u8, call: EnqueueCall, manager: &Manager) -> EnqueueAsk
    ensures { result ≡ enqueue_ask session call (site_of manager.now) }
{
    EnqueueAsk {
        call,
        clock: manager.clock(),
        owner: None,
        transactional: false,
        heuristic: 0,
        next: manager.next_arrival(),
    }
}

// What a space is asked at a dequeue of a session.
fn dequeue_ask(session: u8, call: DequeueCall, manager: &Manager) -> DequeueAsk
    ensures { result ≡ dequeue_ask session call (site_of manager.now) }
{
    DequeueAsk {
        call,
        clock: manager.clock(),
        owner: None,
        transactional: false,
        heuristic: 0,
    }
}

// The call that the words of a request make.
fn call_of_words(manager: &Manager, request: CallRequest) -> Result<SpaceCall, CallRefusal>
    ensures made { IfOk result (AreWordsOf request (site_of manager.now)) }
    ensures refused { IfErr result (AreRefused request (site_of manager.now)) }
{
    match request {
        CallRequest::Enqueue(session, words) => {
            let call = check_enqueue(words, manager.clock())?;
            Ok(SpaceCall::Enqueue(enqueue_ask(session, call, manager)))
        }
        CallRequest::Dequeue(session, words) => {
            let call = check_dequeue(words)?;
            Ok(SpaceCall::Dequeue(dequeue_ask(session, call, manager)))
        }
    }
}

// What words are answered that make no call.
fn refusal_answer(refusal: CallRefusal) -> Answer
    ensures { result ≡ refusal_answer refusal }
{
    match refusal {
        CallRefusal::TooLarge(size) => Answer::Invalid(size),
    }
}

// Does a call of a session.
pub fn serve_call<H: Host>(
    alloc: Global,
    host: &mut H,
    manager: &mut Manager,
    request: CallRequest,
) -> Result<Answer, Failure>
    requires next { next_of manager.old < 4294967295 }
    requires on { ImagesMatch manager.old (H.view host.old) }
    ensures served { IfOk result (IsServed (call_step (site_of manager.old) request) manager.old manager.new (H.view host.new)) }
    ensures stop { ChangesOnce (call_step (site_of manager.old) request) manager.old (H.view host.old) (H.view host.new) }
    ensures failed { CountsFailure result (H.view host.old).faults (H.view host.new).faults }
    // what changes nothing that lasts makes no call of the host
    ensures idle { durable (call_step (site_of manager.old) request).site ≡ durable (site_of manager.old) → host.new ≡ host.old }
{
    match call_of_words(manager, request) {
        Ok(call) => manager.call_space(alloc, host, call),
        Err(refusal) => Ok(refusal_answer(refusal)),
    }
}
