// Plans of calls on a space: what a call makes of the space in memory, before its log is asked.

ghost use Rattle.std.specs.Prelude.{◌≡◌, ◌≤◌, IfOk, Some};
ghost use Rattle.tq_types.specs.declared.identifiers.Arrival.{Arrival};
ghost use Rattle.tq_model.specs.declared.answer.Answer.TheVariants as answers;
ghost use Rattle.tq_model.specs.declared.calls.CallAnswer.{CallAnswer};
ghost use Rattle.tq_model.specs.Moves.{space_of};
ghost use Rattle.tq_model.specs.Step.{enqueue_outcome, dequeue_outcome, queue_outcome};
ghost use Rattle.tq_spacefile.specs.File.{held_in};
ghost use Rattle.tq_coord.specs.Calls.{IsPlanned, outcome_in};
ghost use Rattle.tq_coord.specs.SpaceCalls.{space_name, IsAsked, IsAskedEnqueue, IsAskedDequeue};

use std::alloc::{AllocError, Global};
use tq_model::{Answer, DequeueAsk, EnqueueAsk, QueueCreation, SpaceAnswer};
use tq_space::{Plan, QueueRefusal, Refusal};
use tq_spacefile::SpaceFile;
use tq_types::{Arrival, Name};

/// What a space is asked.
#[derive(Drop)]
pub enum SpaceCall {
    Enqueue(EnqueueAsk),
    Dequeue(DequeueAsk),
    CreateQueue(QueueCreation),
}

impl SpaceCall {
    ghost use Rattle.tq_coord.specs.SpaceCalls.{numbers_asked};

    // The space.
    pub fn space(&self) -> Name
        ensures { result ≡ space_name self.now }
    {
        match self {
            SpaceCall::Enqueue(ask) => ask.call.space,
            SpaceCall::Dequeue(ask) => ask.call.space,
            SpaceCall::CreateQueue(creation) => creation.space,
        }
    }

    // How many numbers of messages a grant takes.
    pub fn numbers(&self) -> u32
        ensures numbers { result ≡ numbers_asked self.now }
        ensures most { result ≤ 1 }
    {
        match self {
            SpaceCall::Enqueue(_) => 1,
            SpaceCall::Dequeue(_) | SpaceCall::CreateQueue(_) => 0,
        }
    }
}

// What a space makes of a call, before its log.
#[derive(Drop)]
pub enum Planned {
    Refused(Answer),
    // A plan, and what is answered once it is done.
    Granted(Plan, Answer),
}

// The answer that a plan of a call has.
fn take_answer(plan: &mut Plan) -> Answer
    ensures answer { (a : CallAnswer) → plan.old.answer ≡ Some a → result ≡ answers.Call a }
    ensures purge { plan.new.purge ≡ plan.old.purge }
    ensures moves { plan.new.moves ≡ plan.old.moves }
{
    match plan.answer.take() {
        Some(answer) => Answer::Call(answer),
        None => Answer::Done,
    }
}

// The plan of an enqueue.
fn plan_enqueue(alloc: Global, file: &SpaceFile, ask: EnqueueAsk) -> Result<Planned, AllocError>
    requires { IsAskedEnqueue ask.next ask }
    ensures { IfOk result (IsPlanned (held_in file.now) ask.next (enqueue_outcome ask (space_of (held_in file.now)))) }
{
    match file.space().plan_enqueue(alloc, ask) {
        Ok(mut plan) => {
            let answer = take_answer(&mut plan);
            Ok(Planned::Granted(plan, answer))
        }
        Err(Refusal::Refused(answer, _)) => Ok(Planned::Refused(Answer::Call(answer))),
        Err(Refusal::NoMemory) => Err(AllocError),
    }
}

// The plan of a dequeue.
fn plan_dequeue(alloc: Global, file: &SpaceFile, ask: &DequeueAsk) -> Result<Planned, AllocError>
    requires { IsAskedDequeue ask.now }
    ensures { (next : Arrival) → IfOk result (IsPlanned (held_in file.now) next (dequeue_outcome ask.now (space_of (held_in file.now)))) }
{
    match file.space().plan_dequeue(alloc, ask) {
        Ok(mut plan) => {
            let answer = take_answer(&mut plan);
            Ok(Planned::Granted(plan, answer))
        }
        Err(Refusal::Refused(answer, _)) => Ok(Planned::Refused(Answer::Call(answer))),
        Err(Refusal::NoMemory) => Err(AllocError),
    }
}

// The plan of a new queue.
fn plan_queue(alloc: Global, file: &SpaceFile, name: &Name) -> Result<Planned, AllocError>
    ensures { (next : Arrival) → IfOk result (IsPlanned (held_in file.now) next (queue_outcome name.now (space_of (held_in file.now)))) }
{
    match file.space().plan_queue(alloc, name) {
        Ok(plan) => Ok(Planned::Granted(plan, Answer::Done)),
        Err(QueueRefusal::Taken) => Ok(Planned::Refused(Answer::Space(SpaceAnswer::Taken))),
        Err(QueueRefusal::QueueFull(limit)) => Ok(Planned::Refused(Answer::Space(
            SpaceAnswer::QueueFull(limit),
        ))),
        Err(QueueRefusal::NoMemory) => Err(AllocError),
    }
}

// The plan of a call.
pub fn plan(
    alloc: Global,
    file: &SpaceFile,
    call: SpaceCall,
    next: Arrival,
) -> Result<Planned, AllocError>
    requires { IsAsked next call }
    ensures { IfOk result (IsPlanned (held_in file.now) next (outcome_in file.now call)) }
{
    match call {
        SpaceCall::Enqueue(ask) => plan_enqueue(alloc, file, ask),
        SpaceCall::Dequeue(ask) => plan_dequeue(alloc, file, &ask),
        SpaceCall::CreateQueue(creation) => plan_queue(alloc, file, &creation.queue),
    }
}
