//! A space as a list of queues.

ghost use Rattle.std.specs.Prelude.{◌≡◌, ◌<◌, ◌+◌, ◌^◌, ℕ, List, false, if◌then◌else◌, [], ◌∷◌, length, map, Some, None, option_copied, IsSome, IfOk, OnOk, OnErr};
ghost use Rattle.std.specs.List.{list_any, position, position_or_len, sum_by};
ghost use Rattle.tq_model.specs.Space.{Free, Queue, is_named, comes_after, holds_id, is_expired, purged, purged_queue, crashed, crashed_queue, new_space, queue_named, without, with_entry_in};
ghost use Rattle.tq_model.specs.Moves.{entry_view, session_owners};
ghost use Rattle.tq_model.specs.Room.{queue_pages, messages_held, first_lacking, message_rooms};
ghost use Rattle.tq_model.specs.EnqueueStep.{next_id, plain_label, message_to_come, enqueue_step, enqueue_refusal};
ghost use Rattle.tq_model.specs.DequeueStep.{delivered, dequeue_step, dequeue_refusal};
ghost use Rattle.tq_model.specs.CallChecks.{enqueue_call, dequeue_call};
ghost use Rattle.tq_model.specs.Step.{queue_refusal, with_queue};
ghost use Rattle.tq_machine.specs.SpaceCalls.{enqueue_asked, dequeue_asked, outcome_of};

use crate::queue_list::QueueList;
use crate::space_call::{DequeueByWords, EnqueueByWords, SpaceCall};
use std::alloc::{AllocError, Global};
use std::marker::Model;
use tq_model::{
    Answer, CallAnswer, Delivery, DequeueWords, EnqueueWords, Shape, SpaceAnswer, message_pages,
    overhead_pages,
};
use tq_types::{
    Arrival, AskedQos, Entry, Label, Lack, Mark, Message, MsgId, Name, Path, Qos, Resource, Root,
};

/// The limits of a space, the pages being those for messages.
#[derive(Clone, Copy)]
struct SpaceLimits {
    pages: u32,
    queues: u16,
    messages: u16,
    transactions: u16,
    memory: u64,
}

/// A space as a list of queues, each with a list of entries.
#[derive(Drop)]
pub(crate) struct SpaceLists {
    site: u32,
    number: u32,
    limits: SpaceLimits,
    error: Option<Name>,
    queues: Vec<QueueList>,
    alloc: Global,
}

impl Model for SpaceLists {
    ghost use Rattle.tq_model.specs.Space.{Space};

    ghost Value = { Space };

    ghost use Rattle.tq_machine.specs.MachineViews.{space_view, IsWithinLimits};

    ghost view = { space_view };

    ghost invariant = { λ s. IsWithinLimits (space_view s) };
}

impl SpaceLists {
    /// A space without queues.
    pub(crate) fn new(alloc: Global, shape: &Shape, site: u32, number: u32) -> SpaceLists
        ensures { result ≡ new_space shape.now site number }
    {
        let pages = u64::from(shape.pages).saturating_sub(overhead_pages(shape));
        SpaceLists {
            site,
            number,
            limits: SpaceLimits {
                pages: pages as u32,
                queues: shape.queues,
                messages: shape.messages,
                transactions: shape.transactions,
                memory: shape.memory,
            },
            error: shape.error,
            queues: Vec::new(alloc),
            alloc,
        }
    }

    pub(crate) fn number(&self) -> u32
        ensures { result ≡ self.now.number }
    {
        self.number
    }

    /// How many entries there are.
    pub(crate) fn messages_held(&self) -> u64
        ensures { result ≡ messages_held self.now }
    {
        // The sum fits, as any limit does.
        let _limit = self.limits.messages;
        count_held(&self.queues)
    }

    /// Leaves what is there after a crash.
    pub(crate) fn crash(&mut self)
        ensures { self.new ≡ crashed self.old }
    {
        crash_all(&mut self.queues);
    }

    /// Drops the expired entries.
    fn purge(&mut self, clock: u64)
        ensures { self.new ≡ purged clock self.old }
    {
        purge_all(&mut self.queues, clock);
    }

    /// The first reason against a call, but for the log.
    pub(crate) fn refusal(&self, call: &SpaceCall) -> Option<Answer>
        ensures { result ≡ (outcome_of call.now self.now).refusal }
    {
        match call {
            SpaceCall::Queue(creation) => self.queue_refusal(&creation.queue),
            SpaceCall::Enqueue(ask) => self.enqueue_refusal(ask).map(Answer::Call),
            SpaceCall::Dequeue(ask) => self.dequeue_refusal(ask).map(Answer::Call),
        }
    }

    /// Leaves what a call leaves that is refused.
    pub(crate) fn refuse(&mut self, call: &SpaceCall)
        requires { IsSome (outcome_of call.now self.old).refusal }
        ensures { self.new ≡ (outcome_of call.now self.old).space }
    {
        match call {
            SpaceCall::Queue(_) => (),
            SpaceCall::Enqueue(ask) => self.purge(ask.clock),
            SpaceCall::Dequeue(ask) => self.purge(ask.clock),
        }
    }

    fn queue_refusal(&self, name: &Name) -> Option<Answer>
        ensures { result ≡ queue_refusal name.now self.now }
    {
        if any_named(&self.queues, name) {
            return Some(Answer::Space(SpaceAnswer::Taken));
        }
        let limit = self.limits.queues;
        if usize::from(limit) <= self.queues.len() {
            return Some(Answer::Space(SpaceAnswer::QueueFull(limit)));
        }
        None
    }

    fn enqueue_refusal(&self, ask: &EnqueueByWords) -> Option<CallAnswer>
        ensures { result ≡ enqueue_refusal self.now (enqueue_asked ask.now.words.now ask.now.clock ask.now.next) }
    {
        let words = ask.words;
        let Some(queue) = queue_named(&self.queues, &words.queue) else {
            return Some(CallAnswer::BadQueue);
        };
        match self.lack(ask.clock, message_pages(queue.qos(), words.body.len())) {
            Some(lack) => Some(CallAnswer::NoSpace(lack)),
            None => None,
        }
    }

    /// The first of messages and pages that a message of so many pages lacks.
    fn lack(&self, clock: u64, need: u64) -> Option<Lack>
        requires { need < 2 ^ 60 }
        ensures { result ≡ first_lacking (message_rooms self.now (purged clock self.now) need) }
    {
        let messages = u64::from(self.limits.messages);
        let pages = u64::from(self.limits.pages);
        first_lack(
            count_lasting(&self.queues, clock),
            messages,
            count_pages(&self.queues),
            pages,
            need,
        )
    }

    fn dequeue_refusal(&self, ask: &DequeueByWords) -> Option<CallAnswer>
        ensures { result ≡ dequeue_refusal self.now (dequeue_asked ask.now.words.now ask.now.clock) }
    {
        let Some(queue) = queue_named(&self.queues, &ask.words.queue) else {
            return Some(CallAnswer::BadQueue);
        };
        match queue.eligible(ask.clock) {
            Some(_) => None,
            None => Some(CallAnswer::NoMessage),
        }
    }

    /// Does a call that is granted. After an `Err` the space is as it was.
    pub(crate) fn grant(&mut self, call: &SpaceCall) -> Result<Answer, AllocError>
        requires { (outcome_of call.now self.old).refusal ≡ None }
        ensures answer { IfOk result (λ a. a ≡ (outcome_of call.now self.old).answer) }
        ensures space { OnOk result (self.new ≡ (outcome_of call.now self.old).space) }
        ensures unchanged { OnErr result (self.new ≡ self.old) }
    {
        match call {
            SpaceCall::Queue(creation) => {
                self.add_queue(&creation.queue)?;
                Ok(Answer::Done)
            }
            SpaceCall::Enqueue(ask) => Ok(Answer::Call(self.add_message(ask)?)),
            SpaceCall::Dequeue(ask) => Ok(Answer::Call(self.take_message(ask)?)),
        }
    }

    fn add_queue(&mut self, name: &Name) -> Result<(), AllocError>
        ensures space { OnOk result (self.new ≡ with_queue name.now self.old) }
        ensures unchanged { OnErr result (self.new ≡ self.old) }
    {
        let place = place_by_name(&self.queues, name);
        let queue = QueueList::new(self.alloc, name);
        self.queues.insert(place, queue)?;
        Ok(())
    }

    /// The identifier of the message to come.
    fn next_id(&self, next: Arrival) -> MsgId
        ensures { result ≡ next_id self.now next }
    {
        MsgId {
            site: self.site,
            space: self.number,
            epoch: next.epoch,
            number: next.number,
        }
    }

    fn add_message(&mut self, ask: &EnqueueByWords) -> Result<CallAnswer, AllocError>
        requires { enqueue_refusal self.old (enqueue_asked ask.now.words.now ask.now.clock ask.now.next) ≡ None }
        ensures answer { IfOk result (λ a. a ≡ (enqueue_step self.old (enqueue_asked ask.now.words.now ask.now.clock ask.now.next)).answer) }
        ensures space { OnOk result (self.new ≡ (enqueue_step self.old (enqueue_asked ask.now.words.now ask.now.clock ask.now.next)).space) }
        ensures unchanged { OnErr result (self.new ≡ self.old) }
    {
        let words = ask.words;
        let Some(place) = place_named(&self.queues, &words.queue) else {
            unreachable!()
        };
        let id = self.next_id(ask.next);
        let entry = new_entry(words, ask.clock, ask.next, self.queues[place].qos(), id)?;
        add_at(&mut self.queues, place, entry, ask.clock)?;
        Ok(CallAnswer::Enqueued(asked_id(words.flags.wants_id(), id)))
    }

    fn take_message(&mut self, ask: &DequeueByWords) -> Result<CallAnswer, AllocError>
        requires { dequeue_refusal self.old (dequeue_asked ask.now.words.now ask.now.clock) ≡ None }
        ensures answer { IfOk result (λ a. a ≡ (dequeue_step self.old (dequeue_asked ask.now.words.now ask.now.clock)).answer) }
        ensures space { OnOk result (self.new ≡ (dequeue_step self.old (dequeue_asked ask.now.words.now ask.now.clock)).space) }
        ensures unchanged { OnErr result (self.new ≡ self.old) }
    {
        let Some(queue) = queue_named(&self.queues, &ask.words.queue) else {
            unreachable!()
        };
        let Some(entry) = queue.eligible(ask.clock) else {
            unreachable!()
        };
        let delivery = delivery_of(entry, ask.words)?;
        let id = entry.message.id;
        take_out(&mut self.queues, &id, ask.clock);
        Ok(CallAnswer::Dequeued(delivery))
    }
}

fn any_named(queues: &[QueueList], name: &Name) -> bool
    ensures { result ≡ list_any (is_named name.now) queues.now }
{
    queues.iter().any(|queue| queue.is_named(name))
}

/// The first queue of that name.
fn queue_named<'a>(queues: &'a [QueueList], name: &Name) -> Option<&'a QueueList>
    ensures { option_copied result ≡ queue_named name.now queues.now }
{
    queues.iter().find(|queue| queue.is_named(name))
}

fn place_named(queues: &[QueueList], name: &Name) -> Option<usize>
    ensures { result ≡ position (is_named name.now) queues.now }
{
    queues.iter().position(|queue| queue.is_named(name))
}

/// The first place of a queue before which the name comes.
fn place_after_name(queues: &[QueueList], name: &Name) -> Option<usize>
    ensures { result ≡ position (comes_after name.now) queues.now }
{
    queues.iter().position(|queue| queue.comes_after(name))
}

/// The same, or the end.
fn place_by_name(queues: &[QueueList], name: &Name) -> usize
    ensures { result ≡ position_or_len (comes_after name.now) queues.now }
{
    place_after_name(queues, name).unwrap_or(queues.len())
}

fn place_holding(queues: &[QueueList], id: &MsgId) -> Option<usize>
    ensures { result ≡ position (holds_id id.now) queues.now }
{
    queues.iter().position(|queue| queue.holds_id(id))
}

fn count_held(queues: &[QueueList]) -> u64
    requires { sum_by (λ (queue : Queue). length queue.items) queues.now < 2 ^ 64 }
    ensures { result ≡ sum_by (λ (queue : Queue). length queue.items) queues.now }
{
    queues.iter().map(|queue| queue.held() as u64).sum()
}

/// How many entries are not expired.
fn count_lasting(queues: &[QueueList], clock: u64) -> u64
    requires { sum_by (λ queue. length (purged_queue clock queue).items) queues.now < 2 ^ 64 }
    ensures { result ≡ sum_by (λ queue. length (purged_queue clock queue).items) queues.now }
{
    queues.iter().map(|queue| queue.lasting(clock) as u64).sum()
}

fn count_pages(queues: &[QueueList]) -> u64
    requires { sum_by queue_pages queues.now < 2 ^ 64 }
    ensures { result ≡ sum_by queue_pages queues.now }
{
    let mut pages = 0;
    for queue in queues {
        pages += queue.pages();
    }
    pages
}

fn crash_all(queues: &mut [QueueList])
    ensures { queues.new ≡ map crashed_queue queues.old }
{
    for at in 0..queues.len() {
        queues[at].crash();
    }
}

fn purge_all(queues: &mut [QueueList], clock: u64)
    ensures { queues.new ≡ map (purged_queue clock) queues.old }
{
    for at in 0..queues.len() {
        queues[at].purge(clock);
    }
}

/// Takes the entry of that identifier out of the first queue that holds one.
fn remove_id(queues: &mut [QueueList], id: &MsgId)
    ensures { queues.new ≡ without id.now queues.old }
{
    if let Some(at) = place_holding(queues, id) {
        queues[at].remove(id);
    }
}

/// Drops the expired entries, and puts in an entry that is not expired. After an `Err` the queues
/// are as they were.
fn add_at(
    queues: &mut [QueueList],
    place: usize,
    entry: Entry,
    clock: u64,
) -> Result<(), AllocError>
    requires within { place < length queues.old }
    requires lasts { is_expired clock (entry_view session_owners entry) ≡ false }
    ensures ok { OnOk result ((name : List ℕ) → position (is_named name) queues.old ≡ Some place
        → queues.new ≡ with_entry_in name (entry_view session_owners entry) (map (purged_queue clock) queues.old)) }
    ensures err { OnErr result (queues.new ≡ queues.old) }
{
    queues[place].add(entry, clock)?;
    purge_all(queues, clock);
    Ok(())
}

/// Drops the expired entries, and takes out the entry of that identifier.
fn take_out(queues: &mut [QueueList], id: &MsgId, clock: u64)
    ensures { queues.new ≡ without id.now (map (purged_queue clock) queues.old) }
{
    purge_all(queues, clock);
    remove_id(queues, id);
}

/// The first of messages and pages that is lacking.
fn first_lack(
    messages: u64,
    message_limit: u64,
    pages: u64,
    page_limit: u64,
    need: u64,
) -> Option<Lack>
    requires messages_fit { messages < 2 ^ 60 }
    requires pages_fit { pages + need < 2 ^ 64 }
    ensures { result ≡ first_lacking ((record { resource = Resource.Messages; need = 1; held = messages; limit = message_limit }) ∷
        (record { resource = Resource.Pages; need = need; held = pages; limit = page_limit }) ∷ []) }
{
    if message_limit < 1 + messages {
        return Some(Lack {
            resource: Resource::Messages,
            need: 1,
            held: messages,
            limit: message_limit,
        });
    }
    if page_limit < need + pages {
        return Some(Lack {
            resource: Resource::Pages,
            need,
            held: pages,
            limit: page_limit,
        });
    }
    None
}

fn asked_id(asked: bool, id: MsgId) -> Option<MsgId>
    ensures { result ≡ (if asked then Some id else None) }
{
    if asked { Some(id) } else { None }
}

/// The entry of an enqueue that is granted.
fn new_entry(
    words: &EnqueueWords,
    clock: u64,
    next: Arrival,
    qos: Qos,
    id: MsgId,
) -> Result<Entry, AllocError>
    ensures { IfOk result (λ e. entry_view session_owners e ≡ record
        { label = plain_label (enqueue_call words.now clock) next; mark = Free; message = message_to_come (enqueue_call words.now clock) qos id }) }
{
    Ok(Entry {
        queue: 0,
        label: Label {
            root: Root {
                top: false,
                priority: 50,
                available: clock,
                expiration: None,
                arrival: next,
            },
            path: Path::empty(),
        },
        mark: Mark::Free,
        message: Message {
            id,
            corr: None,
            replyq: None,
            failq: None,
            priority: 50,
            available: clock,
            expiration: None,
            qos,
            reply_qos: AskedQos::Default,
            urcode: 0,
            retries: 0,
            body: words.body.copy()?,
        },
    })
}

/// An entry as it is handed out.
fn delivery_of(entry: &Entry, words: &DequeueWords) -> Result<Delivery, AllocError>
    ensures { IfOk result (λ d. CallAnswer.Dequeued d ≡ delivered (dequeue_call words.now) (entry_view session_owners entry.now)) }
{
    Ok(Delivery {
        body: entry.message.body.copy()?,
        urcode: entry.message.urcode,
        id: asked_id(words.flags.wants_id(), entry.message.id),
    })
}
