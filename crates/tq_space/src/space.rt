ghost use Rattle.std.specs.Prelude.{◌≡◌, ℕ, true, false, ◌&&◌, nat_lt, nat_le, ◌+◌, ◌-◌, ◌*◌, option_copied, option_to_list, if◌then◌else◌, ◌≤◌, [], ◌∷◌, length, IfOk, OnOk, OnErr, MatchOption, Some, None, option_map};
ghost use Rattle.tq_model.specs.Space.{body_length};
ghost use Rattle.tq_model.specs.Moves.{entry_view, space_of, purged_of, moved, moved_by, has_index, entry_with_id, session_owners};
ghost use Rattle.std.specs.List.{find, list_any};
ghost use Rattle.tq_space.specs.Reads.{indexed_named, HasDistinctIndices};
ghost use Rattle.tq_space.specs.Reading.{named_of, answer_in};
ghost use Rattle.tq_model.specs.Room.{pages_for, pages_at, messages_held, pages_held, message_rooms, first_lacking};
ghost use Rattle.tq_model.specs.EnqueueStep.{quality, next_id, enqueue_step, enqueue_refusal};
ghost use Rattle.tq_model.specs.DequeueStep.{dequeue_step, dequeue_refusal, delivered, content_bytes};
ghost use Rattle.tq_model.specs.SpaceForm.{holds_arrival, holds_name, empty_space, added_length, gone_length, made_length};
ghost use Rattle.tq_model.specs.Plain.{KeepsAllAtCrash, IsOwn};
ghost use Rattle.tq_types.specs.declared.identifiers.Arrival.{Arrival};
ghost use Rattle.tq_space.specs.Plain.{IsPlainEnqueue, IsPlainDequeue, IsBareEnqueue, HasNoExpirations, CanInsert, CanReplace, CanDrop, CanMove, CanMoveBy};
ghost use Rattle.tq_space.specs.Applied.{plan_applied};
ghost use Rattle.tq_space.specs.Planned.{MeetsStep, IsRefused, IsInsertOf, IsRemovalOf, MeetsCreation};
ghost use Rattle.tq_space.specs.Loggable.{IsDurable};
ghost use Rattle.tq_space.specs.NewEntry.{entry_of, rooms};

use crate::plans::{Moves, Plan, Purge, QueueRefusal, Refusal};
use crate::shelf::{Named, Shelf};
use std::alloc::{AllocError, Global};
use std::marker::Model;
use tq_model::{
    CallAnswer, Change, Delivery, DequeueAsk, DequeueCall, EnqueueAsk, QueueDef, Shape, SpaceMove,
    default_queue, message_pages, overhead_pages, pages_for,
};
use tq_types::{
    Arrival, AskedQos, Body, Entry, Label, Lack, Mark, Message, MsgId, Name, Path, Qos, Resource,
    Root,
};

/// The limits of a space's creation; the pages are those for messages.
#[derive(Clone, Copy, Debug)]
struct SpaceLimits {
    pages: u32,
    queues: u16,
    messages: u16,
    transactions: u16,
    memory: u64,
}

/// One queue space in memory. Clauses see the space with the indices of its queues, and for how
/// many more moves of any kind there is room without memory.
#[derive(Drop)]
pub struct Space {
    site: u32,
    number: u32,
    limits: SpaceLimits,
    error: Option<Name>,
    shelf: Shelf,
    messages: u64,
    pages: u64,
}

impl Model for Space {
    ghost use Rattle.tq_space.specs.State.{SpaceState};

    ghost Value = { SpaceState };

    ghost use Rattle.tq_space.specs.SpaceView.{space_view, IsSpace};

    ghost view = { space_view };

    ghost invariant = { IsSpace };
}

/// The quality that is asked for, or the queue's default.
fn chosen(asked: AskedQos, default: Qos) -> Qos
    ensures { result ≡ quality asked default }
{
    match asked {
        AskedQos::Default => default,
        AskedQos::Persistent => Qos::Persistent,
        AskedQos::NonPersistent => Qos::NonPersistent,
    }
}

/// The first of messages and pages that is lacking.
fn first_lack(
    messages: u64,
    message_limit: u64,
    pages: u64,
    page_limit: u64,
    need: u64,
) -> Option<Lack>
    requires messages_fit { messages ≤ message_limit }
    requires pages_fit { pages ≤ page_limit }
    requires limits_fit { message_limit + page_limit + need ≤ 1000000000000 }
    ensures { result ≡ first_lacking (rooms messages message_limit pages page_limit need) }
{
    if messages + 1 > message_limit {
        return Some(Lack {
            resource: Resource::Messages,
            need: 1,
            held: messages,
            limit: message_limit,
        });
    }
    if need + pages > page_limit {
        return Some(Lack {
            resource: Resource::Pages,
            need,
            held: pages,
            limit: page_limit,
        });
    }
    None
}

/// The entry of an enqueue that is granted.
fn new_entry(ask: EnqueueAsk, index: u16, qos: Qos, id: MsgId) -> Entry
    ensures { result ≡ entry_of ask index qos id }
{
    let call = ask.call;
    Entry {
        queue: index,
        label: Label {
            root: Root {
                top: false,
                priority: call.priority,
                available: call.available,
                expiration: call.expiration,
                arrival: ask.next,
            },
            path: Path::empty(),
        },
        mark: Mark::Free,
        message: Message {
            id,
            corr: call.corr,
            replyq: call.replyq,
            failq: call.failq,
            priority: call.priority,
            available: call.available,
            expiration: call.expiration,
            qos,
            reply_qos: call.reply_qos,
            urcode: 0,
            retries: 0,
            body: call.body,
        },
    }
}

/// A plan of one move at most.
pub fn plan_of(
    alloc: Global,
    item: Option<SpaceMove>,
    answer: Option<CallAnswer>,
) -> Result<Plan, AllocError>
    ensures purge { IfOk result (λ plan. plan.purge ≡ []) }
    ensures moves { IfOk result (λ plan. plan.moves ≡ option_to_list item) }
    ensures answer { IfOk result (λ plan. plan.answer ≡ answer) }
{
    let mut moves = Moves::new(alloc);
    if let Some(item) = item {
        moves.push(item)?;
    }
    Ok(Plan {
        purge: Purge::new(alloc),
        moves,
        answer,
    })
}

/// A removal, but of nothing at a peek.
fn removal(peek: bool, id: MsgId) -> Option<SpaceMove>
    ensures { result ≡ (if peek then None else Some (SpaceMove.Remove id)) }
{
    if peek {
        None
    } else {
        Some(SpaceMove::Remove(id))
    }
}

/// An entry as it is handed out.
fn delivery_of(entry: &Entry, call: &DequeueCall) -> Result<Delivery, AllocError>
    ensures { IfOk result (λ d. CallAnswer.Dequeued d ≡ delivered call.now (entry_view session_owners entry.now)) }
{
    let id = if call.asked.wants_id() {
        Some(entry.message.id)
    } else {
        None
    };
    Ok(Delivery {
        body: entry.message.body.copy()?,
        urcode: entry.message.urcode,
        id,
    })
}

/// The pages of an entry.
fn entry_pages(entry: &Entry) -> u64
    ensures { result ≡ pages_at entry.now.message.qos (length entry.now.message.body) }
{
    message_pages(entry.message.qos, entry.message.body.len())
}

impl Space {
    /// A space without queues and entries, and with no room made; its identifiers have this site and
    /// this number.
    pub fn new(alloc: Global, shape: &Shape, site: u32, number: u32) -> Space
        ensures held { result.held ≡ empty_space shape.now site number }
        ensures ready { result.ready ≡ 0 }
    {
        let pages = u64::from(shape.pages).saturating_sub(overhead_pages(shape));
        Space {
            site,
            number,
            limits: SpaceLimits {
                pages: pages as u32,
                queues: shape.queues,
                messages: shape.messages,
                transactions: shape.transactions,
                memory: shape.memory,
            },
            error: shape.error,
            shelf: Shelf::new(alloc),
            messages: 0,
            pages: 0,
        }
    }

    /// The first of messages and pages that a message of so many pages lacks.
    fn lack(&self, need: u64) -> Option<Lack>
        requires { need ≤ 65 }
        ensures { result ≡ first_lacking (message_rooms (space_of self.now.held) (space_of self.now.held) need) }
    {
        first_lack(
            self.messages,
            u64::from(self.limits.messages),
            self.pages,
            u64::from(self.limits.pages),
            need,
        )
    }

    /// The identifier of the message of that arrival.
    pub fn id_of(&self, next: Arrival) -> MsgId
        ensures { result ≡ next_id (space_of self.now.held) next }
    {
        MsgId {
            site: self.site,
            space: self.number,
            epoch: next.epoch,
            number: next.number,
        }
    }

    /// The queue of that name, if there is one.
    fn named(&self, name: &Name) -> Option<Named>
        ensures named { result ≡ option_map named_of (find (indexed_named name.now) self.now.held.queues) }
        ensures indices { HasDistinctIndices self.now.held.queues }
        ensures lasting { HasNoExpirations self.now.held.queues }
    {
        self.shelf.named(name)
    }

    /// The first entry that answers a dequeue of its queue, if there is one.
    fn answering(&self, call: &DequeueCall, clock: u64) -> Option<&Entry>
        ensures { option_map (entry_view session_owners) (option_copied result)
            ≡ answer_in call.now clock (find (indexed_named call.now.queue) self.now.held.queues) }
    {
        self.shelf.answering(call, clock)
    }

    /// What an enqueue makes of the space: a plan exactly where the machine's step refuses nothing,
    /// else that refusal. Nothing is changed. The body is moved into the plan.
    ///
    /// # Errors
    /// `BadQueue` where there is no such queue, `NoSpace` with the first resource that is lacking.
    pub fn plan_enqueue(&self, alloc: Global, ask: EnqueueAsk) -> Result<Plan, Refusal>
        requires plain { IsPlainEnqueue ask }
        requires checked { length ask.call.body ≤ 65536 }
        ensures step { MeetsStep result (enqueue_step (space_of self.now.held) ask) (enqueue_refusal (space_of self.now.held) ask) self.now.held }
        // the condition under which no refusal comes
        ensures granted { enqueue_refusal (space_of self.now.held) ask ≡ None → IsRefused result → ⊥ }
        ensures moves { IfOk result (λ plan. IsInsertOf ask self.now.held plan) }
        // what its log takes
        ensures durable { IsBareEnqueue ask.call → KeepsAllAtCrash self.now.held
            → IfOk result (IsDurable ask.next (added_length ask.call.body) 1 self.now.held) }
    {
        let Some(queue) = self.named(&ask.call.queue) else {
            return Err(Refusal::Refused(CallAnswer::BadQueue, Purge::new(alloc)));
        };
        let qos = chosen(ask.call.qos, queue.qos);
        if let Some(lack) = self.lack(message_pages(qos, ask.call.body.len())) {
            return Err(Refusal::Refused(CallAnswer::NoSpace(lack), Purge::new(alloc)));
        }
        let id = self.id_of(ask.next);
        let answer = CallAnswer::Enqueued(asked_id(ask.call.want_id, id));
        let entry = new_entry(ask, queue.index, qos, id);
        let Ok(plan) = plan_of(alloc, Some(SpaceMove::Insert(entry)), Some(answer)) else {
            return Err(Refusal::NoMemory);
        };
        Ok(plan)
    }

    /// What a dequeue makes of the space: a plan exactly where the machine's step refuses nothing,
    /// else that refusal. Nothing is changed. The body in the answer is a copy.
    ///
    /// # Errors
    /// `BadQueue` where there is no such queue, `NoMessage` where no entry answers the call.
    pub fn plan_dequeue(&self, alloc: Global, ask: &DequeueAsk) -> Result<Plan, Refusal>
        requires plain { IsPlainDequeue ask.now }
        ensures step { MeetsStep result (dequeue_step (space_of self.now.held) ask.now) (dequeue_refusal (space_of self.now.held) ask.now) self.now.held }
        // the condition under which no refusal comes
        ensures granted { dequeue_refusal (space_of self.now.held) ask.now ≡ None → IsRefused result → ⊥ }
        ensures moves { IfOk result (λ plan. IsRemovalOf ask.now self.now.held plan) }
        // what its log takes
        ensures durable { ask.now.call.peek ≡ false → IsOwn self.now.held → (next : Arrival) → IfOk result (IsDurable next gone_length 0 self.now.held) }
    {
        let Some(_queue) = self.named(&ask.call.queue) else {
            return Err(Refusal::Refused(CallAnswer::BadQueue, Purge::new(alloc)));
        };
        let Some(entry) = self.answering(&ask.call, ask.clock) else {
            return Err(Refusal::Refused(CallAnswer::NoMessage, Purge::new(alloc)));
        };
        let Ok(delivery) = delivery_of(entry, &ask.call) else {
            return Err(Refusal::NoMemory);
        };
        let item = removal(ask.call.peek, entry.message.id);
        let Ok(plan) = plan_of(alloc, item, Some(CallAnswer::Dequeued(delivery))) else {
            return Err(Refusal::NoMemory);
        };
        Ok(plan)
    }

    /// A plan that makes a queue of that name, with nothing more asked for, under the lowest index
    /// that is not used. Nothing is changed.
    ///
    /// # Errors
    /// `Taken` where a queue has the name, else `QueueFull` with the limit where there are as many
    /// queues.
    pub fn plan_queue(&self, alloc: Global, name: &Name) -> Result<Plan, QueueRefusal>
        ensures creation { MeetsCreation result name.now self.now.held }
        // what its log takes
        ensures durable { (next : Arrival) → IfOk result (IsDurable next (made_length name.now) 0 self.now.held) }
    {
        if self.has_queue_named(name) {
            return Err(QueueRefusal::Taken);
        }
        let limit = self.limits.queues;
        if self.shelf.count() >= usize::from(limit) {
            return Err(QueueRefusal::QueueFull(limit));
        }
        let Some(index) = self.shelf.unused_index(limit) else {
            unreachable!()
        };
        let item = SpaceMove::PutQueue(index, default_queue(name));
        let Ok(plan) = plan_of(alloc, Some(item), None) else {
            return Err(QueueRefusal::NoMemory);
        };
        Ok(plan)
    }

    /// Makes the room that `apply` needs for as many moves as this plan has, of whatever kind. After
    /// an `Err` the space is as it was.
    pub fn reserve(&mut self, plan: &Plan) -> Result<(), AllocError>
        ensures ready { OnOk result (length plan.now.moves ≤ self.new.ready) }
        ensures held { self.new.held ≡ self.old.held }
        ensures err { OnErr result (self.new ≡ self.old) }
    {
        self.shelf.reserve(plan.moves.as_slice().len())
    }

    /// Does a plan for which there is room: the purge, and then the moves. It takes no memory.
    pub fn apply(&mut self, plan: Plan)
        requires ready { length plan.moves ≤ self.old.ready }
        requires can { CanMoveBy plan.moves (purged_of plan.purge self.old.held) }
        ensures held { self.new.held ≡ plan_applied plan self.old.held }
    {
        let Plan {
            purge,
            moves,
            answer: _,
        } = plan;
        self.drop_all(&purge);
        self.make_all(moves);
    }

    fn drop_all(&mut self, purge: &Purge)
        ensures held { self.new.held ≡ purged_of purge.now self.old.held }
        ensures ready { self.new.ready ≡ self.old.ready }
    {
        for id in purge.as_slice() {
            self.remove(id);
        }
    }

    fn make_all(&mut self, moves: Moves)
        requires ready { length moves ≤ self.old.ready }
        requires can { CanMoveBy moves self.old.held }
        ensures { self.new.held ≡ moved_by moves self.old.held }
    {
        let mut left = moves.into_items();
        left.reverse();
        while let Some(item) = left.pop() {
            self.make(item);
        }
    }

    fn make(&mut self, item: SpaceMove)
        requires ready { 1 ≤ self.old.ready }
        requires can { CanMove item self.old.held }
        ensures held { self.new.held ≡ moved item self.old.held }
        ensures ready { self.old.ready ≤ self.new.ready + 1 }
    {
        match item {
            SpaceMove::Insert(entry) => self.insert(entry),
            SpaceMove::Remove(id) => self.remove(&id),
            SpaceMove::Replace(change) => self.replace(&change),
            SpaceMove::PutQueue(index, def) => self.put_queue(index, &def),
            SpaceMove::DropQueue(index) => self.drop_queue(index),
        }
    }

    fn insert(&mut self, entry: Entry)
        requires ready { 1 ≤ self.old.ready }
        requires can { CanInsert entry self.old.held }
        ensures held { self.new.held ≡ moved (SpaceMove.Insert entry) self.old.held }
        ensures ready { self.new.ready + 1 ≡ self.old.ready }
    {
        let pages = entry_pages(&entry);
        self.shelf.insert(entry);
        self.messages += 1;
        self.pages += pages;
    }

    fn remove(&mut self, id: &MsgId)
        ensures held { self.new.held ≡ moved (SpaceMove.Remove id.now) self.old.held }
        ensures ready { self.new.ready ≡ self.old.ready }
    {
        if let Some(entry) = self.shelf.remove(id) {
            self.messages -= 1;
            self.pages -= entry_pages(&entry);
        }
    }

    fn replace(&mut self, change: &Change)
        requires ready { 1 ≤ self.old.ready }
        requires can { CanReplace change.now self.old.held }
        ensures held { self.new.held ≡ moved (SpaceMove.Replace change.now) self.old.held }
        ensures messages { messages_held (space_of self.new.held) ≡ messages_held (space_of self.old.held) }
        ensures pages { pages_held (space_of self.new.held) ≡ pages_held (space_of self.old.held) }
        ensures ready { self.old.ready ≤ self.new.ready + 1 }
    {
        self.shelf.replace(change);
    }

    fn put_queue(&mut self, index: u16, def: &QueueDef)
        requires ready { 1 ≤ self.old.ready }
        ensures held { self.new.held ≡ moved (SpaceMove.PutQueue index def.now) self.old.held }
        ensures ready { self.old.ready ≤ self.new.ready + 1 }
    {
        if self.shelf.holds_index(index) {
            self.shelf.change_queue(index, def);
        } else {
            self.shelf.add_queue(index, def);
        }
    }

    fn drop_queue(&mut self, index: u16)
        requires { CanDrop index self.old.held }
        ensures held { self.new.held ≡ moved (SpaceMove.DropQueue index) self.old.held }
        ensures ready { self.new.ready ≡ self.old.ready }
    {
        self.shelf.drop_queue(index);
    }

    /// A copy of the body of the entry with that identifier; none where there is no such entry.
    pub fn body(&self, id: &MsgId) -> Result<Option<Body>, AllocError>
        ensures { IfOk result (λ o. o ≡ option_map (λ item. content_bytes item.message.body) (entry_with_id id.now self.now.held.queues)) }
    {
        match self.shelf.with_id(id) {
            Some(entry) => Ok(Some(entry.message.body.copy()?)),
            None => Ok(None),
        }
    }

    /// The length of the body of the entry with that identifier, if there is one.
    pub fn body_length(&self, id: &MsgId) -> Option<usize>
        ensures { result ≡ option_map (λ item. body_length item.message.body) (entry_with_id id.now self.now.held.queues) }
    {
        match self.shelf.with_id(id) {
            Some(entry) => Some(entry.message.body.len()),
            None => None,
        }
    }

    /// The index of the queue of that name, if there is one.
    pub fn queue_index(&self, name: &Name) -> Option<u16>
        ensures { result ≡ option_map (λ q. q.index) (find (indexed_named name.now) self.now.held.queues) }
    {
        match self.shelf.named(name) {
            Some(queue) => Some(queue.index),
            None => None,
        }
    }

    /// Whether a queue has that index.
    pub fn holds_index(&self, index: u16) -> bool
        ensures { result ≡ list_any (has_index index) self.now.held.queues }
    {
        self.shelf.holds_index(index)
    }

    /// Whether a queue has that name.
    pub fn has_queue_named(&self, name: &Name) -> bool
        ensures { result ≡ list_any (holds_name name.now) self.now.held.queues }
    {
        self.shelf.named(name).is_some()
    }

    /// Whether there is an entry of that arrival.
    pub fn holds_arrival(&self, arrival: &Arrival) -> bool
        ensures { result ≡ holds_arrival self.now.held arrival.now }
    {
        self.shelf.holds_id(&self.id_of(*arrival))
    }

    /// Whether there is room for one persistent message more, with a body of so many bytes.
    pub fn has_room_for(&self, body: usize) -> bool
        ensures { result ≡ (nat_lt (messages_held (space_of self.now.held)) self.now.held.limits.messages && nat_le
            (pages_held (space_of self.now.held) + pages_for body) self.now.held.limits.pages) }
    {
        let pages = u64::from(self.limits.pages) - self.pages;
        self.messages < u64::from(self.limits.messages) && pages_for(body) <= pages
    }

    /// How many messages the space has.
    pub fn message_count(&self) -> u64
        ensures { result ≡ messages_held (space_of self.now.held) }
    {
        self.messages
    }

    /// The most queues that the space may have.
    pub fn queue_limit(&self) -> u16
        ensures { result ≡ self.now.held.limits.queues }
    {
        self.limits.queues
    }

    /// The number of the space in its identifiers.
    pub fn number(&self) -> u32
        ensures { result ≡ self.now.held.number }
    {
        self.number
    }
}

fn asked_id(asked: bool, id: MsgId) -> Option<MsgId>
    ensures { result ≡ (if asked then Some id else None) }
{
    if asked { Some(id) } else { None }
}
