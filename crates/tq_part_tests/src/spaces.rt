//! Plans and moves of one space in memory.

ghost use Rattle.std.specs.Prelude.{◌≡◌, ◌≤◌, [], ◌∷◌, length, IfOk, OnOk};
ghost use Rattle.tq_model.specs.Moves.{moved};
ghost use Rattle.tq_model.specs.Room.{pages_at};
ghost use Rattle.tq_space.specs.Plain.{CanMove, IsPlainChange, IsPlainEntry};

use std::alloc::{AllocError, Global};
use std::process::Abort;
use std::test::Fail;
use tq_model::{
    CallAnswer, Change, Delivery, DequeueAsk, DequeueCall, EnqueueAsk, EnqueueCall, Flag, Flags,
    Place, QueueDef, Shape, SpaceMove,
};
use tq_space::{Moves, Plan, Purge, Refusal, Space};
use tq_types::{
    Arrival, AskedQos, Body, Entry, Label, Lack, Last, Mark, Message, MsgId, Name, Order, Path,
    Qos, Resource, Root,
};

fn shape(pages: u32, messages: u16) -> Shape
    ensures { result.messages ≡ messages }
{
    Shape {
        pages,
        queues: 4,
        messages,
        transactions: 1,
        memory: 0,
        error: None,
    }
}

fn id(number: u32) -> MsgId {
    MsgId {
        site: 1,
        space: 8,
        epoch: 1,
        number,
    }
}

fn definition(name: Name, order: Order) -> QueueDef {
    QueueDef {
        name,
        order,
        top: false,
        before: false,
        qos: Qos::Persistent,
        retries: 0,
        delay: 0,
    }
}

fn label(number: u32) -> Label {
    Label {
        root: Root {
            top: false,
            priority: 50,
            available: 0,
            expiration: None,
            arrival: Arrival { epoch: 1, number },
        },
        path: Path::empty(),
    }
}

/// The entry of that identifier comes to this queue, in the place of this arrival.
fn change(number: u32, queue: u16, arrival: u32) -> Change
    ensures plain { IsPlainChange result }
    ensures queue { result.queue ≡ queue }
{
    Change {
        id: id(number),
        queue,
        label: label(arrival),
        mark: Mark::Free,
        priority: 50,
        available: 0,
        expiration: None,
        retries: 0,
    }
}

/// An entry that takes no pages.
fn entry(alloc: Global, queue: u16, bytes: &[u8], number: u32) -> Result<Entry, AllocError>
    ensures plain { IfOk result IsPlainEntry }
    ensures queue { IfOk result (λ e. e.queue ≡ queue) }
    ensures pages { IfOk result (λ e. pages_at e.message.qos (length e.message.body) ≡ 0) }
{
    Ok(Entry {
        queue,
        label: label(number),
        mark: Mark::Free,
        message: Message {
            id: id(number),
            corr: None,
            replyq: None,
            failq: None,
            priority: 50,
            available: 0,
            expiration: None,
            qos: Qos::NonPersistent,
            reply_qos: AskedQos::Default,
            urcode: 0,
            retries: 0,
            body: Body::new(alloc, bytes)?,
        },
    })
}

/// Reserves and makes one move.
fn make(alloc: Global, space: &mut Space, item: SpaceMove) -> Result<(), AllocError>
    requires { CanMove item space.old.held }
    ensures { OnOk result (space.new.held ≡ moved item space.old.held) }
{
    let mut moves = Moves::new(alloc);
    moves.push(item)?;
    let plan = Plan {
        purge: Purge::new(alloc),
        moves,
        answer: None,
    };
    space.reserve(&plan)?;
    space.apply(plan);
    Ok(())
}

/// Puts the queue of index 0.
fn with_queue(
    alloc: Global,
    space: &mut Space,
    name: Name,
    order: Order,
) -> Result<(), AllocError> {
    make(
        alloc,
        space,
        SpaceMove::PutQueue(0, definition(name, order)),
    )
}

/// Makes an entry come to a queue that is there.
fn replace(
    rt: &impl Abort,
    alloc: Global,
    space: &mut Space,
    change: Change,
) -> Result<(), AllocError>
    requires { IsPlainChange change }
{
    let there = space.holds_index(change.queue);
    assert!(rt; there);
    make(alloc, space, SpaceMove::Replace(change))
}

/// Puts a queue that is not there, and drops it.
fn put_and_drop(
    rt: &impl Abort,
    alloc: Global,
    space: &mut Space,
    index: u16,
    def: QueueDef,
) -> Result<(), AllocError> {
    let there = space.holds_index(index);
    assert!(rt; !there);
    make(alloc, space, SpaceMove::PutQueue(index, def))?;
    assert_eq!(rt; space.queue_index(&def.name), Some(index));
    make(alloc, space, SpaceMove::DropQueue(index))?;
    assert_eq!(rt; space.queue_index(&def.name), None);
    Ok(())
}

fn enqueue(
    alloc: Global,
    space: &mut Space,
    name: Name,
    bytes: &[u8],
    number: u32,
) -> Result<Option<CallAnswer>, AllocError>
    requires { length bytes.now ≤ 65536 }
{
    let call = EnqueueCall {
        space: name,
        queue: name,
        notran: false,
        want_id: true,
        place: Place::Plain,
        priority: 50,
        available: 0,
        expiration: None,
        corr: None,
        replyq: None,
        failq: None,
        qos: AskedQos::Default,
        reply_qos: AskedQos::Default,
        body: Body::new(alloc, bytes)?,
    };
    let next = Arrival { epoch: 1, number };
    let ask = EnqueueAsk {
        call,
        clock: 0,
        owner: None,
        transactional: false,
        heuristic: 0,
        next,
    };
    match space.plan_enqueue(alloc, ask) {
        Ok(plan) => {
            space.reserve(&plan)?;
            let Plan {
                purge,
                moves,
                answer,
            } = plan;
            space.apply(Plan {
                purge,
                moves,
                answer: None,
            });
            Ok(answer)
        }
        Err(Refusal::Refused(answer, _)) => Ok(Some(answer)),
        Err(Refusal::NoMemory) => Err(AllocError),
    }
}

fn dequeue(alloc: Global, space: &mut Space, name: Name) -> Result<Option<CallAnswer>, AllocError> {
    let mut asked = Flags::new(alloc);
    asked.push(Flag::MessageId)?;
    let call = DequeueCall {
        space: name,
        queue: name,
        notran: false,
        peek: false,
        id: None,
        corr: None,
        asked,
    };
    let ask = DequeueAsk {
        call,
        clock: 0,
        owner: None,
        transactional: false,
        heuristic: 0,
    };
    match space.plan_dequeue(alloc, &ask) {
        Ok(plan) => {
            space.reserve(&plan)?;
            let Plan {
                purge,
                moves,
                answer,
            } = plan;
            space.apply(Plan {
                purge,
                moves,
                answer: None,
            });
            Ok(answer)
        }
        Err(Refusal::Refused(answer, _)) => Ok(Some(answer)),
        Err(Refusal::NoMemory) => Err(AllocError),
    }
}

fn no_space(resource: Resource, need: u64, held: u64, limit: u64) -> Option<CallAnswer> {
    Some(CallAnswer::NoSpace(Lack {
        resource,
        need,
        held,
        limit,
    }))
}

fn granted(number: u32) -> Option<CallAnswer> {
    Some(CallAnswer::Enqueued(Some(id(number))))
}

fn delivered(alloc: Global, bytes: &[u8], number: u32) -> Result<Option<CallAnswer>, AllocError> {
    Ok(Some(CallAnswer::Dequeued(Delivery {
        body: Body::new(alloc, bytes)?,
        urcode: 0,
        id: Some(id(number)),
    })))
}

/// An enqueue has this answer.
fn enqueues(
    rt: &impl Abort,
    alloc: Global,
    space: &mut Space,
    name: Name,
    message: (&[u8], u32),
    answer: Option<CallAnswer>,
) -> Result<(), AllocError>
    requires { length message.0.now ≤ 65536 }
{
    let (bytes, number) = message;
    let given = enqueue(alloc, space, name, bytes, number)?;
    assert_eq!(rt; given, answer, "at {number}");
    Ok(())
}

/// A dequeue takes this message.
fn dequeues(
    rt: &impl Abort,
    alloc: Global,
    space: &mut Space,
    name: Name,
    message: (&[u8], u32),
) -> Result<(), AllocError> {
    let (bytes, number) = message;
    let given = dequeue(alloc, space, name)?;
    assert_eq!(rt; given, delivered(alloc, bytes, number)?, "at {number}");
    Ok(())
}

/// A dequeue is refused.
fn refuses(
    rt: &impl Abort,
    alloc: Global,
    space: &mut Space,
    name: Name,
    answer: CallAnswer,
) -> Result<(), AllocError> {
    let given = dequeue(alloc, space, name)?;
    assert_eq!(rt; given, Some(answer));
    Ok(())
}

#[test]
fn one_page(rt: HostRuntime) -> Result<(), Fail> {
    let alloc = rt.alloc();
    let name = Name::new(b"Q")?;
    let order = Order::new(&[], Last::Fifo)?;
    let mut space = Space::new(alloc, &shape(42, 2), 1, 8);
    let bad = Some(CallAnswer::BadQueue);
    refuses(&rt, alloc, &mut space, name, CallAnswer::BadQueue)?;
    enqueues(&rt, alloc, &mut space, name, (b"a", 0), bad)?;
    with_queue(alloc, &mut space, name, order)?;
    refuses(&rt, alloc, &mut space, name, CallAnswer::NoMessage)?;
    let large = no_space(Resource::Pages, 2, 0, 1);
    enqueues(&rt, alloc, &mut space, name, (&[0; 761], 0), large)?;
    enqueues(&rt, alloc, &mut space, name, (&[7; 760], 1), granted(1))?;
    let full = no_space(Resource::Pages, 1, 1, 1);
    enqueues(&rt, alloc, &mut space, name, (b"b", 2), full)?;
    dequeues(&rt, alloc, &mut space, name, (&[7; 760], 1))?;
    enqueues(&rt, alloc, &mut space, name, (b"b", 3), granted(3))?;
    Ok(())
}

#[test]
fn a_hundred(rt: HostRuntime) -> Result<(), Fail> {
    let alloc = rt.alloc();
    let name = Name::new(b"Q")?;
    let order = Order::new(&[], Last::Fifo)?;
    let mut space = Space::new(alloc, &shape(300, 128), 1, 8);
    with_queue(alloc, &mut space, name, order)?;
    for number in 0..100u32 {
        enqueues(
            &rt,
            alloc,
            &mut space,
            name,
            (b"x", number),
            granted(number),
        )?;
    }
    for number in 0..100u32 {
        dequeues(&rt, alloc, &mut space, name, (b"x", number))?;
    }
    refuses(&rt, alloc, &mut space, name, CallAnswer::NoMessage)?;
    Ok(())
}

/// A space that two messages fill, the first of which changes its place and then its queue.
fn replaced(
    rt: &impl Abort,
    alloc: Global,
    shape: &Shape,
    full: Option<CallAnswer>,
) -> Result<(), Fail> {
    let (a, b) = (Name::new(b"A")?, Name::new(b"B")?);
    let order = Order::new(&[], Last::Fifo)?;
    let mut space = Space::new(alloc, shape, 1, 8);
    with_queue(alloc, &mut space, a, order)?;
    make(
        alloc,
        &mut space,
        SpaceMove::PutQueue(1, definition(b, order)),
    )?;
    enqueues(rt, alloc, &mut space, a, (b"x", 0), granted(0))?;
    enqueues(rt, alloc, &mut space, a, (b"y", 1), granted(1))?;
    replace(rt, alloc, &mut space, change(0, 0, 9))?;
    enqueues(rt, alloc, &mut space, a, (b"z", 2), full)?;
    dequeues(rt, alloc, &mut space, a, (b"y", 1))?;
    replace(rt, alloc, &mut space, change(0, 1, 9))?;
    refuses(rt, alloc, &mut space, a, CallAnswer::NoMessage)?;
    dequeues(rt, alloc, &mut space, b, (b"x", 0))?;
    Ok(())
}

#[test]
fn replacements(rt: HostRuntime) -> Result<(), Fail> {
    let alloc = rt.alloc();
    let messages = no_space(Resource::Messages, 1, 2, 2);
    replaced(&rt, alloc, &shape(64, 2), messages)?;
    let pages = no_space(Resource::Pages, 1, 2, 2);
    replaced(&rt, alloc, &shape(43, 3), pages)
}

/// A plan that puts a queue and an entry.
fn queue_with_entry(
    alloc: Global,
    index: u16,
    def: QueueDef,
    entry: Entry,
) -> Result<Plan, AllocError>
    ensures purge { IfOk result (λ plan. plan.purge ≡ []) }
    ensures moves { IfOk result (λ plan. plan.moves ≡ SpaceMove.PutQueue index def ∷ SpaceMove.Insert entry ∷ []) }
{
    let mut moves = Moves::new(alloc);
    moves.push(SpaceMove::PutQueue(index, def))?;
    moves.push(SpaceMove::Insert(entry))?;
    Ok(Plan {
        purge: Purge::new(alloc),
        moves,
        answer: None,
    })
}

#[test]
fn queues(rt: HostRuntime) -> Result<(), Fail> {
    let alloc = rt.alloc();
    let (a, b) = (Name::new(b"A")?, Name::new(b"B")?);
    let order = Order::new(&[], Last::Fifo)?;
    let mut space = Space::new(alloc, &shape(64, 2), 1, 8);
    let first = entry(alloc, 3, b"x", 0)?;
    let plan = queue_with_entry(alloc, 3, definition(a, order), first)?;
    space.reserve(&plan)?;
    space.apply(plan);
    make(
        alloc,
        &mut space,
        SpaceMove::PutQueue(3, definition(b, order)),
    )?;
    assert_eq!(rt; space.queue_index(&a), None);
    assert_eq!(rt; space.queue_index(&b), Some(3));
    assert_eq!(rt; space.body(&id(0))?, Some(Body::new(alloc, b"x")?));
    put_and_drop(&rt, alloc, &mut space, 2, definition(a, order))?;
    assert_eq!(rt; space.queue_index(&b), Some(3));
    make(alloc, &mut space, SpaceMove::Remove(id(0)))?;
    assert_eq!(rt; dequeue(alloc, &mut space, b)?, Some(CallAnswer::NoMessage));
    Ok(())
}
