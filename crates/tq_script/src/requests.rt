ghost use Rattle.std.specs.Prelude.{◌≡◌, ◌<◌, ◌^◌, List, IfOk, IsSome, map};
ghost use Rattle.tq_model.specs.Grammar as grammar;
ghost use Rattle.tq_model.specs.Grammar.{dequeue_words, enqueue_words, line_request, request_of, row_of, scan, scanned, space_creation, space_keys};
ghost use Rattle.tq_script.specs.Cutting.{words_of};
ghost use Rattle.tq_script.specs.Kinds.{AreOfKinds, AreOfRows};
ghost use Rattle.tq_script.specs.Rows.{given_of};

use crate::cutting::{LONGEST_LINE, Words};
use crate::given::{
    Given, error_given, flags_in, number_given, optional_number_given, take_given, text_in,
    yes_given,
};
use crate::reading::read_words;
use crate::table::verb_named;
use crate::unread::Unread;
use std::alloc::{AllocError, Global};
use tq_model::{
    CallRequest, Creation, DequeueWords, DeviceRequest, EnqueueWords, Key, QueueCreation, Request,
    SpaceCreation, SpaceRemoval, SpaceRequest, Value, Verb,
};
use tq_types::Name;

/// What the line asks for, its end left out: Nothing where it is empty or a comment, TooLong where
/// it has more than 262,144 bytes, Bad with the column of what does not fit.
pub fn parse(alloc: Global, line: &[u8]) -> Result<Request, AllocError>
    ensures { IfOk result (λ request. request ≡ line_request line.now) }
{
    if line.len() > LONGEST_LINE {
        return Ok(Request::TooLong);
    }
    let Some((word, rest)) = Words::of_line(line).split_first() else {
        return Ok(Request::Nothing);
    };
    if word.bytes.first() == Some(&b'#') {
        return Ok(Request::Nothing);
    }
    match verb_named(word.bytes) {
        Some(verb) => verb_request(alloc, line.len() as u64, verb, rest),
        None => Ok(Request::Bad(word.column)),
    }
}

/// What the words behind a verb ask for, in a line of so many bytes.
fn verb_request(
    alloc: Global,
    size: u64,
    verb: Verb,
    words: Words<'_>,
) -> Result<Request, AllocError>
    requires { size < 2 ^ 63 }
    ensures { IfOk result (λ request. request ≡ scanned size verb
        (scan (row_of verb).positional (row_of verb).keyed (words_of words.entry.column words.entry.rest.now))) }
{
    match read_words(alloc, verb, words) {
        Ok((values, given)) => Ok(request_of(alloc, verb, &values, given).unwrap()),
        Err(Unread::Misfit(column)) => Ok(Request::Bad(column)),
        Err(Unread::Missing) => Ok(Request::Bad(size + 1)),
        Err(Unread::Memory) => Err(AllocError),
    }
}

/// What a verb with these values asks for. There is a request, since they are of the verb's row.
fn request_of(alloc: Global, verb: Verb, values: &[Value], given: Vec<Given>) -> Option<Request>
    requires values { AreOfKinds (row_of verb).positional values.now }
    requires given { AreOfRows (row_of verb).keyed (map given_of given.items) }
    ensures request { result ≡ request_of verb values.now (map given_of given.items) }
    ensures some { IsSome result }
{
    match verb {
        Verb::Boot => Some(Request::Boot),
        Verb::CreateDevice => create_device(values, &given),
        Verb::EraseDevice => erase_device(values),
        Verb::ListDevice => list_device(values),
        Verb::CreateSpace => create_space(values, &given),
        Verb::RemoveSpace => remove_space(values, &given),
        Verb::CreateQueue => create_queue(values),
        Verb::Enqueue => enqueue(alloc, values, given),
        Verb::Dequeue => dequeue(alloc, values, given),
    }
}

fn create_device(values: &[Value], given: &[Given]) -> Option<Request>
    requires { AreOfKinds (row_of Verb.CreateDevice).positional values.now }
    ensures { result ≡ request_of Verb.CreateDevice values.now (map given_of given.now) }
{
    let [Value::Number(dev), Value::Number(clusters)] = values else {
        return None;
    };
    Some(Request::Device(DeviceRequest::Create(Creation {
        dev: *dev as u8,
        clusters: *clusters,
        site: optional_number_given(Key::Site, given)?,
    })))
}

fn erase_device(values: &[Value]) -> Option<Request>
    requires { AreOfKinds (row_of Verb.EraseDevice).positional values.now }
    ensures { (given : List grammar.Given) → result ≡ request_of Verb.EraseDevice values.now given }
{
    let [Value::Number(dev)] = values else {
        return None;
    };
    Some(Request::Device(DeviceRequest::Erase(*dev as u8)))
}

fn list_device(values: &[Value]) -> Option<Request>
    requires { AreOfKinds (row_of Verb.ListDevice).positional values.now }
    ensures { (given : List grammar.Given) → result ≡ request_of Verb.ListDevice values.now given }
{
    let [Value::Number(dev)] = values else {
        return None;
    };
    Some(Request::Device(DeviceRequest::List(*dev as u8)))
}

fn create_space(values: &[Value], given: &[Given]) -> Option<Request>
    requires { AreOfRows space_keys (map given_of given.now) }
    ensures { result ≡ request_of Verb.CreateSpace values.now (map given_of given.now) }
{
    let [Value::Name(name)] = values else {
        return None;
    };
    let creation = space_creation(*name, given)?;
    Some(Request::Space(SpaceRequest::Create(creation)))
}

fn space_creation(name: Name, given: &[Given]) -> Option<SpaceCreation>
    requires { AreOfRows space_keys (map given_of given.now) }
    ensures { result ≡ space_creation name (map given_of given.now) }
{
    Some(SpaceCreation {
        name,
        dev: number_given(Key::Dev, given)? as u8,
        pages: number_given(Key::Pages, given)?,
        queues: number_given(Key::Queues, given)?,
        transactions: number_given(Key::Transactions, given)?,
        messages: number_given(Key::Messages, given)?,
        error: error_given(Key::Error, given)?,
        memory: number_given(Key::Memory, given)?,
    })
}

fn remove_space(values: &[Value], given: &[Given]) -> Option<Request>
    ensures { result ≡ request_of Verb.RemoveSpace values.now (map given_of given.now) }
{
    let [Value::Name(space)] = values else {
        return None;
    };
    Some(Request::Space(SpaceRequest::Remove(SpaceRemoval {
        space: *space,
        force: yes_given(Key::Force, given)?,
    })))
}

fn create_queue(values: &[Value]) -> Option<Request>
    ensures { (given : List grammar.Given) → result ≡ request_of Verb.CreateQueue values.now given }
{
    let [Value::Name(space), Value::Name(queue)] = values else {
        return None;
    };
    Some(Request::Space(SpaceRequest::CreateQueue(QueueCreation {
        space: *space,
        queue: *queue,
    })))
}

fn enqueue(alloc: Global, values: &[Value], given: Vec<Given>) -> Option<Request>
    requires { AreOfKinds (row_of Verb.Enqueue).positional values.now }
    ensures { result ≡ request_of Verb.Enqueue values.now (map given_of given.items) }
{
    let [
        Value::Number(session),
        Value::Name(space),
        Value::Name(queue),
    ] = values
    else {
        return None;
    };
    let words = enqueue_words(alloc, *space, *queue, given)?;
    Some(Request::Call(CallRequest::Enqueue(*session as u8, words)))
}

fn enqueue_words(alloc: Global, space: Name, queue: Name, given: Vec<Given>) -> Option<EnqueueWords>
    ensures { result ≡ enqueue_words space queue (map given_of given.items) }
{
    let mut given = given;
    let flags = flags_in(alloc, take_given(Key::Flags, &mut given))?;
    let body = text_in(take_given(Key::Data, &mut given))?;
    Some(EnqueueWords {
        space,
        queue,
        flags,
        body,
    })
}

fn dequeue(alloc: Global, values: &[Value], given: Vec<Given>) -> Option<Request>
    requires { AreOfKinds (row_of Verb.Dequeue).positional values.now }
    ensures { result ≡ request_of Verb.Dequeue values.now (map given_of given.items) }
{
    let [
        Value::Number(session),
        Value::Name(space),
        Value::Name(queue),
    ] = values
    else {
        return None;
    };
    let words = dequeue_words(alloc, *space, *queue, given)?;
    Some(Request::Call(CallRequest::Dequeue(*session as u8, words)))
}

fn dequeue_words(alloc: Global, space: Name, queue: Name, given: Vec<Given>) -> Option<DequeueWords>
    ensures { result ≡ dequeue_words space queue (map given_of given.items) }
{
    let mut given = given;
    Some(DequeueWords {
        space,
        queue,
        flags: flags_in(alloc, take_given(Key::Flags, &mut given))?,
    })
}
