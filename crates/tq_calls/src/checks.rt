// Words are checked, or there is a first reason against them.

ghost use Rattle.std.specs.Prelude.{◌≡◌};
ghost use Rattle.tq_model.specs.CallChecks.{enqueue_checked, dequeue_checked};

use tq_model::{
    CallRefusal, DequeueCall, DequeueWords, EnqueueCall, EnqueueWords, LONGEST_BODY, Place,
};
use tq_types::AskedQos;

/// The call that the words of an enqueue make at this clock, in seconds: the message is available at
/// once, never expires, and has priority 50. The body and the flags are moved into the call.
///
/// # Errors
/// `TooLarge` with the length of the body where it has more than 65,536 bytes; the words are dropped.
pub fn check_enqueue(words: EnqueueWords, clock: u64) -> Result<EnqueueCall, CallRefusal>
    ensures { result ≡ enqueue_checked words clock }
{
    let size = words.body.len();
    if size > LONGEST_BODY {
        return Err(CallRefusal::TooLarge(size as u64));
    }
    let want_id = words.flags.wants_id();
    Ok(EnqueueCall {
        space: words.space,
        queue: words.queue,
        notran: false,
        want_id,
        place: Place::Plain,
        priority: 50,
        available: clock,
        expiration: None,
        corr: None,
        replyq: None,
        failq: None,
        qos: AskedQos::Default,
        reply_qos: AskedQos::Default,
        body: words.body,
    })
}

/// The call that the words of a dequeue make: it takes the first message that is available. The flags
/// are moved into the call. No words of a dequeue are refused.
pub fn check_dequeue(words: DequeueWords) -> Result<DequeueCall, CallRefusal>
    ensures { result ≡ dequeue_checked words }
{
    Ok(DequeueCall {
        space: words.space,
        queue: words.queue,
        notran: false,
        peek: false,
        id: None,
        corr: None,
        asked: words.flags,
    })
}
