ghost use Rattle.std.specs.Prelude.{◌≡◌, ◌≤◌, ◌+◌, ◌*◌};
ghost use Rattle.tq_model.specs.Space.{divided_up, overhead_pages};
ghost use Rattle.tq_model.specs.Room.{pages_for, pages_at};

use crate::space::Shape;
use tq_types::Qos;

/// The pages of a space that are not for messages.
pub fn overhead_pages(shape: &Shape) -> u64
    ensures { result ≡ overhead_pages shape.now }
{
    overhead_for(shape.queues, shape.messages, shape.transactions)
}

fn overhead_for(queues: u16, messages: u16, transactions: u16) -> u64
    ensures { result ≡ 1 + 2 * (divided_up (64 + 512 * queues + 64 * messages + 160 * transactions) 1024 + (16 + divided_up (72 * messages) 1024)) }
{
    let slots = 64
        + 512 * u64::from(queues)
        + 64 * u64::from(messages)
        + 160 * u64::from(transactions);
    let log = 72 * u64::from(messages);
    1 + 2 * ((slots + 1023) / 1024 + (16 + (log + 1023) / 1024))
}

/// The pages of a message with a body of `n` bytes.
pub fn pages_for(n: usize) -> u64
    ensures pages { result ≡ pages_for n }
    ensures most { n ≤ 65536 → result ≤ 65 }
{
    let n = n as u64;
    n / 1016 + (n % 1016 + 1271) / 1016
}

/// The pages that a message with a body of `n` bytes takes: none where it is not persistent.
pub fn message_pages(qos: Qos, n: usize) -> u64
    ensures pages { result ≡ pages_at qos n }
    ensures most { n ≤ 65536 → result ≤ 65 }
{
    match qos {
        Qos::Persistent => pages_for(n),
        Qos::NonPersistent => 0,
    }
}
