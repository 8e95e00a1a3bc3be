//! Where a space lies.

ghost use Rattle.std.specs.Prelude.{◌≡◌, ◌≤◌, ◌+◌, ◌*◌};
ghost use Rattle.tq_extent.specs.Bytes.{byte_count};
ghost use Rattle.tq_model.specs.Space.{divided_up, log_pages, slot_pages};
ghost use Rattle.tq_store.specs.Place.{log_layout};

use tq_extent::PageMap;
use tq_gate::{Areas, Layout};
use tq_model::Shape;

/// The byte of a space's first page that chooses one of the areas of its log.
const SELECTOR: u64 = 512;

/// Where a space lies, and what its messages are named by.
#[derive(Clone, Copy, Debug, PartialEq, Eq)]
pub struct SpacePlace {
    pub dev: u8,
    /// All pages of the space, 1 to 262,016.
    pub pages: u32,
    /// The site's number.
    pub site: u32,
    /// The space's number.
    pub number: u32,
}

/// The pages of one copy of so many slots.
fn pages_of_slots(queues: u16, messages: u16, transactions: u16) -> u32
    ensures { result ≡ divided_up (64 + 512 * queues + 64 * messages + 160 * transactions) 1024 }
{
    let bytes = 64
        + 512 * u32::from(queues)
        + 64 * u32::from(messages)
        + 160 * u32::from(transactions);
    (bytes + 1023) / 1024
}

/// The pages of one copy of the slots.
pub(crate) fn slot_pages(shape: &Shape) -> u32
    ensures { result ≡ slot_pages shape.now }
{
    pages_of_slots(shape.queues, shape.messages, shape.transactions)
}

/// The pages of one copy of a log for so many messages.
fn pages_of_log(messages: u16) -> u32
    ensures { result ≡ 16 + divided_up (72 * messages) 1024 }
{
    16 + (72 * u32::from(messages) + 1023) / 1024
}

/// The pages of one copy of the log.
pub(crate) fn log_pages(shape: &Shape) -> u32
    ensures { result ≡ log_pages shape.now }
{
    pages_of_log(shape.messages)
}

impl SpacePlace {
    /// Where the log of the space lies, which has the clusters of this map and this creation: behind
    /// its first page, an area twice.
    pub(crate) fn log_layout(&self, map: PageMap, shape: &Shape) -> Layout
        ensures layout { result ≡ log_layout self.now shape.now map }
        ensures size { byte_count map ≤ 268435456 }
    {
        // No owner has more pages than the largest device.
        let owned = map.pages();
        prove!(owned <= 262_144);
        Layout {
            dev: self.dev,
            map,
            areas: Areas::Two { selector: SELECTOR },
            first: 1,
            base_pages: slot_pages(shape),
            log_pages: log_pages(shape),
        }
    }
}
