//! The values of the queue component: names, moments, priorities, orders, identifiers, labels and
//! messages. Each constructor refuses exactly what is out of its range.
//!
//! The layer above uses the types, and `compare`, which is the label order.
#![tactic(auto)]

mod bodies;
mod identifiers;
mod labels;
mod messages;
mod names;
mod numbers;
mod orders;
mod paths;
mod rooms;
mod texts;
mod xids;

pub use bodies::Body;
pub use identifiers::{Arrival, CorrId, MsgId};
pub use labels::{Label, Root, compare};
pub use messages::{AskedQos, Entry, Mark, Message, Qos};
pub use names::{BadName, NAME_MOST, Name};
pub use numbers::{BadMoment, BadPriority, Moment, Priority};
pub use orders::{BadOrder, Criterion, Last, Order};
pub use paths::{PATH_MOST, Path};
pub use rooms::{Lack, Resource};
pub use texts::plain_run;
pub use xids::{BadXId, XId, XaCode};
