//! The site in memory and on its device: a boot, what is asked of a device, new spaces, and the calls on
//! a space.
//!
//! The layer above uses `Manager`. A boot makes it of what the device stands for. Each of its methods is
//! the machine's step at Ok, with the answer and the site; at every stop inside it the devices stand for
//! the site before the step or for the one after it. After an `Err` nothing more is known than that: the
//! manager is to be let go, and a boot brings a site back.
#![tactic(auto)]

mod booting;
mod calls;
mod devices;
mod failure;
mod planning;
mod site;
mod spaces;

pub use failure::{BootFailure, Failure};
pub use planning::SpaceCall;
pub use site::Manager;
