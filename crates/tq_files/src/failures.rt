//! Why the first failed call on each part of the outside failed.
ghost use Rattle.std.specs.Prelude.{◌≡◌};
ghost use Rattle.tq_files.specs.Failures.{none_failed, with_failure};

use crate::part::Part;
use std::io;

/// Why a call on a device failed.
#[derive(Clone, Copy, Drop)]
pub struct DeviceFailure {
    pub dev: u8,
    pub error: io::Error,
}

/// The first failed call on each part.
#[derive(Clone, Copy, Drop)]
pub struct FirstFailures {
    pub device: Option<DeviceFailure>,
    pub input: Option<io::Error>,
    pub output: Option<io::Error>,
}

impl FirstFailures {
    /// No call failed.
    pub fn none() -> FirstFailures
        ensures { result ≡ none_failed }
    {
        FirstFailures {
            device: None,
            input: None,
            output: None,
        }
    }

    /// Keeps why a call on this part failed, where none on it failed before.
    pub fn keep(&mut self, part: Part, error: io::Error)
        ensures { self.new ≡ with_failure part error self.old }
    {
        match part {
            Part::Device(dev) => {
                self.device = self.device.or(Some(DeviceFailure { dev, error }));
            }
            Part::Input => self.input = self.input.or(Some(error)),
            Part::Output => self.output = self.output.or(Some(error)),
        }
    }
}
