//! The clock and the counts of failed calls.
ghost use Rattle.std.specs.Prelude.{◌≡◌};
ghost use Rattle.tq_files.specs.Told.{fresh, ticked, failed, NoneFalls};

use crate::part::Part;

/// The clock, and how many calls on each part failed. Each is at most 2^64 - 1.
#[derive(Clone, Copy, Debug, PartialEq, Eq)]
pub struct Tally {
    pub clock: u64,
    pub device: u64,
    pub input: u64,
    pub output: u64,
}

impl Tally {
    /// No call was made.
    pub fn new() -> Tally
        ensures { result ≡ fresh }
    {
        Tally {
            clock: 0,
            device: 0,
            input: 0,
            output: 0,
        }
    }

    /// One more call was made.
    pub fn tick(&mut self)
        ensures ticked { self.new ≡ ticked self.old }
        ensures grown { NoneFalls self.old self.new }
    {
        self.clock = self.clock.saturating_add(1);
    }

    /// One more call was made, one on this part, and failed.
    pub fn raise(&mut self, part: Part)
        ensures failed { self.new ≡ failed part self.old }
        ensures grown { NoneFalls self.old self.new }
    {
        self.tick();
        match part {
            Part::Device(_) => self.device = self.device.saturating_add(1),
            Part::Input => self.input = self.input.saturating_add(1),
            Part::Output => self.output = self.output.saturating_add(1),
        }
    }
}
