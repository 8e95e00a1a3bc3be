ghost use Rattle.std.specs.Prelude.{◌≡◌};
ghost use Rattle.tq_host.specs.Counts.{no_faults, raised, NoneFalls};

/// The part of the outside that a call belongs to.
#[derive(Clone, Copy, Debug, PartialEq, Eq)]
pub enum Part {
    Devices,
    Input,
    Output,
}

/// How many calls on each part failed, each count at most 2^64 - 1.
#[derive(Clone, Copy, Debug, PartialEq, Eq)]
pub struct Counts {
    pub device: u64,
    pub input: u64,
    pub output: u64,
}

impl Counts {
    /// No call failed.
    pub fn none() -> Counts
        ensures { result ≡ no_faults }
    {
        Counts {
            device: 0,
            input: 0,
            output: 0,
        }
    }

    /// One more call on this part failed. A count at its last value stays there.
    pub fn raise(&mut self, part: Part)
        ensures raised { self.new ≡ raised part self.old }
        ensures grown { NoneFalls self.old self.new }
    {
        match part {
            Part::Devices => self.device = self.device.saturating_add(1),
            Part::Input => self.input = self.input.saturating_add(1),
            Part::Output => self.output = self.output.saturating_add(1),
        }
    }
}
