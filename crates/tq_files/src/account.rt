//! The account of a host over files: the tally of its calls, and why the first on each part failed.
ghost use Rattle.std.specs.Prelude.{◌≡◌, Result, IfOk, OnOk, OnErr, Ok, is_some, nat_lt};
ghost use Rattle.tq_files.specs.Told.{fresh, ticked, failed, NoneFalls};

use crate::failures::FirstFailures;
use crate::part::Part;
use crate::tally::Tally;
use std::io;
use tq_host::Failed;

/// What is kept of the calls so far: their tally, and why the first failed one on each part failed.
#[derive(Drop)]
pub struct Account {
    pub tally: Tally,
    pub first: FirstFailures,
    pub ghost device_kept: { is_some first.device ≡ nat_lt 0 tally.device },
    pub ghost input_kept: { is_some first.input ≡ nat_lt 0 tally.input },
    pub ghost output_kept: { is_some first.output ≡ nat_lt 0 tally.output },
}

impl Account {
    ghost use Rattle.tq_files.specs.Failures.{first_after};

    /// No call was made.
    pub fn new() -> Account
        ensures { result.tally ≡ fresh }
    {
        Account {
            tally: Tally::new(),
            first: FirstFailures::none(),
        }
    }

    /// Counts a call on this part that came to this, and keeps its error where it is the first.
    pub fn count<T: Drop>(&mut self, part: Part, outcome: io::Result<T>) -> Result<T, Failed>
        ensures value { IfOk result (λ x. outcome ≡ Ok x) }
        ensures ok { OnOk result (self.new.tally ≡ ticked self.old.tally) }
        ensures err { OnErr result (self.new.tally ≡ failed part self.old.tally) }
        ensures grown { NoneFalls self.old.tally self.new.tally }
        ensures first { self.new.first ≡ first_after part outcome self.old.first }
    {
        match outcome {
            Ok(value) => {
                self.tally.tick();
                Ok(value)
            }
            Err(error) => {
                self.tally.raise(part);
                self.first.keep(part, error);
                Err(Failed)
            }
        }
    }
}
