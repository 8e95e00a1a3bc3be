ghost use Rattle.std.specs.Prelude.{◌≡◌, ◌≤◌, ◌<◌, ◌⊎◌, MatchResult};

use std::marker::Model;
use thiserror::Error;

/// A moment, in whole seconds since 1970-01-01T00:00:00Z: 0 to 253,402,300,799, which is
/// 9999-12-31T23:59:59Z.
#[derive(Clone, Copy, Debug, PartialEq, Eq, PartialOrd, Ord)]
pub struct Moment {
    seconds: u64,
}

impl Model for Moment {
    ghost use Rattle.std.specs.Prelude.{ℕ, ◌≤◌};

    ghost Value = { ℕ };

    ghost view = { λ a. a.seconds };

    ghost invariant = { λ a. a.seconds ≤ 253402300799 };

    ghost inverse = { λ n. record { seconds = n } };
}

/// A number of seconds past the last moment.
#[derive(Clone, Copy, Debug, PartialEq, Eq, Error)]
#[error("the moment {seconds} is past the year 9999")]
pub struct BadMoment {
    pub seconds: u64,
}

impl Moment {
    /// The last moment, in seconds.
    pub const LAST: u64 = 253_402_300_799;

    /// The moment of so many seconds; refused with the number exactly where it is past the last.
    pub fn new(n: u64) -> Result<Moment, BadMoment>
        ensures { MatchResult result (λ moment. (moment ≡ n) × (n ≤ 253402300799)) (λ bad. (bad.seconds ≡ n) × (253402300799 < n)) }
    {
        if n > Moment::LAST {
            return Err(BadMoment { seconds: n });
        }
        Ok(Moment { seconds: n })
    }

    /// The seconds since 1970-01-01T00:00:00Z.
    pub fn seconds(self) -> u64
        ensures seconds { result ≡ self }
        ensures most { result ≤ 253402300799 }
    {
        self.seconds
    }
}

/// The priority of a message, 1 to 100; the higher goes first.
#[derive(Clone, Copy, Debug, PartialEq, Eq, PartialOrd, Ord)]
pub struct Priority {
    level: u8,
}

impl Model for Priority {
    ghost use Rattle.std.specs.Prelude.{ℕ, ◌≤◌};

    ghost Value = { ℕ };

    ghost view = { λ a. a.level };

    ghost invariant = { λ a. (1 ≤ a.level) × (a.level ≤ 100) };

    ghost inverse = { λ n. record { level = n } };
}

/// A number that is no priority.
#[derive(Clone, Copy, Debug, PartialEq, Eq, Error)]
#[error("a priority is 1 to 100, not {level}")]
pub struct BadPriority {
    pub level: u64,
}

impl Priority {
    /// The priority of this number; refused with the number exactly where it is not 1 to 100.
    pub fn new(n: u64) -> Result<Priority, BadPriority>
        ensures { MatchResult result (λ priority. (priority ≡ n) × (1 ≤ n) × (n ≤ 100)) (λ bad. (bad.level ≡ n) × ((n < 1) ⊎ (100 < n))) }
    {
        if n == 0 || n > 100 {
            return Err(BadPriority { level: n });
        }
        Ok(Priority { level: n as u8 })
    }

    /// The number, 1 to 100.
    pub fn level(self) -> u8
        ensures level { result ≡ self }
        ensures least { 1 ≤ result }
        ensures most { result ≤ 100 }
    {
        self.level
    }
}
