ghost use Rattle.std.specs.Prelude.{◌≡◌, ◌<◌, ◌≤◌, ◌++◌, ◌∷◌, [], length, MatchOption, IsTrue, ◌↔◌};

use crate::Arrival;
use std::marker::Model;

/// The most arrivals of a path.
pub const PATH_MOST: usize = 16;

/// The path of a label: 0 to 16 arrivals, the message's own last.
#[derive(Clone, Copy, Debug)]
pub struct Path {
    len: u8,
    arrivals: [Arrival; 16],
}

impl Model for Path {
    ghost use Rattle.std.specs.Prelude.{List, take, length, ◌++◌, ◌-◌, replicate};
    ghost use Rattle.tq_types.specs.declared.identifiers.Arrival.{Arrival};
    ghost use Rattle.tq_types.specs.Padded.{IsPadded, unpadded};
    ghost use Rattle.tq_types.specs.Path.{unset};

    ghost Value = { List Arrival };

    ghost view = { λ a. take a.len a.arrivals };

    ghost invariant = { λ a. IsPadded 16 unset a.len a.arrivals };

    ghost inverse = { λ path. record { len = length path; arrivals = path ++ replicate (16 - length path) unset } };

    ghost inverse_ok = { λ a h. unpadded 16 unset a.len a.arrivals h (λ n b. record { len = n; arrivals = b }) };
}

impl Path {
    /// The path of a message that is placed before no other.
    pub fn empty() -> Path
        ensures { result ≡ [] }
    {
        Path {
            len: 0,
            arrivals: [Arrival {
                epoch: 0,
                number: 0,
            }; 16],
        }
    }

    /// The path with one more arrival: `None` exactly where it has 16 already.
    pub fn with(&self, arrival: Arrival) -> Option<Path>
        ensures { MatchOption result (length self.now ≡ 16) (λ longer. (length self.now < 16) × (longer ≡ self.now ++ arrival ∷ [])) }
    {
        let len = self.len as usize;
        if len == PATH_MOST {
            return None;
        }
        let mut arrivals = self.arrivals;
        arrivals[len] = arrival;
        Some(Path {
            len: self.len + 1,
            arrivals,
        })
    }

    /// How many arrivals the path has, 0 to 16.
    pub fn len(&self) -> usize
        ensures { result ≡ length self.now }
    {
        self.len as usize
    }

    /// Whether the path has no arrival.
    pub fn is_empty(&self) -> bool
        ensures { IsTrue result ↔ (self.now ≡ []) }
    {
        self.len == 0
    }

    /// The arrivals, in their order.
    pub fn as_slice(&self) -> &[Arrival]
        ensures arrivals { result.now ≡ self.now }
        ensures most { length self.now ≤ 16 }
    {
        &self.arrivals[..self.len as usize]
    }
}

impl PartialEq for Path {
    ghost use Rattle.std.proofs.Common.{rules};
    ghost use Rattle.std.specs.Cmp.Lexicographic.{lists_per};
    ghost use Rattle.std.specs.Cmp.Rules.{comparing};
    ghost use Rattle.tq_types.specs.Path.{path_eq};

    ghost eq = { path_eq };

    ghost laws = { lists_per (Prim.search (comparing, rules)) };

    fn eq(&self, other: &Path) -> bool {
        self.as_slice() == other.as_slice()
    }
}

impl Eq for Path {
    ghost use Rattle.std.proofs.Common.{rules};
    ghost use Rattle.std.specs.Cmp.Lexicographic.{lists_equiv};
    ghost use Rattle.std.specs.Cmp.Rules.{comparing};

    ghost laws = { lists_equiv (Prim.search (comparing, rules)) };
}
