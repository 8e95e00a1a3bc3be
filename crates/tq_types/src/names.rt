ghost use Rattle.std.specs.Prelude.{◌≡◌, ◌↔◌, IsTrue, MatchResult, length};
ghost use Rattle.tq_types.specs.Name.{IsName, is_allowed_at};
ghost use Rattle.tq_types.specs.BadName.{IsNameFault};

use std::cmp::Ordering;
use std::marker::Model;
use thiserror::Error;

/// The most bytes of a name.
pub const NAME_MOST: usize = 15;

/// The name of a queue, a space or a service: 1 to 15 letters, digits, `_`, `.` and `-`, the first
/// neither `-` nor `.`.
#[derive(Clone, Copy, Debug)]
pub struct Name {
    bytes: [u8; 15],
    len: u8,
}

impl Model for Name {
    ghost use Rattle.std.specs.Prelude.{ℕ, List, take, length, ◌++◌, ◌-◌, replicate};
    ghost use Rattle.tq_types.specs.Padded.{IsPadded, unpadded};
    ghost use Rattle.tq_types.specs.Name.{IsName};

    ghost Value = { List ℕ };

    ghost view = { λ a. take a.len a.bytes };

    ghost invariant = { λ a. IsPadded 15 0 a.len a.bytes × IsName (take a.len a.bytes) };

    ghost inverse = { λ text. record { bytes = text ++ replicate (15 - length text) 0; len = length text } };

    ghost inverse_ok = { λ a h. unpadded 15 0 a.len a.bytes h.0 (λ n b. record { bytes = b; len = n }) };
}

/// Why a text is no name.
#[derive(Clone, Copy, Debug, PartialEq, Eq, Error)]
pub enum BadName {
    /// The length, which is not 1 to 15.
    #[error("a name has 1 to 15 bytes, not {0}")]
    Length(usize),
    /// The first place, from 0, of a byte that is not allowed there.
    #[error("the byte at {0} is not allowed in a name")]
    Byte(usize),
}

/// Whether a name may hold this byte at this place, from 0.
fn is_allowed(at: usize, byte: u8) -> bool
    ensures { result ≡ is_allowed_at at byte }
{
    match byte {
        b'-' | b'.' => at != 0,
        _ => byte.is_ascii_alphanumeric() || byte == b'_',
    }
}

impl Name {
    /// The name with this text.
    ///
    /// # Errors
    /// `Length` exactly where the length is not 1 to 15, else `Byte` exactly where a byte is not
    /// allowed, with the first such place.
    pub fn new(text: &[u8]) -> Result<Name, BadName>
        ensures { MatchResult result (λ name. (name ≡ text.now) × IsName text.now) (IsNameFault text.now) }
    {
        if text.is_empty() || text.len() > NAME_MOST {
            return Err(BadName::Length(text.len()));
        }
        for (at, byte) in text.iter().enumerate() {
            if !is_allowed(at, *byte) {
                return Err(BadName::Byte(at));
            }
        }
        let mut bytes = [0; 15];
        bytes[..text.len()].copy_from_slice(text);
        Ok(Name {
            bytes,
            len: text.len() as u8,
        })
    }

    /// The bytes of the name.
    pub fn as_bytes(&self) -> &[u8]
        ensures bytes { result.now ≡ self.now }
        ensures name { IsName self.now }
    {
        &self.bytes[..self.len as usize]
    }
}

impl PartialEq for Name {
    ghost use Rattle.std.specs.Str.{bytes_eq};
    ghost use Rattle.std.specs.Cmp.{partial_equiv_from_equiv};
    ghost use Rattle.std.specs.Cmp.Lexicographic.{nat_list_eq_equiv};

    ghost eq = { bytes_eq };

    ghost laws = { partial_equiv_from_equiv nat_list_eq_equiv };

    fn eq(&self, other: &Name) -> bool {
        self.as_bytes() == other.as_bytes()
    }
}

impl Eq for Name {
    ghost use Rattle.std.specs.Cmp.Lexicographic.{nat_list_eq_equiv};

    ghost laws = { nat_list_eq_equiv };
}

impl PartialOrd for Name {
    ghost use Rattle.std.specs.Prelude.{Some};
    ghost use Rattle.std.specs.Ordering.{nat_cmp};
    ghost use Rattle.std.specs.Cmp.Lexicographic.{slice_cmp, texts_po};

    ghost partial_cmp = { λ a b. Some (slice_cmp nat_cmp a b) };

    ghost laws = { texts_po };

    fn partial_cmp(&self, other: &Name) -> Option<Ordering> {
        Some(self.cmp(other))
    }
}

impl Ord for Name {
    ghost use Rattle.std.specs.Prelude.{refl};
    ghost use Rattle.std.specs.Ordering.{nat_cmp};
    ghost use Rattle.std.specs.Cmp.Lexicographic.{slice_cmp, nat_list_cmp_total, texts_ties};

    ghost cmp = { slice_cmp nat_cmp };

    ghost total = { nat_list_cmp_total };

    ghost matches_partial_cmp = { λ _ _. refl };

    ghost matches_eq = { texts_ties };

    fn cmp(&self, other: &Name) -> Ordering {
        self.as_bytes().cmp(other.as_bytes())
    }
}
