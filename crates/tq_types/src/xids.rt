ghost use Rattle.std.specs.Prelude.{◌≡◌, ◌≤◌, length, MatchResult};
ghost use Rattle.tq_types.specs.BadXId.{IsXIdFault};
ghost use Rattle.tq_types.specs.XId.{IsXId};

use std::marker::Model;
use thiserror::Error;

/// A part of a transaction identifier: up to 64 bytes.
#[derive(Clone, Copy, Debug)]
struct Part {
    bytes: [u8; 64],
    len: u8,
}

impl Model for Part {
    ghost use Rattle.std.specs.Prelude.{ℕ, List, take, length, ◌++◌, ◌-◌, replicate};
    ghost use Rattle.tq_types.specs.Padded.{IsPadded, unpadded};

    ghost Value = { List ℕ };

    ghost view = { λ a. take a.len a.bytes };

    ghost invariant = { λ a. IsPadded 64 0 a.len a.bytes };

    ghost inverse = { λ list. record { bytes = list ++ replicate (64 - length list) 0; len = length list } };

    ghost inverse_ok = { λ a h. unpadded 64 0 a.len a.bytes h (λ n b. record { bytes = b; len = n }) };
}

impl Part {
    fn new(bytes: &[u8]) -> Part
        requires { length bytes.now ≤ 64 }
        ensures { result ≡ bytes.now }
    {
        let mut all = [0; 64];
        all[..bytes.len()].copy_from_slice(bytes);
        Part {
            bytes: all,
            len: bytes.len() as u8,
        }
    }

    fn as_bytes(&self) -> &[u8]
        ensures { result.now ≡ self.now }
    {
        &self.bytes[..self.len as usize]
    }
}

impl PartialEq for Part {
    ghost use Rattle.std.specs.Str.{bytes_eq};
    ghost use Rattle.std.specs.Cmp.{partial_equiv_from_equiv};
    ghost use Rattle.std.specs.Cmp.Lexicographic.{nat_list_eq_equiv};

    ghost eq = { bytes_eq };

    ghost laws = { partial_equiv_from_equiv nat_list_eq_equiv };

    fn eq(&self, other: &Part) -> bool {
        self.as_bytes() == other.as_bytes()
    }
}

impl Eq for Part {
    ghost use Rattle.std.specs.Cmp.Lexicographic.{nat_list_eq_equiv};

    ghost laws = { nat_list_eq_equiv };
}

/// The name of a transaction branch: a format, and a global transaction and a branch qualifier of 1
/// to 64 bytes each.
#[derive(Clone, Copy, Debug, PartialEq, Eq)]
pub struct XId {
    format: u32,
    gtrid: Part,
    bqual: Part,
}

impl Model for XId {
    ghost use Rattle.tq_types.specs.XId.{XIdValue, IsXId};

    ghost Value = { XIdValue };

    ghost view = { λ a. record { format = a.format; gtrid = a.gtrid; bqual = a.bqual } };

    ghost invariant = { λ a. IsXId a.format a.gtrid a.bqual };

    ghost inverse = { λ xid. record { format = xid.format; gtrid = xid.gtrid; bqual = xid.bqual } };
}

/// Why three parts are no transaction identifier; the first cause of this order.
#[derive(Clone, Copy, Debug, PartialEq, Eq, Error)]
pub enum BadXId {
    /// The format is above 2,147,483,647.
    #[error("the format is above 2147483647")]
    Format,
    /// The length of the global transaction identifier, which is not 1 to 64.
    #[error("a global transaction identifier has 1 to 64 bytes, not {0}")]
    Gtrid(usize),
    /// The length of the branch qualifier, which is not 1 to 64.
    #[error("a branch qualifier has 1 to 64 bytes, not {0}")]
    Bqual(usize),
}

impl XId {
    /// The identifier of these parts.
    ///
    /// # Errors
    /// `Format` exactly where the format is above 2,147,483,647; else `Gtrid`, else `Bqual`, with the
    /// length, exactly where it is not 1 to 64.
    pub fn new(format: u32, gtrid: &[u8], bqual: &[u8]) -> Result<XId, BadXId>
        ensures { MatchResult result
            (λ xid. (xid.format ≡ format) × (xid.gtrid ≡ gtrid.now) × (xid.bqual ≡ bqual.now) × IsXId format gtrid.now bqual.now)
            (IsXIdFault format gtrid.now bqual.now) }
    {
        if format > 2_147_483_647 {
            return Err(BadXId::Format);
        }
        if gtrid.is_empty() || gtrid.len() > 64 {
            return Err(BadXId::Gtrid(gtrid.len()));
        }
        if bqual.is_empty() || bqual.len() > 64 {
            return Err(BadXId::Bqual(bqual.len()));
        }
        Ok(XId {
            format,
            gtrid: Part::new(gtrid),
            bqual: Part::new(bqual),
        })
    }

    /// The format, 0 to 2,147,483,647.
    pub fn format(&self) -> u32
        ensures format { result ≡ self.now.format }
        ensures most { result ≤ 2147483647 }
    {
        self.format
    }

    /// The global transaction identifier, 1 to 64 bytes.
    pub fn gtrid(&self) -> &[u8]
        ensures bytes { result.now ≡ self.now.gtrid }
        ensures least { 1 ≤ length result.now }
        ensures most { length result.now ≤ 64 }
    {
        self.gtrid.as_bytes()
    }

    /// The branch qualifier, 1 to 64 bytes.
    pub fn bqual(&self) -> &[u8]
        ensures bytes { result.now ≡ self.now.bqual }
        ensures least { 1 ≤ length result.now }
        ensures most { length result.now ≤ 64 }
    {
        self.bqual.as_bytes()
    }
}

/// The answer of an XA call.
#[derive(Clone, Copy, Debug, PartialEq, Eq)]
pub enum XaCode {
    Ok,
    RdOnly,
    HeurCom,
    HeurRb,
    Nota,
    DupId,
    Proto,
    RmFail,
}
