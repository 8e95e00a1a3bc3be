ghost use Rattle.std.specs.Prelude.{◌≡◌, ◌≢◌, ℕ, ◌≤◌, ◌<◌, ◌^◌, MatchOption, IfSome};

use byteorder::{BigEndian, ByteOrder};

/// When a message came: the site's epoch and the number in it, compared in this order.
#[derive(Clone, Copy, Debug, PartialEq, Eq, PartialOrd, Ord)]
pub struct Arrival {
    pub epoch: u32,
    pub number: u32,
}

/// A message identifier, written `site.space.epoch.number`.
#[derive(Clone, Copy, Debug, PartialEq, Eq, PartialOrd, Ord)]
pub struct MsgId {
    pub site: u32,
    pub space: u32,
    pub epoch: u32,
    pub number: u32,
}

/// A correlation identifier of 32 bytes.
#[derive(Clone, Copy, Debug, PartialEq, Eq, PartialOrd, Ord)]
pub struct CorrId {
    pub bytes: [u8; 32],
}

impl MsgId {
    ghost use Rattle.tq_types.specs.MsgId.{id_bytes, id_at, HasZerosAfter, HasOtherAfter};

    /// The 32 bytes of the identifier: its four numbers of 4 bytes, the highest byte first, and 16
    /// zero bytes.
    pub fn to_bytes(&self) -> [u8; 32]
        ensures bytes { result ≡ id_bytes self.now }
        // `from_bytes` gives the identifier back
        ensures zeros { HasZerosAfter 16 result }
        ensures back { id_at result ≡ self.now }
    {
        MsgId::written(self.site, self.space, self.epoch, self.number)
    }

    fn written(site: u32, space: u32, epoch: u32, number: u32) -> [u8; 32]
        ensures bytes { result ≡ id_bytes (record { site = site; space = space; epoch = epoch; number = number }) }
        ensures fits { (site < 2 ^ 32) × (space < 2 ^ 32) × (epoch < 2 ^ 32) × (number < 2 ^ 32) }
    {
        let mut bytes = [0; 32];
        BigEndian::write_u32(&mut bytes, site);
        BigEndian::write_u32(&mut bytes[4..], space);
        BigEndian::write_u32(&mut bytes[8..], epoch);
        BigEndian::write_u32(&mut bytes[12..], number);
        bytes
    }

    /// The identifier that has these bytes: `None` exactly where one of the last 16 is not 0.
    pub fn from_bytes(bytes: &[u8; 32]) -> Option<MsgId>
        ensures which { MatchOption result (HasOtherAfter 16 bytes.now) (λ id. HasZerosAfter 16 bytes.now × (id ≡ id_at bytes.now)) }
        // `to_bytes` gives the bytes back
        ensures back { IfSome result (λ id. id_bytes id ≡ bytes.now) }
    {
        for at in 16..32 {
            if bytes[at] != 0 {
                return None;
            }
        }
        Some(MsgId::read(bytes))
    }

    fn read(bytes: &[u8; 32]) -> MsgId
        ensures { result ≡ id_at bytes.now }
    {
        MsgId {
            site: BigEndian::read_u32(bytes),
            space: BigEndian::read_u32(&bytes[4..]),
            epoch: BigEndian::read_u32(&bytes[8..]),
            number: BigEndian::read_u32(&bytes[12..]),
        }
    }

    /// When the message came.
    pub fn arrival(&self) -> Arrival
        ensures epoch { result.epoch ≡ self.now.epoch }
        ensures number { result.number ≡ self.now.number }
    {
        Arrival {
            epoch: self.epoch,
            number: self.number,
        }
    }
}
