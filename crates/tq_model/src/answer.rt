ghost use Rattle.std.specs.Prelude.{◌≡◌, [], ◌∷◌, ◌++◌, OnOk, OnErr};

use crate::calls::CallAnswer;
use std::alloc::{AllocError, Global};
use std::marker::Model;
use tq_types::Name;

/// What a line is answered.
#[derive(Debug, PartialEq, Eq, Drop)]
pub enum Answer {
    /// `OK`
    Done,
    /// `SYNTAX`, with the column
    Syntax(u64),
    /// `TOOLONG`
    TooLong,
    /// `TPESYSTEM`
    SystemError,
    /// `READY`
    Ready(Readiness),
    /// `DAMAGED`, with the device
    Damaged(u8),
    /// `TPEINVAL`: the body has that many bytes, which is more than 65,536.
    Invalid(u64),
    /// `TPENOENT`: the space is not there.
    NoEntry,
    /// `LOGFULL`
    LogFull(LogRoom),
    Device(DeviceAnswer),
    Space(SpaceAnswer),
    Call(CallAnswer),
}

/// The bytes that a payload needs in the log of a space, and those that are free.
#[derive(Clone, Copy, Debug, PartialEq, Eq)]
pub struct LogRoom {
    pub need: u64,
    pub free: u64,
}

/// What a boot finds.
#[derive(Clone, Debug, PartialEq, Eq, Drop)]
pub struct Readiness {
    /// None while device 0 is blank.
    pub identity: Option<Identity>,
    pub spaces: u32,
    /// The number of branches in doubt.
    pub in_doubt: u32,
}

/// The site's number, 1 to 4,294,967,295, and its epoch, which each boot raises.
#[derive(Clone, Copy, Debug, PartialEq, Eq)]
pub struct Identity {
    pub site: u32,
    pub epoch: u32,
}

/// What a device answers.
#[derive(Debug, PartialEq, Eq, Drop)]
pub enum DeviceAnswer {
    /// `crdl` granted
    Created(Capacity),
    /// `lidl` granted
    Listed(Listing),
    /// `NODEVICE`: the number is not below that of the device words.
    NoDevice,
    /// `NOTCREATED`: the device is blank.
    NotCreated,
    /// `EXISTS`: the device is created already.
    Exists,
    /// `NOSITE`: device 0 is blank.
    NoSite,
    /// `NOTEMPTY`, with how many spaces the device has
    NotEmpty(u32),
    /// `SITEINUSE`, with how many other devices are created
    SiteInUse(u32),
    /// `RANGE`, with the first field that is out of its limit
    Range(Field),
}

/// The clusters of a device, and those of them that are free.
#[derive(Clone, Copy, Debug, PartialEq, Eq)]
pub struct Capacity {
    pub clusters: u32,
    pub free: u32,
}

/// What is said of a device.
#[derive(Debug, PartialEq, Eq, Drop)]
pub struct Listing {
    pub capacity: Capacity,
    pub spaces: SpaceLines,
}

/// What is said of a space in the listing of its device.
#[derive(Debug, PartialEq, Eq, Drop)]
pub struct SpaceLine {
    pub name: Name,
    pub number: u32,
    pub pages: u32,
    pub extents: Extents,
}

/// Clusters one behind another: the first, and how many.
#[derive(Clone, Copy, Debug, PartialEq, Eq)]
pub struct Extent {
    pub first: u32,
    pub count: u32,
}

/// Clusters, as a list of extents.
#[derive(Debug, Drop)]
pub struct Extents {
    items: Vec<Extent>,
}

impl Model for Extents {
    ghost use Rattle.std.specs.Prelude.{List};
    ghost use Rattle.tq_model.specs.declared.answer.Extent.{Extent};

    ghost Value = { List Extent };

    ghost view = { λ a. a.items.items };
}

impl Extents {
    /// No clusters.
    pub fn new(alloc: Global) -> Extents
        ensures { result ≡ [] }
    {
        Extents {
            items: Vec::new(alloc),
        }
    }

    /// Adds an extent behind the others. After an `Err` there is nothing added.
    pub fn push(&mut self, extent: Extent) -> Result<(), AllocError>
        ensures ok { OnOk result (self.new ≡ self.old ++ extent ∷ []) }
        ensures err { OnErr result (self.new ≡ self.old) }
    {
        self.items.push(extent)?;
        Ok(())
    }

    /// The extents.
    pub fn as_slice(&self) -> &[Extent]
        ensures { result.now ≡ self.now }
    {
        self.items.as_slice()
    }
}

impl PartialEq for Extents {
    ghost use Rattle.std.specs.Cmp.Lexicographic.{pointwise, lists_per};
    ghost use Rattle.tq_model.specs.contracts.answer.ExtentPartialEq.TheImpl.Laws.{laws-law};

    ghost eq = { pointwise ⟦<Extent as PartialEq>⟧.eq };

    ghost laws = { lists_per laws-law };

    fn eq(&self, other: &Extents) -> bool {
        self.as_slice() == other.as_slice()
    }
}

impl Eq for Extents {
    ghost use Rattle.std.specs.Cmp.Lexicographic.{lists_equiv};
    ghost use Rattle.tq_model.specs.contracts.answer.ExtentEq.TheImpl.Laws.{laws-law};

    ghost laws = { lists_equiv laws-law };
}

/// Lines on spaces, by their entries in the device's table.
#[derive(Debug, Drop)]
pub struct SpaceLines {
    items: Vec<SpaceLine>,
}

impl Model for SpaceLines {
    ghost use Rattle.std.specs.Prelude.{List};
    ghost use Rattle.tq_model.specs.declared.answer.SpaceLine.{SpaceLine};

    ghost Value = { List SpaceLine };

    ghost view = { λ a. a.items.items };
}

impl SpaceLines {
    /// No lines.
    pub fn new(alloc: Global) -> SpaceLines
        ensures { result ≡ [] }
    {
        SpaceLines {
            items: Vec::new(alloc),
        }
    }

    /// Adds a line behind the others. After an `Err` there is nothing added.
    pub fn push(&mut self, line: SpaceLine) -> Result<(), AllocError>
        ensures ok { OnOk result (self.new ≡ self.old ++ line ∷ []) }
        ensures err { OnErr result (self.new ≡ self.old) }
    {
        self.items.push(line)?;
        Ok(())
    }

    /// The lines.
    pub fn as_slice(&self) -> &[SpaceLine]
        ensures { result.now ≡ self.now }
    {
        self.items.as_slice()
    }
}

impl PartialEq for SpaceLines {
    ghost use Rattle.std.specs.Cmp.Lexicographic.{pointwise, lists_per};
    ghost use Rattle.tq_model.specs.contracts.answer.SpaceLinePartialEq.TheImpl.Laws.{laws-law};

    ghost eq = { pointwise ⟦<SpaceLine as PartialEq>⟧.eq };

    ghost laws = { lists_per laws-law };

    fn eq(&self, other: &SpaceLines) -> bool {
        self.as_slice() == other.as_slice()
    }
}

impl Eq for SpaceLines {
    ghost use Rattle.std.specs.Cmp.Lexicographic.{lists_equiv};
    ghost use Rattle.tq_model.specs.contracts.answer.SpaceLineEq.TheImpl.Laws.{laws-law};

    ghost laws = { lists_equiv laws-law };
}

/// What is answered of spaces and their queues, beside `OK` and what devices answer.
#[derive(Debug, PartialEq, Eq, Drop)]
pub enum SpaceAnswer {
    /// `qspacecreate` granted
    Created(NewSpace),
    /// `TAKEN`: the name is there already.
    Taken,
    /// `SMALL`: the pages are no more than the overhead.
    Small(SpacePages),
    /// `TABLEFULL`: the device takes no further space.
    TableFull,
    /// `LACK`: the device has fewer free clusters than the space needs.
    Lack(ClusterRoom),
    /// `QUEUEFULL`: the space has as many queues as its creation allows.
    QueueFull(u16),
    /// `BUSY`, with how many transactions count in the space
    Busy(u32),
    /// `NOTEMPTY`, with how many messages the space has
    NotEmpty(u64),
}

/// A space that was created.
#[derive(Clone, Copy, Debug, PartialEq, Eq)]
pub struct NewSpace {
    pub number: u32,
    pub pages: SpacePages,
}

/// The pages of a space, and those of them that are not for messages.
#[derive(Clone, Copy, Debug, PartialEq, Eq)]
pub struct SpacePages {
    pub overhead: u64,
    pub pages: u64,
}

/// The clusters that are needed, and those that are free.
#[derive(Clone, Copy, Debug, PartialEq, Eq)]
pub struct ClusterRoom {
    pub need: u64,
    pub free: u64,
}

/// A field that is out of its limit.
#[derive(Clone, Copy, Debug, PartialEq, Eq)]
pub enum Field {
    Clusters,
    Site,
    Pages,
    Queues,
    Transactions,
    Messages,
    Memory,
}
