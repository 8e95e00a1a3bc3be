/// The most pages of a space, those of its overhead included.
pub const MOST_PAGES: u32 = 262_016;

/// The most queues of a space.
pub const MOST_QUEUES: u16 = 256;

/// The most transactions of a space at a time.
pub const MOST_TRANSACTIONS: u16 = 64;

/// The most messages of a space.
pub const MOST_MESSAGES: u16 = 8192;

/// The most bytes that a space may have for the bodies of messages that are not persistent.
pub const MOST_MEMORY: u64 = 16_777_216;

/// The fewest clusters of a device, those of its header included.
pub const LEAST_CLUSTERS: u32 = 5;

/// The most clusters of a device, those of its header included.
pub const MOST_CLUSTERS: u32 = 8192;

/// The last ordinal of a space on a device, which no space has.
pub const LAST_SPACE: u32 = 268_435_455;

/// The most bytes of a message's body.
pub const LONGEST_BODY: usize = 65_536;

/// The bytes of a device's header, and so the length from which on a device is not blank.
pub const HEADER_BYTES: u64 = 131_072;

/// The bytes of a cluster.
pub const CLUSTER_BYTES: u64 = 32_768;
