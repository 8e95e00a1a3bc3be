/// What a space can lack.
#[derive(Clone, Copy, Debug, PartialEq, Eq)]
pub enum Resource {
    Transactions,
    Messages,
    Depth,
    Pages,
    Memory,
}

/// A resource of which need and held are together more than the limit.
#[derive(Clone, Copy, Debug, PartialEq, Eq)]
pub struct Lack {
    pub resource: Resource,
    pub need: u64,
    pub held: u64,
    pub limit: u64,
}
