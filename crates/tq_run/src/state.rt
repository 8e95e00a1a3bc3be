use tq_coord::Manager;

/// The state of a run.
#[derive(Drop)]
pub enum State {
    /// The site is in memory.
    Up(Manager),
    /// A device failed, or its epoch cannot be raised: only a boot brings a site back.
    Down,
}
