//! A space as its device's table names it.

use tq_model::Extents;
use tq_types::Name;

/// A space as its device's table names it.
#[derive(Drop)]
pub struct TableEntry {
    pub name: Name,
    /// From 1, and below that of the next space.
    pub ordinal: u32,
    /// All pages of the space, 1 to 262,016.
    pub pages: u32,
    /// Its clusters.
    pub extents: Extents,
}
