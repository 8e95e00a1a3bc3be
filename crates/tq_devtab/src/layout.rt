//! Where the parts of a table stand in its base.

/// The entries of a table.
pub(crate) const ENTRIES: usize = 16;

/// The byte at which the entries begin.
pub(crate) const ENTRIES_START: usize = 32;

/// The bytes of an entry.
pub(crate) const ENTRY_BYTES: usize = 160;

/// The byte at which the extents begin.
pub(crate) const EXTENTS_START: usize = 2592;

/// The bytes of an extent.
pub(crate) const EXTENT_BYTES: usize = 4;

/// The bytes of an entry at which its name, its ordinal, its pages and the count of its extents begin.
pub(crate) const NAME: usize = 2;

pub(crate) const ORDINAL: usize = 132;

pub(crate) const PAGES: usize = 136;

pub(crate) const EXTENT_COUNT: usize = 140;

/// The bytes of a base.
pub(crate) const BASE_BYTES: usize = 40_960;
