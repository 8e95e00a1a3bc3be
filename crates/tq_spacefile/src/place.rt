ghost use Rattle.std.specs.Prelude.{◌≡◌, ◌≤◌};
ghost use Rattle.tq_extent.specs.Bytes.{byte_count};
ghost use Rattle.tq_spacefile.specs.Place.{log_layout};

use tq_extent::PageMap;
use tq_gate::{Areas, Layout};

/// Where a space lies, and what its messages are named by.
#[derive(Clone, Copy, Debug, PartialEq, Eq)]
pub struct SpacePlace {
    pub dev: u8,
    /// All pages of the space, 1 to 262,016.
    pub pages: u32,
    /// The site's number.
    pub site: u32,
    /// The space's number.
    pub number: u32,
}

impl SpacePlace {
    /// Where the log of the space lies, which has the clusters of this map: behind its first two
    /// pages.
    pub(crate) fn log_layout(&self, map: PageMap) -> Layout
        ensures layout { result ≡ log_layout self.now map }
        ensures size { byte_count map ≤ 268435456 }
    {
        // No owner has more pages than the largest device.
        let owned = map.pages();
        prove!(owned <= 262_144);
        Layout {
            dev: self.dev,
            map,
            areas: Areas::One,
            first: 1,
            base_pages: 1,
            log_pages: self.pages.saturating_sub(2),
        }
    }
}
