ghost use Rattle.std.specs.Prelude.{◌≡◌, ◌+◌, ◌*◌};

use tq_extent::PageMap;

/// The bytes of a page.
pub(crate) const PAGE: u64 = 1024;

/// The areas of a log.
#[derive(Clone, Copy, Debug, PartialEq, Eq)]
pub enum Areas {
    /// One area.
    One,
    /// Area A, and area B at once behind it. The byte at this address among the owner's chooses A
    /// where it is even, and B where it is odd.
    Two { selector: u64 },
}

/// Where a gated log lies: on which device, on whose pages, and at which of them.
///
/// All addresses are among the bytes of the owner. Area A begins at the page `first`. An area is
/// so many pages of the base and then so many of the log. All of them are pages of the map, and the
/// selector byte is of one of its pages and lies in no area.
#[derive(Drop)]
pub struct Layout {
    pub dev: u8,
    pub map: PageMap,
    pub areas: Areas,
    pub first: u32,
    pub base_pages: u32,
    pub log_pages: u32,
}

impl Layout {
    ghost use Rattle.tq_gate.specs.Layout.{first_area, base_length, log_length, area_length, area_by, other_area};

    // The byte at which area A begins.
    pub(crate) fn first_area(&self) -> u64
        ensures { result ≡ first_area self.now }
    {
        PAGE * u64::from(self.first)
    }

    // The length of the base in bytes.
    pub(crate) fn base_length(&self) -> u64
        ensures { result ≡ base_length self.now }
    {
        PAGE * u64::from(self.base_pages)
    }

    // The length of the log in bytes.
    pub(crate) fn log_length(&self) -> u64
        ensures { result ≡ log_length self.now }
    {
        PAGE * u64::from(self.log_pages)
    }

    // The byte at which area B begins.
    fn second_area(&self) -> u64
        ensures { result ≡ first_area self.now + area_length self.now }
    {
        let (first, base, log) = (self.first, self.base_pages, self.log_pages);
        PAGE * (u64::from(first) + u64::from(base) + u64::from(log))
    }

    // The byte at which the area begins that this selector chooses.
    pub(crate) fn area_by(&self, selector: u8) -> u64
        ensures { result ≡ area_by self.now selector }
    {
        if selector % 2 == 0 {
            self.first_area()
        } else {
            self.second_area()
        }
    }

    // The byte at which the other one of two areas begins.
    pub(crate) fn other_area(&self, area: u64) -> u64
        ensures { result ≡ other_area self.now area }
    {
        if area == self.first_area() {
            self.second_area()
        } else {
            self.first_area()
        }
    }
}
