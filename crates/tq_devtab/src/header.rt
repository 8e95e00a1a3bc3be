//! What the header of a device says.

ghost use Rattle.std.specs.Prelude.{◌<◌, ◌≤◌};
ghost use Rattle.tq_model.specs.Site.{least_clusters, most_clusters};

/// What the header of a device says.
#[derive(Clone, Copy)]
pub(crate) struct Header {
    /// The number of the device.
    pub(crate) place: u8,
    pub(crate) site: u32,
    pub(crate) clusters: u32,
    ghost number: { place < 8 },
    ghost some: { 1 ≤ site },
    ghost least: { least_clusters ≤ clusters },
    ghost most: { clusters ≤ most_clusters },
}
