ghost use Rattle.std.specs.Prelude.{true, ◌≡◌, ◌<◌, ◌≤◌, List, ℕ};
ghost use Rattle.tq_model.specs.SpaceForm.{empty_space};
ghost use Rattle.tq_extent.specs.Bytes.{reaches};
ghost use Rattle.tq_extent.specs.Pages.{page_count};
ghost use Rattle.tq_spacefile.specs.File.{place_in, clusters_in, held_in, logged_in, IsFile, IsFormatted};

use crate::{SpaceFile, SpacePlace};
use std::alloc::Global;
use tq_extent::PageMap;
use tq_gate::GateLog;
use tq_model::Shape;
use tq_space::Space;

impl SpaceFile {
    /// The space that was formatted there on the clusters of this map, with this shape. It takes no
    /// memory.
    pub fn new(alloc: Global, place: &SpacePlace, map: PageMap, shape: &Shape) -> SpaceFile
        requires dev { place.now.dev < 8 }
        requires least { 1 ≤ place.now.pages }
        requires most { place.now.pages ≤ 262016 }
        requires enough { place.now.pages ≤ page_count map }
        requires pages { shape.now.pages ≡ place.now.pages }
        ensures place { place_in result ≡ place.now }
        ensures clusters { clusters_in result ≡ map }
        ensures held { held_in result ≡ empty_space shape.now place.now.site place.now.number }
        ensures logged { logged_in result ≡ 0 }
        ensures on { (epoch : ℕ) (image : List ℕ) → IsFormatted shape.now map image → reaches map image ≡ true → IsFile result epoch image }
    {
        SpaceFile {
            place: *place,
            space: Space::new(alloc, shape, place.site, place.number),
            log: GateLog::empty(place.log_layout(map)),
        }
    }
}
