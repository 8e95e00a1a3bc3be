ghost use Rattle.std.specs.Prelude.{◌≡◌};
ghost use Rattle.tq_gate.specs.Log.{layout_of};
ghost use Rattle.tq_model.specs.Plain.{IsOwn, KeepsAllAtCrash};
ghost use Rattle.tq_spacefile.specs.Place.{IsPlace, log_layout};

use crate::SpacePlace;
use tq_gate::GateLog;
use tq_space::Space;

/// A queue space and its log: what is done to it is on its device before it is done in memory.
#[derive(Drop)]
pub struct SpaceFile {
    pub(crate) place: SpacePlace,
    pub(crate) space: Space,
    pub(crate) log: GateLog,
    ghost own: { IsOwn space.held },
    ghost plain: { KeepsAllAtCrash space.held },
    ghost placed: { IsPlace place (layout_of log).map },
    ghost layout: { layout_of log ≡ log_layout place (layout_of log).map },
}
