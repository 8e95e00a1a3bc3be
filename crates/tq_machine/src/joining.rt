//! Clusters in their order as extents.

ghost use Rattle.std.specs.Prelude.{◌≡◌, ℕ, ◌+◌, ◌<◌, ◌≤◌, List, ◌∷◌, ◌++◌, OnOk};
ghost use Rattle.tq_model.specs.Site.{numbers_from, as_extents};

use std::alloc::AllocError;
use tq_model::{Extent, Extents};

/// No clusters yet.
pub(crate) const NO_RUN: Extent = Extent { first: 0, count: 0 };

/// Adds the extent of a run that is over, if it has clusters.
pub(crate) fn close(extents: &mut Extents, run: Extent) -> Result<(), AllocError>
    ensures { OnOk result (extents.new ≡ extents.old ++ as_extents (numbers_from run.first run.count)) }
{
    if run.count == 0 {
        return Ok(());
    }
    extents.push(run)
}

/// Adds a cluster to the run before it where it follows that, and else begins a run with it.
pub(crate) fn join(extents: &mut Extents, run: &mut Extent, cluster: u32) -> Result<(), AllocError>
    requires before { run.old.first + run.old.count ≤ cluster }
    requires below { cluster < 4294967295 }
    // Whatever follows, the extents come to the same.
    ensures joined { OnOk result ((rest : List ℕ)
        → extents.new ++ as_extents (numbers_from run.new.first run.new.count ++ rest)
        ≡ extents.old ++ as_extents (numbers_from run.old.first run.old.count ++ cluster ∷ rest)) }
    ensures ends { OnOk result (run.new.first + run.new.count ≡ cluster + 1) }
{
    if run.count > 0 && run.first + run.count == cluster {
        run.count += 1;
        return Ok(());
    }
    close(extents, *run)?;
    *run = Extent {
        first: cluster,
        count: 1,
    };
    Ok(())
}
