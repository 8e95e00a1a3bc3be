ghost use Rattle.std.specs.Prelude.{◌≡◌, ◌+◌, ◌≤◌, ◌↔◌, IsTrue};
ghost use Rattle.tq_gate.specs.Layout.{IsPlaced, log_length, log_place};

use crate::layout::Layout;
use crate::pieces::{choose_other, fill_other, open_gate, stage};
use tq_host::{Device, Host};

/// A gated log that is open: where it lies, and where it ends.
#[derive(Drop)]
pub struct GateLog {
    pub(crate) layout: Layout,
    // the byte at which the chosen area begins
    pub(crate) area: u64,
    // the place in the log at which its closed gate stands
    pub(crate) end: u64,
    ghost placed: { IsPlaced layout area },
    ghost within: { end ≤ log_length layout },
}

impl GateLog {
    ghost use Rattle.std.specs.Prelude.{true, List, ℕ, length, OnOk, OnErr};
    ghost use Rattle.tq_host.specs.View.{IsSettled};
    ghost use Rattle.tq_host.specs.Calls.{HasCause};
    ghost use Rattle.tq_host.specs.Within.{Within, KeepsRest};
    ghost use Rattle.tq_extent.specs.Bytes.{reaches};
    ghost use Rattle.tq_gate.specs.Layout.{clusters_of, base_length, has_two_areas};
    ghost use Rattle.tq_gate.specs.Reading.{Content};
    ghost use Rattle.tq_gate.specs.Frame.{IsFrame, payload_in};
    ghost use Rattle.tq_gate.specs.Log.{IsLog, AreLog, HaveLog, added, replaced, layout_of, free_in, FitsIn, IsSameLog, IsSameButLog, IsSameButAreas, IsOldOrNew, IsOldOrReplaced};

    /// Where the log lies.
    pub fn layout(&self) -> &Layout
        ensures { result.now ≡ layout_of self.now }
    {
        &self.layout
    }

    /// The bytes that are left: the log's length less those of its payloads, each with its gate
    /// and its length.
    pub fn free(&self) -> u64
        ensures { result ≡ free_in self.now }
    {
        self.layout.log_length() - self.end
    }

    /// Whether a payload of so many bytes can be added: it takes 5 bytes beside its own, and a
    /// further byte has to stay free.
    pub fn fits(&self, bytes: u64) -> bool
        ensures { IsTrue result ↔ FitsIn self.now bytes }
    {
        let free = self.free();
        free >= 6 && bytes <= free - 6
    }

    // Where that byte of the log lies.
    pub(crate) fn place(&self, at: u64) -> u64
        requires { at ≤ log_length self.now.layout }
        ensures { result ≡ log_place self.now.layout self.now.area at }
    {
        self.area + self.layout.base_length() + at
    }

    /// Adds a payload that fits: its bytes with a sync behind them, and then its gate with a sync.
    /// The payload stands in a frame, behind `BEFORE_PAYLOAD` free bytes and before one more, which
    /// are filled in here. A stop at any moment leaves the old payloads or the new ones. Takes no
    /// memory. After `Device` the log is to be loaded again.
    pub fn append<H: Host>(&mut self, host: &mut H, frame: &mut [u8]) -> Result<(), Device>
        requires frame { IsFrame frame.old }
        requires fits { FitsIn self.old (length (payload_in frame.old)) }
        requires reach { H.tells.reads → reaches (clusters_of (layout_of self.old)) ((H.view host.old).reads (layout_of self.old).dev) ≡ true }

        // In each picture the content is that of one image of the start, or that of what was read
        // at the start with the payload more; outside the log all is as it was there.
        ensures stop { HaveLog self.old (H.view host.old)
            → Within (layout_of self.old).dev (IsSameButLog self.old) (IsOldOrNew self.old (H.view host.old) (payload_in frame.old)) (H.view host.old) (H.view host.new) }

        // At Ok what is read, and each image, is the new content. Outside the log what is read stays in any case.
        ensures added { OnOk result (H.tells.reads → (k : Content) → IsLog self.old k ((H.view host.old).reads (layout_of self.old).dev)
            → IsLog self.new (added k (payload_in frame.old)) ((H.view host.new).reads (layout_of self.old).dev)) }
        ensures images { OnOk result ((k : Content) → AreLog self.old k (H.view host.old)
            → AreLog self.new (added k (payload_in frame.old)) (H.view host.new)) }
        ensures outside { H.tells.reads
            → IsSameButLog self.old ((H.view host.old).reads (layout_of self.old).dev) ((H.view host.new).reads (layout_of self.old).dev) }
        ensures settled { OnOk result (IsSettled (layout_of self.old).dev (H.view host.new)) }

        ensures layout { layout_of self.new ≡ layout_of self.old }
        ensures free { OnOk result (free_in self.new + (5 + length (payload_in frame.old)) ≡ free_in self.old) }
        ensures same { OnErr result (IsSameLog self.old self.new) }
        ensures rest { KeepsRest (layout_of self.old).dev (H.view host.old) (H.view host.new) }
        ensures cause { HasCause (H.view host.old).faults (H.view host.new).faults result }
    {
        stage(host, self, frame)?;
        open_gate(host, self)?;
        self.end += frame.len() as u64 - 1;
        Ok(())
    }

    /// Makes the content this base, which has as many bytes as the base pages, and no payload: the
    /// base and a closed gate in the area that is not chosen with a sync behind them, and then the
    /// selector with a sync. The log has two areas. A stop at any moment leaves the old content or
    /// the new one. Takes no memory. After `Device` the log is to be loaded again.
    pub fn replace<H: Host>(&mut self, host: &mut H, base: &[u8]) -> Result<(), Device>
        requires two { has_two_areas (layout_of self.old).areas ≡ true }
        requires base { length base.now ≡ base_length (layout_of self.old) }
        requires reach { H.tells.reads → reaches (clusters_of (layout_of self.old)) ((H.view host.old).reads (layout_of self.old).dev) ≡ true }

        // In each picture the content is that of one image of the start, or the base alone; where it is that, all
        // outside the areas and the selector is what was read at the start.
        ensures stop { HaveLog self.old (H.view host.old)
            → Within (layout_of self.old).dev (IsSameButAreas self.old) (IsOldOrReplaced self.old (H.view host.old) base.now) (H.view host.old) (H.view host.new) }

        // At Ok what is read, and each image, is the new content. Outside the areas and the selector what is read stays in
        // any case.
        ensures replaced { OnOk result (H.tells.reads → (k : Content) → IsLog self.old k ((H.view host.old).reads (layout_of self.old).dev)
            → IsLog self.new (replaced base.now) ((H.view host.new).reads (layout_of self.old).dev)) }
        ensures images { OnOk result ((k : Content) → AreLog self.old k (H.view host.old) → AreLog self.new (replaced base.now) (H.view host.new)) }
        ensures outside { H.tells.reads
            → IsSameButAreas self.old ((H.view host.old).reads (layout_of self.old).dev) ((H.view host.new).reads (layout_of self.old).dev) }
        ensures settled { OnOk result (IsSettled (layout_of self.old).dev (H.view host.new)) }

        ensures layout { layout_of self.new ≡ layout_of self.old }
        ensures free { OnOk result (free_in self.new ≡ log_length (layout_of self.old)) }
        ensures same { OnErr result (IsSameLog self.old self.new) }
        ensures rest { KeepsRest (layout_of self.old).dev (H.view host.old) (H.view host.new) }
        ensures cause { HasCause (H.view host.old).faults (H.view host.new).faults result }
    {
        fill_other(host, self, base)?;
        choose_other(host, self)?;
        self.area = self.layout.other_area(self.area);
        self.end = 0;
        Ok(())
    }
}
