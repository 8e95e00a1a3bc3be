ghost use Rattle.std.specs.Prelude.{true, ◌≡◌, ◌≢◌, ℕ, List, [], length, slice_index, map, IfOk, IfErr, IsErrOf, Some};
ghost use Rattle.tq_host.specs.Calls.{HasCauseOf};
ghost use Rattle.tq_extent.specs.Bytes.{reaches, IsQuiet};
ghost use Rattle.tq_gate.specs.declared.fault.GateError.TheVariants as fault;
ghost use Rattle.tq_gate.specs.Layout.{clusters_of, bytes_in, first_area, base_length, log_length, IsLaidOut, IsPlaced};
ghost use Rattle.tq_gate.specs.Reading.{Content, content_on, area_of, AreRecords};
ghost use Rattle.tq_field.specs.GatedLog.{end_of};
ghost use Rattle.tq_gate.specs.Log.{IsLog, layout_of, free_in};
ghost use Rattle.tq_gate.specs.Loading.{IsRefused, IsRefusedLog};
ghost use Rattle.tq_gate.specs.Loaded.{content_of};

use crate::layout::{Areas, Layout};
use crate::reading::{choose_area, read_bytes};
use crate::scanning::{Scan, ScanError, scan_log};
use crate::{GateError, GateLog};
use std::alloc::Global;
use tq_host::Host;

/// A log and its content.
#[derive(Drop)]
pub struct Loaded {
    pub log: GateLog,
    /// The bytes of the base.
    pub base: Vec<u8>,
    /// The payloads, in the order in which they were added.
    pub payloads: Vec<Vec<u8>>,
}

// The log with these bytes, open.
fn open_log(
    alloc: Global,
    layout: Layout,
    area: u64,
    base: Vec<u8>,
    log: &[u8],
) -> Result<Loaded, GateError>
    requires placed { IsPlaced layout area }
    requires long { length log.now ≡ log_length layout }
    ensures layout { IfOk result (λ loaded. loaded.log.layout ≡ layout) }
    ensures area { IfOk result (λ loaded. loaded.log.area ≡ area) }
    ensures base { IfOk result (λ loaded. loaded.base.items ≡ base.items) }
    ensures records { IfOk result (λ loaded. AreRecords log.now 0 (map (λ v. v.items) loaded.payloads.items)) }
    ensures end { IfOk result (λ loaded. loaded.log.end ≡ end_of (map (λ v. v.items) loaded.payloads.items)) }
    ensures shut { IfOk result (λ loaded. slice_index log.now loaded.log.end ≢ 79) }
    ensures refused { IfErr result (IsRefusedLog layout area log.now) }
{
    match scan_log(alloc, log) {
        Ok(Scan { payloads, end }) => {
            let log = GateLog {
                layout,
                area,
                end: end as u64,
            };
            Ok(Loaded {
                log,
                base,
                payloads,
            })
        }
        Err(ScanError::NoMemory) => Err(GateError::NoMemory),
        Err(ScanError::Damaged { at }) => {
            let at = area + layout.base_length() + at as u64;
            Err(GateError::Damaged { at })
        }
    }
}

impl GateLog {
    /// The log that lies there, in its first area, and has no payloads, without a call on the device.
    pub fn empty(layout: Layout) -> GateLog
        requires laid_out { IsLaidOut layout }
        ensures layout { layout_of result ≡ layout }
        ensures free { free_in result ≡ log_length layout }
        ensures on { (k : Content) (image : List ℕ) → reaches (clusters_of layout) image ≡ true → area_of layout (bytes_in layout image) ≡ first_area layout
            → content_on layout image ≡ Some k → k.payloads ≡ [] → IsLog result k image }
    {
        let area = layout.first_area();
        GateLog {
            layout,
            area,
            end: 0,
        }
    }

    /// Opens the log that lies there, and reads its content. Nothing is written.
    ///
    /// `Damaged` comes exactly where an open gate stands whose payload, with the gate behind it,
    /// does not end within the log, and names the byte of that gate among the owner's; what stands
    /// behind a closed gate changes nothing.
    pub fn load<H: Host>(alloc: Global, host: &mut H, layout: Layout) -> Result<Loaded, GateError>
        requires laid_out { IsLaidOut layout }
        requires reach { H.tells.reads → reaches (clusters_of layout) ((H.view host.old).reads layout.dev) ≡ true }
        ensures loaded { IfOk result (λ loaded. H.tells.reads → IsLog loaded.log (content_of loaded) ((H.view host.old).reads layout.dev)) }
        ensures layout { IfOk result (λ loaded. layout_of loaded.log ≡ layout) }
        ensures base { IfOk result (λ loaded. length loaded.base.items ≡ base_length layout) }
        ensures refused { IfErr result (λ e. H.tells.reads → IsRefused layout (bytes_in layout ((H.view host.old).reads layout.dev)) e) }
        ensures quiet { IsQuiet layout.dev (H.view host.old) (H.view host.new) }
        ensures cause { HasCauseOf (IsErrOf result fault.Device) (H.view host.old).faults (H.view host.new).faults }
    {
        let area = choose_area(host, &layout)?;
        let base_length = layout.base_length();
        let base = read_bytes(alloc, host, &layout, area, base_length)?;
        let log = read_bytes(
            alloc,
            host,
            &layout,
            area + base_length,
            layout.log_length(),
        )?;
        open_log(alloc, layout, area, base, &log)
    }
}
