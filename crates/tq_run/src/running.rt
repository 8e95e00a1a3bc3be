ghost use Rattle.std.specs.Prelude.{◌≡◌, ◌≢◌, ◌⊎◌, ◌<◌, ◌≤◌, ◌+◌, ◌++◌, ◌↔◌, true, false, [], ◌∷◌, List, ℕ, map, string_bytes, length, All, IfOk, OnOk, OnErr, None, Some};
ghost use Rattle.tq_host.specs.Calls.{HasCauseOf, Rose};
ghost use Rattle.tq_host.specs.View.{TellsAll, Stamp, TakeStamp, AreNow, AreSettled};
ghost use Rattle.tq_model.specs.Step.{can_boot};
ghost use Rattle.tq_model.specs.MachineWithFaults.{Failures, rose_at};
ghost use Rattle.tq_model.specs.declared.request.Request.{Request};
ghost use Rattle.tq_model.specs.declared.request.Request.TheVariants as requests;
ghost use Rattle.tq_host.specs.Within.{WithinAll};
ghost use Rattle.tq_coord.specs.Frame.{LeavesOthers, device_count};
ghost use Rattle.tq_run.specs.Stops.{IsCrashSafe, IsLeftAlone};
ghost use Rattle.tq_run.specs.Turns.{Origin, origin_of, none_failed, RunsOver};
ghost use Rattle.tq_run.specs.Standing.{next_in, StateImagesMatch, HasReached, HasRun, HasStarted};
ghost use Rattle.tq_model.specs.Site.{Site};
ghost use Rattle.tq_model.specs.Grammar.{script_requests};
ghost use Rattle.tq_model.specs.Reading.{site_found};
ghost use Rattle.tq_run.specs.Counts.{NoneRose, HasCounts, HasRunCounts, itself, run_end_of_script, run_end_of_start};
ghost use Rattle.tq_run.specs.Ending.{IsDone, IsUntouched, IsDamaged, FailsInLine0, IsComplete, status_for, trace_of};
ghost use Rattle.tq_run.specs.Input.{TakesWith};
ghost use Rattle.tq_coord.specs.Manager.{is_bootable};
ghost use Rattle.tq_run.specs.Output.{TellsMore, HasBegun, AreAttached, TellsAttached, StaysAttached, KeepsInput};
ghost use Rattle.tq_run.specs.Words.{device_word};

use crate::script::read_script;
use crate::serving::{give_answer, serve_lines};
use crate::state::State;
use crate::status::{RunEnd, ScriptEnd, StartEnd, Status};
use crate::words::device_path;
use std::alloc::Global;
use tq_coord::Manager;
use tq_host::Host;

// No run takes more bytes.
const MOST_INPUT: u64 = 4294967296;

// Reads the script, at most `limit` bytes of it, and answers its lines.
#[tactic(auto, using(crate::proofs::LineByLineLemmas::tells_on, crate::proofs::LineByLineLemmas::tells_none, crate::proofs::TakeLemmas::takes_then, tq_coord::proofs::FrameLemmas::others_on, crate::proofs::AttachLemmas::stays_same, crate::proofs::AttachLemmas::stays_on))]
fn answer_script<H: Host>(
    alloc: Global,
    host: &mut H,
    state: &mut State,
    limit: u64,
) -> Result<(), ScriptEnd>
    requires limit { 0 < limit }
    requires most { limit ≤ 4294967296 }
    requires first { next_in state.old ≡ 0 }
    requires on { StateImagesMatch state.old (H.view host.old) }
    ensures left { OnOk result (H.tells.script → (H.view host.new).streams.script ≡ []) }
    ensures takes { H.tells.output → TakesWith (length (H.view host.old).streams.output) (H.view host.old).streams (H.view host.new).streams }
    ensures reached { OnOk result (TellsAll H.tells → (o : Origin) (found : Site) (failed : Failures) (first : Request)
        → HasReached o found failed (first ∷ []) state.old (H.view host.old) → HasRun o found failed (first ∷ script_requests (H.view host.old).streams.script) state.new (H.view host.old) (H.view host.new)) }
    ensures stop { TellsAll H.tells → (o : Origin) (found : Site) (failed : Failures) (first : Request)
        → HasReached o found failed (first ∷ []) state.old (H.view host.old) → RunsOver o found failed (first ∷ script_requests (H.view host.old).streams.script) (H.view host.old) (H.view host.new) }
    ensures told { H.tells.output → TellsMore (H.view host.old) (H.view host.new) }
    ensures attached { H.tells.output → StaysAttached (H.view host.old) (H.view host.new) }
    ensures much { result ≡ Err ScriptEnd.TooMuchInput → H.tells.output → (H.view host.new).streams.taken ≡ (H.view host.old).streams.taken + limit }
    ensures less { (result ≢ Err ScriptEnd.TooMuchInput) → (result ≢ Err ScriptEnd.Memory) → H.tells.output
        → (H.view host.new).streams.taken < (H.view host.old).streams.taken + limit }
    ensures most { H.tells.output → (H.view host.new).streams.taken ≤ (H.view host.old).streams.taken + limit }
    ensures later { (H.view host.old).faults ≤ (H.view host.new).faults }
    ensures counts { HasRunCounts run_end_of_script result (H.view host.old) (H.view host.new) }
    ensures others { LeavesOthers (H.view host.old) (H.view host.new) }
{
    let script = read_script(alloc, host, limit)?;
    Ok(serve_lines(alloc, host, state, &script)?)
}

// Line 0: a boot of what device 0 stands for.
#[tactic(auto, using(crate::proofs::LineByLineLemmas::tells_none, crate::proofs::LineByLineLemmas::tells_given, crate::proofs::LeftAloneLemmas::alone_attached, crate::proofs::LeftAloneLemmas::contradicts, crate::proofs::LeftAloneLemmas::was_bootable, tq_coord::proofs::FrameLemmas::others_on, crate::proofs::FrameLemmas::others_attached))]
fn begin<H: Host>(alloc: Global, path: &str, host: &mut H) -> Result<State, StartEnd>
    ensures first { IfOk result (λ state. next_in state ≡ 0) }
    ensures on { IfOk result (λ state. StateImagesMatch state (H.view host.new)) }
    ensures reached { IfOk result (λ state. TellsAll H.tells → (found : Site) → site_found device_count (H.view host.old).reads ≡ Some found
        → HasStarted found state (H.view host.old) (H.view host.new)) }
    ensures stop { TellsAll H.tells → AreSettled device_count (H.view host.old) → (found : Site) → site_found device_count (H.view host.old).reads ≡ Some found → can_boot found ≡ true
        → RunsOver (origin_of (H.view host.old)) found none_failed (requests.Boot ∷ []) (H.view host.old) (H.view host.new) }
    ensures damaged { result ≡ Err StartEnd.Damaged → H.tells.reads → is_bootable (site_found device_count (H.view host.old).reads) ≡ false }
    ensures untouched { result ≡ Err StartEnd.Damaged → IsUntouched (H.view host.old) (H.view host.new) }
    ensures bootable { (result ≢ Err StartEnd.Damaged) → (result ≢ Err StartEnd.Device) → (result ≢ Err StartEnd.Memory) → H.tells.reads
        → is_bootable (site_found device_count (H.view host.old).reads) ≡ true }
    ensures left_alone { H.tells.reads → is_bootable (site_found device_count (H.view host.old).reads) ≡ false
        → WithinAll (AreNow (H.view host.old)) (H.view host.old) (H.view host.new) }
    ensures attached { H.tells.output → TellsAttached (path.now ∷ []) (H.view host.old) (H.view host.new) }
    ensures named { OnOk result (H.tells.output → AreAttached (path.now ∷ []) (H.view host.new).attached) }
    ensures told { H.tells.output → TellsMore (H.view host.old) (H.view host.new) }
    ensures begun { OnOk result (H.tells.output → HasBegun (H.view host.old) (H.view host.new)) }
    ensures calm { OnErr result ((result ≢ Err StartEnd.Device) → H.tells.output → (added : List Stamp)
        → (H.view host.new).streams.stamps ≡ (H.view host.old).streams.stamps ++ added
        → rose_at (trace_of (H.view host.old) (H.view host.new) added) 0 ≡ false) }
    ensures silent { result ≡ Err StartEnd.Device → (H.view host.new).streams.output ≡ (H.view host.old).streams.output }
    ensures input { KeepsInput (H.view host.old) (H.view host.new) }
    ensures counts { HasCounts run_end_of_start result (H.view host.old) (H.view host.new) }
    ensures others { LeavesOthers (H.view host.old) (H.view host.new) }
{
    host.attach(0, path)?;
    let manager = Manager::boot(alloc, host)?;
    give_answer(alloc, host, 0, &manager.readiness())?;
    Ok(State::Up(manager))
}

// A run: a boot, which is line 0, and the lines of the script, of which at most `limit` bytes are read.
#[tactic(auto, using(crate::proofs::LineByLineLemmas::tells_on, crate::proofs::LeftAloneLemmas::contradicts, crate::proofs::TakeLemmas::none_taken, tq_coord::proofs::FrameLemmas::others_on))]
fn attend<H: Host>(alloc: Global, path: &str, host: &mut H, limit: u64) -> Result<(), RunEnd>
    requires some { 0 < limit }
    requires most { limit ≤ 4294967296 }
    ensures done { OnOk result (TellsAll H.tells → (found : Site) → site_found device_count (H.view host.old).reads ≡ Some found
        → IsDone (H.view host.old) (H.view host.new) found) }
    ensures damaged { result ≡ Err RunEnd.Damaged → H.tells.reads → is_bootable (site_found device_count (H.view host.old).reads) ≡ false }
    ensures untouched { result ≡ Err RunEnd.Damaged → IsUntouched (H.view host.old) (H.view host.new) }
    ensures bootable { (result ≢ Err RunEnd.Damaged) → (result ≢ Err RunEnd.Device) → (result ≢ Err RunEnd.Memory) → H.tells.reads
        → is_bootable (site_found device_count (H.view host.old).reads) ≡ true }
    ensures line_0 { H.tells.output → FailsInLine0 (result ≡ Err RunEnd.Device) (H.view host.old) (H.view host.new) }
    ensures silent { result ≡ Err RunEnd.Device → (H.view host.new).streams.output ≡ (H.view host.old).streams.output }
    ensures much { result ≡ Err RunEnd.TooMuchInput → H.tells.output → (H.view host.new).streams.taken ≡ (H.view host.old).streams.taken + limit }
    ensures less { (result ≢ Err RunEnd.TooMuchInput) → (result ≢ Err RunEnd.Memory) → H.tells.output
        → (H.view host.new).streams.taken < (H.view host.old).streams.taken + limit }
    ensures most { H.tells.output → (H.view host.new).streams.taken ≤ (H.view host.old).streams.taken + limit }
    ensures stop { TellsAll H.tells → AreSettled device_count (H.view host.old) → (found : Site) → site_found device_count (H.view host.old).reads ≡ Some found → can_boot found ≡ true
        → RunsOver (origin_of (H.view host.old)) found none_failed (requests.Boot ∷ script_requests (H.view host.old).streams.script) (H.view host.old) (H.view host.new) }
    ensures left_alone { H.tells.reads → is_bootable (site_found device_count (H.view host.old).reads) ≡ false
        → WithinAll (AreNow (H.view host.old)) (H.view host.old) (H.view host.new) }
    ensures ready_first { H.tells.output → (added : List TakeStamp) → (H.view host.new).streams.takes ≡ (H.view host.old).streams.takes ++ added
        → All (λ (t : TakeStamp). length (H.view host.old).streams.output < t.given) added }
    ensures attached { H.tells.output → TellsAttached (path.now ∷ []) (H.view host.old) (H.view host.new) }
    ensures told { H.tells.output → TellsMore (H.view host.old) (H.view host.new) }
    ensures counts { HasRunCounts itself result (H.view host.old) (H.view host.new) }
    ensures others { LeavesOthers (H.view host.old) (H.view host.new) }
{
    let mut state = begin(alloc, path, host)?;
    Ok(answer_script(alloc, host, &mut state, limit)?)
}

// The status of an ending.
fn status_of(ending: Result<(), RunEnd>) -> Status
    ensures { result ≡ status_for ending }
{
    match ending {
        Ok(()) => Status::Done,
        Err(RunEnd::Damaged) => Status::Damaged(0),
        Err(RunEnd::Memory) => Status::NoMemory,
        Err(RunEnd::Input) => Status::ReadFault,
        Err(RunEnd::Output) => Status::WriteFault,
        Err(RunEnd::Device) => Status::DeviceFault,
        Err(RunEnd::TooMuchInput) => Status::TooMuchInput,
    }
}

/// The run that `run` is, with another limit: it takes at most `limit` bytes of the script.
#[tactic(auto, using(crate::proofs::TakeLemmas::none_taken))]
pub fn run_within<H: Host>(alloc: Global, words: &[String], host: &mut H, limit: u64) -> Status
    requires some { 0 < limit }
    requires most { limit ≤ 4294967296 }
    ensures usage { (result ≡ Status.Usage) ↔ (device_word (map string_bytes words.now) ≡ None) }
    ensures nothing_else { result ≡ Status.Usage → host.new ≡ host.old }
    ensures damaged { (d : ℕ) → result ≡ Status.Damaged d → IsDamaged H.tells d (H.view host.old) (H.view host.new) }
    ensures damaged_always { result ≢ Status.Usage → H.tells.reads → is_bootable (site_found device_count (H.view host.old).reads) ≡ false
        → (Rose (H.view host.old).faults (H.view host.new).faults → ⊥) → (result ≡ Status.Damaged 0) ⊎ (result ≡ Status.NoMemory) }
    ensures bootable { result ≢ Status.Usage → ((d : ℕ) → result ≢ Status.Damaged d) → result ≢ Status.DeviceFault → result ≢ Status.NoMemory
        → H.tells.reads → is_bootable (site_found device_count (H.view host.old).reads) ≡ true }
    ensures left_alone { H.tells.reads → is_bootable (site_found device_count (H.view host.old).reads) ≡ false → IsLeftAlone (H.view host.old) (H.view host.new) }
    ensures attached { H.tells.output → (path : List ℕ) → device_word (map string_bytes words.now) ≡ Some path
        → TellsAttached (path ∷ []) (H.view host.old) (H.view host.new) }
    ensures read_fault { HasCauseOf (result ≡ Status.ReadFault) (H.view host.old).streams.input_faults (H.view host.new).streams.input_faults }
    ensures write_fault { HasCauseOf (result ≡ Status.WriteFault) (H.view host.old).streams.output_faults (H.view host.new).streams.output_faults }
    ensures device_fault { result ≡ Status.DeviceFault
        → Rose (H.view host.old).faults (H.view host.new).faults × ((H.view host.new).streams.output ≡ (H.view host.old).streams.output) }
    ensures line_0 { H.tells.output → FailsInLine0 (result ≡ Status.DeviceFault) (H.view host.old) (H.view host.new) }
    ensures too_much { result ≡ Status.TooMuchInput → H.tells.output → (H.view host.new).streams.taken ≡ (H.view host.old).streams.taken + limit }
    ensures too_much_always { H.tells.output → (H.view host.new).streams.taken ≡ (H.view host.old).streams.taken + limit
        → (result ≡ Status.TooMuchInput) ⊎ (result ≡ Status.NoMemory) }
    ensures most { H.tells.output → (H.view host.new).streams.taken ≤ (H.view host.old).streams.taken + limit }
    ensures ready_first { H.tells.output → (added : List TakeStamp) → (H.view host.new).streams.takes ≡ (H.view host.old).streams.takes ++ added
        → All (λ (t : TakeStamp). length (H.view host.old).streams.output < t.given) added }
    ensures done { result ≡ Status.Done → TellsAll H.tells → (found : Site) → site_found device_count (H.view host.old).reads ≡ Some found
        → IsDone (H.view host.old) (H.view host.new) found }
    ensures stop { TellsAll H.tells → AreSettled device_count (H.view host.old) → (found : Site) → site_found device_count (H.view host.old).reads ≡ Some found
        → can_boot found ≡ true → IsCrashSafe (H.view host.old) (H.view host.new) found }
    ensures complete { result ≢ Status.Usage → H.tells.reads → is_bootable (site_found device_count (H.view host.old).reads) ≡ true
        → NoneRose (H.view host.old) (H.view host.new) → IsComplete result }
    ensures others { LeavesOthers (H.view host.old) (H.view host.new) }
{
    match device_path(words) {
        None => Status::Usage,
        Some(path) => status_of(attend(alloc, path, host, limit)),
    }
}

/// Runs a script of lines over one device file. The words are `run` and the device's path.
///
/// A device that fails in a line is answered TPESYSTEM, and so is every later line that asks for
/// something, until a line `boot` brings the site back. Where the host tells what a clause speaks
/// of: `Done` says that the script was read to its end, that the output is the text of the serial
/// queue machine with faults from the site that the device stood for, and that the device stands
/// for the machine's state after the last line. Every other status comes by the cause that its
/// clause states; want of memory alone is free.
pub fn run<H: Host>(alloc: Global, words: &[String], host: &mut H) -> Status
    ensures usage { (result ≡ Status.Usage) ↔ (device_word (map string_bytes words.now) ≡ None) }
    ensures nothing_else { result ≡ Status.Usage → host.new ≡ host.old }

    // The device's bytes have no reading, or its epoch cannot be raised; nothing is written then.
    ensures damaged { (d : ℕ) → result ≡ Status.Damaged d → IsDamaged H.tells d (H.view host.old) (H.view host.new) }
    ensures damaged_always { result ≢ Status.Usage → H.tells.reads → is_bootable (site_found device_count (H.view host.old).reads) ≡ false
        → (Rose (H.view host.old).faults (H.view host.new).faults → ⊥) → (result ≡ Status.Damaged 0) ⊎ (result ≡ Status.NoMemory) }

    // Where the device stands for no site that can be booted, nothing is written and nothing given, whatever the status.
    ensures bootable { result ≢ Status.Usage → ((d : ℕ) → result ≢ Status.Damaged d) → result ≢ Status.DeviceFault → result ≢ Status.NoMemory
        → H.tells.reads → is_bootable (site_found device_count (H.view host.old).reads) ≡ true }
    ensures left_alone { H.tells.reads → is_bootable (site_found device_count (H.view host.old).reads) ≡ false → IsLeftAlone (H.view host.old) (H.view host.new) }

    // Every byte is given while the device is attached by its word.
    ensures attached { H.tells.output → (path : List ℕ) → device_word (map string_bytes words.now) ≡ Some path
        → TellsAttached (path ∷ []) (H.view host.old) (H.view host.new) }

    // A device that no word names is left alone.
    ensures others { LeavesOthers (H.view host.old) (H.view host.new) }

    // The input or the output failed, exactly where its count rose; or a device, before anything was given.
    ensures read_fault { HasCauseOf (result ≡ Status.ReadFault) (H.view host.old).streams.input_faults (H.view host.new).streams.input_faults }
    ensures write_fault { HasCauseOf (result ≡ Status.WriteFault) (H.view host.old).streams.output_faults (H.view host.new).streams.output_faults }
    ensures device_fault { result ≡ Status.DeviceFault
        → Rose (H.view host.old).faults (H.view host.new).faults × ((H.view host.new).streams.output ≡ (H.view host.old).streams.output) }
    ensures line_0 { H.tells.output → FailsInLine0 (result ≡ Status.DeviceFault) (H.view host.old) (H.view host.new) }

    // Line 0 is given before the first byte of the script is taken.
    ensures ready_first { H.tells.output → (added : List TakeStamp) → (H.view host.new).streams.takes ≡ (H.view host.old).streams.takes ++ added
        → All (λ (t : TakeStamp). length (H.view host.old).streams.output < t.given) added }

    // 4,294,967,296 bytes were taken, and the script did not end before.
    ensures too_much { result ≡ Status.TooMuchInput → H.tells.output → (H.view host.new).streams.taken ≡ (H.view host.old).streams.taken + 4294967296 }
    ensures too_much_always { H.tells.output → (H.view host.new).streams.taken ≡ (H.view host.old).streams.taken + 4294967296
        → (result ≡ Status.TooMuchInput) ⊎ (result ≡ Status.NoMemory) }
    ensures most { H.tells.output → (H.view host.new).streams.taken ≤ (H.view host.old).streams.taken + 4294967296 }

    // The whole run is the machine's.
    ensures done { result ≡ Status.Done → TellsAll H.tells → (found : Site) → site_found device_count (H.view host.old).reads ≡ Some found
        → IsDone (H.view host.old) (H.view host.new) found }

    // At every stop within the run, the device stands for the machine with faults after some number of whole lines, as many
    // as were answered or one more, and the output is a first part of the text of these.
    ensures stop { TellsAll H.tells → AreSettled device_count (H.view host.old) → (found : Site) → site_found device_count (H.view host.old).reads ≡ Some found
        → can_boot found ≡ true → IsCrashSafe (H.view host.old) (H.view host.new) found }

    // Where nothing stands against it, the run is done.
    ensures complete { result ≢ Status.Usage → H.tells.reads → is_bootable (site_found device_count (H.view host.old).reads) ≡ true
        → NoneRose (H.view host.old) (H.view host.new) → IsComplete result }
{
    run_within(alloc, words, host, MOST_INPUT)
}
