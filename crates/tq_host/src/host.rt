ghost use Rattle.std.specs.Prelude.{◌≡◌, ◌<◌, ◌≤◌, ◌+◌, List, ℕ, length, IfOk, OnOk, OnErr, IsOk};
ghost use Rattle.tq_host.specs.View.{Told, View, IsLawful};
ghost use Rattle.tq_host.specs.Calls.{HasBytesAt, IsWritten, IsTorn, IsResized, IsPulled, Elapses, IsDeviceCall, IsStill, Attaches, Changes, Syncs, IsStreamCall, Takes, Gives, ElapsesGiving};

use thiserror::Error;

/// A call of the outside failed.
#[derive(Clone, Copy, Debug, PartialEq, Eq, Error)]
#[error("a call of the outside failed")]
pub struct Failed;

/// The outside failed under a call of a layer above it, whose device count rose.
#[derive(Clone, Copy, Debug, PartialEq, Eq, Error)]
#[error("the outside failed")]
pub struct Device;

impl From<Failed> for Device {
    ghost from_gives = { λ _ e. e ≡ record {} };

    fn from(_failed: Failed) -> Device {
        Device
    }
}

/// The outside of the program: eight devices, an input and an output, under one clock.
///
/// What is said of a call is an upper bound: each image that a stop may leave after it is an
/// image from before it after one step. A call that answers `Failed` may have done any part of
/// its work, and raised the count of its kind; it has done nothing else, so what a device reads
/// outside the bytes that the call was to change is as before, at `Failed` too.
pub trait Host {
    /// Which meanings it tells.
    ghost tells: { Told };

    /// What it tells at this moment.
    ghost view: { Self → View };

    /// Names the file of a device. A file that is absent is a failure.
    fn attach(&mut self, dev: u8, path: &str) -> Result<(), Failed>
        requires { dev < 8 }
        ensures call { IsDeviceCall result (view self.old) (view self.new) }
        ensures attached { Attaches tells dev path.now result (view self.old) (view self.new) };

    /// The device's length in bytes.
    fn length(&mut self, dev: u8) -> Result<u64, Failed>
        requires { dev < 8 }
        ensures size { IfOk result (λ n. tells.reads → n ≡ length ((view self.old).reads dev)) }
        ensures call { IsDeviceCall result (view self.old) (view self.new) }
        ensures still { IsStill (view self.old) (view self.new) };

    /// Makes the device that many bytes long, at most 268,435,456.
    fn set_length(&mut self, dev: u8, n: u64) -> Result<(), Failed>
        requires dev { dev < 8 }
        requires end { n ≤ 268435456 }
        ensures set { OnOk result (tells.reads → IsResized n ((view self.old).reads dev) ((view self.new).reads dev)) }
        ensures call { IsDeviceCall result (view self.old) (view self.new) }
        ensures change { Changes dev (IsPulled n) (view self.old) (view self.new) };

    /// Fills `into` with the bytes from that address on.
    fn read_at(&mut self, dev: u8, at: u64, into: &mut [u8]) -> Result<(), Failed>
        requires dev { dev < 8 }
        requires within { tells.reads → at + length into.old ≤ length ((view self.old).reads dev) }
        ensures bytes { OnOk result (tells.reads → HasBytesAt at into.new ((view self.old).reads dev)) }
        ensures call { IsDeviceCall result (view self.old) (view self.new) }
        ensures still { IsStill (view self.old) (view self.new) };

    /// Writes these bytes from that address on, and so makes the device longer where they end past it.
    fn write_at(&mut self, dev: u8, at: u64, from: &[u8]) -> Result<(), Failed>
        requires dev { dev < 8 }
        requires end { at + length from.now ≤ 268435456 }
        requires begin { tells.reads → at ≤ length ((view self.old).reads dev) }
        ensures written { OnOk result (tells.reads → IsWritten at from.now ((view self.old).reads dev) ((view self.new).reads dev)) }
        ensures call { IsDeviceCall result (view self.old) (view self.new) }
        ensures change { Changes dev (IsTorn at (length from.now)) (view self.old) (view self.new) };

    /// Makes what the device reads what a stop leaves.
    fn sync(&mut self, dev: u8) -> Result<(), Failed>
        requires { dev < 8 }
        ensures durable { OnOk result (Syncs dev (view self.old) (view self.new)) }
        ensures call { IsDeviceCall result (view self.old) (view self.new) }
        ensures still { IsStill (view self.old) (view self.new) };

    /// Fills a first part of `into` with the next bytes of the script. 0 is the script's end.
    fn take(&mut self, into: &mut [u8]) -> Result<usize, Failed>
        requires { 0 < length into.old }
        ensures call { IsStreamCall result (view self.old) (view self.new) }
        ensures took { Takes tells result into.new (view self.old).streams (view self.new).streams }
        ensures time { Elapses (view self.old) (view self.new) };

    /// Adds these bytes to the output.
    fn give(&mut self, from: &[u8]) -> Result<(), Failed>
        ensures call { IsStreamCall result (view self.old) (view self.new) }
        ensures gave { Gives tells result from.now (view self.old) (view self.new) }
        ensures time { ElapsesGiving from.now (view self.old) (view self.new) };

    ghost lawful: { (host : Self) → IsLawful tells (view host) };
}
