ghost use Rattle.std.specs.Prelude.{◌≡◌, ◌<◌, ◌≤◌, ◌+◌, length, IfOk, OnOk, OnErr};
ghost use Rattle.tq_host.specs.declared.counts.Part.TheVariants.{Devices, Input, Output};
ghost use Rattle.tq_host.specs.Counts.{no_faults, NoneFalls};
ghost use Rattle.tq_host.specs.Calls.{HasBytesAt, IsWritten, IsTorn, IsResized, IsPulled, Elapses, IsDeviceCall, IsStill, Attaches, Changes, Syncs, IsStreamCall, Takes, Gives, ElapsesGiving};

use crate::counts::{Counts, Part};
use crate::{Failed, Host};

/// The calls that are left, and those that failed because none was.
#[derive(Clone, Copy, Debug, PartialEq, Eq)]
pub struct Fuse {
    pub left: u64,
    pub failed: Counts,
    ghost whole: { 0 < left → failed ≡ no_faults },
}

impl Fuse {
    ghost use Rattle.tq_host.specs.Fused.{IsPassed, IsBlown};

    // Uses up one call, or fails it where none is left.
    fn pass(&mut self, part: Part) -> Result<(), Failed>
        ensures passed { OnOk result (IsPassed self.old self.new) }
        ensures blown { OnErr result (IsBlown part self.old self.new) }
        ensures grown { NoneFalls self.old.failed self.new.failed }
    {
        if self.left == 0 {
            self.failed.raise(part);
            return Err(Failed);
        }
        self.left -= 1;
        Ok(())
    }
}

/// Passes a number of calls on to a host, and fails all later ones. It takes no memory.
///
/// A call that it fails does nothing, raises the count of its kind and leaves the clock.
#[derive(Drop)]
pub struct FuseHost<H> {
    inner: H,
    fuse: Fuse,
}

impl<H: Host> FuseHost<H> {
    /// Passes that many calls on.
    pub fn new(inner: H, calls: u64) -> FuseHost<H>
        ensures inner { result.inner ≡ inner }
        ensures left { result.fuse.left ≡ calls }
        ensures failed { result.fuse.failed ≡ no_faults }
    {
        FuseHost {
            inner,
            fuse: Fuse {
                left: calls,
                failed: Counts::none(),
            },
        }
    }

    /// The host inside, as the calls that were passed on left it.
    pub fn into_inner(self) -> H
        ensures { result ≡ self.inner }
    {
        self.inner
    }
}

impl<H: Host> Host for FuseHost<H> {
    ghost use Rattle.tq_host.specs.Fused.{fused, fused_view, fused_lawful, IsFused};

    ghost tells = { H.tells };

    ghost view = { λ f. fused (H.view f.inner) f.fuse.failed };

    ghost lawful = { λ f. fused_lawful H.tells (H.view f.inner) f.fuse.failed (H.lawful f.inner) };

    fn attach(&mut self, dev: u8, path: &str) -> Result<(), Failed>
        requires { dev < 8 }
        ensures call { IsDeviceCall result (fused_view H.view self.old) (fused_view H.view self.new) }
        ensures attached { Attaches H.tells dev path.now result (fused_view H.view self.old) (fused_view H.view self.new) }
        ensures fuse { IsFused Devices result self.old self.new }
    {
        self.fuse.pass(Part::Devices)?;
        self.inner.attach(dev, path)
    }

    fn length(&mut self, dev: u8) -> Result<u64, Failed>
        requires { dev < 8 }
        ensures size { IfOk result (λ n. H.tells.reads → n ≡ length ((fused_view H.view self.old).reads dev)) }
        ensures call { IsDeviceCall result (fused_view H.view self.old) (fused_view H.view self.new) }
        ensures still { IsStill (fused_view H.view self.old) (fused_view H.view self.new) }
        ensures fuse { IsFused Devices result self.old self.new }
    {
        self.fuse.pass(Part::Devices)?;
        self.inner.length(dev)
    }

    fn set_length(&mut self, dev: u8, n: u64) -> Result<(), Failed>
        requires dev { dev < 8 }
        requires end { n ≤ 268435456 }
        ensures set { OnOk result (H.tells.reads → IsResized n ((fused_view H.view self.old).reads dev) ((fused_view H.view self.new).reads dev)) }
        ensures call { IsDeviceCall result (fused_view H.view self.old) (fused_view H.view self.new) }
        ensures change { Changes dev (IsPulled n) (fused_view H.view self.old) (fused_view H.view self.new) }
        ensures fuse { IsFused Devices result self.old self.new }
    {
        self.fuse.pass(Part::Devices)?;
        self.inner.set_length(dev, n)
    }

    fn read_at(&mut self, dev: u8, at: u64, into: &mut [u8]) -> Result<(), Failed>
        requires dev { dev < 8 }
        requires within { H.tells.reads → at + length into.old ≤ length ((fused_view H.view self.old).reads dev) }
        ensures bytes { OnOk result (H.tells.reads → HasBytesAt at into.new ((fused_view H.view self.old).reads dev)) }
        ensures call { IsDeviceCall result (fused_view H.view self.old) (fused_view H.view self.new) }
        ensures still { IsStill (fused_view H.view self.old) (fused_view H.view self.new) }
        ensures fuse { IsFused Devices result self.old self.new }
    {
        self.fuse.pass(Part::Devices)?;
        self.inner.read_at(dev, at, into)
    }

    fn write_at(&mut self, dev: u8, at: u64, from: &[u8]) -> Result<(), Failed>
        requires dev { dev < 8 }
        requires end { at + length from.now ≤ 268435456 }
        requires begin { H.tells.reads → at ≤ length ((fused_view H.view self.old).reads dev) }
        ensures written { OnOk result (H.tells.reads
            → IsWritten at from.now ((fused_view H.view self.old).reads dev) ((fused_view H.view self.new).reads dev)) }
        ensures call { IsDeviceCall result (fused_view H.view self.old) (fused_view H.view self.new) }
        ensures change { Changes dev (IsTorn at (length from.now)) (fused_view H.view self.old) (fused_view H.view self.new) }
        ensures fuse { IsFused Devices result self.old self.new }
    {
        self.fuse.pass(Part::Devices)?;
        self.inner.write_at(dev, at, from)
    }

    fn sync(&mut self, dev: u8) -> Result<(), Failed>
        requires { dev < 8 }
        ensures durable { OnOk result (Syncs dev (fused_view H.view self.old) (fused_view H.view self.new)) }
        ensures call { IsDeviceCall result (fused_view H.view self.old) (fused_view H.view self.new) }
        ensures still { IsStill (fused_view H.view self.old) (fused_view H.view self.new) }
        ensures fuse { IsFused Devices result self.old self.new }
    {
        self.fuse.pass(Part::Devices)?;
        self.inner.sync(dev)
    }

    fn take(&mut self, into: &mut [u8]) -> Result<usize, Failed>
        requires { 0 < length into.old }
        ensures call { IsStreamCall result (fused_view H.view self.old) (fused_view H.view self.new) }
        ensures took { Takes H.tells result into.new (fused_view H.view self.old).streams (fused_view H.view self.new).streams }
        ensures time { Elapses (fused_view H.view self.old) (fused_view H.view self.new) }
        ensures fuse { IsFused Input result self.old self.new }
    {
        self.fuse.pass(Part::Input)?;
        self.inner.take(into)
    }

    fn give(&mut self, from: &[u8]) -> Result<(), Failed>
        ensures call { IsStreamCall result (fused_view H.view self.old) (fused_view H.view self.new) }
        ensures gave { Gives H.tells result from.now (fused_view H.view self.old) (fused_view H.view self.new) }
        ensures time { ElapsesGiving from.now (fused_view H.view self.old) (fused_view H.view self.new) }
        ensures fuse { IsFused Output result self.old self.new }
    {
        self.fuse.pass(Part::Output)?;
        self.inner.give(from)
    }
}
