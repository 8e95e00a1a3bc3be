ghost use Rattle.std.specs.Prelude.{◌≡◌, ◌≤◌, ◌<◌, ◌+◌, ◌-◌, ◌^◌, [], ◌∷◌, ◌++◌, ℕ, List, length, min, OnOk, IfOk, OnErr};
ghost use Rattle.tq_host.specs.declared.counts.Part.TheVariants.{Devices, Input, Output};
ghost use Rattle.tq_host.specs.declared.kind.CallKind.TheVariants as kind;
ghost use Rattle.tq_host.specs.declared.plan.Planned.TheVariants.{Call, OfKind};
ghost use Rattle.tq_host.specs.Counts.{no_faults};
ghost use Rattle.tq_host.specs.Plan.{made_of, IsPlanSame, IsPlanAdded};
ghost use Rattle.tq_host.specs.Calls.{HasBytesAt, IsWritten, IsTorn, IsResized, IsPulled, Elapses, IsDeviceCall, IsStill, Attaches, Changes, Syncs, IsStreamCall, Takes, Gives, ElapsesGiving};
ghost use Rattle.tq_host.specs.Events.{load, write, lost_write, resize, lost_resize, sync, attach, take_some, give_all, pass};
ghost use Rattle.tq_host.specs.Account.{everything, view_of};
ghost use Rattle.tq_host.specs.Outside.{account_of};
ghost use Rattle.tq_host.specs.Lawful.{account_lawful};

use crate::outside::Outside;
use crate::plan::Plan;
use crate::{CallKind, Failed, Host};
use std::alloc::{AllocError, Global};

/// An outside in memory, which tells everything and can be made to fail.
///
/// It records all calls, with their bytes; what it tells follows from the record. A call that
/// finds no memory for its own record fails, and nothing is changed by it.
#[derive(Drop)]
pub struct MemHost {
    outside: Outside,
    plan: Plan,
    piece: usize,
    ghost some: { 0 < piece },
}

impl MemHost {
    ghost use Rattle.tq_host.specs.Memory.{mem_view_of, mem_account_of, IsFirst, IsLoaded};

    /// Eight empty devices, this input, and at most `piece` bytes a take.
    pub fn new(alloc: Global, script: &[u8], piece: usize) -> Result<MemHost, AllocError>
        requires { 0 < piece }
        ensures first { IfOk result (λ m. IsFirst script.now (mem_view_of m)) }
        ensures empty { IfOk result (λ m. mem_account_of m ≡ record { script = script.now; events = []; counts = no_faults }) }
        ensures piece { IfOk result (λ m. m.piece ≡ piece) }
        ensures calls { IfOk result (λ m. (m.plan.made ≡ 0) × (m.plan.planned.items ≡ [])) }
    {
        let outside = Outside::new(alloc, script)?;
        Ok(MemHost {
            outside,
            plan: Plan::new(alloc),
            piece,
        })
    }

    /// Makes these bytes the device's content, with nothing pending. Nothing is changed where
    /// there is no memory for it.
    pub fn set_device(&mut self, dev: u8, image: &[u8]) -> Result<(), AllocError>
        requires { dev < 8 }
        ensures loaded { OnOk result (IsLoaded dev image.now (mem_view_of self.old) (mem_view_of self.new)) }
        ensures recorded { OnOk result (mem_account_of self.new ≡ record (mem_account_of self.old)
            { events = (mem_account_of self.old).events ++ load dev image.now ∷ [] }) }
        ensures err { OnErr result (mem_account_of self.new ≡ mem_account_of self.old) }
        ensures plan { (self.new.plan ≡ self.old.plan) × (self.new.piece ≡ self.old.piece) }
    {
        self.outside.load(dev, image)
    }

    /// That call of the trait, counted from 0, the first one after `new`, is to fail.
    pub fn fail_at(&mut self, call: u64) -> Result<(), AllocError>
        ensures ok { OnOk result (IsPlanAdded (Call call) self.old.plan self.new.plan) }
        ensures err { OnErr result (IsPlanSame self.old.plan self.new.plan) }
        ensures same { (self.new.outside ≡ self.old.outside) × (self.new.piece ≡ self.old.piece) }
    {
        self.plan.fail_at(call)
    }

    /// The `nth` call of that kind from now on, counted from 0 over all devices, is to fail. One
    /// past 2^64 - 1 calls never comes.
    pub fn fail_kind(&mut self, kind: CallKind, nth: u64) -> Result<(), AllocError>
        ensures ok { OnOk result (made_of self.old.plan kind + nth < 2 ^ 64
            → IsPlanAdded (OfKind kind (made_of self.old.plan kind + nth)) self.old.plan self.new.plan) }
        ensures late { OnOk result (2 ^ 64 ≤ made_of self.old.plan kind + nth → IsPlanSame self.old.plan self.new.plan) }
        ensures err { OnErr result (IsPlanSame self.old.plan self.new.plan) }
        ensures same { (self.new.outside ≡ self.old.outside) × (self.new.piece ≡ self.old.piece) }
    {
        self.plan.fail_kind(kind, nth)
    }

    /// The output so far.
    pub fn output(&self) -> &[u8]
        ensures { result.now ≡ (mem_view_of self.now).streams.output }
    {
        &self.outside.output
    }

    /// What the device reads.
    pub fn image(&self, dev: u8) -> &[u8]
        requires { dev < 8 }
        ensures { result.now ≡ (mem_view_of self.now).reads dev }
    {
        &self.outside.devices[dev as usize]
    }
}

impl Host for MemHost {
    ghost use Rattle.tq_host.specs.Memory.{mem_view_of, IsMade};

    ghost tells = { everything };

    ghost view = { λ m. view_of (account_of m.outside) };

    ghost lawful = { λ m. account_lawful m.outside.script.items m.outside.calls.items m.outside.counts m.outside.fine m.outside.small };

    fn attach(&mut self, dev: u8, path: &str) -> Result<(), Failed>
        requires { dev < 8 }
        ensures call { IsDeviceCall result (mem_view_of self.old) (mem_view_of self.new) }
        ensures attached { Attaches everything dev path.now result (mem_view_of self.old) (mem_view_of self.new) }
        ensures made { IsMade Devices kind.Attach result (λ _. attach dev path.now) (pass kind.Attach) self.old self.new }
    {
        let fails = self.plan.make(CallKind::Attach);
        self.outside.attach(dev, path, fails)
    }

    fn length(&mut self, dev: u8) -> Result<u64, Failed>
        requires { dev < 8 }
        ensures size { IfOk result (λ n. everything.reads → n ≡ length ((mem_view_of self.old).reads dev)) }
        ensures call { IsDeviceCall result (mem_view_of self.old) (mem_view_of self.new) }
        ensures still { IsStill (mem_view_of self.old) (mem_view_of self.new) }
        ensures made { IsMade Devices kind.Length result (λ _. pass kind.Length) (pass kind.Length) self.old self.new }
    {
        let fails = self.plan.make(CallKind::Length);
        self.outside.size(dev, fails)
    }

    fn set_length(&mut self, dev: u8, n: u64) -> Result<(), Failed>
        requires dev { dev < 8 }
        requires end { n ≤ 268435456 }
        ensures set { OnOk result (everything.reads → IsResized n ((mem_view_of self.old).reads dev) ((mem_view_of self.new).reads dev)) }
        ensures call { IsDeviceCall result (mem_view_of self.old) (mem_view_of self.new) }
        ensures change { Changes dev (IsPulled n) (mem_view_of self.old) (mem_view_of self.new) }
        ensures made { IsMade Devices kind.SetLength result (λ _. resize dev n) (lost_resize dev n) self.old self.new }
    {
        let fails = self.plan.make(CallKind::SetLength);
        self.outside.resize(dev, n as usize, fails)
    }

    fn read_at(&mut self, dev: u8, at: u64, into: &mut [u8]) -> Result<(), Failed>
        requires dev { dev < 8 }
        requires within { everything.reads → at + length into.old ≤ length ((mem_view_of self.old).reads dev) }
        ensures bytes { OnOk result (everything.reads → HasBytesAt at into.new ((mem_view_of self.old).reads dev)) }
        ensures call { IsDeviceCall result (mem_view_of self.old) (mem_view_of self.new) }
        ensures still { IsStill (mem_view_of self.old) (mem_view_of self.new) }
        ensures made { IsMade Devices kind.Read result (λ _. pass kind.Read) (pass kind.Read) self.old self.new }
    {
        let fails = self.plan.make(CallKind::Read);
        self.outside.read(dev, at as usize, into, fails)
    }

    fn write_at(&mut self, dev: u8, at: u64, from: &[u8]) -> Result<(), Failed>
        requires dev { dev < 8 }
        requires end { at + length from.now ≤ 268435456 }
        requires begin { everything.reads → at ≤ length ((mem_view_of self.old).reads dev) }
        ensures written { OnOk result (everything.reads → IsWritten at from.now ((mem_view_of self.old).reads dev) ((mem_view_of self.new).reads dev)) }
        ensures call { IsDeviceCall result (mem_view_of self.old) (mem_view_of self.new) }
        ensures change { Changes dev (IsTorn at (length from.now)) (mem_view_of self.old) (mem_view_of self.new) }
        ensures made { IsMade Devices kind.Write result (λ _. write dev at from.now) (lost_write dev at from.now) self.old self.new }
    {
        let fails = self.plan.make(CallKind::Write);
        self.outside.write(dev, at as usize, from, fails)
    }

    fn sync(&mut self, dev: u8) -> Result<(), Failed>
        requires { dev < 8 }
        ensures durable { OnOk result (Syncs dev (mem_view_of self.old) (mem_view_of self.new)) }
        ensures call { IsDeviceCall result (mem_view_of self.old) (mem_view_of self.new) }
        ensures still { IsStill (mem_view_of self.old) (mem_view_of self.new) }
        ensures made { IsMade Devices kind.Sync result (λ _. sync dev) (pass kind.Sync) self.old self.new }
    {
        let fails = self.plan.make(CallKind::Sync);
        self.outside.sync(dev, fails)
    }

    fn take(&mut self, into: &mut [u8]) -> Result<usize, Failed>
        requires { 0 < length into.old }
        ensures call { IsStreamCall result (mem_view_of self.old) (mem_view_of self.new) }
        ensures took { Takes everything result into.new (mem_view_of self.old).streams (mem_view_of self.new).streams }
        ensures time { Elapses (mem_view_of self.old) (mem_view_of self.new) }
        ensures made { IsMade Input kind.Take result take_some (pass kind.Take) self.old self.new }
        ensures count { IfOk result (λ n. n ≡ min (min (length into.old) self.old.piece) (length (mem_view_of self.old).streams.script)) }
    {
        let fails = self.plan.make(CallKind::Take);
        self.outside.take(into, self.piece, fails)
    }

    fn give(&mut self, from: &[u8]) -> Result<(), Failed>
        ensures call { IsStreamCall result (mem_view_of self.old) (mem_view_of self.new) }
        ensures gave { Gives everything result from.now (mem_view_of self.old) (mem_view_of self.new) }
        ensures time { ElapsesGiving from.now (mem_view_of self.old) (mem_view_of self.new) }
        ensures made { IsMade Output kind.Give result (λ _. give_all from.now (mem_view_of self.old).clock self.old.outside.counts.device)
            (pass kind.Give) self.old self.new }
    {
        let fails = self.plan.make(CallKind::Give);
        self.outside.give(from, fails)
    }
}
