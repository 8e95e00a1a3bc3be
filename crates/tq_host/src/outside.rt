ghost use Rattle.std.specs.Prelude.{◌≡◌, [], ◌<◌, ◌≤◌, ◌-◌, length, min, take, drop, IfOk, IsTrue, IsErr};
ghost use Rattle.tq_host.specs.declared.call.Call.{Call};
ghost use Rattle.tq_host.specs.declared.kind.CallKind.{CallKind};
ghost use Rattle.tq_host.specs.declared.kind.CallKind.TheVariants as kind;
ghost use Rattle.tq_host.specs.declared.counts.Part.TheVariants.{Devices, Input, Output};
ghost use Rattle.tq_host.specs.Counts.{no_faults};
ghost use Rattle.tq_host.specs.View.{last_count};
ghost use Rattle.tq_host.specs.Events.{Event, event_of, events_of, load, write, lost_write, resize, lost_resize, sync, attach, take_some, give_all, pass, State, blank, step, replay, IsFine, Shows, LeadsTo, LeavesAll};
ghost use Rattle.tq_host.specs.Account.{Account, IsKept, IsRecorded};

use crate::call::Call;
use crate::contents::{empty_devices, overwritten, push_call, resized};
use crate::counts::{Counts, Part};
use crate::{CallKind, Failed};
use std::alloc::{AllocError, Global};

/// The devices, the input and the output, with all calls that led to them.
#[derive(Drop)]
pub struct Outside {
    pub alloc: Global,
    pub devices: Vec<Vec<u8>>,
    pub script: Vec<u8>,
    pub taken: usize,
    pub output: Vec<u8>,
    pub calls: Vec<Call>,
    pub counts: Counts,
    ghost eight: { length devices.items ≡ 8 },
    ghost shows: { Shows devices.items (replay blank (events_of calls.items)) },
    ghost fine: { IsFine (replay blank (events_of calls.items)) },
    ghost gave: { output.items ≡ (replay blank (events_of calls.items)).output },
    ghost took: { taken ≡ (replay blank (events_of calls.items)).taken },
    ghost within: { taken ≤ length script.items },
    ghost small: { length calls.items < last_count },
}

impl Outside {
    ghost use Rattle.tq_host.specs.Outside.{account_of, state_of};

    /// Eight empty devices, this script, and no output.
    pub fn new(alloc: Global, script: &[u8]) -> Result<Outside, AllocError>
        ensures { IfOk result (λ o. account_of o ≡ record { script = script.now; events = []; counts = no_faults }) }
    {
        let devices = empty_devices(alloc)?;
        let script = script.to_vec(alloc)?;
        Ok(Outside {
            alloc,
            devices,
            script,
            taken: 0,
            output: Vec::new(alloc),
            calls: Vec::new(alloc),
            counts: Counts::none(),
        })
    }

    // One more call, after which this device reads these bytes.
    fn keep(&mut self, dev: u8, call: Call, next: Vec<u8>) -> Result<(), AllocError>
        requires dev { dev < 8 }
        requires leads { LeadsTo dev next.items (state_of self.old) (step (event_of call) (state_of self.old)) }
        ensures { IsKept (event_of call) result (account_of self.old) (account_of self.new) }
    {
        push_call(&mut self.calls, call)?;
        self.devices[dev as usize] = next;
        Ok(())
    }

    // One more call, after which all that is read, taken and given is as before.
    fn note(&mut self, call: Call) -> Result<(), AllocError>
        requires { LeavesAll (state_of self.old) (step (event_of call) (state_of self.old)) }
        ensures kept { IsKept (event_of call) result (account_of self.old) (account_of self.new) }
        ensures devices { self.new.devices ≡ self.old.devices }
    {
        push_call(&mut self.calls, call)?;
        Ok(())
    }

    pub fn keep_write(&mut self, dev: u8, at: usize, from: &[u8]) -> Result<(), AllocError>
        requires dev { dev < 8 }
        requires begin { at ≤ length ((state_of self.old).disks dev).seen }
        ensures { IsKept (write dev at from.now) result (account_of self.old) (account_of self.new) }
    {
        let next = overwritten(self.alloc, &self.devices[dev as usize], at, from)?;
        let bytes = from.to_vec(self.alloc)?;
        self.keep(dev, Call::Write(dev, at as u64, bytes), next)
    }

    pub fn keep_lost_write(&mut self, dev: u8, at: usize, from: &[u8]) -> Result<(), AllocError>
        ensures { IsKept (lost_write dev at from.now) result (account_of self.old) (account_of self.new) }
    {
        let bytes = from.to_vec(self.alloc)?;
        self.note(Call::LostWrite(dev, at as u64, bytes))
    }

    pub fn keep_size(&mut self, dev: u8, n: usize) -> Result<(), AllocError>
        requires { dev < 8 }
        ensures { IsKept (resize dev n) result (account_of self.old) (account_of self.new) }
    {
        let next = resized(self.alloc, &self.devices[dev as usize], n)?;
        self.keep(dev, Call::Resize(dev, n as u64), next)
    }

    pub fn keep_lost_size(&mut self, dev: u8, n: usize) -> Result<(), AllocError>
        ensures { IsKept (lost_resize dev n) result (account_of self.old) (account_of self.new) }
    {
        self.note(Call::LostResize(dev, n as u64))
    }

    pub fn keep_sync(&mut self, dev: u8) -> Result<(), AllocError>
        ensures { IsKept (sync dev) result (account_of self.old) (account_of self.new) }
    {
        self.note(Call::Sync(dev))
    }

    pub fn keep_attach(&mut self, dev: u8, path: &str) -> Result<(), AllocError>
        ensures { IsKept (attach dev path.now) result (account_of self.old) (account_of self.new) }
    {
        let bytes = path.as_bytes().to_vec(self.alloc)?;
        self.note(Call::Attach(dev, bytes))
    }

    pub fn keep_pass(&mut self, kind: CallKind) -> Result<(), AllocError>
        ensures kept { IsKept (pass kind) result (account_of self.old) (account_of self.new) }
        ensures devices { self.new.devices ≡ self.old.devices }
    {
        self.note(Call::Pass(kind))
    }

    pub fn keep_take(&mut self, count: usize) -> Result<(), AllocError>
        requires { count ≤ length self.old.script.items - self.old.taken }
        ensures kept { IsKept (take_some count) result (account_of self.old) (account_of self.new) }
    {
        push_call(&mut self.calls, Call::Take(count))?;
        self.taken += count;
        Ok(())
    }

    pub fn keep_give(&mut self, from: &[u8]) -> Result<(), AllocError>
        ensures { IsKept (give_all from.now (length (account_of self.old).events) self.old.counts.device) result (account_of self.old) (account_of self.new) }
    {
        let bytes = from.to_vec(self.alloc)?;
        let mut output = self.output.as_slice().to_vec(self.alloc)?;
        output.extend_from_slice(from)?;
        let clock = self.calls.len() as u64;
        let call = Call::Give(bytes, clock, self.counts.device);
        push_call(&mut self.calls, call)?;
        self.output = output;
        Ok(())
    }

    /// Makes these bytes the device's content, with nothing pending.
    pub fn load(&mut self, dev: u8, image: &[u8]) -> Result<(), AllocError>
        requires { dev < 8 }
        ensures { IsKept (load dev image.now) result (account_of self.old) (account_of self.new) }
    {
        let next = image.to_vec(self.alloc)?;
        let kept = image.to_vec(self.alloc)?;
        self.keep(dev, Call::Load(dev, kept), next)
    }
}
