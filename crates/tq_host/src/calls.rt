ghost use Rattle.std.specs.Prelude.{◌≡◌, ◌<◌, ◌≤◌, ◌+◌, ◌-◌, length, min, take, drop, ◌++◌, IfOk, OnOk, IsTrue, IsErr};
ghost use Rattle.tq_host.specs.declared.counts.Part.TheVariants.{Devices, Input, Output};
ghost use Rattle.tq_host.specs.declared.kind.CallKind.TheVariants as kind;
ghost use Rattle.tq_host.specs.Counts.{raised, NoneFalls};
ghost use Rattle.tq_host.specs.Calls.{HasBytesAt};
ghost use Rattle.tq_host.specs.Events.{write, lost_write, resize, lost_resize, sync, attach, take_some, give_all, pass};
ghost use Rattle.tq_host.specs.Account.{IsRecorded};
ghost use Rattle.tq_host.specs.Outside.{account_of, state_of};

use crate::counts::Part;
use crate::outside::Outside;
use crate::{CallKind, Failed};

impl Outside {
    // The call failed, with nothing more done.
    fn fail<T>(&mut self, part: Part) -> Result<T, Failed>
        ensures account { account_of self.new ≡ record (account_of self.old) { counts = raised part self.old.counts } }
        ensures grown { NoneFalls self.old.counts self.new.counts }
        ensures devices { self.new.devices ≡ self.old.devices }
        ensures err { IsErr result }
    {
        self.counts.raise(part);
        Err(Failed)
    }

    /// A call that only reads.
    pub fn look(&mut self, kind: CallKind, fails: bool) -> Result<(), Failed>
        ensures recorded { IsRecorded Devices result (λ _. pass kind) (pass kind) (account_of self.old) (account_of self.new) }
        ensures planned { IsTrue fails → IsErr result }
        ensures devices { self.new.devices ≡ self.old.devices }
    {
        if self.keep_pass(kind).is_err() || fails {
            return self.fail(Part::Devices);
        }
        Ok(())
    }

    /// The device's length.
    pub fn size(&mut self, dev: u8, fails: bool) -> Result<u64, Failed>
        requires { dev < 8 }
        ensures recorded { IsRecorded Devices result (λ _. pass kind.Length) (pass kind.Length) (account_of self.old) (account_of self.new) }
        ensures planned { IsTrue fails → IsErr result }
        ensures size { IfOk result (λ n. n ≡ length ((state_of self.old).disks dev).seen) }
    {
        self.look(CallKind::Length, fails)?;
        Ok(self.devices[dev as usize].len() as u64)
    }

    /// Reads the bytes from that address on.
    pub fn read(&mut self, dev: u8, at: usize, into: &mut [u8], fails: bool) -> Result<(), Failed>
        requires dev { dev < 8 }
        requires within { at + length into.old ≤ length ((state_of self.old).disks dev).seen }
        ensures recorded { IsRecorded Devices result (λ _. pass kind.Read) (pass kind.Read) (account_of self.old) (account_of self.new) }
        ensures planned { IsTrue fails → IsErr result }
        ensures bytes { OnOk result (HasBytesAt at into.new ((state_of self.old).disks dev).seen) }
    {
        self.look(CallKind::Read, fails)?;
        into.copy_from_slice(&self.devices[dev as usize][at..at + into.len()]);
        Ok(())
    }

    pub fn write(&mut self, dev: u8, at: usize, from: &[u8], fails: bool) -> Result<(), Failed>
        requires dev { dev < 8 }
        requires begin { at ≤ length ((state_of self.old).disks dev).seen }
        ensures recorded { IsRecorded Devices result (λ _. write dev at from.now) (lost_write dev at from.now) (account_of self.old) (account_of self.new) }
        ensures planned { IsTrue fails → IsErr result }
    {
        if fails {
            let _kept = self.keep_lost_write(dev, at, from).is_ok();
            return self.fail(Part::Devices);
        }
        if self.keep_write(dev, at, from).is_err() {
            return self.fail(Part::Devices);
        }
        Ok(())
    }

    pub fn resize(&mut self, dev: u8, n: usize, fails: bool) -> Result<(), Failed>
        requires { dev < 8 }
        ensures recorded { IsRecorded Devices result (λ _. resize dev n) (lost_resize dev n) (account_of self.old) (account_of self.new) }
        ensures planned { IsTrue fails → IsErr result }
    {
        if fails {
            let _kept = self.keep_lost_size(dev, n).is_ok();
            return self.fail(Part::Devices);
        }
        if self.keep_size(dev, n).is_err() {
            return self.fail(Part::Devices);
        }
        Ok(())
    }

    pub fn attach(&mut self, dev: u8, path: &str, fails: bool) -> Result<(), Failed>
        ensures recorded { IsRecorded Devices result (λ _. attach dev path.now) (pass kind.Attach) (account_of self.old) (account_of self.new) }
        ensures planned { IsTrue fails → IsErr result }
    {
        if fails {
            let _kept = self.keep_pass(CallKind::Attach).is_ok();
            return self.fail(Part::Devices);
        }
        if self.keep_attach(dev, path).is_err() {
            return self.fail(Part::Devices);
        }
        Ok(())
    }

    pub fn sync(&mut self, dev: u8, fails: bool) -> Result<(), Failed>
        ensures recorded { IsRecorded Devices result (λ _. sync dev) (pass kind.Sync) (account_of self.old) (account_of self.new) }
        ensures planned { IsTrue fails → IsErr result }
    {
        if fails {
            let _kept = self.keep_pass(CallKind::Sync).is_ok();
            return self.fail(Part::Devices);
        }
        if self.keep_sync(dev).is_err() {
            return self.fail(Part::Devices);
        }
        Ok(())
    }

    /// Takes the next bytes of the script, as many as there are, at most `most` and at most as many as `into` holds.
    pub fn take(&mut self, into: &mut [u8], most: usize, fails: bool) -> Result<usize, Failed>
        ensures recorded { IsRecorded Input result take_some (pass kind.Take) (account_of self.old) (account_of self.new) }
        ensures planned { IsTrue fails → IsErr result }
        ensures count { IfOk result (λ n. n ≡ min (min (length into.old) most) (length self.old.script.items - self.old.taken)) }
        ensures bytes { IfOk result (λ n. into.new ≡ take n (drop self.old.taken self.old.script.items) ++ drop n into.old) }
    {
        if fails {
            let _kept = self.keep_pass(CallKind::Take).is_ok();
            return self.fail(Part::Input);
        }
        let from = self.taken;
        let count = into.len().min(most).min(self.script.len() - from);
        if self.keep_take(count).is_err() {
            return self.fail(Part::Input);
        }
        into[..count].copy_from_slice(&self.script[from..from + count]);
        Ok(count)
    }

    pub fn give(&mut self, from: &[u8], fails: bool) -> Result<(), Failed>
        ensures recorded { IsRecorded Output result (λ _. give_all from.now (length (account_of self.old).events) self.old.counts.device)
            (pass kind.Give) (account_of self.old) (account_of self.new) }
        ensures planned { IsTrue fails → IsErr result }
    {
        if fails {
            let _kept = self.keep_pass(CallKind::Give).is_ok();
            return self.fail(Part::Output);
        }
        if self.keep_give(from).is_err() {
            return self.fail(Part::Output);
        }
        Ok(())
    }
}
