//! The host over files, which `run` takes for the outside.
ghost use Rattle.std.specs.Prelude.{◌≡◌, is_some, nat_lt};
ghost use Rattle.tq_files.specs.Told.{fresh, nothing, file_view, file_lawful};

use crate::account::Account;
use crate::devices::Devices;
use crate::failures::DeviceFailure;
use crate::part::Part;
use std::io;
use std::io::{Read, Write};
use tq_host::{Failed, Host};

/// The outside over files, standard input and standard output. It tells its clock and its counts
/// of failed calls, and nothing of its content. Of each kind of call it keeps why the first one
/// that failed did so, for a message to the user.
#[derive(Drop)]
pub struct FileHost {
    rt: HostRuntime,
    devices: Devices,
    account: Account,
}

impl FileHost {
    /// No device is attached, and no call was made.
    pub fn new(rt: HostRuntime) -> FileHost
        ensures { result.account.tally ≡ fresh }
    {
        FileHost {
            rt,
            devices: Devices::none(),
            account: Account::new(),
        }
    }

    /// The path by which a device was last asked for, where there was memory to keep it. None has a
    /// number above 7.
    pub fn path(&self, dev: u8) -> Option<&str> {
        self.devices.path(dev)
    }

    /// Why the first failed call on a device failed, where one did.
    pub fn device_failure(&self) -> Option<DeviceFailure>
        ensures first { result ≡ self.now.account.first.device }
        ensures failed { is_some result ≡ nat_lt 0 self.now.account.tally.device }
    {
        self.account.first.device
    }

    /// Why the first failed read of the input failed, where one did.
    pub fn input_failure(&self) -> Option<io::Error>
        ensures first { result ≡ self.now.account.first.input }
        ensures failed { is_some result ≡ nat_lt 0 self.now.account.tally.input }
    {
        self.account.first.input
    }

    /// Why the first failed write of the output failed, where one did.
    pub fn output_failure(&self) -> Option<io::Error>
        ensures first { result ≡ self.now.account.first.output }
        ensures failed { is_some result ≡ nat_lt 0 self.now.account.tally.output }
    {
        self.account.first.output
    }
}

/// A call on a device that is not attached fails.
impl Host for FileHost {
    ghost tells = { nothing };

    ghost view = { λ h. file_view h.account.tally };

    ghost lawful = { λ h. file_lawful h.account.tally };

    /// The file has to be there, and to be had: from now on no other run and no other device has it.
    fn attach(&mut self, dev: u8, path: &str) -> Result<(), Failed> {
        let done = self.devices.attach(self.rt, dev, path);
        self.account.count(Part::Device(dev), done)
    }

    fn length(&mut self, dev: u8) -> Result<u64, Failed> {
        let done = self.devices.length(dev);
        self.account.count(Part::Device(dev), done)
    }

    fn set_length(&mut self, dev: u8, n: u64) -> Result<(), Failed> {
        let done = self.devices.set_length(dev, n);
        self.account.count(Part::Device(dev), done)
    }

    fn read_at(&mut self, dev: u8, at: u64, into: &mut [u8]) -> Result<(), Failed> {
        let done = self.devices.read_at(dev, at, into);
        self.account.count(Part::Device(dev), done)
    }

    fn write_at(&mut self, dev: u8, at: u64, from: &[u8]) -> Result<(), Failed> {
        let done = self.devices.write_at(dev, at, from);
        self.account.count(Part::Device(dev), done)
    }

    fn sync(&mut self, dev: u8) -> Result<(), Failed> {
        let done = self.devices.sync(dev);
        self.account.count(Part::Device(dev), done)
    }

    /// One read of standard input.
    fn take(&mut self, into: &mut [u8]) -> Result<usize, Failed> {
        let done = self.rt.stdin().read(into);
        self.account.count(Part::Input, done)
    }

    /// The bytes have left the program when this answers Ok.
    fn give(&mut self, from: &[u8]) -> Result<(), Failed> {
        let done = self.rt.stdout().write_all(from);
        self.account.count(Part::Output, done)
    }
}
