//! The files of the devices: attached and locked, read and written at addresses, synced.
ghost use Rattle.std.specs.Prelude.{◌<◌};

use std::fs::{File, OpenOptions, TryLockError};
use std::io;
use std::os::unix::fs::FileExt;

/// The opened files of eight devices, and the path by which each was last asked for.
#[derive(Drop)]
pub struct Devices {
    files: [Option<File>; 8],
    paths: [Option<String>; 8],
}

fn absent() -> io::Error {
    io::Error::from(io::ErrorKind::NotFound)
}

// Why a file is not to be had.
fn refusal(error: TryLockError) -> io::Error {
    match error {
        TryLockError::WouldBlock => {
            io::Error::new(io::ErrorKind::WouldBlock, "in use by another run")
        }
        TryLockError::Error(error) => error,
    }
}

impl Devices {
    /// No file is opened.
    pub fn none() -> Devices {
        Devices {
            files: [None, None, None, None, None, None, None, None],
            paths: [None, None, None, None, None, None, None, None],
        }
    }

    /// Opens a file that is there, for reading and writing, and locks it for this device alone until
    /// the device is dropped. A file that another run or another device has is refused.
    ///
    /// It takes the place of no standard stream, even where one was closed before the program began:
    /// a copy of a handle is never one of them, and has the same lock.
    pub fn attach(&mut self, rt: HostRuntime, dev: u8, path: &str) -> io::Result<()>
        requires { dev < 8 }
    {
        // Only messages want the path, so they do without where there is no memory for it.
        self.paths[dev as usize] = String::from_str(rt.alloc(), path).ok();
        let opened = OpenOptions::new().read(true).write(true).open(&rt, path)?;
        let file = opened.try_clone()?;
        file.try_lock().map_err(refusal)?;
        self.files[dev as usize] = Some(file);
        Ok(())
    }

    /// The path by which a device was last asked for.
    pub fn path(&self, dev: u8) -> Option<&str> {
        if dev >= 8 {
            return None;
        }
        match &self.paths[dev as usize] {
            Some(path) => Some(path.as_str()),
            None => None,
        }
    }

    fn file(&self, dev: u8) -> io::Result<&File>
        requires { dev < 8 }
    {
        match &self.files[dev as usize] {
            Some(file) => Ok(file),
            None => Err(absent()),
        }
    }

    pub fn length(&self, dev: u8) -> io::Result<u64>
        requires { dev < 8 }
    {
        Ok(self.file(dev)?.metadata()?.len())
    }

    pub fn set_length(&self, dev: u8, n: u64) -> io::Result<()>
        requires { dev < 8 }
    {
        self.file(dev)?.set_len(n)
    }

    /// Reads at an address, whatever was read or written before.
    pub fn read_at(&self, dev: u8, at: u64, into: &mut [u8]) -> io::Result<()>
        requires { dev < 8 }
    {
        self.file(dev)?.read_exact_at(into, at)
    }

    /// Writes at an address, whatever was read or written before.
    pub fn write_at(&self, dev: u8, at: u64, from: &[u8]) -> io::Result<()>
        requires { dev < 8 }
    {
        self.file(dev)?.write_all_at(from, at)
    }

    /// What the file reads, its bytes and its length, is on its disk when this answers Ok. Of the
    /// rest, as the file's times, an older state may be there after a stop. That is enough, since no
    /// run looks at it.
    pub fn sync(&self, dev: u8) -> io::Result<()>
        requires { dev < 8 }
    {
        self.file(dev)?.sync_data()
    }
}
