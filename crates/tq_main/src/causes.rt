//! The cause behind a status, in plain words on one line.
use crate::words::words_fault;
use std::alloc::{AllocError, Global};
use std::{fmt, io};
use tq_files::FileHost;
use tq_run::Status;

// A text with its control characters escaped, so that it stays on its line.
#[derive(Drop)]
struct OneLine<'a>(&'a str);

impl<'a> fmt::Display for OneLine<'a> {
    fn fmt<W: fmt::Write>(&self, f: &mut fmt::Formatter<W>) -> fmt::Result {
        for c in self.0.chars() {
            if c.is_control() {
                write!(f, "{}", c.escape_default())?;
            } else {
                write!(f, "{c}")?;
            }
        }
        Ok(())
    }
}

// The system's message, without its number.
fn message(alloc: Global, error: io::Error) -> Result<String, AllocError> {
    let text = error.to_string(alloc)?;
    match text.rsplit_once(" (os error ") {
        Some((words, _)) => String::from_str(alloc, words),
        None => Ok(text),
    }
}

// The path of a device, or its number where no path is known.
fn device_name(alloc: Global, host: &FileHost, dev: u8) -> Result<String, AllocError> {
    match host.path(dev) {
        Some(path) => OneLine(path).to_string(alloc),
        None => format!(in alloc; "device {dev}"),
    }
}

fn device_cause(alloc: Global, host: &FileHost) -> Result<Option<String>, AllocError> {
    match host.device_failure() {
        Some(failure) => {
            let name = device_name(alloc, host, failure.dev)?;
            let message = message(alloc, failure.error)?;
            Ok(Some(format!(in alloc; "{name}: {message}")?))
        }
        None => Ok(None),
    }
}

fn stream_cause(
    alloc: Global,
    name: &str,
    failure: Option<io::Error>,
) -> Result<Option<String>, AllocError> {
    match failure {
        Some(error) => {
            let message = message(alloc, error)?;
            Ok(Some(format!(in alloc; "{name}: {message}")?))
        }
        None => Ok(None),
    }
}

fn words_cause(alloc: Global, words: &[String]) -> Result<Option<String>, AllocError> {
    match words_fault(words) {
        Some(fault) => Ok(Some(fault.to_string(alloc)?)),
        None => Ok(None),
    }
}

/// Why a run of these words over this host ended with that status, where more is known than the
/// status says.
pub fn cause_of(
    alloc: Global,
    status: Status,
    words: &[String],
    host: &FileHost,
) -> Result<Option<String>, AllocError> {
    match status {
        Status::Done | Status::NoMemory => Ok(None),
        Status::Usage => words_cause(alloc, words),
        Status::Damaged(dev) => Ok(Some(device_name(alloc, host, dev)?)),
        Status::ReadFault => stream_cause(alloc, "standard input", host.input_failure()),
        Status::WriteFault => stream_cause(alloc, "standard output", host.output_failure()),
        Status::DeviceFault => device_cause(alloc, host),
        Status::TooMuchInput => {
            let text = "the script has more than 4,294,967,295 bytes";
            Ok(Some(String::from_str(alloc, text)?))
        }
    }
}
