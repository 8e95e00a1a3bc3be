//! The program `qscript`: runs a script of queue calls on device files.
#![tactic(auto)]

mod causes;
mod words;

use crate::causes::cause_of;
use crate::words::WordsFault;
use std::process::ExitCode;
use std::{env, fmt, io};
use tq_files::FileHost;
use tq_run::{Status, run};

// How the program ends.
#[derive(Drop)]
struct Ending {
    status: Status,
    cause: Option<String>,
}

impl fmt::Display for Ending {
    fn fmt<W: fmt::Write>(&self, f: &mut fmt::Formatter<W>) -> fmt::Result {
        let status = self.status;
        write!(f, "qscript: {status:?}")?;
        match &self.cause {
            Some(cause) => write!(f, ": {cause}"),
            None => Ok(()),
        }
    }
}

// How the program ends where its words are not had. A word that is no text is of no stated form.
fn refusal(rt: HostRuntime, error: &io::Error) -> Ending {
    match error.kind() {
        io::ErrorKind::InvalidData => Ending {
            status: Status::Usage,
            cause: WordsFault::NoText.to_string(rt.alloc()).ok(),
        },
        _ => Ending {
            status: Status::NoMemory,
            cause: None,
        },
    }
}

// The words of the command line, without the program's name.
fn command_words(rt: HostRuntime) -> io::Result<Vec<String>> {
    let mut words = Vec::new(rt.alloc());
    for word in env::args(&rt)?.skip(1) {
        words.push(word)?;
    }
    Ok(words)
}

fn run_words(rt: HostRuntime, words: &[String]) -> Ending {
    let mut host = FileHost::new(rt);
    let status = run(rt.alloc(), words, &mut host);
    // Where there is no memory for the cause, the status is printed alone.
    let cause = cause_of(rt.alloc(), status, words, &host).ok().flatten();
    Ending { status, cause }
}

fn run_over_files(rt: HostRuntime) -> Ending {
    match command_words(rt) {
        Ok(words) => run_words(rt, &words),
        Err(error) => refusal(rt, &error),
    }
}

// Ends with the status's number, and prints a status other than `Done` and its cause on one line
// of standard error.
fn main(rt: HostRuntime) -> ExitCode {
    let ending = run_over_files(rt);
    let status = ending.status;
    if status != Status::Done {
        // Where standard error fails too, the number still tells the status.
        let _printed = eprintln!(rt; "{ending}").is_ok();
    }
    ExitCode::from(status.number())
}
