// How a run ends, and its parts.

ghost use Rattle.std.specs.Prelude.{◌≡◌};

use std::alloc::AllocError;
use tq_coord::BootFailure;
use tq_host::Failed;

/// How a run ended.
#[derive(Clone, Copy, Debug, PartialEq, Eq)]
pub enum Status {
    /// The script was read to its end and every line answered.
    Done,
    /// The words are not of a stated form; nothing else is done.
    Usage,
    /// The first device whose bytes have no reading, or whose epoch cannot be raised; nothing is written.
    Damaged(u8),
    /// Want of memory.
    NoMemory,
    /// The input failed.
    ReadFault,
    /// The output failed.
    WriteFault,
    /// A device failed before line 0 was answered.
    DeviceFault,
    /// 4,294,967,296 bytes were taken, and the script's end was not reached.
    TooMuchInput,
}

// What ends a run before its last line.
#[derive(Clone, Copy, Debug, PartialEq, Eq)]
pub enum RunEnd {
    Damaged,
    Memory,
    Input,
    Output,
    Device,
    TooMuchInput,
}

// What ends a run in line 0.
#[derive(Clone, Copy, Debug, PartialEq, Eq)]
pub enum StartEnd {
    Damaged,
    Memory,
    Device,
    Output,
}

// What ends a run from line 1 on, or while its script is read.
#[derive(Clone, Copy, Debug, PartialEq, Eq)]
pub enum ScriptEnd {
    Memory,
    Input,
    Output,
    TooMuchInput,
}

// Why a script is not read to its end.
#[derive(Clone, Copy, Debug, PartialEq, Eq)]
pub enum ReadEnd {
    Memory,
    Input,
    TooMuchInput,
}

// Why the next bytes of a script are not had.
#[derive(Clone, Copy, Debug, PartialEq, Eq)]
pub enum TakeEnd {
    Memory,
    Input,
}

// Why an answer is not given.
#[derive(Clone, Copy, Debug, PartialEq, Eq)]
pub enum LineEnd {
    Memory,
    Output,
}

impl From<Failed> for StartEnd {
    ghost use Rattle.tq_run.specs.declared.status.StartEnd.TheVariants.{Device};

    ghost from_gives = { λ _ e. e ≡ Device };

    fn from(_failed: Failed) -> StartEnd {
        StartEnd::Device
    }
}

impl From<BootFailure> for StartEnd {
    ghost use Rattle.tq_run.specs.Counts.{start_end_of_boot};

    ghost from_gives = { λ end e. e ≡ start_end_of_boot end };

    fn from(end: BootFailure) -> StartEnd {
        match end {
            BootFailure::Damaged => StartEnd::Damaged,
            BootFailure::Memory => StartEnd::Memory,
            BootFailure::Device => StartEnd::Device,
        }
    }
}

impl From<LineEnd> for StartEnd {
    ghost use Rattle.tq_run.specs.Counts.{start_end_of_line};

    ghost from_gives = { λ end e. e ≡ start_end_of_line end };

    fn from(end: LineEnd) -> StartEnd {
        match end {
            LineEnd::Memory => StartEnd::Memory,
            LineEnd::Output => StartEnd::Output,
        }
    }
}

impl From<TakeEnd> for ReadEnd {
    ghost use Rattle.tq_run.specs.Counts.{read_end_of_take};

    ghost from_gives = { λ end e. e ≡ read_end_of_take end };

    fn from(end: TakeEnd) -> ReadEnd {
        match end {
            TakeEnd::Memory => ReadEnd::Memory,
            TakeEnd::Input => ReadEnd::Input,
        }
    }
}

impl From<ReadEnd> for ScriptEnd {
    ghost use Rattle.tq_run.specs.Counts.{script_end_of_read};

    ghost from_gives = { λ end e. e ≡ script_end_of_read end };

    fn from(end: ReadEnd) -> ScriptEnd {
        match end {
            ReadEnd::Memory => ScriptEnd::Memory,
            ReadEnd::Input => ScriptEnd::Input,
            ReadEnd::TooMuchInput => ScriptEnd::TooMuchInput,
        }
    }
}

impl From<LineEnd> for ScriptEnd {
    ghost use Rattle.tq_run.specs.Counts.{script_end_of_line};

    ghost from_gives = { λ end e. e ≡ script_end_of_line end };

    fn from(end: LineEnd) -> ScriptEnd {
        match end {
            LineEnd::Memory => ScriptEnd::Memory,
            LineEnd::Output => ScriptEnd::Output,
        }
    }
}

impl From<StartEnd> for RunEnd {
    ghost use Rattle.tq_run.specs.Counts.{run_end_of_start};

    ghost from_gives = { λ end e. e ≡ run_end_of_start end };

    fn from(end: StartEnd) -> RunEnd {
        match end {
            StartEnd::Damaged => RunEnd::Damaged,
            StartEnd::Memory => RunEnd::Memory,
            StartEnd::Device => RunEnd::Device,
            StartEnd::Output => RunEnd::Output,
        }
    }
}

impl From<ScriptEnd> for RunEnd {
    ghost use Rattle.tq_run.specs.Counts.{run_end_of_script};

    ghost from_gives = { λ end e. e ≡ run_end_of_script end };

    fn from(end: ScriptEnd) -> RunEnd {
        match end {
            ScriptEnd::Memory => RunEnd::Memory,
            ScriptEnd::Input => RunEnd::Input,
            ScriptEnd::Output => RunEnd::Output,
            ScriptEnd::TooMuchInput => RunEnd::TooMuchInput,
        }
    }
}

impl From<AllocError> for LineEnd {
    ghost use Rattle.tq_run.specs.declared.status.LineEnd.TheVariants.{Memory};

    ghost from_gives = { λ _ e. e ≡ Memory };

    fn from(_no_memory: AllocError) -> LineEnd {
        LineEnd::Memory
    }
}

impl From<AllocError> for TakeEnd {
    ghost use Rattle.tq_run.specs.declared.status.TakeEnd.TheVariants.{Memory};

    ghost from_gives = { λ _ e. e ≡ Memory };

    fn from(_no_memory: AllocError) -> TakeEnd {
        TakeEnd::Memory
    }
}

impl Status {
    ghost use Rattle.tq_run.specs.Ending.{status_number};

    /// The number with which the program ends.
    pub fn number(self) -> u8
        ensures { result ≡ status_number self }
    {
        match self {
            Status::Done => 0,
            Status::Usage => 2,
            Status::Damaged(_) => 3,
            Status::NoMemory => 4,
            Status::ReadFault => 5,
            Status::WriteFault => 6,
            Status::DeviceFault => 7,
            Status::TooMuchInput => 8,
        }
    }
}
