//! What stops a command, and the status with which each command ends.
ghost use Rattle.std.specs.Prelude.{◌≡◌};
ghost use Rattle.norbank.specs.Endings.{status_of, done_status, done_of, file_failure, save_failure, run_failure, drill_failure};
ghost use Rattle.norbank.specs.declared.stop.Stop.TheVariants.{BadImage, BadScript, Unfound, NoMemory, Output};

use nor_drill::DrillError;
use nor_image::ImageError;
use nor_io::{LoadError, SaveError, SinkError};
use nor_probe::ProbeError;
use nor_run::{Ran, RunError};
use nor_script::ScriptError;
use std::alloc::AllocError;

/// One of the two files that the words of a command may name.
#[derive(Clone, Copy, Debug, PartialEq, Eq)]
pub enum File {
    Bank,
    Script,
}

/// What was done by a command that nothing stopped.
#[derive(Clone, Copy, Debug, PartialEq, Eq)]
pub enum Done {
    /// All of it.
    All,
    /// All of it, and the bank halted in it.
    Halted,
}

/// What stops a command.
#[derive(Clone, Copy, Debug, PartialEq, Eq)]
pub enum Stop {
    /// The words match no form.
    Usage,
    /// The bytes under the bank's name stand for no bank.
    BadImage(ImageError),
    /// The bytes under the script's name are no script.
    BadScript(ScriptError),
    /// Probing refuses the bank.
    Unfound(ProbeError),
    /// The shelf has no such file.
    Absent(File),
    /// It has one, with more bytes than are loaded.
    TooLarge(File),
    /// It couldn't read the file.
    ReadFault(File),
    /// It couldn't save the bank.
    WriteFault,
    /// What is asked for isn't in the bank.
    OutOfRange,
    NoMemory,
    /// The output failed, or lacked memory.
    Output(SinkError),
}

impl Stop {
    /// The status with which the command ends.
    pub fn status(self) -> u8
        ensures { result ≡ status_of self }
    {
        match self {
            Stop::Usage => 2,
            Stop::BadImage(ImageError::NoMemory) => 9,
            Stop::BadImage(_) => 3,
            Stop::BadScript(ScriptError::NoMemory) => 9,
            Stop::BadScript(_) => 4,
            Stop::Unfound(_) => 5,
            Stop::Absent(_) => 8,
            Stop::TooLarge(File::Bank) => 3,
            Stop::TooLarge(File::Script) => 4,
            Stop::ReadFault(_) => 7,
            Stop::WriteFault => 7,
            Stop::OutOfRange => 10,
            Stop::NoMemory => 9,
            Stop::Output(SinkError::Fault) => 7,
            Stop::Output(SinkError::NoMemory) => 9,
        }
    }

    /// Why a file wasn't loaded.
    pub fn of_load(file: File, error: LoadError) -> Stop
        ensures { result ≡ file_failure file error }
    {
        match error {
            LoadError::Absent => Stop::Absent(file),
            LoadError::ReadFault => Stop::ReadFault(file),
            LoadError::TooLarge => Stop::TooLarge(file),
            LoadError::NoMemory => Stop::NoMemory,
        }
    }
}

impl Done {
    /// The status with which the command ends.
    pub fn status(self) -> u8
        ensures { result ≡ done_status self }
    {
        match self {
            Done::All => 0,
            Done::Halted => 6,
        }
    }

    /// What was done where a script was run.
    pub fn of_run(ran: Ran) -> Done
        ensures { result ≡ done_of ran.halted }
    {
        if ran.halted { Done::Halted } else { Done::All }
    }
}

impl From<ImageError> for Stop {
    ghost from_gives = { λ error stop. stop ≡ BadImage error };

    fn from(error: ImageError) -> Stop {
        Stop::BadImage(error)
    }
}

impl From<ScriptError> for Stop {
    ghost from_gives = { λ error stop. stop ≡ BadScript error };

    fn from(error: ScriptError) -> Stop {
        Stop::BadScript(error)
    }
}

impl From<ProbeError> for Stop {
    ghost from_gives = { λ error stop. stop ≡ Unfound error };

    fn from(error: ProbeError) -> Stop {
        Stop::Unfound(error)
    }
}

impl From<SinkError> for Stop {
    ghost from_gives = { λ error stop. stop ≡ Output error };

    fn from(error: SinkError) -> Stop {
        Stop::Output(error)
    }
}

impl From<AllocError> for Stop {
    ghost from_gives = { λ _ stop. stop ≡ NoMemory };

    fn from(_error: AllocError) -> Stop {
        Stop::NoMemory
    }
}

impl From<SaveError> for Stop {
    ghost from_gives = { λ error stop. stop ≡ save_failure error };

    fn from(error: SaveError) -> Stop {
        match error {
            SaveError::WriteFault => Stop::WriteFault,
            SaveError::NoMemory => Stop::NoMemory,
        }
    }
}

impl From<RunError> for Stop {
    ghost from_gives = { λ error stop. stop ≡ run_failure error };

    fn from(error: RunError) -> Stop {
        match error {
            RunError::Probe(error) => Stop::Unfound(error),
            RunError::NoMemory => Stop::NoMemory,
            RunError::Put(error) => Stop::Output(error),
        }
    }
}

impl From<DrillError> for Stop {
    ghost from_gives = { λ error stop. stop ≡ drill_failure error };

    fn from(error: DrillError) -> Stop {
        match error {
            DrillError::NoMemory => Stop::NoMemory,
            DrillError::Put(error) => Stop::Output(error),
        }
    }
}
