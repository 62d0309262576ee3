//! What comes of a drill.
ghost use Rattle.std.specs.Prelude.{◌≡◌};
ghost use Rattle.nor_drill.specs.declared.drilled.DrillError.TheVariants.{NoMemory, Put};

use crate::tally::Tally;
use nor_io::SinkError;
use std::alloc::AllocError;

/// How often each answer came, and the sum of the bank's bytes after the run.
#[derive(Drop)]
pub struct Drilled {
    pub tally: Tally,
    pub sum: u64,
}

/// Why a drill wasn't run, or its summary not put whole.
#[derive(Clone, Copy, Debug, PartialEq, Eq)]
pub enum DrillError {
    /// Memory ran out before the run.
    NoMemory,
    /// The summary wasn't put whole.
    Put(SinkError),
}

impl From<AllocError> for DrillError {
    ghost from_gives = { λ _ error. error ≡ NoMemory };

    fn from(_error: AllocError) -> DrillError {
        DrillError::NoMemory
    }
}

impl From<SinkError> for DrillError {
    ghost from_gives = { λ put error. error ≡ Put put };

    fn from(error: SinkError) -> DrillError {
        DrillError::Put(error)
    }
}
