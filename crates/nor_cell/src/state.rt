//! Where a chip stands in its commands, for both sets.

/// What a read shows when no job runs.
#[derive(Clone, Copy, Debug, PartialEq, Eq)]
pub enum ShownMode {
    Array,
    Query,
    /// Of the Intel set, as `Status`.
    Ident,
    Status,
    /// Of the AMD set.
    Locks,
}

/// The command cycle that is expected next. Blocks are numbers, `first` and `missing` are units.
#[derive(Clone, Copy, Debug, PartialEq, Eq)]
pub enum NextStep {
    Rest,
    ProgramNext,
    LockNext,
    BufferCount {
        block: usize,
    },
    BufferData {
        block: usize,
        missing: u16,
        first: u32,
    },
    BufferConfirm {
        first: u32,
    },
    /// Of the Intel set.
    EraseNext,
    /// Of the AMD set, as the rest: the first unlock cycle has come, and the second.
    Unlock1,
    Unlock2,
    /// An erase was announced; its unlock cycles have come.
    Erase1,
    Erase2,
    Erase3,
    /// To leave the mode Locks.
    LeaveNext,
}

/// What is being erased.
#[derive(Clone, Copy, Debug, PartialEq, Eq)]
pub enum EraseTarget {
    OneBlock { block: usize },
    AllBlocks,
}

/// What runs inside the chip. `left` and `wait` are numbers of status reads. The bytes that are
/// programmed, from place `at` on, are those of the chip's load.
#[derive(Clone, Copy, Debug, PartialEq, Eq)]
pub enum RunningJob {
    Idle,
    Program { at: u32, left: u32 },
    Erase { target: EraseTarget, left: u32 },
    Pausing { block: usize, wait: u32, left: u32 },
}

/// A suspended erase.
#[derive(Clone, Copy, Debug, PartialEq, Eq)]
pub enum HeldErase {
    None,
    Block { block: usize, left: u32 },
}

/// Status bits 5, 4 and 1 of the Intel set.
#[derive(Clone, Copy, Debug, PartialEq, Eq, Default)]
pub struct StatusFlags {
    pub erase: bool,
    pub program: bool,
    pub locked: bool,
}

/// A fault of the AMD set: the job that broke off, or a buffer load that was aborted.
#[derive(Clone, Copy, Debug, PartialEq, Eq)]
pub enum Failure {
    None,
    ProgramTime { at: u32 },
    EraseTime { target: EraseTarget },
    Abort,
}
