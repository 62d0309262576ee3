//! What a poll tells.

/// How a job broke off.
#[derive(Clone, Copy, Debug, PartialEq, Eq)]
pub enum Broke {
    /// Of set 0001: a unit couldn't be programmed.
    Program,
    /// Of set 0001: a block couldn't be erased.
    Erase,
    /// Of set 0002: a job took longer than the chip allows.
    Time,
    /// Of set 0002: a buffer load was aborted.
    Abort,
}

/// What a poll tells of one lane.
#[derive(Clone, Copy, Debug, PartialEq, Eq)]
pub enum Seen {
    Working,
    Ready,
    /// No job runs, and an erase is held.
    Suspended,
    Broken(Broke),
}

/// What a poll tells of each lane. Entries past the last lane are `Ready`.
#[derive(Clone, Copy, Debug, PartialEq, Eq)]
pub struct Watch {
    pub lanes: [Seen; 4],
}
