//! What an array is, beside its bytes and locks.

/// What an erase is of.
#[derive(Clone, Copy, Debug, PartialEq, Eq)]
pub enum Target {
    OneBlock { block: u32 },
    AllBlocks,
}

/// What is under erase, and the caller that opened the erase.
#[derive(Clone, Copy, Debug, PartialEq, Eq)]
pub struct OpenErase {
    pub target: Target,
    pub caller: u8,
}

/// Whether power is on. It is off, or a chip in this lane never ends its work, once a call has
/// halted.
#[derive(Clone, Copy, Debug, PartialEq, Eq)]
pub enum Power {
    On,
    Off,
    Stuck { lane: u8 },
}

/// A loss of power after so many bus cycles. The mask says what a simulated chip leaves of the work
/// that is cut off.
#[derive(Clone, Copy, Debug, PartialEq, Eq)]
pub struct ArmedCut {
    pub after: u32,
    pub mask: u8,
}
