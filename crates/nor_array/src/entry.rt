//! What is asked of a bank, what it answers, and both together.
use crate::Bytes;

/// A call of a bank. Addresses and lengths are bytes of the bank, blocks are counted from 0.
#[derive(Clone, Debug, PartialEq, Eq, Drop)]
pub enum Op {
    Read { at: u32, len: u32 },
    /// Each byte of the range becomes old AND new.
    Program { at: u32, new: Bytes },
    /// The erase of a block is begun. It goes on until its caller polls its end.
    EraseOpen { block: u32 },
    /// The same of all blocks at once.
    EraseAll,
    Poll,
    Lock { block: u32 },
    Unlock { block: u32 },
    IsLocked { block: u32 },
    /// Power will be lost after so many more bus cycles. The mask says what a simulated chip leaves
    /// of the work that is cut off.
    Arm { after: u32, mask: u8 },
    PowerOn,
}

/// Why a bank does no more. `after` is the number of cycles with which the cut was armed.
#[derive(Clone, Copy, Debug, PartialEq, Eq)]
pub enum Halted {
    /// Power is lost.
    Off { after: u32 },
    /// A chip works and never ends.
    Stuck { lane: u8 },
}

/// What a bank answers.
#[derive(Clone, Copy, Debug, Default, PartialEq, Eq)]
pub enum Reply {
    #[default]
    Done,
    /// The block, or all of them, are under erase for this caller.
    Opened,
    /// Every byte of what was under erase is 0xFF.
    Erased,
    /// Whether the block is locked.
    Bit(bool),
    OutOfRange,
    /// A read or a program of more than 4,096 bytes.
    TooLong,
    /// This block, the lowest such that the call touches, is under erase.
    Busy { block: u32 },
    /// Another erase is under way: this block is the lowest under erase.
    Occupied { block: u32 },
    /// This block, the lowest such that the call touches, is locked.
    Locked { block: u32 },
    /// The bank offers no locks.
    NoLocks,
    /// The bank offers no erase of all blocks at once.
    NoChipErase,
    /// The caller has no erase to poll, or power is on already.
    Nothing,
    /// The chips still work: ask again.
    NotYet,
    /// Chips broke off. The bytes from `from` up to `to`, without `to`, are uncertain, and bit k of
    /// `lanes` says that lane k broke off.
    Failed { from: u32, to: u32, lanes: u8 },
    Halted(Halted),
}

/// A call by a caller, 1 to 8, with its reply; `Arm` and `PowerOn` have caller 0. The bytes are the
/// data of a read that is done, and what stands in the uncertain spans after a failure and after a
/// first halt: there those of what is under erase, if anything, then those of the call's own program
/// range, then for a `Lock` or `Unlock` one more, 1 where the block stands locked, else 0. Every
/// other entry has no bytes.
#[derive(Clone, Debug, PartialEq, Eq, Drop)]
pub struct Entry {
    pub caller: u8,
    pub op: Op,
    pub reply: Reply,
    pub bytes: Bytes,
}
