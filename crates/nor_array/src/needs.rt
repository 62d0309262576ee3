//! What each call needs, as one table.
ghost use Rattle.std.specs.Prelude.{◌≡◌, ℕ, List, length};
ghost use Rattle.nor_array.specs.Needs.{bare_call, lock_call, needs_of};

use crate::Op;

/// What a call touches.
#[derive(Clone, Copy, Debug, PartialEq, Eq)]
pub enum Reach {
    Nowhere,
    /// So many bytes from a place on.
    Range { at: u32, len: usize },
    Block { block: u32 },
    Everywhere,
}

/// When a call may be answered so.
#[derive(Clone, Copy, Debug, PartialEq, Eq)]
pub enum Chance {
    Never,
    /// Where something is under erase.
    BesideErase,
    Always,
}

/// What a call needs of the bank.
#[derive(Clone, Copy, Debug, PartialEq, Eq)]
pub struct CallNeeds {
    pub reach: Reach,
    /// The chips are asked for nothing, and the call is done.
    pub idle: bool,
    /// When it may have to wait.
    pub waits: Chance,
    /// When it may meet a chip that never ends its work.
    pub sticks: Chance,
    /// It begins an erase.
    pub opens: bool,
    /// What it touches has to be unlocked.
    pub unlocked: bool,
    /// It asks for locks.
    pub locks: bool,
    /// It asks for the erase of all blocks at once.
    pub chip_erase: bool,
}

const BARE_CALL: CallNeeds = CallNeeds {
    reach: Reach::Nowhere,
    idle: false,
    waits: Chance::Never,
    sticks: Chance::Never,
    opens: false,
    unlocked: false,
    locks: false,
    chip_erase: false,
};

/// The needs of a call about the lock of a block.
pub fn lock_call(block: u32) -> CallNeeds
    ensures { result ≡ lock_call block }
{
    CallNeeds {
        reach: Reach::Block { block },
        waits: Chance::BesideErase,
        sticks: Chance::BesideErase,
        locks: true,
        ..BARE_CALL
    }
}

/// Those of a read of so many bytes.
pub fn read_call(at: u32, len: usize) -> CallNeeds
    ensures { result ≡ needs_of (Op.Read at len) }
{
    CallNeeds {
        reach: Reach::Range { at, len },
        idle: len == 0,
        waits: Chance::BesideErase,
        sticks: Chance::BesideErase,
        ..BARE_CALL
    }
}

/// Those of a program of so many bytes.
pub fn program_call(at: u32, len: usize) -> CallNeeds
    ensures { (new : List ℕ) → length new ≡ len → result ≡ needs_of (Op.Program at new) }
{
    CallNeeds {
        reach: Reach::Range { at, len },
        idle: len == 0,
        waits: Chance::BesideErase,
        sticks: Chance::Always,
        unlocked: true,
        ..BARE_CALL
    }
}

/// Those of the erase of a block.
pub fn erase_call(block: u32) -> CallNeeds
    ensures { result ≡ needs_of (Op.EraseOpen block) }
{
    CallNeeds {
        reach: Reach::Block { block },
        opens: true,
        unlocked: true,
        ..BARE_CALL
    }
}

/// Those of the erase of all blocks at once.
pub fn erase_all_call() -> CallNeeds
    ensures { result ≡ needs_of Op.EraseAll }
{
    CallNeeds {
        reach: Reach::Everywhere,
        opens: true,
        unlocked: true,
        chip_erase: true,
        ..BARE_CALL
    }
}

/// The row of a call.
pub(crate) fn needs_of(op: &Op) -> CallNeeds
    ensures { result ≡ needs_of op.now }
{
    match op {
        Op::Read { at, len } => read_call(*at, *len as usize),
        Op::Program { at, new } => program_call(*at, new.as_slice().len()),
        Op::EraseOpen { block } => erase_call(*block),
        Op::EraseAll => erase_all_call(),
        Op::Poll => CallNeeds {
            waits: Chance::Always,
            sticks: Chance::Always,
            ..BARE_CALL
        },
        Op::Lock { block } | Op::Unlock { block } | Op::IsLocked { block } => lock_call(*block),
        Op::Arm { .. } | Op::PowerOn => CallNeeds {
            idle: true,
            ..BARE_CALL
        },
    }
}
