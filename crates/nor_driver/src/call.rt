//! A call of the bank, as the driver makes it in a turn.
ghost use Rattle.std.specs.Prelude.{◌≡◌, ◌<◌, ℕ, true, length};
ghost use Rattle.nor_array.specs.declared.entry.Op.{Op};
ghost use Rattle.nor_bank.specs.Calls.{entry_of, given_by};
ghost use Rattle.nor_bank.specs.Whole.{IsCallOf};
ghost use Rattle.nor_driver.specs.Fronts.{is_call};
ghost use Rattle.nor_driver.specs.Made.{ReadsWords, is_waited_out};

use crate::held::Held;
use nor_array::Reply;
use nor_bank::Bank;
use nor_bus::Bus;
use nor_turn::Tells;
use nor_word::BusWord;
use std::snapshot::Snapshot;

/// Whether a caller isn't given this reply: the driver asks again in another turn.
pub(crate) fn is_waited_out(reply: Reply) -> bool
    ensures { result ≡ is_waited_out reply }
{
    matches!(reply, Reply::NotYet | Reply::Occupied { .. })
}

/// A call of the bank, which may fill some bytes.
pub(crate) trait Call<W: BusWord, B: Bus<W>> {
    /// What it asks for, where so many bytes are to be filled.
    ghost op: { Self → ℕ → Op };

    /// Makes the call.
    fn make(&self, bank: &mut Bank<W, B>, caller: u8, into: &mut [u8]) -> Reply
        ensures call { IsCallOf caller (op self.now (length into.old)) bank.old bank.new result
            (given_by (op self.now (length into.old)) into.new) }
        ensures reads { ReadsWords (op self.now (length into.old)) result bank.old bank.new }
        ensures kind { is_call (op self.now (length into.old)) ≡ true }
        ensures length { length into.new ≡ length into.old };
}

/// Reads the bytes from `at` on.
#[derive(Drop)]
pub(crate) struct Read {
    pub(crate) at: u32,
}

impl<W: BusWord, B: Bus<W>> Call<W, B> for Read {
    ghost use Rattle.nor_array.specs.declared.entry.Op.TheVariants.{Read as ReadOp};

    ghost op = { λ call len. ReadOp call.at len };

    fn make(&self, bank: &mut Bank<W, B>, caller: u8, into: &mut [u8]) -> Reply {
        bank.read(caller, self.at, into)
    }
}

/// Reads more bytes than a call may have, which the bank refuses.
#[derive(Drop)]
pub(crate) struct LongRead {
    pub(crate) at: u32,
    pub(crate) len: u32,
    pub(crate) ghost long: { 4096 < len },
}

impl<W: BusWord, B: Bus<W>> Call<W, B> for LongRead {
    ghost use Rattle.nor_array.specs.declared.entry.Op.TheVariants.{Read as ReadOp};

    ghost op = { λ call len. ReadOp call.at call.len };

    fn make(&self, bank: &mut Bank<W, B>, _caller: u8, _into: &mut [u8]) -> Reply {
        bank.range_refusal(self.at, u64::from(self.len)).unwrap()
    }
}

/// Programs the bytes from `at` on.
#[derive(Drop)]
pub(crate) struct Program<'a> {
    pub(crate) at: u32,
    pub(crate) from: &'a [u8],
}

impl<'a, W: BusWord, B: Bus<W>> Call<W, B> for Program<'a> {
    ghost use Rattle.nor_array.specs.declared.entry.Op.TheVariants.{Program as ProgramOp};

    ghost op = { λ call len. ProgramOp call.at call.from.now };

    fn make(&self, bank: &mut Bank<W, B>, caller: u8, _into: &mut [u8]) -> Reply {
        bank.program(caller, self.at, self.from)
    }
}

/// Begins to erase a block.
#[derive(Drop)]
pub(crate) struct EraseOpen {
    pub(crate) block: u32,
}

impl<W: BusWord, B: Bus<W>> Call<W, B> for EraseOpen {
    ghost use Rattle.nor_array.specs.declared.entry.Op.TheVariants.{EraseOpen as EraseOpenOp};

    ghost op = { λ call len. EraseOpenOp call.block };

    fn make(&self, bank: &mut Bank<W, B>, caller: u8, _into: &mut [u8]) -> Reply {
        bank.erase_open(caller, self.block)
    }
}

/// Begins to erase all blocks at once.
#[derive(Drop)]
pub(crate) struct EraseAll;

impl<W: BusWord, B: Bus<W>> Call<W, B> for EraseAll {
    ghost use Rattle.nor_array.specs.declared.entry.Op.TheVariants.{EraseAll as EraseAllOp};

    ghost op = { λ call len. EraseAllOp };

    fn make(&self, bank: &mut Bank<W, B>, caller: u8, _into: &mut [u8]) -> Reply {
        bank.erase_all(caller)
    }
}

/// Looks at the erase of the caller.
#[derive(Drop)]
pub(crate) struct Poll;

impl<W: BusWord, B: Bus<W>> Call<W, B> for Poll {
    ghost use Rattle.nor_array.specs.declared.entry.Op.TheVariants.{Poll as PollOp};

    ghost op = { λ call len. PollOp };

    fn make(&self, bank: &mut Bank<W, B>, caller: u8, _into: &mut [u8]) -> Reply {
        bank.poll(caller)
    }
}

/// Locks a block.
#[derive(Drop)]
pub(crate) struct Lock {
    pub(crate) block: u32,
}

impl<W: BusWord, B: Bus<W>> Call<W, B> for Lock {
    ghost use Rattle.nor_array.specs.declared.entry.Op.TheVariants.{Lock as LockOp};

    ghost op = { λ call len. LockOp call.block };

    fn make(&self, bank: &mut Bank<W, B>, caller: u8, _into: &mut [u8]) -> Reply {
        bank.lock(caller, self.block)
    }
}

/// Unlocks a block.
#[derive(Drop)]
pub(crate) struct Unlock {
    pub(crate) block: u32,
}

impl<W: BusWord, B: Bus<W>> Call<W, B> for Unlock {
    ghost use Rattle.nor_array.specs.declared.entry.Op.TheVariants.{Unlock as UnlockOp};

    ghost op = { λ call len. UnlockOp call.block };

    fn make(&self, bank: &mut Bank<W, B>, caller: u8, _into: &mut [u8]) -> Reply {
        bank.unlock(caller, self.block)
    }
}

/// Asks whether a block is locked.
#[derive(Drop)]
pub(crate) struct IsLocked {
    pub(crate) block: u32,
}

impl<W: BusWord, B: Bus<W>> Call<W, B> for IsLocked {
    ghost use Rattle.nor_array.specs.declared.entry.Op.TheVariants.{IsLocked as IsLockedOp};

    ghost op = { λ call len. IsLockedOp call.block };

    fn make(&self, bank: &mut Bank<W, B>, caller: u8, _into: &mut [u8]) -> Reply {
        bank.is_locked(caller, self.block)
    }
}

/// A call that was made, with the bank before it and after it.
#[derive(Drop)]
pub(crate) struct Made<'a, W: BusWord, B: Bus<W>, C> {
    pub(crate) caller: u8,
    pub(crate) call: &'a C,
    pub(crate) into: &'a [u8],
    pub(crate) reply: Reply,
    pub(crate) before: Snapshot<Bank<W, B>>,
    pub(crate) after: Snapshot<Bank<W, B>>,
}

impl<'a, W: BusWord, B: Bus<W>, C: Call<W, B>> Tells<Held<W, B>> for Made<'a, W, B, C> {
    ghost told = { λ m. entry_of m.before.value m.after.value m.caller (C.op m.call.now (length m.into.now)) m.reply m.into.now };
}
