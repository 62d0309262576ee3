//! Block locks.
ghost use Rattle.std.specs.Prelude.{◌≡◌, ◌≤◌, []};
ghost use Rattle.nor_array.specs.declared.entry.Op.TheVariants.{Lock as LockOp, Unlock as UnlockOp, IsLocked as IsLockedOp};
ghost use Rattle.nor_driver.specs.Callers.{IsCallerOf, Called};

use crate::call::{IsLocked, Lock, Unlock};
use crate::caller::{Answer, Caller};
use crate::driver::Driver;
use nor_bus::Bus;
use nor_word::BusWord;
use std::sync::Wait;

impl<W: BusWord, B: Bus<W>> Driver<W, B> {
    /// Locks a block, in a turn of its own. `Done`: programs and erases that touch it are answered `Locked` from then on.
    pub fn lock<R: Wait>(&self, rt: &R, caller: &mut Caller<W, B>, block: u32) -> Answer
        requires own { IsCallerOf self.now caller.old }
        requires room { 2 ≤ caller.old.pass.room }
        ensures called { Called (self.now).opening (LockOp block) [] caller.old caller.new result }
        ensures erasing { caller.new.erasing ≡ caller.old.erasing }
    {
        self.run(rt, caller, &Lock { block }, &mut [])
    }

    /// Unlocks a block, in a turn of its own.
    pub fn unlock<R: Wait>(&self, rt: &R, caller: &mut Caller<W, B>, block: u32) -> Answer
        requires own { IsCallerOf self.now caller.old }
        requires room { 2 ≤ caller.old.pass.room }
        ensures called { Called (self.now).opening (UnlockOp block) [] caller.old caller.new result }
        ensures erasing { caller.new.erasing ≡ caller.old.erasing }
    {
        self.run(rt, caller, &Unlock { block }, &mut [])
    }

    /// Asks whether a block is locked, in a turn of its own. `Bit` tells it.
    pub fn is_locked<R: Wait>(&self, rt: &R, caller: &mut Caller<W, B>, block: u32) -> Answer
        requires own { IsCallerOf self.now caller.old }
        requires room { 2 ≤ caller.old.pass.room }
        ensures called { Called (self.now).opening (IsLockedOp block) [] caller.old caller.new result }
        ensures erasing { caller.new.erasing ≡ caller.old.erasing }
    {
        self.run(rt, caller, &IsLocked { block }, &mut [])
    }
}
