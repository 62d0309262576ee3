//! Reads and programs.
ghost use Rattle.std.specs.Prelude.{◌≡◌, ◌<◌, ◌≤◌, [], length};
ghost use Rattle.nor_array.specs.declared.entry.Op.TheVariants.{Read as ReadOp, Program as ProgramOp};
ghost use Rattle.nor_driver.specs.Callers.{IsCallerOf, Called};

use crate::call::{LongRead, Program, Read};
use crate::caller::{Answer, Caller};
use crate::driver::Driver;
use nor_bus::Bus;
use nor_word::BusWord;
use std::sync::Wait;

impl<W: BusWord, B: Bus<W>> Driver<W, B> {
    /// Reads the bytes of the bank from `at` on, in a turn of its own. `Done`: `into` has them.
    pub fn read<R: Wait>(
        &self,
        rt: &R,
        caller: &mut Caller<W, B>,
        at: u32,
        into: &mut [u8],
    ) -> Answer
        requires own { IsCallerOf self.now caller.old }
        requires room { 2 ≤ caller.old.pass.room }
        ensures called { Called (self.now).opening (ReadOp at (length into.old)) into.new
            caller.old caller.new result }
        ensures erasing { caller.new.erasing ≡ caller.old.erasing }
        ensures length { length into.new ≡ length into.old }
    {
        self.run(rt, caller, &Read { at }, into)
    }

    /// Enters a read of more than 4,096 bytes, which is refused, in a turn of its own.
    pub fn read_long<R: Wait>(&self, rt: &R, caller: &mut Caller<W, B>, at: u32, len: u32) -> Answer
        requires own { IsCallerOf self.now caller.old }
        requires long { 4096 < len }
        requires room { 2 ≤ caller.old.pass.room }
        ensures called { Called (self.now).opening (ReadOp at len) [] caller.old caller.new result }
        ensures erasing { caller.new.erasing ≡ caller.old.erasing }
    {
        self.run(rt, caller, &LongRead { at, len }, &mut [])
    }

    /// Programs the bytes of the bank from `at` on, in a turn of its own. `Done`: each is old AND new.
    pub fn program<R: Wait>(
        &self,
        rt: &R,
        caller: &mut Caller<W, B>,
        at: u32,
        from: &[u8],
    ) -> Answer
        requires own { IsCallerOf self.now caller.old }
        requires room { 2 ≤ caller.old.pass.room }
        ensures called { Called (self.now).opening (ProgramOp at from.now) [] caller.old caller.new result }
        ensures erasing { caller.new.erasing ≡ caller.old.erasing }
    {
        self.run(rt, caller, &Program { at, from }, &mut [])
    }
}
