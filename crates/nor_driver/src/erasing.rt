//! Erases.
ghost use Rattle.std.specs.Prelude.{◌≡◌, ◌≤◌, [], true, false};
ghost use Rattle.nor_array.specs.declared.entry.Op.TheVariants.{EraseOpen as EraseOpenOp, EraseAll as EraseAllOp, Poll as PollOp};
ghost use Rattle.nor_driver.specs.Callers.{IsCallerOf, Called, Erases, is_opened};

use crate::call::{EraseAll, EraseOpen, Poll};
use crate::caller::{Answer, Caller};
use crate::driver::Driver;
use nor_array::Reply;
use nor_bus::Bus;
use nor_word::BusWord;
use std::sync::Wait;

impl<W: BusWord, B: Bus<W>> Driver<W, B> {
    /// Begins to erase a block, in a turn of its own. Beside another erase it waits until that is closed; a
    /// block that is under erase itself is `Busy`. `Opened`: the block is under erase, and this caller has to
    /// close the erase by [`erase_close`](Driver::erase_close). What else is answered opens none.
    pub fn erase_start<R: Wait>(&self, rt: &R, caller: &mut Caller<W, B>, block: u32) -> Answer
        requires own { IsCallerOf self.now caller.old }
        requires room { 2 ≤ caller.old.pass.room }
        requires closed { caller.old.erasing ≡ false }
        ensures called { Called (self.now).opening (EraseOpenOp block) [] caller.old caller.new result }
        ensures erasing { caller.new.erasing ≡ is_opened result.reply }
    {
        let answer = self.run(rt, caller, &EraseOpen { block }, &mut []);
        caller.erasing = answer.reply == Reply::Opened;
        answer
    }

    /// Begins to erase all blocks at once, as [`erase_start`](Driver::erase_start) does one. Beside any other
    /// erase it waits.
    pub fn erase_all_start<R: Wait>(&self, rt: &R, caller: &mut Caller<W, B>) -> Answer
        requires own { IsCallerOf self.now caller.old }
        requires room { 2 ≤ caller.old.pass.room }
        requires closed { caller.old.erasing ≡ false }
        ensures called { Called (self.now).opening EraseAllOp [] caller.old caller.new result }
        ensures erasing { caller.new.erasing ≡ is_opened result.reply }
    {
        let answer = self.run(rt, caller, &EraseAll, &mut []);
        caller.erasing = answer.reply == Reply::Opened;
        answer
    }

    /// Looks at the caller's erase, in a turn for each look, until it has ended: `Erased`, `Failed` or
    /// `Halted`. Only this last look is entered.
    pub fn erase_close<R: Wait>(&self, rt: &R, caller: &mut Caller<W, B>) -> Answer
        requires own { IsCallerOf self.now caller.old }
        requires room { 1 ≤ caller.old.pass.room }
        requires open { caller.old.erasing ≡ true }
        ensures called { Called (self.now).opening PollOp [] caller.old caller.new result }
        ensures erasing { caller.new.erasing ≡ false }
    {
        caller.erasing = false;
        self.run(rt, caller, &Poll, &mut [])
    }

    // Closes an erase that was opened.
    fn finish<R: Wait>(&self, rt: &R, caller: &mut Caller<W, B>, opening: Answer) -> Answer
        requires own { IsCallerOf self.now caller.old }
        requires room { 1 ≤ caller.old.pass.room }
        requires erasing { caller.old.erasing ≡ is_opened opening.reply }
        ensures closed { is_opened opening.reply ≡ true
            → Called (self.now).opening PollOp [] caller.old caller.new result }
        ensures unopened { is_opened opening.reply ≡ false → (result ≡ opening) × (caller.new ≡ caller.old) }
        ensures erasing { caller.new.erasing ≡ false }
    {
        if caller.erasing {
            self.erase_close(rt, caller)
        } else {
            opening
        }
    }

    /// Erases a block: opens the erase, and closes it, as [`erase_start`](Driver::erase_start) and
    /// [`erase_close`](Driver::erase_close) do. Where it isn't opened the answer is that of the opening. `Erased`:
    /// each byte of the block was 0xFF at that place of the history.
    pub fn erase<R: Wait>(&self, rt: &R, caller: &mut Caller<W, B>, block: u32) -> Answer
        requires own { IsCallerOf self.now caller.old }
        requires room { 2 ≤ caller.old.pass.room }
        requires closed { caller.old.erasing ≡ false }
        ensures erased { Erases (self.now).opening (EraseOpenOp block) caller.old caller.new result }
        ensures erasing { caller.new.erasing ≡ false }
    {
        let opening = self.erase_start(rt, caller, block);
        self.finish(rt, caller, opening)
    }

    /// Erases all blocks at once, as [`erase`](Driver::erase) does one.
    pub fn erase_all<R: Wait>(&self, rt: &R, caller: &mut Caller<W, B>) -> Answer
        requires own { IsCallerOf self.now caller.old }
        requires room { 2 ≤ caller.old.pass.room }
        requires closed { caller.old.erasing ≡ false }
        ensures erased { Erases (self.now).opening EraseAllOp caller.old caller.new result }
        ensures erasing { caller.new.erasing ≡ false }
    {
        let opening = self.erase_all_start(rt, caller);
        self.finish(rt, caller, opening)
    }
}
