//! Calls in turns.
ghost use Rattle.std.specs.Prelude.{◌≡◌, ◌≤◌, length, None, IfSome, IfNone, true};
ghost use Rattle.nor_turn.specs.Passes.{IsPassOf, Continues};
ghost use Rattle.nor_driver.specs.Callers.{IsCallerOf, Called};
ghost use Rattle.nor_driver.specs.Fronts.{StandsFor};
ghost use Rattle.nor_driver.specs.Made.{IsSame, IsSameCaller, MayPoll, is_poll};

use crate::call::{Call, Made, is_waited_out};
use crate::caller::{Answer, Caller};
use crate::driver::Driver;
use crate::held::Held;
use nor_bus::Bus;
use nor_turn::{Pass, Turn};
use nor_word::BusWord;
use std::snapshot::Snapshot;
use std::sync::Wait;
use std::thread;

impl<W: BusWord, B: Bus<W>> Driver<W, B> {
    // Waits for a turn.
    fn turn<R: Wait>(&self, rt: &R, pass: &mut Pass<Held<W, B>>) -> Turn<Held<W, B>>
        requires own { IsPassOf self.now pass.old }
        requires idle { pass.old.ticket ≡ None }
        ensures same { IsSame pass.old pass.new }
        ensures turn { pass.new.has_turn ≡ true }
        ensures front { Continues pass.old pass.new.turn_front }
        ensures value { StandsFor (self.now).opening pass.new.turn_front result }
    {
        self.lock.draw(pass);
        for _ in rt.forever() {
            if let Some(turn) = self.lock.ask(pass) {
                return turn;
            }
            thread::yield_now();
        }
        unreachable!()
    }

    // Makes a call in one turn, and enters it. Where its reply is waited out, the turn is given back
    // without an entry.
    fn call_once<R: Wait, C: Call<W, B>>(
        &self,
        rt: &R,
        caller: &mut Caller<W, B>,
        call: &C,
        into: &mut [u8],
    ) -> Option<Answer>
        requires own { IsCallerOf self.now caller.old }
        requires room { 1 ≤ caller.old.pass.room }
        requires polls { is_poll (C.op call.now (length into.old)) ≡ true → MayPoll caller.old }
        ensures some { IfSome result (Called (self.now).opening (C.op call.now (length into.old)) into.new
            caller.old caller.new) }
        ensures erasing { caller.new.erasing ≡ caller.old.erasing }
        ensures none { IfNone result (IsSameCaller caller.old caller.new) }
        ensures length { length into.new ≡ length into.old }
    {
        let mut turn = self.turn(rt, &mut caller.pass);
        let held = turn.value();
        let before = Snapshot::of(&held.bank);
        let reply = call.make(&mut held.bank, caller.number, into);
        if is_waited_out(reply) {
            self.lock.give(&mut caller.pass, turn);
            return None;
        }
        let after = Snapshot::of(&held.bank);
        let made = Made {
            caller: caller.number,
            call,
            into,
            reply,
            before,
            after,
        };
        let position = self.lock.enter(&mut caller.pass, &mut turn, &made);
        self.lock.give(&mut caller.pass, turn);
        Some(Answer { reply, position })
    }

    // Makes a call and enters it, in the first turn in which it is answered.
    pub(crate) fn run<R: Wait, C: Call<W, B>>(
        &self,
        rt: &R,
        caller: &mut Caller<W, B>,
        call: &C,
        into: &mut [u8],
    ) -> Answer
        requires own { IsCallerOf self.now caller.old }
        requires room { 1 ≤ caller.old.pass.room }
        requires polls { is_poll (C.op call.now (length into.old)) ≡ true → MayPoll caller.old }
        ensures called { Called (self.now).opening (C.op call.now (length into.old)) into.new
            caller.old caller.new result }
        ensures erasing { caller.new.erasing ≡ caller.old.erasing }
        ensures length { length into.new ≡ length into.old }
    {
        for _ in rt.forever() {
            if let Some(answer) = self.call_once(rt, caller, call, into) {
                return answer;
            }
            thread::yield_now();
        }
        unreachable!()
    }
}
