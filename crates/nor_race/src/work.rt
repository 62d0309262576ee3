//! One worker.
ghost use Rattle.std.specs.Prelude.{◌≡◌, ◌≤◌, ◌+◌, ◌*◌, [], length, true, false};
ghost use Rattle.nor_driver.specs.Callers.{IsCallerOf, Called, WentOn, is_opened};
ghost use Rattle.nor_script.specs.Answering.{lines_by};
ghost use Rattle.nor_script.specs.Racing.{is_raced};
ghost use Rattle.nor_race.specs.Noted.{told_of};
ghost use Rattle.nor_race.specs.Tasks.{RoomFor, IsFor, AreFor, Closes, RunsLine};
ghost use Rattle.nor_race.specs.Ran.{Works};

use crate::gate::{Gate, Stage};
use crate::task::Task;
use nor_array::{Op, Reply};
use nor_bank::MAX_LEN;
use nor_bus::Bus;
use nor_driver::{Answer, Caller, Driver};
use nor_script::{Line, Word};
use nor_word::BusWord;
use std::sync::Wait;

// Makes a call, which may fill some bytes.
fn call<R: Wait, W: BusWord, B: Bus<W>>(
    rt: &R,
    driver: &Driver<W, B>,
    caller: &mut Caller<W, B>,
    op: &Op,
    into: &mut [u8],
) -> Answer
    requires own { IsCallerOf driver.now caller.old }
    requires room { 2 ≤ caller.old.pass.room }
    requires raced { is_raced op.now ≡ true }
    requires bytes { RoomFor op.now into.old }
    ensures called { Called (driver.now).opening op.now into.new caller.old caller.new result }
    ensures erasing { caller.new.erasing ≡ caller.old.erasing }
{
    match op {
        Op::Read { at, len } => {
            if *len > MAX_LEN as u32 {
                driver.read_long(rt, caller, *at, *len)
            } else {
                driver.read(rt, caller, *at, into)
            }
        }
        Op::Program { at, new } => driver.program(rt, caller, *at, new.as_slice()),
        Op::Lock { block } => driver.lock(rt, caller, *block),
        Op::Unlock { block } => driver.unlock(rt, caller, *block),
        Op::IsLocked { block } => driver.is_locked(rt, caller, *block),
        _ => unreachable!(),
    }
}

// Closes an erase where it was opened, and stands at the gate before.
fn close<R: Wait, W: BusWord, B: Bus<W>, G: Gate>(
    rt: &R,
    driver: &Driver<W, B>,
    gate: &G,
    caller: &mut Caller<W, B>,
    line: u32,
    opening: Reply,
) -> Option<Answer>
    requires own { IsCallerOf driver.now caller.old }
    requires room { 1 ≤ caller.old.pass.room }
    requires erasing { caller.old.erasing ≡ is_opened opening }
    ensures idle { caller.new.erasing ≡ false }
    ensures closes { Closes (driver.now).opening opening caller.old caller.new result }
{
    if opening != Reply::Opened {
        return None;
    }
    gate.at(caller.number(), line, Stage::Opened);
    Some(driver.erase_close(rt, caller))
}

// Runs the line of a task.
fn run_line<R: Wait, W: BusWord, B: Bus<W>, G: Gate>(
    rt: &R,
    driver: &Driver<W, B>,
    lines: &[Line],
    gate: &G,
    caller: &mut Caller<W, B>,
    task: &mut Task,
)
    requires own { IsCallerOf driver.now caller.old }
    requires room { 2 ≤ caller.old.pass.room }
    requires idle { caller.old.erasing ≡ false }
    requires line { IsFor lines.now caller.old.number task.old }
    ensures idle { caller.new.erasing ≡ false }
    ensures runs { RunsLine lines.now (driver.now).opening caller.old caller.new task.new }
    ensures line { task.new.line ≡ task.old.line }
{
    let line = &lines[task.line as usize];
    let number = caller.number();
    gate.at(number, line.number, Stage::Before);
    match &line.word {
        Word::Call(op) => {
            task.answer = call(rt, driver, caller, op, task.bytes.as_mut_slice());
        }
        Word::Erase { block } => {
            task.answer = driver.erase_start(rt, caller, *block);
            task.close = close(rt, driver, gate, caller, line.number, task.answer.reply);
        }
        Word::EraseAll => {
            task.answer = driver.erase_all_start(rt, caller);
            task.close = close(rt, driver, gate, caller, line.number, task.answer.reply);
        }
    }
    gate.at(number, line.number, Stage::After);
}

/// Runs the lines of the tasks, in their order, which are all that the caller has, and fills the tasks.
/// The caller has made nothing before.
pub(crate) fn run_lines<R: Wait, W: BusWord, B: Bus<W>, G: Gate>(
    rt: &R,
    driver: &Driver<W, B>,
    lines: &[Line],
    gate: &G,
    caller: &mut Caller<W, B>,
    tasks: &mut [Task],
)
    requires own { IsCallerOf driver.now caller.old }
    requires idle { caller.old.erasing ≡ false }
    requires fresh { caller.old.pass.seen ≡ [] }
    requires room { 2 * length tasks.old + 2 ≤ caller.old.pass.room }
    requires lines { AreFor lines.now caller.old.number tasks.old }
    ensures works { Works lines.now (lines_by caller.old.number lines.now) (told_of tasks.new) caller.new.pass }
    ensures caller { (caller.new.number ≡ caller.old.number) × (caller.new.erasing ≡ false)
        × WentOn (length (told_of tasks.new)) caller.old.pass caller.new.pass }
    ensures few { length (told_of tasks.new) ≤ 2 * length tasks.old }
{
    for i in 0..tasks.len() {
        run_line(rt, driver, lines, gate, caller, &mut tasks[i]);
    }
}
