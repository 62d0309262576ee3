//! A team of workers, each of which runs its own lines.
ghost use Rattle.std.specs.Prelude.{◌≡◌, ◌≤◌, ◌+◌, ◌*◌, [], length, All, Some, None, ◌^◌};
ghost use Rattle.nor_race.specs.Teams.{CanRace, HasRaced, EachRaced, CanFold, CanStart, IsFirst, teams_of, total_share, task_count, numbers_of, tasks_of};
ghost use Rattle.nor_race.specs.Places.{all_of};
ghost use Rattle.nor_race.specs.Ran.{Ran};
ghost use Rattle.nor_driver.specs.Callers.{IsCallerOf};

use crate::gate::Gate;
use crate::task::Task;
use crate::work::run_lines;
use nor_bus::Bus;
use nor_driver::{Caller, Driver};
use nor_script::Line;
use nor_word::BusWord;
use std::sync::Wait;
use std::thread;
use std::thread::Threads;

/// A caller, until it is handed over, with a task for each of its lines.
#[derive(Drop)]
pub(crate) struct Racer<W: BusWord, B: Bus<W>> {
    pub(crate) number: u8,
    pub(crate) caller: Option<Caller<W, B>>,
    pub(crate) tasks: Vec<Task>,
}

impl<W: BusWord, B: Bus<W>> Racer<W, B> {
    // Runs the lines of its tasks.
    fn run<R: Wait, G: Gate>(&mut self, rt: &R, driver: &Driver<W, B>, lines: &[Line], gate: &G)
        requires { CanRace lines.now driver.now self.old }
        ensures { HasRaced lines.now self.old self.new }
    {
        if let Some(caller) = &mut self.caller {
            run_lines(rt, driver, lines, gate, caller, self.tasks.as_mut_slice());
        }
    }

    // Takes a caller up, where it has none.
    fn take_up(&mut self, caller: Caller<W, B>)
        requires { self.old.caller ≡ None }
        ensures { self.new ≡ record self.old { caller = Some caller } }
    {
        let _none = self.caller.replace(caller);
    }

    // Gives the caller away.
    fn hand_over(&mut self) -> Option<Caller<W, B>>
        ensures caller { result ≡ self.old.caller }
        ensures rest { self.new ≡ record self.old { caller = None } }
    {
        self.caller.take()
    }
}

/// Lets each racer run its own lines, in a thread of its own, and waits until all have ended.
pub(crate) fn run_all<
    R: Threads + Wait + Sync,
    W: BusWord + Send,
    B: Bus<W> + Send,
    G: Gate + Sync,
>(rt: &R, driver: &Driver<W, B>, lines: &[Line], gate: &G, racers: &mut [Racer<W, B>])
    requires each { All (CanRace lines.now driver.now) racers.old }
    ensures each { EachRaced lines.now racers.old racers.new }
{
    if racers.is_empty() {
        return;
    }
    let threads = racers.len();
    thread::for_each_mut(
        rt,
        racers,
        threads,
        &|_: usize, racer: &mut Racer<W, B>|
            requires { CanRace lines.now driver.now racer.now }
            ensures { HasRaced lines.entry.now racer.entry.now racer.exit.now }
        { racer.run(rt, driver, lines, gate) },
    );
}

/// Splits a caller off the first for each of at most eight racers, under the racer's number.
pub(crate) fn hand_out<W: BusWord, B: Bus<W>>(
    driver: &Driver<W, B>,
    lines: &[Line],
    first: &mut Caller<W, B>,
    racers: &mut [Racer<W, B>],
)
    requires own { IsFirst driver.now first.old }
    requires few { length racers.old ≤ 8 }
    requires each { All (CanStart lines.now) racers.old }
    ensures own { IsCallerOf driver.now first.new }
    ensures fresh { first.new.pass.seen ≡ [] }
    ensures each { All (CanRace lines.now driver.now) racers.new }
    ensures share { first.new.pass.share + total_share racers.new ≡ 2 ^ 20 }
    ensures tasks { tasks_of racers.new ≡ tasks_of racers.old }
    ensures numbers { numbers_of racers.new ≡ numbers_of racers.old }
{
    let _ = lines;
    for i in 0..racers.len() {
        let number = racers[i].number;
        let caller = driver.split(first, number);
        racers[i].take_up(caller);
    }
}

/// Folds the callers of all racers into one, which has made nothing of its own.
pub(crate) fn fold_all<W: BusWord, B: Bus<W>>(
    driver: &Driver<W, B>,
    lines: &[Line],
    first: &mut Caller<W, B>,
    racers: &mut [Racer<W, B>],
)
    requires own { IsCallerOf driver.now first.old }
    requires fresh { first.old.pass.seen ≡ [] }
    requires each { All (CanFold lines.now driver.now) racers.old }
    ensures own { IsCallerOf driver.now first.new }
    ensures ran { Ran lines.now (teams_of racers.new) first.new.pass }
    ensures teams { teams_of racers.new ≡ teams_of racers.old }
    ensures share { first.new.pass.share ≡ first.old.pass.share + total_share racers.old }
{
    let _ = lines;
    for i in 0..racers.len() {
        let other = racers[i].hand_over().unwrap();
        driver.fold(first, other);
    }
}

/// Lets a team race: each racer gets a caller split off the first, runs its own lines, and is folded in
/// again.
pub(crate) fn race<R: Threads + Wait + Sync, W: BusWord + Send, B: Bus<W> + Send, G: Gate + Sync>(
    rt: &R,
    driver: &Driver<W, B>,
    lines: &[Line],
    gate: &G,
    first: &mut Caller<W, B>,
    racers: &mut [Racer<W, B>],
)
    requires own { IsFirst driver.now first.old }
    requires few { length racers.old ≤ 8 }
    requires each { All (CanStart lines.now) racers.old }
    ensures own { IsCallerOf driver.now first.new }
    ensures share { first.new.pass.share ≡ 2 ^ 20 }
    ensures ran { Ran lines.now (teams_of racers.new) first.new.pass }
    ensures numbers { numbers_of racers.new ≡ numbers_of racers.old }
    ensures few { length (all_of (teams_of racers.new)) ≤ 2 * task_count racers.old }
{
    hand_out(driver, lines, first, racers);
    run_all(rt, driver, lines, gate, racers);
    fold_all(driver, lines, first, racers);
}
