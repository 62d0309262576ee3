//! A race, from the first turn to the last.
ghost use Rattle.std.specs.Prelude.{◌≡◌, ◌≤◌, ◌^◌, ◌*◌, length, All, None, IfOk, IfErr};
ghost use Rattle.nor_script.specs.Racing.{IsRaceScript};
ghost use Rattle.nor_race.specs.Cuts.{AreCuts, IsArmed};
ghost use Rattle.nor_race.specs.Races.{Races, RacesOn};
ghost use Rattle.nor_race.specs.Teams.{CanStart, IsTeam, task_count};

use crate::cuts::arm_cuts;
use crate::gate::Gate;
use crate::making::{blank_cuts, make_table, make_team};
use crate::note::Note;
use crate::notes::Notes;
use crate::placing::put_all;
use crate::team::{Racer, race};
use nor_bank::Bank;
use nor_bus::Bus;
use nor_driver::{Driver, NoMemory};
use nor_script::{Line, Script};
use nor_word::BusWord;
use std::alloc::Global;
use std::sync::Wait;
use std::thread::Threads;

/// What a race leaves: the bank, and the notes of all entries.
pub struct Raced<W: BusWord, B: Bus<W>> {
    pub bank: Bank<W, B>,
    pub notes: Notes,
}

// Notes for the cuts, the racers, and a place for each note of theirs.
#[derive(Drop)]
struct Team<W: BusWord, B: Bus<W>> {
    cuts: Vec<Note>,
    racers: Vec<Racer<W, B>>,
    table: Vec<Note>,
}

// All memory of a race but that of the driver.
fn prepare<W: BusWord, B: Bus<W>>(alloc: Global, lines: &[Line]) -> Result<Team<W, B>, NoMemory>
    requires script { IsRaceScript lines.now }
    ensures cuts { IfOk result (λ team. AreCuts lines.now team.cuts.items) }
    ensures few { IfOk result (λ team. length team.racers.items ≤ 8) }
    ensures each { IfOk result (λ team. All (CanStart lines.now) team.racers.items) }
    ensures team { IfOk result (λ team. IsTeam lines.now team.racers.items) }
    ensures table { IfOk result (λ team.
        length team.table.items ≡ 2 * task_count team.racers.items) }
{
    let cuts = blank_cuts(alloc, lines)?;
    let racers = make_team(alloc, lines)?;
    let table = make_table(alloc, &racers)?;
    Ok(Team {
        cuts,
        racers,
        table,
    })
}

// Lets a team race for the bank, each racer in a thread of its own. Gives the bank back when all have
// run their lines, with the notes of their entries.
fn race_team<R: Threads + Wait + Sync, W: BusWord + Send, B: Bus<W> + Send, G: Gate + Sync>(
    rt: &R,
    alloc: Global,
    bank: Bank<W, B>,
    lines: &[Line],
    gate: &G,
    racers: Vec<Racer<W, B>>,
    table: Vec<Note>,
) -> Result<(Bank<W, B>, Vec<Note>), (Bank<W, B>, NoMemory)>
    requires quiet { bank.erase ≡ None }
    requires few { length racers.items ≤ 8 }
    requires each { All (CanStart lines.now) racers.items }
    requires team { IsTeam lines.now racers.items }
    requires table { length table.items ≡ 2 * task_count racers.items }
    ensures raced { IfOk result (λ raced. RacesOn lines.now bank raced.0 raced.1.items) }
    ensures back { IfErr result (λ back. back.0 ≡ bank) }
{
    let (driver, first) = Driver::new(alloc, bank)?;
    let mut first = first;
    let mut racers = racers;
    race(rt, &driver, lines, gate, &mut first, racers.as_mut_slice());
    let (bank, count) = driver.shut(first);
    let mut table = table;
    put_all(alloc, racers, &mut table);
    table.truncate(count as usize);
    Ok((bank, table))
}

/// Races a script's lines for the bank, of which no call was made since it was started. Its cuts are armed
/// first; then one worker for each caller that has lines runs them in their order, each in a thread of its
/// own. All memory is taken before the first bus cycle.
///
/// # Errors
/// `NoMemory`, with the bank, before any cycle was made. A cut of the script may be armed in it then.
pub fn race_lines<R: Threads + Wait + Sync, W: BusWord + Send, B: Bus<W> + Send, G: Gate + Sync>(
    rt: &R,
    alloc: Global,
    bank: Bank<W, B>,
    script: &Script,
    gate: &G,
) -> Result<Raced<W, B>, (Bank<W, B>, NoMemory)>
    requires fresh { (bank.halted ≡ None) × (bank.erase ≡ None) }
    requires script { IsRaceScript script.now }
    ensures raced { IfOk result (λ raced. Races script.now bank raced.bank raced.notes) }
    ensures back { IfErr result (λ back. IsArmed bank back.0) }
{
    let lines = script.lines();
    let team = match prepare(alloc, lines) {
        Ok(team) => team,
        Err(error) => return Err((bank, error)),
    };
    let Team {
        cuts,
        racers,
        table,
    } = team;
    let mut bank = bank;
    let mut cuts = cuts;
    arm_cuts(&mut bank, lines, cuts.as_mut_slice());
    let (bank, raced) = race_team(rt, alloc, bank, lines, gate, racers, table)?;
    let notes = Notes { cuts, raced };
    Ok(Raced { bank, notes })
}
