//! The tasks and notes of a race, whose memory is taken before the first cycle.
ghost use Rattle.std.specs.Prelude.{◌≡◌, ◌≤◌, ◌^◌, ◌*◌, ◌+◌, [], length, All, None, false, IfOk};
ghost use Rattle.nor_array.specs.declared.entry.Op.{Op as OpOf};
ghost use Rattle.nor_array.specs.declared.entry.Reply.TheVariants.{Done};
ghost use Rattle.nor_script.specs.Racing.{IsRaceScript};
ghost use Rattle.nor_script.specs.declared.line.Word.TheVariants.{Call};
ghost use Rattle.nor_race.specs.Cuts.{AreCuts};
ghost use Rattle.nor_race.specs.Tasks.{AreFor, room_for};
ghost use Rattle.nor_race.specs.Teams.{CanStart, IsTeam, task_count};

use crate::note::Note;
use crate::task::Task;
use crate::team::Racer;
use nor_array::{Op, Reply};
use nor_bank::MAX_LEN;
use nor_bus::Bus;
use nor_driver::{Answer, NoMemory};
use nor_script::{Line, Word};
use nor_word::BusWord;
use std::alloc::Global;

// How many bytes a call may give.
fn room_of(word: &Word) -> usize
    ensures { (op : OpOf) → word.now ≡ Call op → result ≡ room_for op }
{
    match word {
        Word::Call(Op::Read { at: _, len }) => {
            if *len <= MAX_LEN as u32 {
                *len as usize
            } else {
                0
            }
        }
        _ => 0,
    }
}

// A task for a line, with room for its data.
fn blank_task(alloc: Global, line: u32, word: &Word) -> Result<Task, NoMemory>
    ensures line { IfOk result (λ task. (task.line ≡ line) × (task.close ≡ None)) }
    ensures room { IfOk result (λ task. (op : OpOf) → word.now ≡ Call op
        → length task.bytes.items ≡ room_for op) }
{
    let bytes = vec![in alloc; 0; room_of(word)]?;
    Ok(Task {
        line,
        answer: Answer {
            reply: Reply::Done,
            position: 0,
        },
        bytes,
        close: None,
    })
}

// Tasks for the lines of a caller, in their order.
fn blank_tasks(alloc: Global, lines: &[Line], number: u8) -> Result<Vec<Task>, NoMemory>
    requires script { IsRaceScript lines.now }
    requires number { 1 ≤ number }
    ensures for_caller { IfOk result (λ tasks. AreFor lines.now number tasks.items) }
    ensures few { IfOk result (λ tasks. length tasks.items ≤ 2 ^ 16) }
{
    let mut tasks = Vec::new(alloc);
    for i in 0..lines.len() {
        let line = &lines[i];
        if line.caller != number {
            continue;
        }
        let task = blank_task(alloc, i as u32, &line.word)?;
        tasks.push(task)?;
    }
    Ok(tasks)
}

/// A racer for each number from 1 to 8 that has lines, with tasks for them.
pub(crate) fn make_team<W: BusWord, B: Bus<W>>(
    alloc: Global,
    lines: &[Line],
) -> Result<Vec<Racer<W, B>>, NoMemory>
    requires script { IsRaceScript lines.now }
    ensures few { IfOk result (λ racers. length racers.items ≤ 8) }
    ensures each { IfOk result (λ racers. All (CanStart lines.now) racers.items) }
    ensures team { IfOk result (λ racers. IsTeam lines.now racers.items) }
{
    let mut racers = Vec::new(alloc);
    for i in 0..8u8 {
        let tasks = blank_tasks(alloc, lines, i + 1)?;
        if tasks.is_empty() {
            continue;
        }
        racers.push(Racer {
            number: i + 1,
            caller: None,
            tasks,
        })?;
    }
    Ok(racers)
}

// A note of nothing, for the line at a place.
fn blank_note(alloc: Global, line: u32) -> Note
    ensures { result ≡ record { line = line; closes = false; reply = Done; bytes = [] } }
{
    Note {
        line,
        closes: false,
        reply: Reply::Done,
        bytes: Vec::new(alloc),
    }
}

/// Notes for the cuts of a script, in their order.
pub(crate) fn blank_cuts(alloc: Global, lines: &[Line]) -> Result<Vec<Note>, NoMemory>
    requires script { IsRaceScript lines.now }
    ensures { IfOk result (λ cuts. AreCuts lines.now cuts.items) }
{
    let mut cuts = Vec::new(alloc);
    for i in 0..lines.len() {
        if lines[i].caller != 0 {
            continue;
        }
        cuts.push(blank_note(alloc, i as u32))?;
    }
    Ok(cuts)
}

// Pushes so many notes of nothing.
fn push_blanks(alloc: Global, table: &mut Vec<Note>, count: usize) -> Result<(), NoMemory>
    ensures { IfOk result (λ none. length table.new.items ≡ length table.old.items + count) }
{
    for _i in 0..count {
        table.push(blank_note(alloc, 0))?;
    }
    Ok(())
}

/// Two places for each task of the racers, as an erase has two entries.
pub(crate) fn make_table<W: BusWord, B: Bus<W>>(
    alloc: Global,
    racers: &[Racer<W, B>],
) -> Result<Vec<Note>, NoMemory>
    requires few { length racers.now ≤ 8 }
    requires each { All (λ r. length r.tasks.items ≤ 2 ^ 16) racers.now }
    ensures { IfOk result (λ table. length table.items ≡ 2 * task_count racers.now) }
{
    let mut table = Vec::new(alloc);
    for i in 0..racers.len() {
        push_blanks(alloc, &mut table, 2 * racers[i].tasks.len())?;
    }
    Ok(table)
}
