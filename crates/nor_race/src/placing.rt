//! The notes of all workers, each put at the place that is its position among theirs.
ghost use Rattle.std.specs.Prelude.{◌<◌, length, All};
ghost use Rattle.nor_race.specs.Noted.{told_of, closes_of};
ghost use Rattle.nor_race.specs.Places.{Placed, all_of};
ghost use Rattle.nor_race.specs.Teams.{teams_of};

use crate::note::Note;
use crate::task::Task;
use crate::team::Racer;
use nor_bus::Bus;
use nor_driver::Answer;
use nor_word::BusWord;
use std::alloc::Global;

// Puts the note of the poll that closed the erase of a line, where it was opened.
fn put_close(alloc: Global, line: u32, close: Option<Answer>, table: &mut Vec<Note>)
    requires within { All (λ x. x.position < length table.old.items) (closes_of line close) }
    ensures placed { Placed (closes_of line close) table.old.items table.new.items }
{
    if let Some(answer) = close {
        let place = answer.position as usize;
        table[place] = Note {
            line,
            closes: true,
            reply: answer.reply,
            bytes: Vec::new(alloc),
        };
    }
}

// Puts the notes of each task at their places.
fn put(alloc: Global, tasks: Vec<Task>, table: &mut Vec<Note>)
    requires within { All (λ x. x.position < length table.old.items) (told_of tasks.items) }
    ensures placed { Placed (told_of tasks.items) table.old.items table.new.items }
{
    let mut tasks = tasks;
    while let Some(task) = tasks.pop() {
        let Task {
            line,
            answer,
            bytes,
            close,
        } = task;
        put_close(alloc, line, close, table);
        let place = answer.position as usize;
        table[place] = Note {
            line,
            closes: false,
            reply: answer.reply,
            bytes,
        };
    }
}

/// Puts the notes of all racers at their places.
pub(crate) fn put_all<W: BusWord, B: Bus<W>>(
    alloc: Global,
    racers: Vec<Racer<W, B>>,
    table: &mut Vec<Note>,
)
    requires within { All (λ x. x.position < length table.old.items)
        (all_of (teams_of racers.items)) }
    ensures placed { Placed (all_of (teams_of racers.items)) table.old.items table.new.items }
{
    let mut racers = racers;
    while let Some(racer) = racers.pop() {
        let Racer {
            number: _,
            caller: _,
            tasks,
        } = racer;
        put(alloc, tasks, table);
    }
}
