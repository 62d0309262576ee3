//! Callers that race for a bank, each in a thread of its own.
//!
//! [`race_lines`] gives a script's lines to one worker for each caller that has some. The workers run
//! them in their order, by calls of the driver of nor_driver, and stand at a [`Gate`] before and after
//! each. A set of workers is started by halving it, and their callers are folded together when all have
//! ended. All memory is taken before the first of the lines. [`race_image`] does so for a bank that was
//! just loaded, puts the report, and gives the bank back.
//!
//! The [`Notes`] of a race are what is to be printed of the history, entry by entry: `Races` in
//! `specs/Races.antt` says that the history answers the script, that the bank stands for it afterwards,
//! that the note at each place tells the entry there, and that the notes of a caller are in the order of
//! its lines. What is promised of a set of workers on the
//! way is `Ran` in `specs/Ran.antt`: each note tells the entry at its position in what the pass has
//! seen, and each entry under a name of the pass is told by a note.
//!
//! No clause says that workers run at the same time, or that a gate is called: tests do.
#![tactic(auto)]

mod cuts;
mod gate;
mod image;
mod laws;
mod making;
mod note;
mod notes;
mod placing;
mod race;
mod raceable;
mod report;
mod task;
mod team;
mod work;

pub use gate::{Gate, OpenGate, Stage};
pub use image::race_image;
pub use laws::teams_answer_their_script;
pub use nor_driver::NoMemory;
pub use note::Note;
pub use notes::Notes;
pub use race::{Raced, race_lines};
pub use raceable::can_race;
