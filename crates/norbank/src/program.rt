//! The top call.
ghost use Rattle.std.specs.Prelude.{◌≡◌, ◌≢◌, ◌≤◌, List, ℕ, true, IsOk};
ghost use Rattle.norbank.specs.AsAsked.{EndsAsAsked};
ghost use Rattle.norbank.specs.Does.{Does};
ghost use Rattle.norbank.specs.Done.{RanImage, IsRun};
ghost use Rattle.norbank.specs.Endings.{fault_told, lacks_memory};
ghost use Rattle.norbank.specs.Words.{Script as ScriptAsked, asked, asked_by};

use crate::quiet::obey;
use crate::run::race;
use crate::stop::{Done, Stop};
use crate::telling::{Status, tell};
use crate::words::{Command, command_of};
use nor_buffer::Output;
use nor_io::Shelf;
use nor_race::Gate;
use std::alloc::Global;
use std::sync::Wait;
use std::thread::Threads;

// Does what a command asks for, which may be a race.
fn obey_all<R: Threads + Wait + Sync, H: Shelf, K: Output, G: Gate + Sync>(
    rt: &R,
    alloc: Global,
    command: Command,
    shelf: &mut H,
    out: &mut K,
    gate: &G,
) -> Result<Done, Stop>
    ensures does { Does (asked_by command.entry) (H.state shelf.old) (H.state shelf.new)
        (K.state out.old) (K.state out.new) result }
    ensures emptied { IsOk result → K.out out.new ≡ (K.state out.new).taken }
    ensures later { (K.state out.old).faults ≤ (K.state out.new).faults }
{
    match command {
        Command::Race { image, script } => race(rt, alloc, image, script, shelf, out, gate),
        Command::Read { .. } => obey(alloc, command, shelf, out),
        Command::Show { .. } => obey(alloc, command, shelf, out),
        Command::Run { .. } => obey(alloc, command, shelf, out),
        Command::Drill { .. } => obey(alloc, command, shelf, out),
        Command::Unknown => obey(alloc, command, shelf, out),
    }
}

/// What the program does: the words after its name ask for it, images come from the shelf, and the text
/// goes to the sink.
///
/// `race IMAGE SCRIPT` runs the lines of a script on a bank, those of each caller in a thread of its own,
/// prints the history that they made together, and saves the bank. Every other command is that of
/// [`crate::quiet::quiet`]. Each worker passes the gate before and after each of its lines. A race waits
/// for turns: what is promised of it holds when it returns.
pub fn norbank<R: Threads + Wait + Sync, H: Shelf, K: Output, G: Gate + Sync>(
    rt: &R,
    alloc: Global,
    words: &[String],
    shelf: &mut H,
    out: &mut K,
    gate: &G,
) -> Status
    // Whatever the schedule of the threads: what a race has printed is the report of entries that have each
    // caller's lines in their order, and the image is the bank as it then is. Where its tables begin with
    // `QRY`, they are one history, which is legal from the image's bytes, and the image has those after it.
    ensures race { (image script : List ℕ) → asked words.now ≡ ScriptAsked true image script
        → IsRun result.code → RanImage true image script (H.state shelf.old) (H.state shelf.new)
        (K.state out.old) (K.state out.new) result.code }
    ensures ends { EndsAsAsked (asked words.now) (H.state shelf.old) (H.state shelf.new)
        (K.state out.old) (K.state out.new) result.code }
    // All that was put has come out. Else a first part has, as of any output.
    ensures emptied { result.code ≢ fault_told → result.code ≢ lacks_memory
        → K.out out.new ≡ (K.state out.new).taken }
{
    let command = command_of(words);
    let ended = obey_all(rt, alloc, command, shelf, out, gate);
    tell(alloc, command, ended, out)
}
