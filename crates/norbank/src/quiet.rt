//! All commands but the race.
ghost use Rattle.std.specs.Prelude.{◌≡◌, ◌≢◌, ◌≤◌, IsOk};
ghost use Rattle.norbank.specs.AsAsked.{EndsAsAsked};
ghost use Rattle.norbank.specs.Does.{Does};
ghost use Rattle.norbank.specs.Endings.{fault_told, lacks_memory};
ghost use Rattle.norbank.specs.Words.{asked, asked_by, quietly};

use crate::drill::drill;
use crate::emptying::printed;
use crate::read::read;
use crate::run::run;
use crate::show::show;
use crate::stop::{Done, Stop};
use crate::telling::{Status, tell};
use crate::words::{Command, command_of};
use nor_buffer::Output;
use nor_io::Shelf;
use std::alloc::Global;

/// Does what a command asks for. The words of `race` are no form here.
pub fn obey<H: Shelf, K: Output>(
    alloc: Global,
    command: Command,
    shelf: &mut H,
    out: &mut K,
) -> Result<Done, Stop>
    ensures does { Does (quietly (asked_by command.entry)) (H.state shelf.old) (H.state shelf.new)
        (K.state out.old) (K.state out.new) result }
    ensures emptied { IsOk result → K.out out.new ≡ (K.state out.new).taken }
    ensures later { (K.state out.old).faults ≤ (K.state out.new).faults }
{
    match command {
        Command::Read { image, at, len } => {
            let ended = read(alloc, image, at, len, shelf, out);
            printed(ended, out)
        }
        Command::Show { image } => {
            let ended = show(alloc, image, shelf, out);
            printed(ended, out)
        }
        Command::Run { image, script } => run(alloc, image, script, shelf, out),
        Command::Drill { n } => {
            let ended = drill(alloc, n, out);
            printed(ended, out)
        }
        Command::Race { .. } => Err(Stop::Usage),
        Command::Unknown => Err(Stop::Usage),
    }
}

/// What the program does, but for `race`: the words after its name ask for it, images come from the
/// shelf, and the text goes to the sink. It always returns.
///
/// `read IMAGE ADDR LEN` prints bytes of a bank, `show IMAGE` what it is. `run IMAGE SCRIPT` runs the
/// commands of a script on it, prints a report and saves the bank. `drill N` runs a script of its own on a
/// bank of its own, and prints a summary. The words of `race` are no form.
pub fn quiet<H: Shelf, K: Output>(
    alloc: Global,
    words: &[String],
    shelf: &mut H,
    out: &mut K,
) -> Status
    ensures ends { EndsAsAsked (quietly (asked words.now)) (H.state shelf.old) (H.state shelf.new)
        (K.state out.old) (K.state out.new) result.code }
    // All that was put has come out.
    ensures emptied { result.code ≢ fault_told → result.code ≢ lacks_memory
        → K.out out.new ≡ (K.state out.new).taken }
{
    let command = command_of(words);
    let ended = obey(alloc, command, shelf, out);
    tell(alloc, command, ended, out)
}
