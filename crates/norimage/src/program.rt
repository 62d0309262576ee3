//! The top call.
ghost use Rattle.std.specs.Prelude.{◌≡◌, ◌≢◌, ◌≤◌, IfErr, OnOk};
ghost use Rattle.norimage.specs.Ends.{Ends, Saved, Stops};
ghost use Rattle.norimage.specs.Words.{asked, asked_by};

use crate::stop::Stop;
use crate::telling::{Status, tell};
use crate::words::{Command, command_of};
use crate::work::work;
use nor_io::{Shelf, Sink};
use std::alloc::Global;

// Does what a command asks for, and saves what comes of it.
fn obey<H: Shelf>(alloc: Global, command: Command, shelf: &mut H) -> Result<(), Stop>
    ensures saved { OnOk result
        (Saved (asked_by command.entry) (H.state shelf.old) (H.state shelf.new)) }
    ensures stops { IfErr result
        (Stops (asked_by command.entry) (H.state shelf.old) (H.state shelf.new)) }
    ensures kept { IfErr result (λ _. (H.state shelf.new).files ≡ (H.state shelf.old).files) }
{
    let bytes = work(alloc, command, shelf)?;
    match shelf.save(command.out(), &bytes) {
        Ok(()) => Ok(()),
        Err(error) => Err(Stop::of_save(error)),
    }
}

/// What the program does: the words after its name ask for it, files come from the shelf and go to it, and
/// the text of what stopped it goes to the sink. It always returns.
///
/// `make OUT WIDTH DEVICE LANES TABLE RAW` makes the image of a bank of its query table and a dump of its
/// bytes, `raw IMAGE OUT` takes the dump out again, and `table IMAGE LANE OUT` a lane's query table.
pub fn norimage<H: Shelf, K: Sink>(
    alloc: Global,
    words: &[String],
    shelf: &mut H,
    out: &mut K,
) -> Status
    ensures ends { Ends (asked words.now) (H.state shelf.old) (H.state shelf.new)
        (K.state out.old) (K.state out.new) result.code }
    // With any other status no file has changed.
    ensures kept { result.code ≢ 0 → (H.state shelf.new).files ≡ (H.state shelf.old).files }
{
    let command = command_of(words);
    match obey(alloc, command, shelf) {
        Ok(()) => Status { code: 0 },
        Err(stop) => tell(alloc, command, stop, out),
    }
}
