//! The bank and the script that a run or a race begins with.
ghost use Rattle.std.specs.Prelude.{◌≡◌, ◌≤◌, IfOk, IfErr};
ghost use Rattle.norbank.specs.Opened.{IsJob, FailsJob};

use crate::open::{bank_of, load};
use crate::stop::{File, Stop};
use nor_image::{Loaded, write_image};
use nor_io::Shelf;
use nor_script::{Script, parse_script};
use std::alloc::Global;

/// A bank that was loaded, the file of version 2 that it is to be saved as, and the script that is to be run
/// on it.
#[derive(Drop)]
pub struct Job {
    pub file: Vec<u8>,
    pub loaded: Loaded,
    pub script: Script,
}

/// The bank that the file under one name stands for, and the script under another, to be raced or to be run
/// by one thread. Room for the file to save is taken here, before the first line is run.
pub fn job_of<H: Shelf>(
    alloc: Global,
    image: &str,
    script: &str,
    race: bool,
    shelf: &mut H,
) -> Result<Job, Stop>
    ensures ready { IfOk result (IsJob race (H.state shelf.old).files image.now script.now) }
    ensures stops { IfErr result (FailsJob race image.now script.now
        (H.state shelf.old) (H.state shelf.new)) }
    ensures same { (H.state shelf.new).files ≡ (H.state shelf.old).files }
    ensures later { (H.state shelf.old).faults ≤ (H.state shelf.new).faults }
{
    let file = load(alloc, File::Bank, image, shelf)?;
    let text = load(alloc, File::Script, script, shelf)?;
    let loaded = bank_of(alloc, file)?;
    let script = parse_script(alloc, &text, race)?;
    let file = write_image(alloc, &loaded)?;
    Ok(Job {
        file,
        loaded,
        script,
    })
}
