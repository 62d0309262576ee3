//! `drill`: a bank and a script that are made of a number.
ghost use Rattle.std.specs.Prelude.{◌≤◌};
ghost use Rattle.nor_io.specs.Files.{ShelfState};
ghost use Rattle.norbank.specs.Does.{Does};
ghost use Rattle.norbank.specs.Words.{Drill as DrillAsked};

use crate::stop::{Done, Stop};
use nor_io::Sink;
use std::alloc::Global;

/// Runs the script of a number on its bank, and prints the summary of what was answered. No file is
/// loaded or saved.
pub fn drill<K: Sink>(alloc: Global, n: u32, out: &mut K) -> Result<Done, Stop>
    ensures does { (shelf : ShelfState) → Does (DrillAsked n) shelf shelf
        (K.state out.old) (K.state out.new) result }
    ensures later { (K.state out.old).faults ≤ (K.state out.new).faults }
{
    nor_drill::drill(alloc, n, out)?;
    Ok(Done::All)
}
