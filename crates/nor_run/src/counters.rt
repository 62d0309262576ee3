//! The chips of a simulated bank.
ghost use Rattle.std.specs.Prelude.{◌≡◌, ◌≤◌};
ghost use Rattle.nor_io.specs.Puts.{PutsText};
ghost use Rattle.nor_script.specs.Report.{totals_text};
ghost use Rattle.nor_run.specs.Running.{counters_of};

use nor_bus::SimBank;
use nor_cell::Chip;
use nor_io::{Sink, SinkError};
use nor_script::put_totals;
use nor_word::BusWord;

// How often an erase was suspended on a chip, and how many erases there were.
fn counters<C: Chip>(chip: &C) -> (u32, u32)
    ensures { result ≡ ((C.state chip.now).suspends, (C.state chip.now).erases) }
{
    let cells = chip.cells();
    (cells.suspends, cells.erases)
}

/// Puts the end of a report: each lane's counters, and the number of entries.
pub fn put_counters<W: BusWord, C: Chip + Drop, K: Sink>(
    bank: &SimBank<W, C>,
    entries: u64,
    out: &mut K,
) -> Result<(), SinkError>
    ensures puts { PutsText (totals_text (counters_of bank.now.lanes) entries)
        (K.state out.old) (K.state out.new) result }
    ensures later { (K.state out.old).faults ≤ (K.state out.new).faults }
{
    let mut all = [(0u32, 0u32); 4];
    let lanes = bank.chips().len() as u8;
    for lane in 0..lanes {
        all[usize::from(lane)] = counters(bank.chip(lane));
    }
    put_totals(out, &all[..usize::from(lanes)], entries)
}
