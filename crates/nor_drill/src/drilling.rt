//! The drill of a number, from its bank and script to its summary.
ghost use Rattle.std.specs.Prelude.{◌≡◌, ◌≤◌, None};
ghost use Rattle.nor_bus.specs.Driven.{AllLanes};
ghost use Rattle.nor_image.specs.Loaded.{bus_of, loaded_width};
ghost use Rattle.nor_probe.specs.Probed.{refusal};
ghost use Rattle.nor_run.specs.Scripts.{IsJustLoaded, HasLetters};
ghost use Rattle.nor_script.specs.Script.{IsScript};
ghost use Rattle.nor_drill.specs.Drilled.{IsDrilled, Drills};

use crate::bank::drill_bank;
use crate::drilled::{DrillError, Drilled};
use crate::script::drill_lines;
use crate::sum::sum_of;
use crate::summary::put_summary;
use crate::tally::Tally;
use nor_bus::SimBank;
use nor_cell::Chip;
use nor_image::{Loaded, with_bank};
use nor_io::Sink;
use nor_run::{run_lines, start_bank};
use nor_script::Line;
use nor_word::BusWord;
use std::alloc::Global;

// Runs the lines on a bank that probing accepts, and counts the answers.
fn drill_on<W: BusWord, C: Chip + Drop>(bank: SimBank<W, C>, lines: &[Line]) -> Drilled
    requires script { IsScript lines.now }
    requires loaded { IsJustLoaded W.WIDTH bank }
    requires accepted { refusal W.WIDTH bank.lanes ≡ None }
    ensures { IsDrilled W.WIDTH lines.now bank result }
{
    match start_bank(bank) {
        Ok(bank) => {
            let mut bank = bank;
            let mut tally = Tally::new();
            match run_lines(&mut bank, lines, &mut tally) {
                Ok(_ran) => {
                    let sum = sum_of(bank.bus());
                    Drilled { tally, sum }
                }
                Err(never) => match never {},
            }
        }
        Err(_) => unreachable!(),
    }
}

fn drill_loaded(loaded: Loaded, lines: &[Line]) -> Drilled
    requires script { IsScript lines.now }
    requires loaded { IsJustLoaded (loaded_width loaded) (bus_of loaded) }
    requires accepted { refusal (loaded_width loaded) (bus_of loaded).lanes ≡ None }
    ensures { IsDrilled (loaded_width loaded) lines.now (bus_of loaded) result }
{
    with_bank!(loaded, bank => drill_on(bank, lines))
}

/// Makes the bank and the script of a number, runs the script on the bank, and puts the summary of the
/// answers.
///
/// The entries that are counted answer the script, and are a legal history of the plain array that opens
/// with the bank's bytes; none of them is a halt. `NoMemory` comes before anything was put; `Put` only from
/// the sink, and a first part of the summary was then put.
pub fn drill<K: Sink>(alloc: Global, n: u32, out: &mut K) -> Result<(), DrillError>
    ensures drills { Drills n (K.state out.old) (K.state out.new) result }
    ensures later { (K.state out.old).faults ≤ (K.state out.new).faults }
{
    let loaded = drill_bank(alloc, n)?;
    let lines = drill_lines(alloc, n)?;
    let drilled = drill_loaded(loaded, &lines);
    put_summary(out, n, &drilled.tally, drilled.sum)?;
    Ok(())
}
