//! A script on one bank of simulated chips.
ghost use Rattle.std.specs.Prelude.{◌≡◌, ◌≤◌, ℕ, List, Bool, Option, true, false, IfOk, IfErr};
ghost use Rattle.nor_io.specs.Files.{SinkState};
ghost use Rattle.nor_cell.specs.Ranges.{IsChip};
ghost use Rattle.nor_bus.specs.Cycles.{KeepsLanes};
ghost use Rattle.nor_bus.specs.Driven.{AllLanes};
ghost use Rattle.nor_bank.specs.State.{BankState};
ghost use Rattle.nor_script.specs.declared.line.Line.{Line as LineOf};
ghost use Rattle.nor_script.specs.Script.{IsScript};
ghost use Rattle.nor_run.specs.Running.{RunsLines, EndsLines, ReportsLines};
ghost use Rattle.nor_run.specs.Started.{of_put, Starts, Refuses};
ghost use Rattle.nor_run.specs.Scripts.{IsJustLoaded, EndsRun, Reports};

use crate::counters::put_counters;
use crate::lines::run_lines;
use crate::{Ran, RunError};
use nor_bank::Bank;
use nor_bus::SimBank;
use nor_cell::Chip;
use nor_io::{Sink, SinkError};
use nor_script::Line;
use nor_word::BusWord;

/// What the sink answered, as an error of a run.
pub fn of_put(ran: Result<Ran, SinkError>) -> Result<Ran, RunError>
    ensures { result ≡ of_put ran }
{
    match ran {
        Ok(ran) => Ok(ran),
        Err(error) => Err(RunError::Put(error)),
    }
}

// Looks at each chip, which tells of itself that its table, cells and locks are in range.
fn see_chips<W: BusWord, C: Chip + Drop>(bank: &SimBank<W, C>)
    ensures { AllLanes IsChip bank.now }
{
    for lane in 0..bank.chips().len() as u8 {
        let _cells = bank.chip(lane).cells();
    }
}

/// Starts a bank that was just loaded.
///
/// # Errors
/// With the bank: `Probe` where probing refuses it.
pub fn start_bank<W: BusWord, C: Chip + Drop>(
    bank: SimBank<W, C>,
) -> Result<Bank<W, SimBank<W, C>>, (SimBank<W, C>, RunError)>
    requires loaded { IsJustLoaded W.WIDTH bank }
    ensures started { IfOk result (Starts W.WIDTH bank) }
    ensures refused { IfErr result (λ back. Refuses W.WIDTH bank.lanes back.1) }
    ensures back { IfErr result (λ back. KeepsLanes bank back.0) }
{
    see_chips(&bank);
    match Bank::start(bank) {
        Ok(bank) => Ok(bank),
        Err((bank, error)) => Err((bank, RunError::Probe(error))),
    }
}

/// Puts the end of a report, where all lines were run and put.
pub fn put_end<W: BusWord, C: Chip + Drop, K: Sink>(
    bank: &SimBank<W, C>,
    ran: Result<Ran, RunError>,
    out: &mut K,
) -> Result<Ran, RunError>
    ensures reports { (race : Bool) (lines : List LineOf) (old new : BankState) (before : SinkState)
        → new.bus ≡ bank.now
        → RunsLines race lines old new before (K.state out.old) ran
        → ReportsLines race lines old new before (K.state out.new) result }
    ensures ends { (race : Bool) (before : SinkState)
        → before.faults ≤ (K.state out.old).faults
        → EndsLines race before (K.state out.old) ran
        → EndsLines race before (K.state out.new) result }
    ensures later { (K.state out.old).faults ≤ (K.state out.new).faults }
{
    match ran {
        Ok(ran) => match put_counters(bank, ran.entries, out) {
            Ok(()) => Ok(ran),
            Err(error) => Err(RunError::Put(error)),
        },
        Err(error) => Err(error),
    }
}

/// Runs a script on a bank that was just loaded, and gives the bank back.
pub fn run_bank<W: BusWord, C: Chip + Drop, K: Sink>(
    bank: SimBank<W, C>,
    lines: &[Line],
    out: &mut K,
) -> (SimBank<W, C>, Result<Ran, RunError>)
    requires script { IsScript lines.now }
    requires loaded { IsJustLoaded W.WIDTH bank }
    ensures ends { EndsRun false W.WIDTH bank.lanes (K.state out.old) (K.state out.new) result.1 }
    ensures reports { Reports false W.WIDTH lines.now bank result.0
        (K.state out.old) (K.state out.new) result.1 }
    ensures lanes { KeepsLanes bank result.0 }
    ensures later { (K.state out.old).faults ≤ (K.state out.new).faults }
{
    match start_bank(bank) {
        Ok(bank) => {
            let mut bank = bank;
            let ran = of_put(run_lines(&mut bank, lines, out));
            let ran = put_end(bank.bus(), ran, out);
            (bank.stop(), ran)
        }
        Err((bank, error)) => (bank, Err(error)),
    }
}
