//! The toggle bits: which of them a read flips.
ghost use Rattle.std.specs.Prelude.{◌≡◌, ◌<◌};
ghost use Rattle.nor_cell.specs.Amd.{toggles_6, toggles_2, toggled};
ghost use Rattle.nor_cell.specs.Chip.{units, place, holds_at};

use nor_cell::{Failure, HeldErase, Machine, RunningJob, ShownMode, block, unit_len};

/// Whether a unit lies in the block whose erase is suspended.
pub(crate) fn holds_at(chip: &Machine, at: u32) -> bool
    requires { at < units chip.now }
    ensures { result ≡ holds_at chip.now.held chip.now.part.blocks (place chip.now.part at) }
{
    let HeldErase::Block { block: number, .. } = chip.held else {
        return false;
    };
    let span = block(&chip.cells, number);
    let place = at * unit_len(chip.cells.device) as u32;
    span.from <= place && place < span.from + span.len
}

// Bit 6 toggles while a job runs and in a fault.
fn toggles_6(chip: &Machine) -> bool
    ensures { result ≡ toggles_6 chip.now }
{
    chip.runs() || !matches!(chip.fault, Failure::None)
}

// Bit 2 toggles while an erase runs, after a job that broke off, and in the held block.
fn toggles_2(chip: &Machine, at: u32) -> bool
    requires { at < units chip.now }
    ensures { result ≡ toggles_2 chip.now at }
{
    match chip.job {
        RunningJob::Erase { .. } | RunningJob::Pausing { .. } => true,
        RunningJob::Program { .. } => false,
        RunningJob::Idle => match chip.fault {
            Failure::ProgramTime { .. } | Failure::EraseTime { .. } => true,
            Failure::Abort => false,
            Failure::None => matches!(chip.mode, ShownMode::Array) && holds_at(chip, at),
        },
    }
}

/// What a read flips, once the job was looked at.
pub(crate) fn toggle(chip: &mut Machine, at: u32)
    requires { at < units chip.old }
    ensures { chip.new ≡ toggled at chip.old }
{
    if toggles_6(chip) {
        chip.toggle_6 = !chip.toggle_6;
    }
    if toggles_2(chip, at) {
        chip.toggle_2 = !chip.toggle_2;
    }
}
