//! The command language: what a write does when no job runs.
ghost use Rattle.std.specs.Prelude.{◌≡◌, ◌<◌, ◌%◌};
ghost use Rattle.nor_cell.specs.Amd.{aborted, begin_program, begin_erase, begin_erase_all, array_steps, query_steps, abort_steps, fault_steps};
ghost use Rattle.nor_cell.specs.Chip.{Array, Rest, Unlock2, Erase3, Idle, NoFault, BufferConfirm, units, block_of};
ghost use Rattle.nor_cell.specs.Machine.{load_of};

use crate::addresses::{is_first_unlock, is_second_unlock, query_address};
use crate::locks::locks_step;
use nor_cell::{
    EraseTarget, Failure, Machine, NextStep, Set, ShownMode, Work, chip_erase_of, first_address,
    has_locks,
};

/// The suspend code, which alone is taken while a job runs.
pub(crate) const SUSPEND: u8 = 0xB0;

// Codes that need no unlock cycles.
const READ_QUERY: u8 = 0x98;

const RESUME: u8 = 0x30;

// It shows the array again, and ends a fault.
const RESET: u8 = 0xF0;

// The commands behind the unlock cycles.
const PROGRAM: u8 = 0xA0;

const BUFFER_LOAD: u8 = 0x25;

const ERASE_SETUP: u8 = 0x80;

const SHOW_LOCKS: u8 = 0xE0;

// The last cycles of an erase of a block, of one of all blocks, and of a buffer load.
const ERASE_BLOCK: u8 = 0x30;

const ERASE_ALL: u8 = 0x10;

const PROGRAM_BUFFER: u8 = 0x29;

// A buffer load is given up.
fn abort(chip: &mut Machine)
    ensures { chip.new ≡ aborted chip.old }
{
    chip.step = NextStep::Rest;
    chip.fault = Failure::Abort;
}

// The array is shown again, and a fault is over.
fn reset(chip: &mut Machine)
    ensures { chip.new ≡ record chip.old { step = Rest; mode = Array; fault = NoFault } }
{
    chip.step = NextStep::Rest;
    chip.mode = ShownMode::Array;
    chip.fault = Failure::None;
}

// What is loaded is programmed, from a unit on, unless the block is locked or a suspended erase
// keeps it off.
fn begin_program(chip: &mut Machine, work: Work, first: u32)
    requires unit { first < units chip.old }
    requires load { (chip.old).step ≡ BufferConfirm first (load_of (chip.old).step) }
    ensures { chip.new ≡ begin_program work first (load_of (chip.old).step) chip.old }
{
    let block = chip.block_of(first);
    if chip.is_locked(block) || chip.held_off(block) {
        chip.step = NextStep::Rest;
    } else {
        chip.start_program(work, first);
    }
}

// A block is erased, unless it is locked.
fn begin_erase(chip: &mut Machine, at: u32)
    requires { at < units chip.old }
    ensures { chip.new ≡ begin_erase (block_of chip.old at) chip.old }
{
    let block = chip.block_of(at);
    if chip.is_locked(block) {
        chip.step = NextStep::Rest;
    } else {
        chip.start_erase(EraseTarget::OneBlock { block });
    }
}

// All blocks are erased at once, unless one of them is locked.
fn begin_erase_all(chip: &mut Machine)
    ensures { chip.new ≡ begin_erase_all chip.old }
{
    if chip.is_any_locked() {
        chip.step = NextStep::Rest;
    } else {
        chip.start_erase(EraseTarget::AllBlocks);
    }
}

// The last cycle of an erase, by the code.
fn last_of_erase(chip: &mut Machine, at: u32, code: u8)
    requires { at < units chip.old }
    ensures { chip.new ≡ array_steps Erase3 chip.old at code code }
{
    let takes_all = at == first_address(chip.cells.device)
        && chip_erase_of(Set::Amd, &chip.cells.table);
    match code {
        ERASE_BLOCK => begin_erase(chip, at),
        ERASE_ALL if takes_all => begin_erase_all(chip),
        _ => chip.step = NextStep::Rest,
    }
}

// In mode Array at rest, by the code.
fn rest(chip: &mut Machine, at: u32, code: u8)
    requires { at < units chip.old }
    ensures { chip.new ≡ array_steps Rest chip.old at code code }
{
    let takes_jobs = !chip.cells.blocks.is_empty();
    let device = chip.cells.device;
    if takes_jobs && is_first_unlock(device, at, code) {
        chip.step = NextStep::Unlock1;
    } else if code == READ_QUERY && at == query_address(device) {
        chip.mode = ShownMode::Query;
    } else if takes_jobs && code == RESUME {
        chip.resume();
    }
}

// Behind both unlock cycles, by the code.
fn command(chip: &mut Machine, at: u32, code: u8)
    requires { at < units chip.old }
    ensures { chip.new ≡ array_steps Unlock2 chip.old at code code }
{
    let at_first = at == first_address(chip.cells.device);
    let erases = at_first && !chip.is_held();
    let loads = chip.room() != 0;
    let shows_locks = at_first && has_locks(&chip.cells.table);
    match code {
        PROGRAM if at_first => chip.step = NextStep::ProgramNext,
        ERASE_SETUP if erases => chip.step = NextStep::Erase1,
        BUFFER_LOAD if loads => {
            let block = chip.block_of(at);
            chip.step = NextStep::BufferCount { block };
        }
        SHOW_LOCKS if shows_locks => {
            chip.mode = ShownMode::Locks;
            chip.step = NextStep::Rest;
        }
        _ => chip.step = NextStep::Rest,
    }
}

// In mode Array, by the step.
fn array_step(chip: &mut Machine, at: u32, value: u16)
    requires unit { at < units chip.old }
    requires job { (chip.old).job ≡ Idle }
    requires fault { (chip.old).fault ≡ NoFault }
    ensures { chip.new ≡ array_steps (chip.old).step chip.old at value (value % 256) }
{
    let [code, _] = value.to_le_bytes();
    let device = chip.cells.device;
    match chip.step {
        NextStep::Rest => rest(chip, at, code),
        NextStep::Unlock1 if is_second_unlock(device, at, code) => chip.step = NextStep::Unlock2,
        NextStep::Unlock2 => command(chip, at, code),
        NextStep::Erase1 if is_first_unlock(device, at, code) => chip.step = NextStep::Erase2,
        NextStep::Erase2 if is_second_unlock(device, at, code) => chip.step = NextStep::Erase3,
        NextStep::Erase3 => last_of_erase(chip, at, code),
        NextStep::ProgramNext => {
            chip.load_unit(at, value);
            begin_program(chip, Work::Word, at);
        }
        NextStep::BufferCount { block } if (code as u16) < chip.room() => {
            chip.begin_load(block, code as u16 + 1);
        }
        NextStep::BufferData { .. } if chip.takes(at) => chip.take_unit(at, value),
        NextStep::BufferConfirm { first } if code == PROGRAM_BUFFER => {
            begin_program(chip, Work::Buffer, first);
        }
        NextStep::BufferCount { .. }
        | NextStep::BufferData { .. }
        | NextStep::BufferConfirm { .. } => abort(chip),
        _ => chip.step = NextStep::Rest,
    }
}

// In mode Query, back to the array.
fn query_step(chip: &mut Machine, code: u8)
    ensures { chip.new ≡ query_steps (chip.old).step chip.old code }
{
    if code == RESET && matches!(chip.step, NextStep::Rest) {
        chip.mode = ShownMode::Array;
    }
}

// In the fault of an aborted buffer load, which ends by both unlock cycles and the reset code.
fn abort_step(chip: &mut Machine, at: u32, code: u8)
    ensures { chip.new ≡ abort_steps (chip.old).step chip.old at code }
{
    let device = chip.cells.device;
    match chip.step {
        NextStep::Rest if is_first_unlock(device, at, code) => chip.step = NextStep::Unlock1,
        NextStep::Unlock1 if is_second_unlock(device, at, code) => chip.step = NextStep::Unlock2,
        NextStep::Unlock2 if code == RESET && at == first_address(device) => reset(chip),
        _ => chip.step = NextStep::Rest,
    }
}

/// A write of a value at a unit, when no job runs. A code is the value's low byte.
pub(crate) fn step(chip: &mut Machine, at: u32, value: u16)
    requires unit { at < units chip.old }
    requires job { (chip.old).job ≡ Idle }
    ensures { chip.new ≡ fault_steps (chip.old).fault chip.old at value }
{
    let [code, _] = value.to_le_bytes();
    match chip.fault {
        Failure::ProgramTime { .. } | Failure::EraseTime { .. } if code == RESET => reset(chip),
        Failure::ProgramTime { .. } | Failure::EraseTime { .. } => {}
        Failure::Abort => abort_step(chip, at, code),
        Failure::None => match chip.mode {
            ShownMode::Array => array_step(chip, at, value),
            ShownMode::Query => query_step(chip, code),
            ShownMode::Locks => locks_step(chip, at, code),
            // Modes of the other set.
            ShownMode::Ident | ShownMode::Status => {}
        },
    }
}
