//! The mode that shows the locks of the blocks and sets them.
ghost use Rattle.std.specs.Prelude.{◌≡◌, ◌<◌};
ghost use Rattle.nor_cell.specs.Chip.{Locks, units};
ghost use Rattle.nor_cell.specs.Amd.{locks_steps};

use nor_cell::{Machine, NextStep, ShownMode};

// The announcing cycles: one block's lock is to be set, or the mode to be left.
const SET_LOCK: u8 = 0xA0;

const LEAVE: u8 = 0x90;

// The second cycles.
const LOCK: u8 = 0x00;

const UNLOCK: u8 = 0x01;

const CONFIRM_LEAVE: u8 = 0x00;

/// A write of a code at a unit in this mode.
pub(crate) fn locks_step(chip: &mut Machine, at: u32, code: u8)
    requires unit { at < units chip.old }
    requires mode { (chip.old).mode ≡ Locks }
    ensures { chip.new ≡ locks_steps (chip.old).step chip.old at code }
{
    let block = chip.block_of(at);
    match chip.step {
        NextStep::Rest if code == SET_LOCK => chip.step = NextStep::LockNext,
        NextStep::Rest if code == LEAVE => chip.step = NextStep::LeaveNext,
        NextStep::LockNext if code == LOCK => chip.set_lock(block, true),
        NextStep::LockNext if code == UNLOCK => chip.set_lock(block, false),
        NextStep::LeaveNext if code == CONFIRM_LEAVE => {
            chip.mode = ShownMode::Array;
            chip.step = NextStep::Rest;
        }
        _ => chip.step = NextStep::Rest,
    }
}
