//! What a read shows.
ghost use Rattle.std.specs.Prelude.{◌≡◌, ◌<◌, ◌^◌};
ghost use Rattle.nor_cell.specs.Bits.{unit_len};
ghost use Rattle.nor_cell.specs.Chip.{Flags, units, is_held};
ghost use Rattle.nor_cell.specs.Intel.{Shows, ident_at, status_of};

use nor_cell::{Machine, ShownMode, StatusFlags, block, register, unit_len};

// Bits of the status register.
const READY: u8 = 0x80;

const SUSPENDED: u8 = 0x40;

const ERASE_ERROR: u8 = 0x20;

const PROGRAM_ERROR: u8 = 0x10;

const LOCKED: u8 = 0x02;

// The register that tells in each block whether it is locked.
const LOCK_REGISTER: u32 = 2;

// The status register, when no job runs.
fn status_register(held: bool, flags: StatusFlags) -> u8
    ensures { result ≡ status_of held
        (record { erase = flags.erase; program = flags.program; locked = flags.locked }) }
{
    let mut status = READY;
    if held {
        status += SUSPENDED;
    }
    if flags.erase {
        status += ERASE_ERROR;
    }
    if flags.program {
        status += PROGRAM_ERROR;
    }
    if flags.locked {
        status += LOCKED;
    }
    status
}

// The identifiers: 1 in the lock register of a locked block, and 0 elsewhere.
fn identifier(chip: &Machine, at: u32) -> u8
    requires { at < units chip.now }
    ensures { result ≡ ident_at chip.now at }
{
    let number = chip.block_of(at);
    let unit = unit_len(chip.cells.device) as u32;
    let first = block(&chip.cells, number).from / unit;
    if !chip.cells.blocks.is_empty()
        && register(chip.cells.device, at.saturating_sub(first)) == LOCK_REGISTER
        && chip.is_locked(number)
    {
        1
    } else {
        0
    }
}

/// What a read shows once the job was looked at. While a job runs bit 7 is clear.
pub(crate) fn shown(chip: &Machine, at: u32) -> u16
    requires { at < units chip.now }
    ensures shows { Shows chip.now at result }
    ensures fits { result < 256 ^ unit_len (chip.now).part.device }
{
    if chip.runs() {
        return if chip.is_held() { SUSPENDED as u16 } else { 0 };
    }
    match chip.mode {
        ShownMode::Array => chip.array_unit(at),
        ShownMode::Query => chip.query_byte(at) as u16,
        ShownMode::Ident => identifier(chip, at) as u16,
        ShownMode::Status => status_register(chip.is_held(), chip.flags) as u16,
        ShownMode::Locks => 0,
    }
}
