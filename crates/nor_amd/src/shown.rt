//! What a read shows.
ghost use Rattle.std.specs.Prelude.{◌≡◌, ◌<◌, ◌+◌, ◌-◌, ◌^◌, length, slice_index, nat_lt};
ghost use Rattle.nor_cell.specs.Amd.{array_at, mode_at, fault_at, shown};
ghost use Rattle.nor_cell.specs.Bits.{unit_len};
ghost use Rattle.nor_cell.specs.Chip.{units};
ghost use Rattle.nor_cell.specs.Shown.{bit_if};

use crate::toggles::holds_at;
use nor_cell::{Device, Failure, Machine, RunningJob, ShownMode, unit_len};

// Bits of the status. Bit 7 tells data: while a unit is programmed, the complement of its bit 7.
const DATA: u16 = 0x80;

const TOGGLE: u16 = 0x40;

const TIME_EXCEEDED: u16 = 0x20;

const ERASING: u16 = 0x08;

const ERASE_TOGGLE: u16 = 0x04;

const BUFFER_ABORTED: u16 = 0x02;

fn bit_if(bit: u16, set: bool) -> u16
    ensures { result ≡ bit_if bit set }
{
    if set { bit } else { 0 }
}

// The status of a program of these bytes. Its bit 7 is that of the last unit's low byte.
fn programming(device: Device, load: &[u8], toggle_6: bool) -> u16
    ensures { result
        ≡ bit_if 0x80 (nat_lt (slice_index load.now (length load.now - unit_len device)) 0x80)
        + bit_if 0x40 toggle_6 }
{
    let last = load.len().saturating_sub(unit_len(device));
    let low = if last < load.len() { load[last] } else { 0 };
    bit_if(DATA, low < 0x80) + bit_if(TOGGLE, toggle_6)
}

// The status of an erase.
fn erasing(toggle_6: bool, toggle_2: bool) -> u16
    ensures { result ≡ 0x08 + bit_if 0x40 toggle_6 + bit_if 0x04 toggle_2 }
{
    ERASING + bit_if(TOGGLE, toggle_6) + bit_if(ERASE_TOGGLE, toggle_2)
}

// A unit of the array; in a held block the status stands in its place.
fn array(chip: &Machine, at: u32) -> u16
    requires { at < units chip.now }
    ensures shows { result ≡ array_at chip.now at }
    ensures fits { result < 256 ^ unit_len (chip.now).part.device }
{
    if holds_at(chip, at) {
        DATA + bit_if(TOGGLE, chip.toggle_6) + bit_if(ERASE_TOGGLE, chip.toggle_2)
    } else {
        chip.array_unit(at)
    }
}

// What the mode shows.
fn by_mode(chip: &Machine, at: u32) -> u16
    requires { at < units chip.now }
    ensures shows { result ≡ mode_at (chip.now).mode chip.now at }
    ensures fits { result < 256 ^ unit_len (chip.now).part.device }
{
    match chip.mode {
        ShownMode::Array => array(chip, at),
        ShownMode::Query => chip.query_byte(at) as u16,
        ShownMode::Locks => bit_if(1, !chip.is_locked(chip.block_of(at))),
        ShownMode::Ident | ShownMode::Status => 0,
    }
}

// What is shown when no job runs: a fault goes before the mode.
fn by_fault(chip: &Machine, at: u32) -> u16
    requires { at < units chip.now }
    ensures shows { result ≡ fault_at (chip.now).fault chip.now at }
    ensures fits { result < 256 ^ unit_len (chip.now).part.device }
{
    match chip.fault {
        Failure::None => by_mode(chip, at),
        Failure::ProgramTime { .. } => {
            TIME_EXCEEDED + programming(chip.cells.device, chip.load.as_slice(), chip.toggle_6)
        }
        Failure::EraseTime { .. } => TIME_EXCEEDED + erasing(chip.toggle_6, chip.toggle_2),
        Failure::Abort => BUFFER_ABORTED + bit_if(TOGGLE, chip.toggle_6),
    }
}

/// What a read shows once the job was looked at and the toggle bits have flipped.
pub(crate) fn shown(chip: &Machine, at: u32) -> u16
    requires { at < units chip.now }
    ensures shows { result ≡ shown chip.now at }
    ensures fits { result < 256 ^ unit_len (chip.now).part.device }
{
    match chip.job {
        RunningJob::Program { .. } => {
            programming(chip.cells.device, chip.load.as_slice(), chip.toggle_6)
        }
        RunningJob::Erase { .. } | RunningJob::Pausing { .. } => {
            erasing(chip.toggle_6, chip.toggle_2)
        }
        RunningJob::Idle => by_fault(chip, at),
    }
}
