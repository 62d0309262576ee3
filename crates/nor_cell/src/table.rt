//! What the query table offers, computed from its bytes.
ghost use Rattle.std.specs.Prelude.{◌≡◌, ◌*◌, ◌^◌, ◌<◌, ◌≤◌};
ghost use Rattle.nor_cell.specs.Bits.{unit_len, has_bit};
ghost use Rattle.nor_cell.specs.Table.{field_16, extended, set_of, intel_suspend, amd_suspend, suspend_kind, can_suspend, can_program_suspended, has_locks, chip_erase_of, buffer_units_of, buffer_units, most_reads, left_of, left_at_start};

use crate::bits::byte_at;
use crate::{Device, Set, SuspendKind, Work};

// A little-endian field of two bytes.
fn field_16(table: &[u8; 512], at: usize) -> u16
    requires { at < 511 }
    ensures { result ≡ field_16 table.now at }
{
    table[at] as u16 + 256 * (table[at + 1] as u16)
}

// A byte of the primary extended table, and 0 behind the table's end.
fn extended(table: &[u8; 512], at: usize) -> u8
    requires { at < 512 }
    ensures { result ≡ extended table.now at }
{
    byte_at(table, field_16(table, 0x15) as usize + at)
}

/// Whether a bit of a number is set.
pub fn has_bit(word: u32, bit: u32) -> bool
    requires { bit < 32 }
    ensures { result ≡ has_bit word bit }
{
    (word >> bit) % 2 == 1
}

/// The command set that the table names.
pub fn set_of(table: &[u8; 512]) -> Set
    ensures { result ≡ set_of table.now }
{
    if field_16(table, 0x13) == 2 {
        Set::Amd
    } else {
        Set::Intel
    }
}

/// What the features of an Intel chip, and the byte behind them, offer while an erase is suspended.
pub fn intel_suspend(features: u32, in_suspend: u8) -> SuspendKind
    ensures { result ≡ intel_suspend features in_suspend }
{
    if !has_bit(features, 1) {
        SuspendKind::None
    } else if has_bit(in_suspend as u32, 0) {
        SuspendKind::Program
    } else {
        SuspendKind::Read
    }
}

/// What this number of an AMD chip says of it. An unknown one offers nothing.
pub fn amd_suspend(number: u8) -> SuspendKind
    ensures { result ≡ amd_suspend number }
{
    match number {
        1 => SuspendKind::Read,
        2 => SuspendKind::Program,
        _ => SuspendKind::None,
    }
}

/// What the table offers while an erase is suspended.
pub fn suspend_kind(table: &[u8; 512]) -> SuspendKind
    ensures { result ≡ suspend_kind table.now }
{
    match set_of(table) {
        Set::Intel => intel_suspend(extended(table, 5) as u32, extended(table, 9)),
        Set::Amd => amd_suspend(extended(table, 6)),
    }
}

/// Whether an erase can be suspended.
pub fn can_suspend(table: &[u8; 512]) -> bool
    ensures { result ≡ can_suspend (suspend_kind table.now) }
{
    match suspend_kind(table) {
        SuspendKind::None => false,
        SuspendKind::Read => true,
        SuspendKind::Program => true,
    }
}

/// Whether other blocks may be programmed while an erase is suspended.
pub fn can_program_suspended(table: &[u8; 512]) -> bool
    ensures { result ≡ can_program_suspended (suspend_kind table.now) }
{
    match suspend_kind(table) {
        SuspendKind::None => false,
        SuspendKind::Read => false,
        SuspendKind::Program => true,
    }
}

/// Whether the table offers block locks.
pub fn has_locks(table: &[u8; 512]) -> bool
    ensures { result ≡ has_locks table.now }
{
    match set_of(table) {
        Set::Intel => has_bit(extended(table, 5) as u32, 5),
        Set::Amd => extended(table, 9) == 8,
    }
}

/// Whether a chip of this set erases all its blocks at once.
pub fn chip_erase_of(set: Set, table: &[u8; 512]) -> bool
    ensures { result ≡ chip_erase_of set table.now }
{
    match set {
        Set::Intel => false,
        Set::Amd => table[0x22] != 0,
    }
}

/// How many units a buffer load may have, by the buffer's exponent.
pub fn buffer_units_of(device: Device, exponent: u16) -> u16
    ensures value { result ≡ buffer_units_of device exponent }
    ensures few { unit_len device * result ≤ 512 }
{
    if exponent == 0 {
        return 0;
    }
    match device {
        Device::X8 => 1 << exponent.min(8),
        Device::X16 if exponent == 1 => 0,
        Device::X16 => 1 << (exponent.min(9) - 1),
        Device::X16Byte => 0,
    }
}

/// How many units (device words) a buffer load may have. 0: words are programmed one by one.
pub fn buffer_units(device: Device, table: &[u8; 512]) -> u16
    ensures value { result ≡ buffer_units device table.now }
    ensures few { unit_len device * result ≤ 512 }
{
    buffer_units_of(device, field_16(table, 0x2A))
}

/// How many status reads a job shows working at most: two to the sum of its time exponents, of
/// which 20 count at most.
pub fn most_reads(typical: u8, greatest: u8) -> u32
    ensures value { result ≡ most_reads typical greatest }
    ensures few { result ≤ 2 ^ 20 }
{
    let exponent = typical as u32 + greatest as u32;
    1 << exponent.min(20)
}

// No more than its pace.
fn left_of(pace: u32, typical: u8, greatest: u8) -> u32
    ensures { result ≡ left_of pace typical greatest }
{
    pace.min(most_reads(typical, greatest))
}

/// How many status reads a job of this pace shows working.
pub fn left_at_start(work: Work, pace: u32, table: &[u8; 512]) -> u32
    ensures { result ≡ left_at_start work pace table.now }
{
    match work {
        Work::Word => left_of(pace, table[0x1F], table[0x23]),
        Work::Buffer => left_of(pace, table[0x20], table[0x24]),
        Work::Block => left_of(pace, table[0x21], table[0x25]),
        Work::Chip => left_of(pace, table[0x22], table[0x26]),
    }
}
