//! Bytes and units.
ghost use Rattle.std.specs.Prelude.{◌≡◌, ◌+◌, ◌*◌, ◌<◌, ◌≤◌, ◌^◌, ◌↔◌, [], length, slice_index, IsTrue};
ghost use Rattle.nor_cell.specs.Bits.{IsBetween, unit_len, unit_at, unit_bytes};

use crate::Device;
use arrayvec::ArrayVec;

/// Whether programming may have left a byte as `x`, between the old byte and old AND datum.
pub fn is_between(x: u8, old: u8, datum: u8) -> bool
    ensures { IsTrue result ↔ IsBetween old datum x }
{
    x & old == x && x & old & datum == old & datum
}

/// How many bytes a unit (device word) has.
pub fn unit_len(device: Device) -> usize
    ensures { result ≡ unit_len device }
{
    match device {
        Device::X8 => 1,
        Device::X16 => 2,
        Device::X16Byte => 1,
    }
}

/// The byte at a place, and 0 behind the end.
pub(crate) fn byte_at(bytes: &[u8], at: usize) -> u8
    ensures { result ≡ slice_index bytes.now at }
{
    if at < bytes.len() { bytes[at] } else { 0 }
}

/// The value of a unit of some cells.
pub(crate) fn unit_at(device: Device, bytes: &[u8], at: usize) -> u16
    requires inside { unit_len device * (at + 1) ≤ length bytes.now }
    requires small { length bytes.now < 2 ^ 32 }
    ensures value { result ≡ unit_at device bytes.now at }
    ensures fits { result < 256 ^ unit_len device }
{
    match device {
        Device::X8 => bytes[at] as u16,
        Device::X16 => bytes[2 * at] as u16 + 256 * (bytes[2 * at + 1] as u16),
        Device::X16Byte => bytes[at] as u16,
    }
}
