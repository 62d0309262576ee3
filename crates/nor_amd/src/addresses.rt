//! The addresses of the command cycles, in units. They are compared with a cycle's address exactly.
ghost use Rattle.std.specs.Prelude.{◌≡◌, ◌==◌, ◌&&◌};
ghost use Rattle.nor_cell.specs.Amd.{first_address, second_address, query_address};

use nor_cell::{Device, first_address, second_address};

// The codes of the two unlock cycles.
const UNLOCK_1: u8 = 0xAA;

const UNLOCK_2: u8 = 0x55;

/// Where the code goes that shows the query table.
pub(crate) fn query_address(device: Device) -> u32
    ensures { result ≡ query_address device }
{
    match device {
        Device::X8 | Device::X16 => 0x55,
        Device::X16Byte => 0xAA,
    }
}

/// Whether this is the first unlock cycle.
pub(crate) fn is_first_unlock(device: Device, at: u32, code: u8) -> bool
    ensures { result ≡ (code == 0xAA && at == first_address device) }
{
    code == UNLOCK_1 && at == first_address(device)
}

/// Whether this is the second unlock cycle.
pub(crate) fn is_second_unlock(device: Device, at: u32, code: u8) -> bool
    ensures { result ≡ (code == 0x55 && at == second_address device) }
{
    code == UNLOCK_2 && at == second_address(device)
}
