//! The addresses of the command cycles of set 0002, in units. They are compared with a cycle's address exactly.
ghost use Rattle.std.specs.Prelude.{◌≡◌};
ghost use Rattle.nor_cell.specs.Amd.{first_address, second_address};

use crate::Device;

/// Where the first unlock cycle goes, and the command behind the second.
pub fn first_address(device: Device) -> u32
    ensures { result ≡ first_address device }
{
    match device {
        Device::X8 | Device::X16 => 0x555,
        Device::X16Byte => 0xAAA,
    }
}

/// Where the second unlock cycle goes.
pub fn second_address(device: Device) -> u32
    ensures { result ≡ second_address device }
{
    match device {
        Device::X8 | Device::X16 => 0x2AA,
        Device::X16Byte => 0x555,
    }
}
