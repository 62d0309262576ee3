ghost use Rattle.std.specs.Prelude.{◌≡◌, ◌↔◌, IsTrue, IsFalse, IfOk, IsErr, false};
ghost use Rattle.nor_cell.specs.Wiring.{is_wiring};

use crate::{Device, unit_len};

/// How many chips lie side by side on the bus word, and how each of them is wired.
#[derive(Clone, Copy, Debug, PartialEq, Eq, Default)]
pub struct Geometry {
    pub lanes: u8,
    pub device: Device,
}

/// The width, the number of lanes and the device don't fit together.
#[derive(Clone, Copy, Debug, PartialEq, Eq)]
pub struct BadGeometry;

/// The geometry of a bus of `width` bytes with so many lanes of a device. One, two or four lanes
/// of `X8` or `X16Byte` fill a width of 1, 2 or 4 bytes, those of `X16` one of 2, 4 or 8 bytes.
/// Any other three are `BadGeometry`.
pub fn make_geometry(width: u8, lanes: u8, device: Device) -> Result<Geometry, BadGeometry>
    ensures made { IfOk result (λ g. g ≡ record { lanes = lanes; device = device }) }
    ensures bad { IsErr result ↔ (is_wiring width lanes device ≡ false) }
{
    let unit = unit_len(device);
    if matches!(lanes, 1 | 2 | 4) && usize::from(width) == usize::from(lanes) * unit {
        Ok(Geometry { lanes, device })
    } else {
        Err(BadGeometry)
    }
}
