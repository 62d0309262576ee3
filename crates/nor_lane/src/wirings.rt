ghost use Rattle.std.specs.Prelude.{◌≡◌, ◌≤◌, IsTrue, length};
ghost use Rattle.nor_word.specs.Word.{is_width};
ghost use Rattle.nor_lane.specs.Candidates.{candidates_of, wiring as wiring_lem};

use arrayvec::ArrayVec;
use nor_cell::Device::{self, X8, X16, X16Byte};
use nor_cell::Geometry;

/// The wirings of a bus word of `width` bytes, which is 1, 2, 4 or 8, in the order in which a
/// driver tries them: byte-wide chips, then sixteen bit chips in byte mode, then sixteen bit chips.
pub fn candidates(width: u8) -> ArrayVec<Geometry, 3>
    requires { IsTrue (is_width width) }
    ensures { result.items ≡ candidates_of width }
{
    match width {
        1 => listed(&[wiring(1, X8), wiring(1, X16Byte)]),
        2 => listed(&[wiring(2, X8), wiring(2, X16Byte), wiring(1, X16)]),
        4 => listed(&[wiring(4, X8), wiring(4, X16Byte), wiring(2, X16)]),
        _ => listed(&[wiring(4, X16)]),
    }
}

fn wiring(lanes: u8, device: Device) -> Geometry
    ensures { result ≡ wiring_lem lanes device }
{
    Geometry { lanes, device }
}

fn listed(wirings: &[Geometry]) -> ArrayVec<Geometry, 3>
    requires { length wirings.now ≤ 3 }
    ensures { result.items ≡ wirings.now }
{
    let mut list = ArrayVec::new();
    list.try_extend_from_slice(wirings).unwrap();
    list
}
