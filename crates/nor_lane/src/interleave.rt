ghost use Rattle.std.specs.Prelude.{◌≡◌, ◌<◌, ◌*◌, ◌^◌, ℕ, IsTrue};
ghost use Rattle.nor_cell.specs.Bits.{unit_len};
ghost use Rattle.nor_cell.specs.Wiring.{bank_place, lane_at, place_at};
ghost use Rattle.nor_lane.specs.Candidates.{is_geometry};

use nor_cell::{Geometry, unit_len};

/// The lane, and the byte of its chip, at which byte `at` of a bank lies. The geometry is one of the
/// nine wirings, and its chips have at most 2^27 bytes each.
pub fn split(g: Geometry, at: u32) -> (u8, u32)
    requires wiring { IsTrue (is_geometry g) }
    requires within { at < 2 ^ 27 * g.lanes }
    ensures lane { result.0 ≡ lane_at g.lanes (unit_len g.device) at }
    ensures place { result.1 ≡ place_at g.lanes (unit_len g.device) at }
    ensures lane_within { result.0 < g.lanes }
    ensures place_within { result.1 < 2 ^ 27 }

    // Byte `at` of the bank is this byte of this chip, and no other byte of any chip.
    ensures there { bank_place g.lanes (unit_len g.device) result.0 result.1 ≡ at }
    ensures alone { (c p : ℕ) → c < g.lanes → bank_place g.lanes (unit_len g.device) c p ≡ at
        → (c ≡ result.0) × (p ≡ result.1) }
{
    let unit = unit_len(g.device) as u32;
    let lanes = u32::from(g.lanes);
    let lane = at / unit % lanes;
    let place = at / (lanes * unit) * unit + at % unit;
    (lane as u8, place)
}

/// The byte of the bank that byte `place` of a lane's chip is: the inverse of [`split`]. The geometry
/// is one of the nine wirings, and its chips have at most 2^27 bytes each.
pub fn join(g: Geometry, lane: u8, place: u32) -> u32
    requires wiring { IsTrue (is_geometry g) }
    requires lane { lane < g.lanes }
    requires place { place < 2 ^ 27 }
    ensures there { result ≡ bank_place g.lanes (unit_len g.device) lane place }
    ensures within { result < 2 ^ 27 * g.lanes }
    ensures lane_back { lane_at g.lanes (unit_len g.device) result ≡ lane }
    ensures place_back { place_at g.lanes (unit_len g.device) result ≡ place }
{
    let unit = unit_len(g.device) as u32;
    let lanes = u32::from(g.lanes);
    place / unit * (lanes * unit) + u32::from(lane) * unit + place % unit
}
