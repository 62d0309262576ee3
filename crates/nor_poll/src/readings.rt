//! What the reads of a poll tell of each lane.
ghost use Rattle.std.specs.Prelude.{◌≡◌, ◌<◌, ◌≤◌, ◌+◌, ◌*◌, ℕ, IsTrue};
ghost use Rattle.nor_cell.specs.Bits.{unit_len};
ghost use Rattle.nor_cell.specs.Wiring.{is_wiring};
ghost use Rattle.nor_poll.specs.Told.{seen_at};
ghost use Rattle.nor_poll.specs.Readings.{told_of as told_by};

use crate::data::data_of;
use crate::status::{erase_seen_of, seen_of};
use crate::toggle::{over_of, pair_of};
use crate::{Seen, Watch};
use nor_bus::lane_bytes;
use nor_cell::Geometry;
use nor_word::{BusWord, lane_get};

/// The words that a poll read.
#[derive(Clone, Copy)]
pub enum Readings<W> {
    /// The status of set 0001.
    Status(W),
    /// The same in an erase.
    EraseStatus(W),
    /// Two of set 0002, one after the other.
    Pair(W, W),
    /// Two where no lane works any more.
    Over(W, W),
    /// The datum of a program, and two while it may run.
    Datum(W, W, W),
}

// What they tell of a lane.
fn told_of<W: BusWord>(readings: Readings<W>, lane: u8, bytes: u8) -> Seen
    requires one_or_two { (1 ≤ bytes) × (bytes ≤ 2) }
    requires within { lane * bytes + bytes ≤ W.WIDTH }
    ensures { result ≡ told_by W.bytes readings bytes lane }
{
    match readings {
        Readings::Status(word) => seen_of(lane_get(word, lane, bytes)),
        Readings::EraseStatus(word) => erase_seen_of(lane_get(word, lane, bytes)),
        Readings::Pair(first, second) => {
            pair_of(lane_get(first, lane, bytes), lane_get(second, lane, bytes))
        }
        Readings::Over(second, third) => {
            over_of(lane_get(second, lane, bytes), lane_get(third, lane, bytes))
        }
        Readings::Datum(datum, first, second) => {
            let (one, two) = (lane_get(first, lane, bytes), lane_get(second, lane, bytes));
            data_of(lane_get(datum, lane, bytes), one, two)
        }
    }
}

/// What they tell of all lanes.
pub fn watch_of<W: BusWord>(readings: Readings<W>, g: Geometry) -> Watch
    requires wiring { IsTrue (is_wiring W.WIDTH g.lanes g.device) }
    ensures told { (c : ℕ) → c < g.lanes
        → seen_at result.lanes c ≡ told_by W.bytes readings (unit_len g.device) c }
    ensures past { (c : ℕ) → g.lanes ≤ c → seen_at result.lanes c ≡ Seen.Ready }
{
    let mut lanes = [Seen::Ready; 4];
    let bytes = lane_bytes(g.device);
    for lane in 0..g.lanes {
        lanes[lane as usize] = told_of(readings, lane, bytes);
    }
    Watch { lanes }
}
