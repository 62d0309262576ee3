ghost use Rattle.std.specs.Prelude.{◌≡◌, ◌<◌, ◌≤◌, ℕ, false};
ghost use Rattle.nor_cell.specs.Bits.{has_bit};
ghost use Rattle.nor_cell.specs.Shown.{bit_if};
ghost use Rattle.nor_poll.specs.Told.{seen_at};
ghost use Rattle.nor_poll.specs.Word.{is_broken};

use crate::{LaneSet, Seen, Watch};

fn bit_of(watch: &Watch, lane: usize, bit: u8) -> u8
    requires { lane < 4 }
    ensures { result ≡ bit_if bit (is_broken (seen_at watch.now.lanes lane)) }
{
    match watch.lanes[lane] {
        Seen::Working | Seen::Ready | Seen::Suspended => 0,
        Seen::Broken(_) => bit,
    }
}

/// The lanes that a poll tells broken.
pub fn broken_lanes(watch: &Watch) -> LaneSet
    ensures lanes { (c : ℕ) → c < 4
        → has_bit result.bits c ≡ is_broken (seen_at watch.now.lanes c) }
    ensures past { (c : ℕ) → 4 ≤ c → has_bit result.bits c ≡ false }
{
    let low = bit_of(watch, 0, 1) + bit_of(watch, 1, 2);
    LaneSet {
        bits: low + bit_of(watch, 2, 4) + bit_of(watch, 3, 8),
    }
}
