ghost use Rattle.std.specs.Prelude.{◌≡◌, ◌<◌, ◌≤◌, ◌+◌, ℕ, true, false, IsTrue, IfOk, OnOk, OnErr};
ghost use Rattle.nor_cell.specs.Bits.{unit_len};
ghost use Rattle.nor_cell.specs.Wiring.{is_wiring};
ghost use Rattle.nor_word.specs.Word.{lane_of};
ghost use Rattle.nor_bus.specs.Bus.{units_of, lane, lanes_of, wide};
ghost use Rattle.nor_bus.specs.Driven.{IsOwn};
ghost use Rattle.nor_poll.specs.Reads.{ReadBy, DarkensReading};
ghost use Rattle.nor_poll.specs.Told.{seen_at};
ghost use Rattle.nor_poll.specs.Toggles.{is_complement, data_says, TellsDatum};

use crate::look::look;
use crate::readings::{Readings, watch_of};
use crate::toggle::pair_of;
use crate::{Seen, Watch};
use nor_bus::{Bus, Off, lane_bytes};
use nor_cell::Geometry;
use nor_word::{BusWord, lane_get};

// A lane that programs shows the complement of this bit of its datum.
const DATA: u16 = 0x80;

// Whether an answer may be that of a lane which still programs this datum, or broke off.
fn complements(datum: u16, status: u16) -> bool
    ensures { result ≡ is_complement datum status }
{
    let shown = if datum % 0x100 < DATA { 0x80 } else { 0 };
    status & DATA == shown
}

// What two answers tell of a lane that programs this datum.
pub fn data_of(datum: u16, first: u16, second: u16) -> Seen
    ensures { result ≡ data_says datum first second }
{
    if complements(datum, second) {
        pair_of(first, second)
    } else {
        Seen::Ready
    }
}

// Whether no lane can still program its part of the datum, nor have broken off.
fn all_shown<W: BusWord>(datum: W, word: W, g: Geometry) -> bool
    requires wiring { IsTrue (is_wiring W.WIDTH g.lanes g.device) }
    ensures { IsTrue result → (c : ℕ) → c < g.lanes
        → is_complement (lane_of (unit_len g.device) (W.bytes datum) c) (lane_of (unit_len g.device) (W.bytes word) c) ≡ false }
{
    let bytes = lane_bytes(g.device);
    for lane in 0..g.lanes {
        if complements(lane_get(datum, lane, bytes), lane_get(word, lane, bytes)) {
            return false;
        }
    }
    true
}

/// Polls the lanes of a bank of set 0002 that programs `datum` at `at`, by one or two bus reads, and
/// tells what each is at.
///
/// What is told of a lane holds where `g` is the bus's own wiring, the bus has the address, and the
/// lane's chip programs its part of `datum` there, outside a held block, or has ended so. A lane that
/// is told to work did so at the first read, and there were two. `Off` comes only where a cycle failed.
pub fn data_poll<W: BusWord, B: Bus<W>>(
    bus: &mut B,
    g: Geometry,
    at: u32,
    datum: W,
) -> Result<Watch, Off>
    requires wiring { IsTrue (is_wiring W.WIDTH g.lanes g.device) }
    ensures told { IfOk result (λ watch. IsOwn W.WIDTH g (B.state bus.old)
        → at < units_of (B.state bus.old) → (c : ℕ) → c < lanes_of (B.state bus.old)
        → TellsDatum at (lane_of (wide (lane (B.state bus.old) c)) (W.bytes datum) c)
        (lane (B.state bus.old) c) (seen_at watch.lanes c) (lane (B.state bus.new) c)) }
    ensures past { IfOk result (λ watch. (c : ℕ) → g.lanes ≤ c
        → seen_at watch.lanes c ≡ Seen.Ready) }
    ensures went { OnOk result (ReadBy 1 2 (B.state bus.old) (B.state bus.new)) }
    ensures short { IfOk result (λ watch. (c : ℕ) → seen_at watch.lanes c ≡ Seen.Working
        → ReadBy 2 2 (B.state bus.old) (B.state bus.new)) }
    ensures dark { OnErr result (DarkensReading 2 (B.state bus.old) (B.state bus.new)) }
    ensures units { units_of (B.state bus.new) ≡ units_of (B.state bus.old) }
{
    let first = look::<W, B>(bus, at)?;
    if all_shown(datum, first, g) {
        return Ok(Watch {
            lanes: [Seen::Ready; 4],
        });
    }
    let second = look::<W, B>(bus, at)?;
    Ok(watch_of(Readings::Datum(datum, first, second), g))
}
