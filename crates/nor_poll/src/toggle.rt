ghost use Rattle.std.specs.Prelude.{◌≡◌, ◌<◌, ◌≤◌, ◌+◌, ℕ, true, false, IsTrue, IfOk, OnOk, OnErr};
ghost use Rattle.nor_cell.specs.Bits.{unit_len};
ghost use Rattle.nor_cell.specs.Wiring.{is_wiring};
ghost use Rattle.nor_word.specs.Word.{lane_of};
ghost use Rattle.nor_bus.specs.Bus.{units_of, lane, lanes_of, IsWired};
ghost use Rattle.nor_bus.specs.Driven.{IsOwn, AllLanes};
ghost use Rattle.nor_poll.specs.Reads.{ReadBy, DarkensReading, TwoOrLate};
ghost use Rattle.nor_poll.specs.Told.{seen_at};
ghost use Rattle.nor_poll.specs.Toggles.{toggles, fault_says, works_or_says, works_on, shows_held, pair_says, over_says, ShowsToggle, TellsToggle};

use crate::look::look;
use crate::readings::{Readings, watch_of};
use crate::{Broke, Seen, Watch};
use nor_bus::{Bus, Off, lane_bytes};
use nor_cell::Geometry;
use nor_word::{BusWord, lane_get};

// Status bits of set 0002: bit 6 toggles in a job and in a fault, bit 2 in an erase and in a held block.
const TOGGLE: u16 = 0x40;

const ERASE_TOGGLE: u16 = 0x04;

const READY: u16 = 0x80;

const TIME_FAULT: u16 = 0x20;

const ABORT_FAULT: u16 = 0x02;

// Whether two answers differ as those of a lane in a job or in a fault.
fn toggle(first: u16, second: u16) -> bool
    ensures { result ≡ toggles first second }
{
    second == first ^ TOGGLE || second == first ^ (TOGGLE | ERASE_TOGGLE)
}

// Whether both answers are those of a lane in a job.
fn work_on(first: u16, second: u16) -> bool
    ensures { result ≡ works_on first second }
{
    toggle(first, second) && first & (TIME_FAULT | ABORT_FAULT) == 0
}

fn fault_of(status: u16) -> Seen
    ensures { result ≡ fault_says status }
{
    if status & ABORT_FAULT == 0 {
        Seen::Broken(Broke::Time)
    } else {
        Seen::Broken(Broke::Abort)
    }
}

// What two answers tell of a lane.
pub fn pair_of(first: u16, second: u16) -> Seen
    ensures { result ≡ pair_says first second }
{
    if first == second {
        Seen::Ready
    } else if toggle(first, second) {
        if first & (TIME_FAULT | ABORT_FAULT) == 0 {
            Seen::Working
        } else {
            fault_of(first)
        }
    } else if first | (TOGGLE | ERASE_TOGGLE) == READY | TOGGLE | ERASE_TOGGLE
        && second == first ^ ERASE_TOGGLE
    {
        Seen::Suspended
    } else {
        // It worked at the first read, and no more at the second.
        Seen::Working
    }
}

// The same of a lane that no longer works.
pub fn over_of(second: u16, third: u16) -> Seen
    ensures { result ≡ over_says second third }
{
    if second == third {
        Seen::Ready
    } else if toggle(second, third) {
        fault_of(second)
    } else {
        Seen::Suspended
    }
}

// Whether some lane worked at the first of two reads, and none at the second.
fn just_ended<W: BusWord>(first: W, second: W, g: Geometry) -> bool
    requires wiring { IsTrue (is_wiring W.WIDTH g.lanes g.device) }
    ensures over { IsTrue result → (c : ℕ) → c < g.lanes
        → works_on
        (lane_of (unit_len g.device) (W.bytes first) c) (lane_of (unit_len g.device) (W.bytes second) c) ≡ false }
    ensures some { IsTrue result → (c : ℕ) × (c < g.lanes)
        × (pair_says (lane_of (unit_len g.device) (W.bytes first) c) (lane_of (unit_len g.device) (W.bytes second) c) ≡ Seen.Working) }
{
    let bytes = lane_bytes(g.device);
    let mut ended = false;
    for lane in 0..g.lanes {
        let (one, two) = (lane_get(first, lane, bytes), lane_get(second, lane, bytes));
        if work_on(one, two) {
            return false;
        }
        if let Seen::Working = pair_of(one, two) {
            ended = true;
        }
    }
    ended
}

/// Polls the lanes of a bank of set 0002 by what toggles in them, by two or three bus reads, and
/// tells what each is at.
///
/// What is told of a lane holds where `g` is the bus's own wiring, the bus has the address, and the
/// lane's chip is in a job or in a fault, or shows its array, and in a held block its status; a
/// program under way has to end with the unit at `at`, which isn't in a held block. A broken job or
/// buffer load is told before a suspended erase. That is told where `at` lies in its block; elsewhere
/// such a lane is `Ready`.
///
/// Where a lane is told to work there were two reads, and it worked at the first. A third comes only
/// where no lane works any more and the first two can't tell what one is at that did. `Off` comes only
/// where a cycle failed.
pub fn toggle_poll<W: BusWord, B: Bus<W>>(bus: &mut B, g: Geometry, at: u32) -> Result<Watch, Off>
    requires wiring { IsTrue (is_wiring W.WIDTH g.lanes g.device) }
    ensures told { IfOk result (λ watch. IsOwn W.WIDTH g (B.state bus.old)
        → at < units_of (B.state bus.old) → (c : ℕ) → c < lanes_of (B.state bus.old)
        → TellsToggle at (lane (B.state bus.old) c) (seen_at watch.lanes c) (lane (B.state bus.new) c)) }
    ensures past { IfOk result (λ watch. (c : ℕ) → g.lanes ≤ c
        → seen_at watch.lanes c ≡ Seen.Ready) }
    ensures went { OnOk result (ReadBy 2 3 (B.state bus.old) (B.state bus.new)) }
    ensures short { IfOk result (λ watch. (c : ℕ) → seen_at watch.lanes c ≡ Seen.Working
        → ReadBy 2 2 (B.state bus.old) (B.state bus.new)) }
    ensures late { OnOk result (IsOwn W.WIDTH g (B.state bus.old) → at < units_of (B.state bus.old)
        → AllLanes (ShowsToggle at) (B.state bus.old)
        → TwoOrLate (B.state bus.old) (B.state bus.new)) }
    ensures dark { OnErr result (DarkensReading 3 (B.state bus.old) (B.state bus.new)) }
    ensures units { units_of (B.state bus.new) ≡ units_of (B.state bus.old) }
{
    let first = look::<W, B>(bus, at)?;
    let second = look::<W, B>(bus, at)?;
    if !just_ended(first, second, g) {
        return Ok(watch_of(Readings::Pair(first, second), g));
    }
    let third = look::<W, B>(bus, at)?;
    Ok(watch_of(Readings::Over(second, third), g))
}
