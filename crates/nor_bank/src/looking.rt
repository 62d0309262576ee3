//! One look at an erase, over the bus alone.
ghost use Rattle.std.specs.Prelude.{◌≡◌, ◌≤◌, IsTrue, IfOk, OnErr, true, false};
ghost use Rattle.nor_cell.specs.Wiring.{is_wiring};
ghost use Rattle.nor_bank.specs.Looks.{SomeLaneIs, NoLaneIs, CanLook, CanPoll, LooksBy, LosesBy};

use crate::way::first_in;
use nor_bus::{Bus, Off};
use nor_cell::{Geometry, Set};
use nor_poll::{LaneState, Lanes, erase_look, reset, resume};
use nor_word::BusWord;

// Whether one of so many lanes is in this state.
pub(crate) fn has_lane(lanes: &Lanes, count: u8, state: LaneState) -> bool
    requires { count ≤ 4 }
    ensures has { result ≡ true → SomeLaneIs count lanes.now state }
    ensures lacks { result ≡ false → NoLaneIs count lanes.now state }
{
    first_in(lanes, count, state).is_some()
}

// Polls the erase once, where a lane runs; none is suspended. Where none runs then, each shows its
// array.
fn poll_once<W: BusWord, B: Bus<W>>(
    set: Set,
    bus: &mut B,
    g: Geometry,
    at: u32,
    lanes: Lanes,
) -> Result<Lanes, Off>
    requires wiring { IsTrue (is_wiring W.WIDTH g.lanes g.device) }
    ensures looks { IfOk result (LooksBy (λ target. CanPoll set target lanes (B.state bus.old)) 4
        set W.WIDTH g at lanes (B.state bus.old) (B.state bus.new)) }
    ensures loses { OnErr result (LosesBy (λ target. CanPoll set target lanes (B.state bus.old)) 4
        W.WIDTH g at (B.state bus.old) (B.state bus.new)) }
{
    if !has_lane(&lanes, g.lanes, LaneState::Running) {
        return Ok(lanes);
    }
    let now = erase_look::<W, B>(set, bus, g, at, lanes)?;
    if has_lane(&now, g.lanes, LaneState::Running) {
        return Ok(now);
    }
    reset::<W, B>(set, bus, g, at)?;
    Ok(now)
}

// The same of lanes that may be suspended: these run on before.
pub(crate) fn look_once<W: BusWord, B: Bus<W>>(
    set: Set,
    bus: &mut B,
    g: Geometry,
    at: u32,
    lanes: Lanes,
) -> Result<Lanes, Off>
    requires wiring { IsTrue (is_wiring W.WIDTH g.lanes g.device) }
    ensures looks { IfOk result (LooksBy (λ target. CanLook set target lanes (B.state bus.old)) 5
        set W.WIDTH g at lanes (B.state bus.old) (B.state bus.new)) }
    ensures loses { OnErr result (LosesBy (λ target. CanLook set target lanes (B.state bus.old)) 5
        W.WIDTH g at (B.state bus.old) (B.state bus.new)) }
{
    if !has_lane(&lanes, g.lanes, LaneState::Suspended) {
        return poll_once::<W, B>(set, bus, g, at, lanes);
    }
    let lanes = resume::<W, B>(set, bus, g, at, lanes)?;
    poll_once::<W, B>(set, bus, g, at, lanes)
}
