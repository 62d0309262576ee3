//! Resuming a held erase, by the commands of either set.
ghost use Rattle.std.specs.Prelude.{◌≡◌, ◌<◌, ◌≤◌, ◌%◌, ◌^◌, ℕ, IsTrue, IfOk, OnOk, OnErr};
ghost use Rattle.nor_cell.specs.Bits.{unit_len};
ghost use Rattle.nor_cell.specs.Wiring.{is_wiring};
ghost use Rattle.nor_word.specs.Word.{lane_of};
ghost use Rattle.nor_bus.specs.Driven.{spread, Asks, EachLane, Darkens};
ghost use Rattle.nor_poll.specs.Erase.{ChangesWithinErase};
ghost use Rattle.nor_poll.specs.UnderErase.{EachUnder, state_at};
ghost use Rattle.nor_poll.specs.Resume.{resume_code as code_for, resumed_state as state_after, TakesResume, ResumesAll};

use crate::erase::state_of;
use crate::{LaneState, Lanes};
use nor_bus::{Bus, Off, lane_bytes, write_word};
use nor_cell::{Geometry, Set};
use nor_word::{BusWord, lane_put};

fn resume_code(set: Set, state: LaneState) -> u8
    ensures { result ≡ code_for set state }
{
    match (set, state) {
        (Set::Intel, LaneState::Suspended) => 0xD0,
        (Set::Intel, _) => 0xFF,
        (Set::Amd, LaneState::Suspended) => 0x30,
        (Set::Amd, _) => 0xF0,
    }
}

// A word with a code for each lane.
fn resume_word<W: BusWord>(set: Set, g: Geometry, lanes: Lanes) -> W
    requires wiring { IsTrue (is_wiring W.WIDTH g.lanes g.device) }
    ensures { (c : ℕ) → c < g.lanes → lane_of (unit_len g.device) (W.bytes result) c
        ≡ spread (unit_len g.device) (code_for set (state_at lanes c)) }
{
    let bytes = lane_bytes(g.device);
    let mut word = W::splat(0);
    for lane in 0..g.lanes {
        let code = resume_code(set, state_of(&lanes, lane as usize));
        word = lane_put(word, lane, bytes, u16::from(code) * 0x101);
    }
    word
}

fn resumed_state(state: LaneState) -> LaneState
    ensures { result ≡ state_after state }
{
    match state {
        LaneState::Suspended => LaneState::Running,
        state => state,
    }
}

fn resumed_lanes(lanes: Lanes) -> Lanes
    ensures { (c : ℕ) → c < 4 → state_at result c ≡ state_after (state_at lanes c) }
{
    let mut next = lanes;
    for lane in 0..4 {
        next.lanes[lane] = resumed_state(state_of(&lanes, lane));
    }
    next
}

/// Resumes the erase of the block at bus address `at` in each suspended lane, by one cycle.
///
/// What it does to a lane holds where `g` is the bus's own wiring, the bus has the address, and `lanes`
/// says where the lane's chip is: `TakesResume` in `specs/Resume.antt`. A suspended lane then runs; every
/// other is where it was, and its chip shows its array, with no fault. `Off` comes only where the cycle
/// failed: each chip is as before, or as a loss of power leaves it.
pub fn resume<W: BusWord, B: Bus<W>>(
    set: Set,
    bus: &mut B,
    g: Geometry,
    at: u32,
    lanes: Lanes,
) -> Result<Lanes, Off>
    requires wiring { IsTrue (is_wiring W.WIDTH g.lanes g.device) }
    ensures resumes { IfOk result (ResumesAll set W.WIDTH g at lanes
        (B.state bus.old) (B.state bus.new)) }
    ensures loses { OnErr result (EachUnder (TakesResume set) ChangesWithinErase W.WIDTH g at lanes
        (B.state bus.old) (B.state bus.new)) }
    ensures dark { OnErr result (EachLane Darkens (B.state bus.old) (B.state bus.new)) }
    ensures cycles { Asks 1 result (B.state bus.old) (B.state bus.new) }
{
    write_word::<W, B>(bus, at, resume_word::<W>(set, g, lanes))?;
    Ok(resumed_lanes(lanes))
}
