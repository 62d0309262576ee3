//! Erasing a block, by the commands of either set.
ghost use Rattle.std.specs.Prelude.{◌≡◌, ◌<◌, ◌+◌, ℕ, IsTrue, IfOk, OnOk, OnErr};
ghost use Rattle.nor_cell.specs.Wiring.{is_wiring};
ghost use Rattle.nor_bus.specs.Driven.{Lost, EachLane, Reaches, Asks};
ghost use Rattle.nor_poll.specs.Codes.{cycle_count, cycles_of as cycles_for, DarkensIn};
ghost use Rattle.nor_poll.specs.Losing.{BeginsNone, DarkensLooking};
ghost use Rattle.nor_poll.specs.Told.{seen_at};
ghost use Rattle.nor_poll.specs.UnderErase.{EachUnder, state_at};
ghost use Rattle.nor_poll.specs.Erase.{TakesErase, TakesEraseAll, TakesLook, BeginsErase, BeginsEraseAll, ChangesWithinErase, LooksAll, FewLess, next_state as state_after, erase_polling as polling_in, look_reads};
ghost use Rattle.nor_poll.specs.declared.codes.Command.TheVariants.{EraseBlock, EraseAll, ShowStatus};
ghost use Rattle.nor_cell.specs.declared.device.Set.TheVariants.{Amd};

use crate::{Broke, Command, LaneState, Lanes, Polling, Seen, Watch, poll, write_command};
use nor_bus::{Bus, Off};
use nor_cell::{Geometry, Set};
use nor_word::BusWord;

/// Begins to erase the block of bus address `at`, in every lane.
///
/// What it does to a lane holds where `g` is the bus's own wiring, the bus has the address, and the lane's
/// chip would erase there: `TakesErase` in `specs/Erase.antt`. Such a chip erases the block, with no error
/// set. `Off` comes only where a cycle failed. The last cycle begins the erase, so then none has begun.
pub fn erase_start<W: BusWord, B: Bus<W>>(
    set: Set,
    bus: &mut B,
    g: Geometry,
    at: u32,
) -> Result<(), Off>
    ensures begins { OnOk result (Reaches W.WIDTH g at (B.state bus.old)
        → EachLane (BeginsErase set at) (B.state bus.old) (B.state bus.new)) }
    ensures loses { OnErr result (Reaches W.WIDTH g at (B.state bus.old)
        → EachLane (BeginsNone (TakesErase set at)) (B.state bus.old) (B.state bus.new)) }
    ensures dark { OnErr result (Reaches W.WIDTH g at (B.state bus.old)
        → EachLane (DarkensIn at (cycles_for set EraseBlock)) (B.state bus.old) (B.state bus.new)) }
    ensures cycles { Asks (cycle_count set EraseBlock) result (B.state bus.old) (B.state bus.new) }
{
    write_command::<W, B>(set, bus, g, at, Command::EraseBlock)?;
    Ok(())
}

/// Begins to erase all blocks of every lane at once, which set 0002 alone can.
///
/// What it does to a lane holds where `g` is the bus's own wiring, the bus has address 0, and the lane's
/// chip would erase all: `TakesEraseAll` in `specs/Erase.antt`. Such a chip erases them, with no error set.
/// `Off` comes only where a cycle failed. The last cycle begins the erase, so then none has begun.
pub fn erase_all_start<W: BusWord, B: Bus<W>>(bus: &mut B, g: Geometry) -> Result<(), Off>
    ensures begins { OnOk result (Reaches W.WIDTH g 0 (B.state bus.old)
        → EachLane BeginsEraseAll (B.state bus.old) (B.state bus.new)) }
    ensures loses { OnErr result (Reaches W.WIDTH g 0 (B.state bus.old)
        → EachLane (BeginsNone TakesEraseAll) (B.state bus.old) (B.state bus.new)) }
    ensures dark { OnErr result (Reaches W.WIDTH g 0 (B.state bus.old)
        → EachLane (DarkensIn 0 (cycles_for Amd EraseAll)) (B.state bus.old) (B.state bus.new)) }
    ensures cycles { Asks (cycle_count Amd EraseAll) result (B.state bus.old) (B.state bus.new) }
{
    write_command::<W, B>(Set::Amd, bus, g, 0, Command::EraseAll)?;
    Ok(())
}

pub fn erase_polling<W: BusWord>(set: Set) -> Polling<W>
    ensures { result ≡ polling_in set }
{
    match set {
        Set::Intel => Polling::EraseStatus,
        Set::Amd => Polling::Toggle,
    }
}

fn next_state(state: LaneState, seen: Seen) -> LaneState
    ensures { result ≡ state_after state seen }
{
    match (state, seen) {
        (LaneState::Running, Seen::Working) => LaneState::Running,
        (LaneState::Running, Seen::Suspended) => LaneState::Suspended,
        (LaneState::Running, Seen::Broken(Broke::Erase | Broke::Time)) => LaneState::Broken,
        (LaneState::Running, _) => LaneState::Finished,
        (state, _) => state,
    }
}

pub fn state_of(lanes: &Lanes, lane: usize) -> LaneState
    requires { lane < 4 }
    ensures { result ≡ state_at lanes.now lane }
{
    lanes.lanes[lane]
}

fn seen_of(watch: &Watch, lane: usize) -> Seen
    requires { lane < 4 }
    ensures { result ≡ seen_at watch.now.lanes lane }
{
    watch.lanes[lane]
}

// Where each lane is after a poll.
pub fn next_lanes(lanes: Lanes, watch: &Watch) -> Lanes
    ensures { (c : ℕ) → c < 4 → state_at result c
        ≡ state_after (state_at lanes c) (seen_at watch.now.lanes c) }
{
    let mut next = lanes;
    for lane in 0..4 {
        next.lanes[lane] = next_state(state_of(&lanes, lane), seen_of(watch, lane));
    }
    next
}

/// Looks at an erase under way, by one poll: where each lane is after it. No lane may be suspended.
///
/// What it tells of a lane, and does to it, holds where `g` is the bus's own wiring, the bus has the
/// address, and `lanes` says where the lane's chip is: `TakesLook` in `specs/Erase.antt`. A running lane
/// stays so only where its job had reads left before, or the chip is stuck; else it is finished, its part of
/// what is erased 0xFF and without a weak place, or broken, with a weak place there. Every other lane keeps
/// its state and its bytes; of set 0001 each shows its status. `Off` comes only where a cycle failed.
pub fn erase_look<W: BusWord, B: Bus<W>>(
    set: Set,
    bus: &mut B,
    g: Geometry,
    at: u32,
    lanes: Lanes,
) -> Result<Lanes, Off>
    requires wiring { IsTrue (is_wiring W.WIDTH g.lanes g.device) }
    ensures looks { IfOk result (LooksAll set W.WIDTH g at lanes
        (B.state bus.old) (B.state bus.new)) }
    ensures loses { OnErr result (EachUnder (TakesLook set) ChangesWithinErase W.WIDTH g at lanes
        (B.state bus.old) (B.state bus.new)) }
    ensures dark { OnErr result (Reaches W.WIDTH g at (B.state bus.old)
        → DarkensLooking at (cycles_for set ShowStatus) (look_reads set) (B.state bus.old) (B.state bus.new)) }
    ensures few { OnErr result (FewLess set W.WIDTH g at lanes (B.state bus.old) (B.state bus.new)) }
    ensures lost { OnErr result (Lost (cycle_count set ShowStatus + look_reads set)
        (B.state bus.old) (B.state bus.new)) }
{
    write_command::<W, B>(set, bus, g, at, Command::ShowStatus)?;
    let watch = poll::<W, B>(bus, g, at, erase_polling(set))?;
    Ok(next_lanes(lanes, &watch))
}
