//! What ends a command of either set.
ghost use Rattle.std.specs.Prelude.{◌≡◌, ◌+◌, ℕ, min, OnOk, OnErr};
ghost use Rattle.nor_cell.specs.Between.{AtRest};
ghost use Rattle.nor_bus.specs.Driven.{Went, Lost, EachLane, Reaches, Asks};
ghost use Rattle.nor_poll.specs.Codes.{cycle_count, cycles_of as cycles_for, DarkensIn};
ghost use Rattle.nor_poll.specs.declared.codes.Command.TheVariants.{ClearErrors, ShowArray, Reset};
ghost use Rattle.nor_poll.specs.Rest.{Resets, Settles, SettlesUnbroken};
ghost use Rattle.nor_poll.specs.Losing.{LosesNone, DarkensResting};

use crate::{Command, LaneSet, Lanes, write_command};
use nor_bus::{Bus, Off};
use nor_cell::{Geometry, Set};
use nor_word::BusWord;

/// Lets every lane show its array after a program, with no error. Where no lane broke off none stands.
pub fn end_program<W: BusWord, B: Bus<W>>(
    set: Set,
    bus: &mut B,
    g: Geometry,
    at: u32,
    broken: LaneSet,
) -> Result<(), Off>
    ensures lanes { OnOk result (Reaches W.WIDTH g at (B.state bus.old)
        → EachLane (SettlesUnbroken set broken.bits) (B.state bus.old) (B.state bus.new)) }
    ensures loses { OnErr result (Reaches W.WIDTH g at (B.state bus.old)
        → EachLane (LosesNone (AtRest set)) (B.state bus.old) (B.state bus.new)) }
    ensures dark { OnErr result (Reaches W.WIDTH g at (B.state bus.old)
        → DarkensResting set at (B.state bus.old) (B.state bus.new)) }
    ensures went { OnOk result (Went (cycle_count set ShowArray + min broken.bits 1) (cycle_count set ShowArray + min broken.bits 1)
        (B.state bus.old) (B.state bus.new)) }
    ensures lost { OnErr result (Lost (cycle_count set ClearErrors)
        (B.state bus.old) (B.state bus.new)) }
{
    if broken.bits == 0 {
        write_command::<W, B>(set, bus, g, at, Command::ShowArray)?;
        return Ok(());
    }
    settle_at::<W, B>(set, bus, g, at)
}

/// Lets every lane show its array, but for a block whose erase is held. Errors of set 0001 stay: what begins
/// a program or an erase clears them.
///
/// What it does to a lane holds where `g` is the bus's own wiring, the bus has the address, and the lane's
/// chip is of the set, at rest, and runs no job. `Off` comes only where a cycle failed, and leaves the cells,
/// locks, held erase and counters of every such chip, but for a block under erase.
pub fn reset<W: BusWord, B: Bus<W>>(set: Set, bus: &mut B, g: Geometry, at: u32) -> Result<(), Off>
    ensures lanes { OnOk result (Reaches W.WIDTH g at (B.state bus.old)
        → EachLane (Resets set) (B.state bus.old) (B.state bus.new)) }
    ensures dark { OnErr result (Reaches W.WIDTH g at (B.state bus.old)
        → EachLane (DarkensIn at (cycles_for set Reset)) (B.state bus.old) (B.state bus.new)) }
    ensures loses { OnErr result (Reaches W.WIDTH g at (B.state bus.old)
        → EachLane (LosesNone (AtRest set)) (B.state bus.old) (B.state bus.new)) }
    ensures cycles { Asks (cycle_count set Reset) result (B.state bus.old) (B.state bus.new) }
{
    write_command::<W, B>(set, bus, g, at, Command::Reset)?;
    Ok(())
}

// Clears errors.
pub fn settle_at<W: BusWord, B: Bus<W>>(
    set: Set,
    bus: &mut B,
    g: Geometry,
    at: u32,
) -> Result<(), Off>
    ensures lanes { OnOk result (Reaches W.WIDTH g at (B.state bus.old)
        → EachLane (Settles set) (B.state bus.old) (B.state bus.new)) }
    ensures dark { OnErr result (Reaches W.WIDTH g at (B.state bus.old)
        → EachLane (DarkensIn at (cycles_for set ClearErrors)) (B.state bus.old) (B.state bus.new)) }
    ensures loses { OnErr result (Reaches W.WIDTH g at (B.state bus.old)
        → EachLane (LosesNone (AtRest set)) (B.state bus.old) (B.state bus.new)) }
    ensures cycles { Asks (cycle_count set ClearErrors) result (B.state bus.old) (B.state bus.new) }
{
    write_command::<W, B>(set, bus, g, at, Command::ClearErrors)?;
    Ok(())
}

/// Clears the errors of every lane, and lets it show its array, but for a block whose erase is held.
///
/// What it does to a lane holds where `g` is the bus's own wiring, and the lane's chip is of the set, at
/// rest, and runs no job; where the lanes are in an erase makes no difference. `Off` comes only where a
/// cycle failed, and leaves the cells, locks, held erase and counters of every such chip, but for a block
/// under erase.
pub fn settle<W: BusWord, B: Bus<W>>(
    set: Set,
    bus: &mut B,
    g: Geometry,
    _lanes: Lanes,
) -> Result<(), Off>
    ensures settles { OnOk result (Reaches W.WIDTH g 0 (B.state bus.old)
        → EachLane (Settles set) (B.state bus.old) (B.state bus.new)) }
    ensures dark { OnErr result (Reaches W.WIDTH g 0 (B.state bus.old)
        → EachLane (DarkensIn 0 (cycles_for set ClearErrors)) (B.state bus.old) (B.state bus.new)) }
    ensures loses { OnErr result (Reaches W.WIDTH g 0 (B.state bus.old)
        → EachLane (LosesNone (AtRest set)) (B.state bus.old) (B.state bus.new)) }
    ensures cycles { Asks (cycle_count set ClearErrors) result (B.state bus.old) (B.state bus.new) }
{
    settle_at::<W, B>(set, bus, g, 0)
}
