//! Block locks, by the commands of either set.
ghost use Rattle.std.specs.Prelude.{◌≡◌, ◌<◌, ◌+◌, ◌%◌, ◌^◌, ◌++◌, ℕ, true, false, IsTrue, IfOk, OnOk, OnErr};
ghost use Rattle.nor_cell.specs.Bits.{unit_len};
ghost use Rattle.nor_cell.specs.Wiring.{is_wiring};
ghost use Rattle.nor_word.specs.Word.{lane_of};
ghost use Rattle.nor_bus.specs.Driven.{EachLane, Reaches, Asks};
ghost use Rattle.nor_poll.specs.Codes.{cycle_count, cycles_of as cycles_for, DarkensIn};
ghost use Rattle.nor_poll.specs.Losing.{LosesNone, DarkensCall};
ghost use Rattle.nor_poll.specs.Lock.{OffersLocks, SetsLock, LosesLock, TellsLock, SomeLane, lock_command as command_for, lock_unit as unit_of, shows_locked as says_locked};
ghost use Rattle.nor_poll.specs.declared.codes.Command.TheVariants.{LockBlock, UnlockBlock, ShowLocks, LeaveLocks};

use crate::{Command, write_command};
use nor_bus::{Bus, Off, lane_bytes, read_word};
use nor_cell::{Device, Geometry, Set};
use nor_word::{BusWord, lane_get};

fn lock_command(locked: bool) -> Command
    ensures { result ≡ command_for locked }
{
    if locked {
        Command::LockBlock
    } else {
        Command::UnlockBlock
    }
}

// Both of its parts at once: either reaches all lanes, or none.
fn set_lock<W: BusWord, B: Bus<W>>(
    set: Set,
    bus: &mut B,
    g: Geometry,
    at: u32,
    locked: bool,
) -> Result<(), Off>
    ensures locks { OnOk result (Reaches W.WIDTH g at (B.state bus.old)
        → EachLane (SetsLock set at locked) (B.state bus.old) (B.state bus.new)) }
    ensures loses { OnErr result (Reaches W.WIDTH g at (B.state bus.old)
        → LosesLock set at locked (B.state bus.old) (B.state bus.new)) }
    ensures dark { OnErr result (Reaches W.WIDTH g at (B.state bus.old)
        → EachLane (DarkensIn at (cycles_for set (command_for locked) ++ cycles_for set LeaveLocks))
        (B.state bus.old) (B.state bus.new)) }
    ensures cycles { Asks (cycle_count set (command_for locked) + cycle_count set LeaveLocks) result
        (B.state bus.old) (B.state bus.new) }
{
    write_command::<W, B>(set, bus, g, at, lock_command(locked))?;
    write_command::<W, B>(set, bus, g, at, Command::LeaveLocks)?;
    Ok(())
}

/// Locks the block of bus address `at`, in every lane.
///
/// What it does to a lane holds where `g` is the bus's own wiring, the bus has the address, and the lane's
/// chip takes commands and offers locks: `OffersLocks` in `specs/Lock.antt`. The block's lock is then set,
/// all else is as before, and the array is shown. `Off` comes only where a cycle failed: the lock is as it
/// was in every lane, or set in every lane, and nothing else is lost but bytes of a block under erase.
pub fn lock<W: BusWord, B: Bus<W>>(set: Set, bus: &mut B, g: Geometry, at: u32) -> Result<(), Off>
    ensures locks { OnOk result (Reaches W.WIDTH g at (B.state bus.old)
        → EachLane (SetsLock set at true) (B.state bus.old) (B.state bus.new)) }
    ensures loses { OnErr result (Reaches W.WIDTH g at (B.state bus.old)
        → LosesLock set at true (B.state bus.old) (B.state bus.new)) }
    ensures dark { OnErr result (Reaches W.WIDTH g at (B.state bus.old)
        → EachLane (DarkensIn at (cycles_for set LockBlock ++ cycles_for set LeaveLocks))
        (B.state bus.old) (B.state bus.new)) }
    ensures cycles { Asks (cycle_count set LockBlock + cycle_count set LeaveLocks) result
        (B.state bus.old) (B.state bus.new) }
{
    set_lock::<W, B>(set, bus, g, at, true)
}

/// Unlocks the block of bus address `at`, in every lane: as `lock`, with the lock cleared.
pub fn unlock<W: BusWord, B: Bus<W>>(set: Set, bus: &mut B, g: Geometry, at: u32) -> Result<(), Off>
    ensures unlocks { OnOk result (Reaches W.WIDTH g at (B.state bus.old)
        → EachLane (SetsLock set at false) (B.state bus.old) (B.state bus.new)) }
    ensures loses { OnErr result (Reaches W.WIDTH g at (B.state bus.old)
        → LosesLock set at false (B.state bus.old) (B.state bus.new)) }
    ensures dark { OnErr result (Reaches W.WIDTH g at (B.state bus.old)
        → EachLane (DarkensIn at (cycles_for set UnlockBlock ++ cycles_for set LeaveLocks))
        (B.state bus.old) (B.state bus.new)) }
    ensures cycles { Asks (cycle_count set UnlockBlock + cycle_count set LeaveLocks) result
        (B.state bus.old) (B.state bus.new) }
{
    set_lock::<W, B>(set, bus, g, at, false)
}

// Where a chip shows the lock of a block, from the first unit of the block on: set 0001 in register 2.
fn lock_unit(set: Set, device: Device) -> u32
    ensures { result ≡ unit_of set device }
{
    match (set, device) {
        (Set::Amd, _) => 0,
        (Set::Intel, Device::X16Byte) => 4,
        (Set::Intel, _) => 2,
    }
}

// The address at which the lock of the block that begins at `at` is read.
fn lock_address(set: Set, device: Device, at: u32) -> u32
    ensures { result ≡ (at + unit_of set device) % 2 ^ 32 }
{
    at.wrapping_add(lock_unit(set, device))
}

fn shows_locked(set: Set, answer: u16) -> bool
    ensures { result ≡ says_locked set answer }
{
    match set {
        Set::Intel => answer == 1,
        Set::Amd => answer == 0,
    }
}

// Whether a lane of this answer is locked.
fn is_any_locked<W: BusWord>(set: Set, g: Geometry, word: W) -> bool
    requires wiring { IsTrue (is_wiring W.WIDTH g.lanes g.device) }
    ensures none { result ≡ false → (c : ℕ) → c < g.lanes
        → says_locked set (lane_of (unit_len g.device) (W.bytes word) c) ≡ false }
    ensures some { result ≡ true
        → SomeLane g.lanes (λ c. says_locked set (lane_of (unit_len g.device) (W.bytes word) c)) }
{
    let bytes = lane_bytes(g.device);
    for lane in 0..g.lanes {
        if shows_locked(set, lane_get(word, lane, bytes)) {
            return true;
        }
    }
    false
}

/// Whether the block that begins at bus address `at` is locked in some lane.
///
/// What it tells holds where `g` is the bus's own wiring, the bus has the address, and it begins a block in
/// each lane's chip, which takes commands and offers locks: `ShowsLock` in `specs/Lock.antt`. Nothing
/// changes, and the array is shown. `Off` comes only where a cycle failed, and then nothing is lost but
/// bytes of a block under erase.
pub fn is_locked<W: BusWord, B: Bus<W>>(
    set: Set,
    bus: &mut B,
    g: Geometry,
    at: u32,
) -> Result<bool, Off>
    requires wiring { IsTrue (is_wiring W.WIDTH g.lanes g.device) }
    ensures tells { IfOk result (TellsLock set W.WIDTH g at (B.state bus.old) (B.state bus.new)) }
    ensures loses { OnErr result (Reaches W.WIDTH g at (B.state bus.old)
        → EachLane (LosesNone (OffersLocks set)) (B.state bus.old) (B.state bus.new)) }
    ensures dark { OnErr result (Reaches W.WIDTH g at (B.state bus.old)
        → DarkensCall at (cycles_for set ShowLocks) (cycles_for set LeaveLocks) 1
        (B.state bus.old) (B.state bus.new)) }
    ensures cycles { Asks (cycle_count set ShowLocks + 1 + cycle_count set LeaveLocks) result
        (B.state bus.old) (B.state bus.new) }
{
    write_command::<W, B>(set, bus, g, at, Command::ShowLocks)?;
    let word = read_word::<W, B>(bus, lock_address(set, g.device, at))?;
    write_command::<W, B>(set, bus, g, at, Command::LeaveLocks)?;
    Ok(is_any_locked(set, g, word))
}
