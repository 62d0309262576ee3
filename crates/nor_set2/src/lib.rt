//! The commands of set 0002, AMD standard, on a bank of any wiring.
//!
//! The calls of both sets are one: nor_poll has them, with the set as a parameter. The sets differ there in
//! the codes of `cycles_of`, in those that resume an erase, in the polls, and in where and how the lock of a
//! block is shown. Here stand the calls of this set, under the names that a caller of one set takes.
#![tactic(auto)]

ghost use Rattle.std.specs.Prelude.{◌≡◌, ◌≤◌, ◌+◌, ◌++◌, true, false, IsTrue, IfOk, IfErr, OnOk, OnErr, length, map};
ghost use Rattle.nor_cell.specs.Between.{AtRest};
ghost use Rattle.nor_cell.specs.Wiring.{is_wiring};
ghost use Rattle.nor_cell.specs.declared.device.Set.TheVariants.{Amd};
ghost use Rattle.nor_bus.specs.Driven.{Lost, EachLane, Reaches, Counted, Asks, EachPart, Darkens};
ghost use Rattle.nor_poll.specs.Buffer.{EachLoad, ReachesAll, ProgramsLoad, AreLoadsBroken, IsLoadPrompt, LoadHalts, load_most};
ghost use Rattle.nor_poll.specs.Codes.{cycle_count, cycles_of, DarkensIn};
ghost use Rattle.nor_poll.specs.Erase.{TakesErase, TakesEraseAll, TakesLook, BeginsErase, BeginsEraseAll, ChangesWithinErase, LooksAll, FewLess, look_reads};
ghost use Rattle.nor_poll.specs.Lock.{OffersLocks, SetsLock, LosesLock, TellsLock};
ghost use Rattle.nor_poll.specs.Rest.{Settles};
ghost use Rattle.nor_poll.specs.Losing.{LosesNone, BeginsNone, DarkensLooking, DarkensCall};
ghost use Rattle.nor_poll.specs.Resume.{TakesResume, ResumesAll};
ghost use Rattle.nor_poll.specs.Suspend.{SuspendsAll, SuspendHalts};
ghost use Rattle.nor_poll.specs.UnderErase.{EachUnder};
ghost use Rattle.nor_poll.specs.Word.{ProgramsWord, AreBroken, IsPrompt, WordHalts, word_most};
ghost use Rattle.nor_poll.specs.declared.codes.Command.TheVariants.{LockBlock, UnlockBlock, ShowLocks, LeaveLocks, ClearErrors, EraseBlock, EraseAll, ShowStatus};

use nor_bus::{Bus, Off};
use nor_cell::{Geometry, Set};
pub use nor_poll::{Halt, LaneSet, LaneState, Lanes};
use nor_word::BusWord;

/// Programs one bus word, each lane its part: `program_word` of nor_poll.
pub fn program_word<W: BusWord, B: Bus<W>>(
    bus: &mut B,
    g: Geometry,
    at: u32,
    new: W,
    limit: u32,
) -> Result<LaneSet, Halt>
    requires wiring { IsTrue (is_wiring W.WIDTH g.lanes g.device) }
    ensures done { OnOk result (Reaches W.WIDTH g at (B.state bus.old)
        → EachPart (W.bytes new) (ProgramsWord Amd at) (B.state bus.old) (B.state bus.new)) }
    ensures broken { IfOk result (AreBroken Amd W.WIDTH g at (W.bytes new) (B.state bus.old)) }
    ensures cycles { OnOk result (Counted 5 (word_most Amd limit)
        (B.state bus.old) (B.state bus.new)) }
    ensures prompt { IfOk result (IsPrompt Amd W.WIDTH g at (B.state bus.old) (B.state bus.new)) }
    ensures halts { IfErr result (WordHalts Amd W.WIDTH g at (W.bytes new) limit
        (B.state bus.old) (B.state bus.new)) }
{
    nor_poll::program_word::<W, B>(Set::Amd, bus, g, at, new, limit)
}

/// Programs bus words by one buffer load, each lane its parts: `program_buffer` of nor_poll.
pub fn program_buffer<W: BusWord, B: Bus<W>>(
    bus: &mut B,
    g: Geometry,
    at: u32,
    new: &[W],
    limit: u32,
) -> Result<LaneSet, Halt>
    requires wiring { IsTrue (is_wiring W.WIDTH g.lanes g.device) }
    requires some { 1 ≤ length new.now }
    requires few { length new.now ≤ 256 }
    ensures done { OnOk result (ReachesAll W.WIDTH g at (length new.now) (B.state bus.old)
        → EachLoad (map W.bytes new.now) (ProgramsLoad Amd at (length new.now))
        (B.state bus.old) (B.state bus.new)) }
    ensures broken { IfOk result (AreLoadsBroken Amd W.WIDTH g at (map W.bytes new.now)
        (B.state bus.old)) }
    ensures cycles { OnOk result (Counted (length new.now + 6)
        (load_most Amd (length new.now) limit) (B.state bus.old) (B.state bus.new)) }
    ensures prompt { IfOk result (IsLoadPrompt Amd W.WIDTH g at (length new.now)
        (B.state bus.old) (B.state bus.new)) }
    ensures halts { IfErr result (LoadHalts Amd W.WIDTH g at (map W.bytes new.now) limit
        (B.state bus.old) (B.state bus.new)) }
{
    nor_poll::program_buffer::<W, B>(Set::Amd, bus, g, at, new, limit)
}

/// Clears the errors of every lane, and lets it show its array, but for a held block: `settle` of nor_poll.
pub fn settle<W: BusWord, B: Bus<W>>(bus: &mut B, g: Geometry, lanes: Lanes) -> Result<(), Off>
    ensures settles { OnOk result (Reaches W.WIDTH g 0 (B.state bus.old)
        → EachLane (Settles Amd) (B.state bus.old) (B.state bus.new)) }
    ensures loses { OnErr result (Reaches W.WIDTH g 0 (B.state bus.old)
        → EachLane (LosesNone (AtRest Amd)) (B.state bus.old) (B.state bus.new)) }
    ensures dark { OnErr result (Reaches W.WIDTH g 0 (B.state bus.old)
        → EachLane (DarkensIn 0 (cycles_of Amd ClearErrors)) (B.state bus.old) (B.state bus.new)) }
    ensures cycles { Asks (cycle_count Amd ClearErrors) result (B.state bus.old) (B.state bus.new) }
{
    nor_poll::settle::<W, B>(Set::Amd, bus, g, lanes)
}

/// Begins to erase the block of bus address `at`, in every lane: `erase_start` of nor_poll.
pub fn erase_start<W: BusWord, B: Bus<W>>(bus: &mut B, g: Geometry, at: u32) -> Result<(), Off>
    ensures begins { OnOk result (Reaches W.WIDTH g at (B.state bus.old)
        → EachLane (BeginsErase Amd at) (B.state bus.old) (B.state bus.new)) }
    ensures loses { OnErr result (Reaches W.WIDTH g at (B.state bus.old)
        → EachLane (BeginsNone (TakesErase Amd at)) (B.state bus.old) (B.state bus.new)) }
    ensures dark { OnErr result (Reaches W.WIDTH g at (B.state bus.old)
        → EachLane (DarkensIn at (cycles_of Amd EraseBlock)) (B.state bus.old) (B.state bus.new)) }
    ensures cycles { Asks (cycle_count Amd EraseBlock) result (B.state bus.old) (B.state bus.new) }
{
    nor_poll::erase_start::<W, B>(Set::Amd, bus, g, at)
}

/// Begins to erase all blocks of every lane at once: `erase_all_start` of nor_poll.
pub fn erase_all_start<W: BusWord, B: Bus<W>>(bus: &mut B, g: Geometry) -> Result<(), Off>
    ensures begins { OnOk result (Reaches W.WIDTH g 0 (B.state bus.old)
        → EachLane BeginsEraseAll (B.state bus.old) (B.state bus.new)) }
    ensures loses { OnErr result (Reaches W.WIDTH g 0 (B.state bus.old)
        → EachLane (BeginsNone TakesEraseAll) (B.state bus.old) (B.state bus.new)) }
    ensures dark { OnErr result (Reaches W.WIDTH g 0 (B.state bus.old)
        → EachLane (DarkensIn 0 (cycles_of Amd EraseAll)) (B.state bus.old) (B.state bus.new)) }
    ensures cycles { Asks (cycle_count Amd EraseAll) result (B.state bus.old) (B.state bus.new) }
{
    nor_poll::erase_all_start::<W, B>(bus, g)
}

/// Looks at an erase under way: where each lane is after one poll: `erase_look` of nor_poll.
pub fn erase_look<W: BusWord, B: Bus<W>>(
    bus: &mut B,
    g: Geometry,
    at: u32,
    lanes: Lanes,
) -> Result<Lanes, Off>
    requires wiring { IsTrue (is_wiring W.WIDTH g.lanes g.device) }
    ensures looks { IfOk result (LooksAll Amd W.WIDTH g at lanes
        (B.state bus.old) (B.state bus.new)) }
    ensures loses { OnErr result (EachUnder (TakesLook Amd) ChangesWithinErase W.WIDTH g at lanes
        (B.state bus.old) (B.state bus.new)) }
    ensures dark { OnErr result (Reaches W.WIDTH g at (B.state bus.old)
        → DarkensLooking at (cycles_of Amd ShowStatus) (look_reads Amd) (B.state bus.old) (B.state bus.new)) }
    ensures few { OnErr result (FewLess Amd W.WIDTH g at lanes (B.state bus.old) (B.state bus.new)) }
    ensures lost { OnErr result (Lost (cycle_count Amd ShowStatus + look_reads Amd)
        (B.state bus.old) (B.state bus.new)) }
{
    nor_poll::erase_look::<W, B>(Set::Amd, bus, g, at, lanes)
}

/// Suspends the erase of the block at bus address `at` in each lane that runs it: `suspend` of nor_poll.
pub fn suspend<W: BusWord, B: Bus<W>>(
    bus: &mut B,
    g: Geometry,
    at: u32,
    lanes: Lanes,
) -> Result<Lanes, Halt>
    requires wiring { IsTrue (is_wiring W.WIDTH g.lanes g.device) }
    ensures suspends { IfOk result (SuspendsAll Amd W.WIDTH g at lanes
        (B.state bus.old) (B.state bus.new)) }
    ensures halts { IfErr result (SuspendHalts Amd W.WIDTH g at lanes
        (B.state bus.old) (B.state bus.new)) }
{
    nor_poll::suspend::<W, B>(Set::Amd, bus, g, at, lanes)
}

/// Resumes the erase of the block at bus address `at` in each suspended lane: `resume` of nor_poll.
pub fn resume<W: BusWord, B: Bus<W>>(
    bus: &mut B,
    g: Geometry,
    at: u32,
    lanes: Lanes,
) -> Result<Lanes, Off>
    requires wiring { IsTrue (is_wiring W.WIDTH g.lanes g.device) }
    ensures resumes { IfOk result (ResumesAll Amd W.WIDTH g at lanes
        (B.state bus.old) (B.state bus.new)) }
    ensures loses { OnErr result (EachUnder (TakesResume Amd) ChangesWithinErase W.WIDTH g at lanes
        (B.state bus.old) (B.state bus.new)) }
    ensures dark { OnErr result (EachLane Darkens (B.state bus.old) (B.state bus.new)) }
    ensures cycles { Asks 1 result (B.state bus.old) (B.state bus.new) }
{
    nor_poll::resume::<W, B>(Set::Amd, bus, g, at, lanes)
}

/// Locks the block of bus address `at`, in every lane: `lock` of nor_poll.
pub fn lock<W: BusWord, B: Bus<W>>(bus: &mut B, g: Geometry, at: u32) -> Result<(), Off>
    ensures locks { OnOk result (Reaches W.WIDTH g at (B.state bus.old)
        → EachLane (SetsLock Amd at true) (B.state bus.old) (B.state bus.new)) }
    ensures loses { OnErr result (Reaches W.WIDTH g at (B.state bus.old)
        → LosesLock Amd at true (B.state bus.old) (B.state bus.new)) }
    ensures dark { OnErr result (Reaches W.WIDTH g at (B.state bus.old)
        → EachLane (DarkensIn at (cycles_of Amd LockBlock ++ cycles_of Amd LeaveLocks))
        (B.state bus.old) (B.state bus.new)) }
    ensures cycles { Asks (cycle_count Amd LockBlock + cycle_count Amd LeaveLocks) result
        (B.state bus.old) (B.state bus.new) }
{
    nor_poll::lock::<W, B>(Set::Amd, bus, g, at)
}

/// Unlocks the block of bus address `at`, in every lane: `unlock` of nor_poll.
pub fn unlock<W: BusWord, B: Bus<W>>(bus: &mut B, g: Geometry, at: u32) -> Result<(), Off>
    ensures unlocks { OnOk result (Reaches W.WIDTH g at (B.state bus.old)
        → EachLane (SetsLock Amd at false) (B.state bus.old) (B.state bus.new)) }
    ensures loses { OnErr result (Reaches W.WIDTH g at (B.state bus.old)
        → LosesLock Amd at false (B.state bus.old) (B.state bus.new)) }
    ensures dark { OnErr result (Reaches W.WIDTH g at (B.state bus.old)
        → EachLane (DarkensIn at (cycles_of Amd UnlockBlock ++ cycles_of Amd LeaveLocks))
        (B.state bus.old) (B.state bus.new)) }
    ensures cycles { Asks (cycle_count Amd UnlockBlock + cycle_count Amd LeaveLocks) result
        (B.state bus.old) (B.state bus.new) }
{
    nor_poll::unlock::<W, B>(Set::Amd, bus, g, at)
}

/// Whether the block that begins at bus address `at` is locked in some lane: `is_locked` of nor_poll.
pub fn is_locked<W: BusWord, B: Bus<W>>(bus: &mut B, g: Geometry, at: u32) -> Result<bool, Off>
    requires wiring { IsTrue (is_wiring W.WIDTH g.lanes g.device) }
    ensures tells { IfOk result (TellsLock Amd W.WIDTH g at (B.state bus.old) (B.state bus.new)) }
    ensures loses { OnErr result (Reaches W.WIDTH g at (B.state bus.old)
        → EachLane (LosesNone (OffersLocks Amd)) (B.state bus.old) (B.state bus.new)) }
    ensures dark { OnErr result (Reaches W.WIDTH g at (B.state bus.old)
        → DarkensCall at (cycles_of Amd ShowLocks) (cycles_of Amd LeaveLocks) 1
        (B.state bus.old) (B.state bus.new)) }
    ensures cycles { Asks (cycle_count Amd ShowLocks + 1 + cycle_count Amd LeaveLocks) result
        (B.state bus.old) (B.state bus.new) }
{
    nor_poll::is_locked::<W, B>(Set::Amd, bus, g, at)
}
