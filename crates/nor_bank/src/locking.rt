//! Block locks.
ghost use Rattle.std.specs.Prelude.{◌≡◌, ◌<◌, ◌+◌, ℕ, [], length, IfOk, IfSome, OnOk, OnErr, IfErr, true, None};
ghost use Rattle.nor_array.specs.Array.{ArrayState, is_locked as is_locked_in};
ghost use Rattle.nor_array.specs.Admits.{lowest_locked as lowest_in};
ghost use Rattle.nor_array.specs.declared.entry.Op.TheVariants.{Lock, Unlock, IsLocked};
ghost use Rattle.nor_bus.specs.Driven.{EachLane, Reaches, Asks};
ghost use Rattle.nor_poll.specs.Codes.{cycle_count};
ghost use Rattle.nor_poll.specs.Lock.{SetsLock, LosesLock, lock_command};
ghost use Rattle.nor_poll.specs.declared.codes.Command.TheVariants.{LeaveLocks};
ghost use Rattle.nor_query.specs.Derived.{locks_of};
ghost use Rattle.nor_bank.specs.Locks.{HasReadLock, ShowsArray, ReadsLocks, LosesLocks, locks_most, lock_op};
ghost use Rattle.nor_bank.specs.State.{blocks_of};
ghost use Rattle.nor_bank.specs.Whole.{IsCallOf};
ghost use Rattle.nor_bank.specs.Work.{reach_refusal};

use crate::Bank;
use crate::halts::keep_halt;
use nor_array::{Halted, Reach, Reply, lock_call};
use nor_bus::{Bus, Off};
use nor_cell::{Geometry, Set};
use nor_poll::{is_locked, lock, unlock};
use nor_word::BusWord;

// Sets or clears the lock of the block of a bus address.
fn send_lock<W: BusWord, B: Bus<W>>(
    set: Set,
    bus: &mut B,
    g: Geometry,
    at: u32,
    locked: bool,
) -> Result<(), Off>
    ensures locks { OnOk result (Reaches W.WIDTH g at (B.state bus.old)
        → EachLane (SetsLock set at locked) (B.state bus.old) (B.state bus.new)) }
    ensures loses { OnErr result (Reaches W.WIDTH g at (B.state bus.old)
        → LosesLock set at locked (B.state bus.old) (B.state bus.new)) }
    ensures cycles { Asks (cycle_count set (lock_command locked) + cycle_count set LeaveLocks)
        result (B.state bus.old) (B.state bus.new) }
{
    if locked {
        lock::<W, B>(set, bus, g, at)
    } else {
        unlock::<W, B>(set, bus, g, at)
    }
}

impl<W: BusWord, B: Bus<W>> Bank<W, B> {
    // Whether the chips hold a block locked.
    fn reads_locked(&mut self, block: u32) -> Result<bool, Reply>
        requires there { block < length (blocks_of (self.old).found) }
        requires offers { locks_of (self.old).found.query.extended ≡ true }
        ensures locked { IfOk result (λ locked. (a : ArrayState) → ShowsArray self.old a
            → locked ≡ is_locked_in a block) }
        ensures reads { OnOk result (ReadsLocks 6 self.old self.new) }
        ensures loses { IfErr result (LosesLocks 6 self.old self.new) }
    {
        let at = self.unit_of(block);
        match is_locked::<W, B>(self.found.query.set, &mut self.bus, self.found.geometry, at) {
            Ok(locked) => Ok(locked),
            Err(_) => {
                let cause = Halted::Off { after: self.after };
                Err(keep_halt(&mut self.halted, &mut self.erase, cause))
            }
        }
    }

    // The lowest locked block that is touched: there is none where no locks are offered.
    pub(crate) fn lowest_locked(&mut self, reach: Reach) -> Result<Option<u32>, Reply>
        requires { reach_refusal (self.old).found reach ≡ None }
        ensures lowest { IfOk result (λ lowest. (a : ArrayState) → ShowsArray self.old a
            → lowest ≡ lowest_in a reach) }
        ensures found { IfOk result (λ lowest. IfSome lowest (λ k. HasReadLock self.old reach k)) }
        ensures reads { OnOk result
            (ReadsLocks (locks_most (self.old).found reach) self.old self.new) }
        ensures loses { IfErr result
            (LosesLocks (locks_most (self.old).found reach) self.old self.new) }
    {
        if !self.found.query.has_locks() {
            return Ok(None);
        }
        let (first, end) = self.touched(reach);
        for block in first..end {
            if self.reads_locked(block)? {
                return Ok(Some(block));
            }
        }
        Ok(None)
    }

    // Sets or clears the lock of a block.
    fn set_lock(&mut self, block: u32, locked: bool) -> Reply
        ensures call { (caller : ℕ)
            → IsCallOf caller (lock_op locked block) self.old self.new result [] }
    {
        if let Some(reply) = self.before_work(lock_call(block), false) {
            return reply;
        }
        let at = self.unit_of(block);
        let (set, g) = (self.found.query.set, self.found.geometry);
        match send_lock::<W, B>(set, &mut self.bus, g, at, locked) {
            Ok(_) => Reply::Done,
            Err(_) => {
                let cause = Halted::Off { after: self.after };
                keep_halt(&mut self.halted, &mut self.erase, cause)
            }
        }
    }

    /// Locks a block: programs and erases that touch it are answered `Locked` from then on.
    ///
    /// - `Done`: it is locked in every lane.
    /// - `OutOfRange`: the bank has no such block. `NoLocks`: it offers no locks.
    /// - `Busy`: the block is under erase.
    /// - `NotYet`: the chips work on an erase that can't be suspended.
    /// - `Halted`: as of a read. A first halt leaves the lock as it was, or after a loss of power maybe as it
    ///   was asked for, in all lanes alike.
    pub fn lock(&mut self, caller: u8, block: u32) -> Reply
        ensures call { IsCallOf caller (Lock block) self.old self.new result [] }
    {
        self.set_lock(block, true)
    }

    /// Unlocks a block. The replies are those of [`lock`](Bank::lock).
    pub fn unlock(&mut self, caller: u8, block: u32) -> Reply
        ensures call { IsCallOf caller (Unlock block) self.old self.new result [] }
    {
        self.set_lock(block, false)
    }

    /// Whether a block is locked: `Bit`. The other replies are those of [`lock`](Bank::lock), but for `Done`;
    /// no lock changes.
    pub fn is_locked(&mut self, caller: u8, block: u32) -> Reply
        ensures call { IsCallOf caller (IsLocked block) self.old self.new result [] }
    {
        if let Some(reply) = self.before_work(lock_call(block), false) {
            return reply;
        }
        match self.reads_locked(block) {
            Ok(locked) => Reply::Bit(locked),
            Err(reply) => reply,
        }
    }
}
