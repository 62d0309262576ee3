//! The way to the chips: what a call does before its work where something is under erase.
ghost use Rattle.std.specs.Prelude.{◌≡◌, ◌≢◌, ◌<◌, ◌≤◌, ◌/◌, ℕ, Bool, true, false, List, [], length, Option, Some, None, IfSome, IfOk, IfErr, IsNone, OnOk, OnErr};
ghost use Rattle.nor_cell.specs.Chip.{block as span_at};
ghost use Rattle.nor_cell.specs.Table.{can_suspend};
ghost use Rattle.nor_query.specs.Derived.{suspend_of};
ghost use Rattle.nor_array.specs.Array.{IsThere};
ghost use Rattle.nor_array.specs.declared.entry.Op.{Op};
ghost use Rattle.nor_poll.specs.UnderErase.{state_at};
ghost use Rattle.nor_array.specs.Array.{ArrayState};
ghost use Rattle.nor_array.specs.declared.entry.Reply.TheVariants.{Done as DoneReply, Failed as FailedReply};
ghost use Rattle.nor_bus.specs.Driven.{EachLane};
ghost use Rattle.nor_bank.specs.Counts.{can_beside, is_open, IsPaused};
ghost use Rattle.nor_bank.specs.Stands.{Stands};
ghost use Rattle.nor_poll.specs.declared.lanes.LaneState.TheVariants.{Running as LaneRuns};
ghost use Rattle.nor_bank.specs.Looks.{NoLaneIs};
ghost use Rattle.nor_bank.specs.State.{blocks_of};
ghost use Rattle.nor_bank.specs.Way.{erased_at, Looks, LosesLook, ClearsWay, HaltsWay, HasNeeds, BeginsWork, BeginsChange, IsOfBlock, MayCountSuspend, way_most, change_most, cause_of as cause_in};
ghost use Rattle.nor_bank.specs.Whole.{IsCallOf};
ghost use Rattle.nor_bank.specs.Work.{reach_refusal};

use crate::halts::keep_halt;
use crate::looking::{has_lane, look_once};
use crate::{Bank, Erasing};
use nor_array::{CallNeeds, Halted, Reply, Target};
use nor_bus::Bus;
use nor_cell::SuspendKind;
use nor_poll::{Halt, LaneState, Lanes, suspend};
use nor_word::BusWord;

// The lowest of so many lanes in this state.
pub(crate) fn first_in(lanes: &Lanes, count: u8, state: LaneState) -> Option<u8>
    requires { count ≤ 4 }
    ensures none { IsNone result → (c : ℕ) → c < count → state_at lanes.now c ≢ state }
    ensures some { IfSome result (λ k. (k < count) × (state_at lanes.now k ≡ state)
        × ((c : ℕ) → c < k → state_at lanes.now c ≢ state)) }
{
    for lane in 0..count {
        if lanes.lanes[lane as usize] == state {
            return Some(lane);
        }
    }
    None
}

// Whether an erase can be suspended for a program, or else for a read.
fn can_suspend(kind: SuspendKind, programs: bool) -> bool
    ensures { result ≡ can_beside kind programs }
{
    match kind {
        SuspendKind::None => false,
        SuspendKind::Read => !programs,
        SuspendKind::Program => true,
    }
}

// Why a call halts: a loss of power tells the number of the armed cut.
pub(crate) fn cause_of(halt: Halt, after: u32) -> Halted
    ensures { result ≡ cause_in after halt }
{
    match halt {
        Halt::Off => Halted::Off { after },
        Halt::Stuck { lane } => Halted::Stuck { lane },
    }
}

impl<W: BusWord, B: Bus<W>> Bank<W, B> {
    // The bus word at which a block begins.
    pub(crate) fn unit_of(&self, block: u32) -> u32
        requires { block < length (blocks_of (self.now).found) }
        ensures { result ≡ (span_at (blocks_of (self.now).found) block).from / W.WIDTH }
    {
        self.found.map.span(block).from / u32::from(W::WIDTH)
    }

    // Where what is under erase begins.
    pub(crate) fn erased_unit(&self, target: Target) -> u32
        requires { IsThere target (blocks_of (self.now).found) }
        ensures { result ≡ erased_at W.WIDTH (self.now).found target }
    {
        match target {
            Target::OneBlock { block } => self.unit_of(block),
            Target::AllBlocks => 0,
        }
    }

    // Suspends the lanes that run, where that is offered.
    fn pause(&mut self, erase: Erasing) -> Result<(), Reply>
        requires running { (self.old).halted ≡ None }
        requires open { (self.old).erase ≡ Some erase }
        requires offers { can_suspend (suspend_of (self.old).found.query.extended) ≡ true }
        ensures pauses { IfOk result (λ done. (programs : Bool)
            → can_beside (suspend_of (self.old).found.query.extended) programs ≡ true
            → ClearsWay programs self.old self.new true) }
        ensures still { OnOk result (NoLaneIs (self.old).found.geometry.lanes erase.lanes LaneRuns
            → self.new ≡ self.old) }
        ensures halts { IfErr result (HaltsWay way_most self.old self.new) }
        ensures counts { OnErr result (IsOfBlock (self.old).erase → (a : ArrayState)
            → Stands self.old a → EachLane (MayCountSuspend true) (self.old).bus (self.new).bus) }
    {
        let (set, g) = (self.found.query.set, self.found.geometry);
        if !has_lane(&erase.lanes, g.lanes, LaneState::Running) {
            return Ok(());
        }
        let at = self.erased_unit(erase.target);
        match suspend::<W, B>(set, &mut self.bus, g, at, erase.lanes) {
            Ok(lanes) => {
                self.erase = Some(Erasing { lanes, ..erase });
                Ok(())
            }
            Err(halt) => {
                let cause = cause_of(halt, self.after);
                Err(keep_halt(&mut self.halted, &mut self.erase, cause))
            }
        }
    }

    // Looks at an erase, once, where a lane hasn't ended; lanes that are suspended run on before.
    // Where none runs then, each shows its array.
    pub(crate) fn look(&mut self, erase: Erasing) -> Result<Lanes, Reply>
        requires running { (self.old).halted ≡ None }
        requires open { (self.old).erase ≡ Some erase }
        ensures looks { IfOk result (Looks erase self.old self.new) }
        ensures loses { IfErr result (LosesLook self.old self.new) }
    {
        let at = self.erased_unit(erase.target);
        let (set, g) = (self.found.query.set, self.found.geometry);
        match look_once::<W, B>(set, &mut self.bus, g, at, erase.lanes) {
            Ok(lanes) => Ok(lanes),
            Err(_) => {
                let cause = Halted::Off { after: self.after };
                Err(keep_halt(&mut self.halted, &mut self.erase, cause))
            }
        }
    }

    // Brings the chips to where a call can work beside what is under erase: whether they are there.
    fn clear_way(&mut self, programs: bool) -> Result<bool, Reply>
        requires running { (self.old).halted ≡ None }
        ensures clears { IfOk result (ClearsWay programs self.old self.new) }
        ensures halts { IfErr result (HaltsWay way_most self.old self.new) }
        ensures closed { OnOk result ((self.old).erase ≡ None → self.new ≡ self.old) }
        ensures paused { OnOk result (IsPaused self.old
            → can_beside (suspend_of (self.old).found.query.extended) programs ≡ true
            → self.new ≡ self.old) }
        ensures waits { IfOk result (λ clear. clear ≡ false → is_open (self.old).erase ≡ true) }
        ensures beside { OnErr result (is_open (self.old).erase ≡ true) }
        ensures counts { OnErr result (IsOfBlock (self.old).erase
            → (a : ArrayState) → Stands self.old a → EachLane (MayCountSuspend
            (can_beside (suspend_of (self.old).found.query.extended) programs)) (self.old).bus (self.new).bus) }
    {
        let Some(erase) = self.erase else {
            return Ok(true);
        };
        if can_suspend(self.found.query.suspend_kind(), programs) {
            self.pause(erase)?;
            return Ok(true);
        }
        let lanes = self.look(erase)?;
        self.erase = Some(Erasing { lanes, ..erase });
        Ok(!has_lane(&lanes, self.found.geometry.lanes, LaneState::Running))
    }

    // What a call is answered before its work. Where there is no such answer the chips are ready for it; nothing
    // is done for that where nothing is under erase, or no lane of it runs that could be suspended.
    pub(crate) fn before_work(&mut self, needs: CallNeeds, programs: bool) -> Option<Reply>
        requires programs { programs ≡ needs.unlocked }
        ensures call { IfSome result (λ reply. (caller : ℕ) (op : Op) (given : List ℕ)
            → HasNeeds needs op → (needs.idle ≡ true → given ≡ [])
            → IsCallOf caller op self.old self.new reply given) }
        ensures works { IsNone result → (caller : ℕ) (op : Op) → HasNeeds needs op
            → BeginsWork programs way_most caller op self.old self.new }
        ensures there { IsNone result → reach_refusal (self.new).found needs.reach ≡ None }
        ensures busy { IsNone result → needs.idle ≡ false }
        ensures closed { IsNone result → (self.old).erase ≡ None → self.new ≡ self.old }
        ensures paused { IsNone result → IsPaused self.old
            → can_beside (suspend_of (self.old).found.query.extended) programs ≡ true
            → self.new ≡ self.old }
        ensures done { result ≡ Some DoneReply → (op : Op) → HasNeeds needs op
            → (needs.idle ≡ true) × (self.new ≡ self.old) }
        ensures unfailed { (from to lanes : ℕ) → result ≡ Some (FailedReply from to lanes)
            → (op : Op) → HasNeeds needs op → ⊥ }
    {
        if let Some(reply) = self.refused(needs) {
            return Some(reply);
        }
        if needs.idle {
            return Some(Reply::Done);
        }
        match self.clear_way(programs) {
            Ok(true) => None,
            Ok(false) => Some(Reply::NotYet),
            Err(reply) => Some(reply),
        }
    }

    // The same of a call whose blocks must be unlocked.
    pub(crate) fn before_change(&mut self, needs: CallNeeds) -> Option<Reply>
        requires unlocked { needs.unlocked ≡ true }
        ensures call { IfSome result (λ reply. (caller : ℕ) (op : Op) (given : List ℕ)
            → HasNeeds needs op → (needs.idle ≡ true → given ≡ [])
            → IsCallOf caller op self.old self.new reply given) }
        ensures works { IsNone result → (caller : ℕ) (op : Op) → HasNeeds needs op
            → BeginsChange (change_most self.old op) caller op self.old self.new }
        ensures there { IsNone result → reach_refusal (self.new).found needs.reach ≡ None }
        ensures busy { IsNone result → needs.idle ≡ false }
        ensures done { result ≡ Some DoneReply → (op : Op) → HasNeeds needs op
            → (needs.idle ≡ true) × (self.new ≡ self.old) }
        ensures unfailed { (from to lanes : ℕ) → result ≡ Some (FailedReply from to lanes)
            → (op : Op) → HasNeeds needs op → ⊥ }
    {
        // The bank's invariant says that its blocks are long, and so that the locks are few.
        let _found = &self.found;
        if let Some(reply) = self.before_work(needs, true) {
            return Some(reply);
        }
        match self.lowest_locked(needs.reach) {
            Ok(None) => None,
            Ok(Some(block)) => Some(Reply::Locked { block }),
            Err(reply) => Some(reply),
        }
    }
}
