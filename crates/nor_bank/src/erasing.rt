//! Erases in turns.
ghost use Rattle.std.specs.Prelude.{◌≡◌, ◌<◌, ◌≤◌, ◌^◌, [], ℕ, Some, None};
ghost use Rattle.nor_cell.specs.Chip.{span_end};
ghost use Rattle.nor_array.specs.Array.{IsThere};
ghost use Rattle.nor_array.specs.declared.entry.Op.TheVariants.{EraseOpen, EraseAll, Poll};
ghost use Rattle.nor_array.specs.declared.entry.Reply.TheVariants.{Opened as OpenedReply};
ghost use Rattle.nor_poll.specs.UnderErase.{state_at};
ghost use Rattle.nor_poll.specs.declared.lanes.LaneState.TheVariants.{Running as RunningState};
ghost use Rattle.nor_bank.specs.Erases.{AreTorn, EndsWith, Opens, erased_span as span_in, is_torn as is_torn_in};
ghost use Rattle.nor_bank.specs.State.{blocks_of, erase_limit as limit_in};
ghost use Rattle.nor_bank.specs.Whole.{IsCallOf};

use crate::halts::keep_halt;
use crate::way::first_in;
use crate::{Bank, Erasing};
use nor_array::{Halted, Reply, Target, erase_all_call, erase_call};
use nor_bus::Bus;
use nor_cell::{Span, Work};
use nor_poll::{LaneState, Lanes, erase_all_start, erase_start};
use nor_word::BusWord;

// Every lane of so many runs.
fn all_run(count: u8) -> Lanes
    requires { count ≤ 4 }
    ensures { (c : ℕ) → c < count → state_at result c ≡ RunningState }
{
    let mut lanes = [LaneState::Finished; 4];
    for lane in 0..count {
        lanes[lane as usize] = LaneState::Running;
    }
    Lanes { lanes }
}

// Whether a lane's erase broke off.
fn is_torn(lanes: &Lanes, lane: u8) -> bool
    requires { lane < 4 }
    ensures { result ≡ is_torn_in (state_at lanes.now lane) }
{
    match lanes.lanes[lane as usize] {
        LaneState::Broken => true,
        LaneState::Running | LaneState::Suspended | LaneState::Finished => false,
    }
}

// The lanes that broke off, as bits.
fn broken_bits(lanes: &Lanes, count: u8) -> u8
    requires { count ≤ 4 }
    ensures { AreTorn count lanes.now result }
{
    let mut bits = 0;
    for lane in 0..count {
        if is_torn(lanes, lane) {
            bits += 1 << lane;
        }
    }
    bits
}

impl<W: BusWord, B: Bus<W>> Bank<W, B> {
    // An erase is under way from now on.
    fn open(&mut self, target: Target, caller: u8) -> Reply
        requires running { (self.old).halted ≡ None }
        requires there { IsThere target (blocks_of (self.old).found) }
        ensures reply { result ≡ OpenedReply }
        ensures opens { Opens target caller self.old self.new }
    {
        self.erase = Some(Erasing {
            target,
            caller,
            polls: 0,
            lanes: all_run(self.found.geometry.lanes),
        });
        Reply::Opened
    }

    /// Begins to erase a block, for this caller, who ends it by polls.
    ///
    /// - `Opened`: it is under erase in every lane.
    /// - `OutOfRange`: the bank has no such block.
    /// - `Busy`: it is under erase. `Occupied`: another block is.
    /// - `Locked`: it is locked.
    /// - `Halted`: an earlier call halted, or a cycle failed.
    pub fn erase_open(&mut self, caller: u8, block: u32) -> Reply
        ensures call { IsCallOf caller (EraseOpen block) self.old self.new result [] }
    {
        if let Some(reply) = self.before_change(erase_call(block)) {
            return reply;
        }
        let at = self.unit_of(block);
        let (set, g) = (self.found.query.set, self.found.geometry);
        match erase_start::<W, B>(set, &mut self.bus, g, at) {
            Ok(_) => self.open(Target::OneBlock { block }, caller),
            Err(_) => {
                let cause = Halted::Off { after: self.after };
                keep_halt(&mut self.halted, &mut self.erase, cause)
            }
        }
    }

    /// Begins to erase all blocks at once, for this caller, who ends it by polls. It is never suspended.
    ///
    /// - `Opened`: every lane erases all of its blocks.
    /// - `Occupied`: an erase is under way; its lowest block is named.
    /// - `NoChipErase`: the bank doesn't offer it. Those of set 0001 don't.
    /// - `Locked`: this block, the lowest such, is locked.
    /// - `Halted`: an earlier call halted, or a cycle failed.
    pub fn erase_all(&mut self, caller: u8) -> Reply
        ensures call { IsCallOf caller EraseAll self.old self.new result [] }
    {
        if let Some(reply) = self.before_change(erase_all_call()) {
            return reply;
        }
        match erase_all_start::<W, B>(&mut self.bus, self.found.geometry) {
            Ok(_) => self.open(Target::AllBlocks, caller),
            Err(_) => {
                let cause = Halted::Off { after: self.after };
                keep_halt(&mut self.halted, &mut self.erase, cause)
            }
        }
    }

    // How often a lane may be read working.
    fn erase_limit(&self, target: Target) -> u32
        ensures { result ≡ limit_in (self.now).found target }
    {
        match target {
            Target::OneBlock { .. } => self.found.query.limit(Work::Block),
            Target::AllBlocks => self.found.query.limit(Work::Chip),
        }
    }

    // What is under erase.
    fn erased_span(&self, target: Target) -> Span
        requires { IsThere target (blocks_of (self.now).found) }
        ensures span { result ≡ span_in (self.now).found target }
        ensures ends { span_end result < 2 ^ 32 }
    {
        let size = self.size();
        match target {
            Target::OneBlock { block } => self.found.map.span(block),
            Target::AllBlocks => Span { from: 0, len: size },
        }
    }

    // All lanes have ended.
    fn close(&mut self, target: Target, lanes: &Lanes) -> Reply
        requires { IsThere target (blocks_of (self.old).found) }
        ensures kept { self.new ≡ record self.old { erase = None } }
        ensures ends { EndsWith (self.old).found target lanes.now result }
    {
        self.erase = None;
        let span = self.erased_span(target);
        match broken_bits(lanes, self.found.geometry.lanes) {
            0 => Reply::Erased,
            lanes => Reply::Failed {
                from: span.from,
                to: span.from + span.len,
                lanes,
            },
        }
    }

    // A look at the caller's own erase.
    fn poll_own(&mut self, erase: Erasing) -> Reply
        requires running { (self.old).halted ≡ None }
        requires open { (self.old).erase ≡ Some erase }
        ensures call { IsCallOf erase.caller Poll self.old self.new result [] }
    {
        let lanes = match self.look(erase) {
            Ok(lanes) => lanes,
            Err(reply) => return reply,
        };
        let count = self.found.geometry.lanes;
        let limit = self.erase_limit(erase.target);
        let polls = erase.polls + 1;
        match first_in(&lanes, count, LaneState::Running) {
            None => self.close(erase.target, &lanes),
            Some(_) if polls < limit => {
                self.erase = Some(Erasing {
                    polls,
                    lanes,
                    ..erase
                });
                Reply::NotYet
            }
            Some(lane) => self.halt(Halted::Stuck { lane }),
        }
    }

    /// Looks at the caller's erase, once. Lanes that were suspended run on before.
    ///
    /// - `NotYet`: a lane works. It comes fewer times than the limit of the bank's table for such an erase.
    /// - `Erased`: every byte of what was under erase is 0xFF. Nothing is under erase any more.
    /// - `Failed`: all lanes have ended, and these broke off: they have weak places in what was under erase,
    ///   which is the range that is named. Of the other lanes each byte is 0xFF there. Nothing is under erase
    ///   any more.
    /// - `Nothing`: this caller has no erase under way.
    /// - `Halted`: an earlier call halted; or a cycle failed, or at the last poll a lane that never ends its
    ///   work was read working.
    ///
    /// It makes no cycle where all lanes are known to have ended.
    pub fn poll(&mut self, caller: u8) -> Reply
        ensures call { IsCallOf caller Poll self.old self.new result [] }
    {
        if let Some(reply) = self.refuse(None) {
            return reply;
        }
        match self.erase {
            Some(erase) if erase.caller == caller => self.poll_own(erase),
            _ => Reply::Nothing,
        }
    }
}
