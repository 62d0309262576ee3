//! What any call is refused with, in its order.
ghost use Rattle.std.specs.Prelude.{◌≡◌, ◌<◌, ◌≤◌, ◌-◌, ◌&&◌, nat_le, nat_lt, ℕ, List, length, None, IfSome};
ghost use Rattle.nor_array.specs.Refusals.{touches};
ghost use Rattle.nor_array.specs.declared.entry.Op.{Op};
ghost use Rattle.nor_bank.specs.Locks.{blocks_met};
ghost use Rattle.nor_bank.specs.Refused.{bank_refusal, not_offered, outline};
ghost use Rattle.nor_bank.specs.State.{blocks_of};
ghost use Rattle.nor_bank.specs.Stands.{under_of};
ghost use Rattle.nor_bank.specs.Way.{HasNeeds};
ghost use Rattle.nor_bank.specs.Whole.{IsCallOf};
ghost use Rattle.nor_bank.specs.Work.{reach_refusal};

use crate::{Bank, Erasing};
use nor_array::{CallNeeds, OpenErase, Reach, Reply, while_open};
use nor_bus::Bus;
use nor_word::BusWord;

impl<W: BusWord, B: Bus<W>> Bank<W, B> {
    // The blocks that are touched: from the first up to the one behind the last.
    pub(crate) fn touched(&self, reach: Reach) -> (u32, u32)
        requires { reach_refusal (self.now).found reach ≡ None }
        ensures there { result.1 ≤ length (blocks_of (self.now).found) }
        ensures touches { (k : ℕ) → k < length (blocks_of (self.now).found)
            → touches (outline self.now) reach k ≡ (nat_le result.0 k && nat_lt k result.1) }
        ensures count { result.1 - result.0 ≡ blocks_met (self.now).found reach }
    {
        let (size, blocks) = (self.size(), self.found.map.blocks());
        match reach {
            Reach::Nowhere | Reach::Range { len: 0, .. } => (0, 0),
            Reach::Range { at, len } => {
                let end = u64::from(at) + len as u64;
                prove!(end <= u64::from(size));
                let last = self.found.map.block_of((end - 1) as u32);
                (self.found.map.block_of(at), last + 1)
            }
            Reach::Block { block } => (block, block + 1),
            Reach::Everywhere => (0, blocks),
        }
    }

    // A range or a block that the bank doesn't have, or a range that is longer than a call may be.
    fn reach_refusal(&self, reach: Reach) -> Option<Reply>
        ensures { result ≡ reach_refusal (self.now).found reach }
    {
        match reach {
            Reach::Range { at, len } => self.range_refusal(at, len as u64),
            Reach::Block { block } if self.found.map.blocks() <= block => Some(Reply::OutOfRange),
            _ => None,
        }
    }

    // What is under erase, with its caller.
    fn under(&self) -> Option<OpenErase>
        ensures { result ≡ under_of (self.now).erase }
    {
        let Erasing { target, caller, .. } = self.erase?;
        Some(OpenErase { target, caller })
    }

    // What the bank doesn't offer.
    fn not_offered(&self, needs: CallNeeds) -> Option<Reply>
        ensures { result ≡ not_offered (self.now).found needs }
    {
        if needs.locks && !self.found.query.has_locks() {
            Some(Reply::NoLocks)
        } else if needs.chip_erase && !self.found.query.has_chip_erase() {
            Some(Reply::NoChipErase)
        } else {
            None
        }
    }

    // The first refusal of a call that touches blocks. After a loss of power a cycle is tried.
    pub(crate) fn refused(&mut self, needs: CallNeeds) -> Option<Reply>
        ensures reply { (caller : ℕ) (op : Op) → HasNeeds needs op
            → result ≡ bank_refusal self.old caller op }
        ensures call { IfSome result (λ reply. (caller : ℕ) (op : Op) (given : List ℕ)
            → HasNeeds needs op → IsCallOf caller op self.old self.new reply given) }
        ensures same { result ≡ None → self.new ≡ self.old }
        ensures there { result ≡ None → reach_refusal (self.old).found needs.reach ≡ None }
        ensures running { result ≡ None → (self.old).halted ≡ None }
    {
        let refusal = self.reach_refusal(needs.reach);
        if let Some(reply) = self.refuse(refusal) {
            return Some(reply);
        }
        if let Some(reply) = while_open(&self.found.map, self.under(), needs) {
            return Some(reply);
        }
        self.not_offered(needs)
    }
}
