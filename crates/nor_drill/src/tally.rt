//! How often each answer came.
ghost use Rattle.std.specs.Prelude.{◌≡◌, ◌<◌, ◌≤◌, length, slice_index};
ghost use Rattle.nor_drill.specs.Summary.{place_of, no_counts, Counts};

use nor_array::{Halted, Op, Reply};
use nor_run::Taker;
use std::convert::Infallible;
use std::marker::Model;

/// How many words a summary has.
pub const WORDS: usize = 17;

/// How many entries count under each word of a summary, in its order.
#[derive(Debug, Drop)]
pub struct Tally {
    counts: [u64; WORDS],
}

impl Model for Tally {
    ghost use Rattle.std.specs.Prelude.{◌≡◌, List, ℕ, length};

    ghost Value = { List ℕ };

    ghost view = { λ tally. tally.counts };

    ghost invariant = { λ tally. length tally.counts ≡ 17 };
}

// The place of the word under which an answer counts, or the number of words where it has none.
fn place_of(op: &Op, reply: Reply) -> usize
    ensures place { result ≡ place_of op.now reply }
    ensures few { result ≤ 17 }
{
    match reply {
        Reply::Done if matches!(op, Op::Read { .. }) => 1,
        Reply::Done => 0,
        Reply::Opened => 2,
        Reply::Erased => 3,
        Reply::Bit(true) => 4,
        Reply::Bit(false) => 5,
        Reply::OutOfRange => 6,
        Reply::TooLong => 7,
        Reply::Busy { .. } => 8,
        Reply::Occupied { .. } => 9,
        Reply::Locked { .. } => 10,
        Reply::NoLocks => 11,
        Reply::Nothing => 12,
        Reply::NotYet => 13,
        Reply::Failed { .. } => 14,
        Reply::Halted(Halted::Off { .. }) => 15,
        Reply::Halted(Halted::Stuck { .. }) => 16,
        Reply::NoChipErase => WORDS,
    }
}

impl Tally {
    /// Nothing is counted yet.
    pub fn new() -> Tally
        ensures { result ≡ no_counts }
    {
        Tally { counts: [0; WORDS] }
    }

    /// How many entries count under the word in a place.
    pub fn count(&self, place: usize) -> u64
        requires { place < 17 }
        ensures count { result ≡ slice_index self.now place }
        ensures all { length self.now ≡ 17 }
    {
        self.counts[place]
    }
}

impl Taker for Tally {
    type Stop = Infallible;

    ghost takes = { Counts };

    fn take(
        &mut self,
        _position: u64,
        _caller: u8,
        op: &Op,
        reply: Reply,
        _bytes: &[u8],
    ) -> Result<(), Infallible> {
        let place = place_of(op, reply);
        if place < WORDS {
            self.counts[place] = self.counts[place].saturating_add(1);
        }
        Ok(())
    }
}
