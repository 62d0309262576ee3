//! What takes the entries of a run.
ghost use Rattle.std.specs.Prelude.{ℕ, Result};
ghost use Rattle.nor_array.specs.declared.entry.Entry.{Entry};
ghost use Rattle.nor_run.specs.Taking.{told, Hands, PutsBy};

use nor_array::{Op, Reply};
use nor_io::{Sink, SinkError};
use nor_script::put_entry;

/// Takes the entries of a run, one after the other. A sink takes them as the lines of a report.
pub trait Taker {
    /// Why it takes no more.
    type Stop;

    /// What it makes of an entry at a place of the history: how it stands before and after, and what it
    /// answers.
    ghost takes: { ℕ → Entry → Self → Self → Result (Unit {0}) Self.Stop → Type 0 };

    /// Takes an entry. It is told with its bytes where it is of a read that is done, else without any.
    fn take(
        &mut self,
        position: u64,
        caller: u8,
        op: &Op,
        reply: Reply,
        bytes: &[u8],
    ) -> Result<(), Self::Stop>
        ensures { takes position
            (told (record { caller = caller; op = op.now; reply = reply; bytes = bytes.now }))
            self.old self.new result };
}

impl<K: Sink> Taker for K {
    type Stop = SinkError;

    ghost takes = { PutsBy K.state };

    fn take(
        &mut self,
        position: u64,
        caller: u8,
        op: &Op,
        reply: Reply,
        bytes: &[u8],
    ) -> Result<(), SinkError> {
        put_entry(self, position, caller, op, reply, bytes)
    }
}

/// Hands an entry to a taker, and gives its reply.
pub fn hand_over<T: Taker>(
    taker: &mut T,
    position: u64,
    caller: u8,
    op: &Op,
    reply: Reply,
    bytes: &[u8],
) -> Result<Reply, T::Stop>
    ensures { Hands T.takes position
        (record { caller = caller; op = op.now; reply = reply; bytes = bytes.now })
        taker.old taker.new result }
{
    match taker.take(position, caller, op, reply, bytes) {
        Ok(()) => Ok(reply),
        Err(stop) => Err(stop),
    }
}
