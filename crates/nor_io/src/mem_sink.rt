ghost use Rattle.std.specs.Prelude.{◌≡◌, ◌≤◌, ◌↔◌, [], IfOk, IsErrOf};
ghost use Rattle.nor_io.specs.Puts.{PutsText};
ghost use Rattle.nor_io.specs.Calls.{IsFresh, IsDue, CountsCall};
ghost use Rattle.nor_io.specs.Memory.{bytes_of, sink_calls, sink_state};

use crate::calls::Calls;
use crate::{NoMemory, Sink, SinkError};
use std::alloc::Global;

/// A sink in memory. It tells the bytes that it has taken, and fails at the calls that it is told
/// to.
#[derive(Drop)]
pub struct MemSink {
    bytes: Vec<u8>,
    calls: Calls,
}

impl MemSink {
    /// A sink that has taken nothing. Its calls of `put` are counted from 0, and those whose numbers
    /// stand in `fail` fail with a fault and take nothing.
    pub fn new(alloc: Global, fail: &[u32]) -> Result<MemSink, NoMemory>
        ensures empty { IfOk result (λ s. bytes_of s ≡ []) }
        ensures fresh { IfOk result (λ s. IsFresh (sink_calls s) fail.now) }
    {
        Ok(MemSink {
            bytes: Vec::new(alloc),
            calls: Calls::new(alloc, fail)?,
        })
    }

    /// The bytes taken so far.
    pub fn taken(&self) -> &[u8]
        ensures { result.now ≡ bytes_of self.now }
    {
        &self.bytes
    }
}

impl Sink for MemSink {
    ghost state = { sink_state };

    fn faults(&self) -> u64 {
        self.calls.faults()
    }

    /// The trait's contract. Moreover `Fault` comes exactly at the calls that are to fail.
    fn put(&mut self, bytes: &[u8]) -> Result<(), SinkError>
        ensures puts { PutsText bytes.now (sink_state self.old) (sink_state self.new) result }
        ensures same { IsErrOf result SinkError.NoMemory
            → (sink_state self.new).taken ≡ (sink_state self.old).taken }
        ensures later { (sink_state self.old).faults ≤ (sink_state self.new).faults }
        ensures due { IsErrOf result SinkError.Fault ↔ IsDue (sink_calls self.old) }
        ensures counted { CountsCall (sink_calls self.old) (sink_calls self.new) }
    {
        if self.calls.fails() {
            return Err(SinkError::Fault);
        }
        self.bytes.extend_from_slice(bytes)?;
        Ok(())
    }
}
