ghost use Rattle.std.specs.Prelude.{◌≡◌, ◌≤◌, ◌+◌, ◌-◌, ◌^◌, ◌↔◌, min, if◌then◌else◌, IfOk, IsTrue};

use crate::NoMemory;
use std::alloc::Global;

/// The calls of an object in memory, counted from 0, and the numbers of those that fail.
#[derive(Drop)]
pub struct Calls {
    fail: Vec<u32>,
    made: u64,
    faults: u64,
}

impl Calls {
    ghost use Rattle.nor_io.specs.Calls.{IsFresh, IsDue, CountsCall};

    /// No call yet, where those with the numbers in `fail` will fail.
    pub fn new(alloc: Global, fail: &[u32]) -> Result<Calls, NoMemory>
        ensures { IfOk result (λ calls. IsFresh calls fail.now) }
    {
        Ok(Calls {
            fail: fail.to_vec(alloc)?,
            made: 0,
            faults: 0,
        })
    }

    /// How many calls have failed.
    pub fn faults(&self) -> u64
        ensures { result ≡ self.now.faults }
    {
        self.faults
    }

    /// Counts one more call, and says whether it fails. One that does is counted as a fault.
    pub fn fails(&mut self) -> bool
        ensures due { IsTrue result ↔ IsDue self.old }
        ensures counted { CountsCall self.old self.new }
        ensures later { self.old.faults ≤ self.new.faults }
        ensures faults { self.new.faults
            ≡ (if result then min (self.old.faults + 1) (2 ^ 64 - 1) else self.old.faults) }
    {
        let call = self.made;
        self.made = call.saturating_add(1);
        let fails = self.fail.iter().any(|n| u64::from(*n) == call);
        if fails {
            self.faults = self.faults.saturating_add(1);
        }
        fails
    }
}
