//! What was put comes out before the work goes on: an output may hold back.
ghost use Rattle.std.specs.Prelude.{◌≡◌, ◌≢◌, ◌≤◌, ℕ, List, Bool, Ok, IsOk, IfOk};
ghost use Rattle.nor_bus.specs.Bus.{BusState};
ghost use Rattle.nor_cell.specs.Chip.{ChipState};
ghost use Rattle.nor_io.specs.Files.{ShelfState, SinkState};
ghost use Rattle.nor_run.specs.Scripts.{EndsRun, ReportsImage};
ghost use Rattle.nor_script.specs.declared.line.Line.{Line as LineOf};
ghost use Rattle.norbank.specs.AsAsked.{IsScript};
ghost use Rattle.norbank.specs.Does.{Does};
ghost use Rattle.norbank.specs.Endings.{Says, fault_told, lacks_memory};
ghost use Rattle.norbank.specs.Words.{Asked};

use crate::stop::{Done, Stop};
use crate::telling::Status;
use nor_buffer::Output;
use nor_run::{Ran, RunError};

/// What was run, once its report has come out.
pub fn reported<K: Output>(ran: Result<Ran, RunError>, out: &mut K) -> Result<Ran, RunError>
    ensures ends { (race : Bool) (width : ℕ) (chips : List ChipState) (before : SinkState)
        → before.faults ≤ (K.state out.old).faults
        → EndsRun race width chips before (K.state out.old) ran
        → EndsRun race width chips before (K.state out.new) result }
    ensures reports { (race : Bool) (width : ℕ) (lines : List LineOf) (bus : BusState)
        (before : SinkState) (file : List ℕ)
        → ReportsImage race width lines bus before (K.state out.old) file ran
        → ReportsImage race width lines bus before (K.state out.new) file result }
    ensures same { IfOk result (λ now. ran ≡ Ok now) }
    ensures emptied { IsOk result → K.out out.new ≡ (K.state out.new).taken }
    ensures later { (K.state out.old).faults ≤ (K.state out.new).faults }
{
    match ran {
        Ok(ran) => match out.flush() {
            Ok(()) => Ok(ran),
            Err(error) => Err(RunError::Put(error)),
        },
        Err(error) => Err(error),
    }
}

/// What was done of a command that prints, once it has come out.
pub fn printed<K: Output>(ended: Result<Done, Stop>, out: &mut K) -> Result<Done, Stop>
    ensures does { (command : Asked) (was now : ShelfState) (before : SinkState)
        → (IsScript command → ⊥) → before.faults ≤ (K.state out.old).faults
        → Does command was now before (K.state out.old) ended
        → Does command was now before (K.state out.new) result }
    ensures emptied { IsOk result → K.out out.new ≡ (K.state out.new).taken }
    ensures later { (K.state out.old).faults ≤ (K.state out.new).faults }
{
    match ended {
        Ok(done) => match out.flush() {
            Ok(()) => Ok(done),
            Err(error) => Err(Stop::Output(error)),
        },
        Err(stop) => Err(stop),
    }
}

/// The status of a last text, once it has come out.
pub fn said<K: Output>(status: Status, out: &mut K) -> Status
    ensures says { (code : ℕ) (text : List ℕ) (before : SinkState)
        → before.faults ≤ (K.state out.old).faults
        → Says code text before (K.state out.old) status.code
        → Says code text before (K.state out.new) result.code }
    ensures emptied { result.code ≢ fault_told → result.code ≢ lacks_memory
        → K.out out.new ≡ (K.state out.new).taken }
    ensures later { (K.state out.old).faults ≤ (K.state out.new).faults }
{
    match out.flush() {
        Ok(()) => status,
        Err(error) => Status {
            code: Stop::Output(error).status(),
        },
    }
}
