//! A script that is raced for the bank of a file.
ghost use Rattle.std.specs.Prelude.{◌≡◌, ◌≤◌, true, IsErr, IfOk};
ghost use Rattle.nor_bus.specs.Cycles.{KeepsLanes};
ghost use Rattle.nor_bus.specs.Driven.{AllLanes};
ghost use Rattle.nor_image.specs.Loaded.{bus_of, loaded_width};
ghost use Rattle.nor_run.specs.Causes.{MayHalt};
ghost use Rattle.nor_run.specs.Scripts.{IsJustLoaded, IsLoaded, HasRoom, HasLetters, EndsRun, Reports, ReportsImage};
ghost use Rattle.nor_script.specs.Racing.{IsRaceScript};

use crate::gate::Gate;
use crate::report::race_bank;
use nor_image::{Loaded, fill_image};
use nor_io::Sink;
use nor_run::{Ran, RunError, with_each_bank};
use nor_script::Script;
use std::alloc::Global;
use std::sync::Wait;
use std::thread::Threads;

// Races a script for a bank of whichever kind.
fn race_loaded<R: Threads + Wait + Sync, G: Gate + Sync, K: Sink>(
    rt: &R,
    alloc: Global,
    loaded: Loaded,
    script: &Script,
    gate: &G,
    out: &mut K,
) -> (Loaded, Result<Ran, RunError>)
    requires script { IsRaceScript script.now }
    requires loaded { IsJustLoaded (loaded_width loaded) (bus_of loaded) }
    ensures width { loaded_width result.0 ≡ loaded_width loaded }
    ensures ends { EndsRun true (loaded_width loaded) (bus_of loaded).lanes
        (K.state out.old) (K.state out.new) result.1 }
    ensures reports { Reports true (loaded_width loaded) script.now
        (bus_of loaded) (bus_of result.0) (K.state out.old) (K.state out.new) result.1 }
    ensures lanes { KeepsLanes (bus_of loaded) (bus_of result.0) }
    ensures later { (K.state out.old).faults ≤ (K.state out.new).faults }
{
    with_each_bank!(loaded, bank => race_bank(rt, alloc, bank, script, gate, out))
}

/// Races a script for the bank that was loaded from a file: the lines of each caller run in their order, in
/// a thread of their own. When all have ended, puts the report: the entries in the order of the history,
/// each lane's counters, and the number of entries. The bytes of the file to save become the
/// version 2 file of the bank as it then is: they must be as many.
///
/// Each line must be built, and the script one that was parsed. The errors are those of
/// [`nor_run::run_image`], and `NoMemory`, which comes before the first line is run and puts nothing. After an
/// error the bytes are as they were.
///
/// Whatever the schedule of the threads, the report is that of entries which have each caller's lines once, in
/// that caller's order, and the file is that of the bank, whose chips stay what they are; after `Put` the sink
/// has taken a first part of such a report. Where the chips' tables begin with `QRY`, the entries are one legal
/// history of the plain array that opens with the bank's bytes and locks, and the file stands for a bank that
/// is as before, but for its cells, which are the array's bytes after it; the bank halts only where a line arms
/// a cut or a chip never ends its work.
pub fn race_image<R: Threads + Wait + Sync, G: Gate + Sync, K: Sink>(
    rt: &R,
    alloc: Global,
    loaded: Loaded,
    file: &mut [u8],
    script: &Script,
    gate: &G,
    out: &mut K,
) -> Result<Ran, RunError>
    requires script { IsRaceScript script.now }
    requires loaded { IsLoaded loaded }
    requires room { HasRoom file.old loaded }
    ensures ends { EndsRun true (loaded_width loaded) (bus_of loaded).lanes
        (K.state out.old) (K.state out.new) result }
    ensures reports { ReportsImage true (loaded_width loaded) script.now (bus_of loaded)
        (K.state out.old) (K.state out.new) file.new result }
    ensures caused { AllLanes HasLetters (bus_of loaded)
        → IfOk result (λ ran. ran.halted ≡ true → MayHalt script.now (bus_of loaded).lanes) }
    ensures same { IsErr result → file.new ≡ file.old }
    ensures later { (K.state out.old).faults ≤ (K.state out.new).faults }
{
    let (loaded, ran) = race_loaded(rt, alloc, loaded, script, gate, out);
    match ran {
        Ok(ran) => {
            fill_image(&loaded, file);
            Ok(ran)
        }
        Err(error) => Err(error),
    }
}
