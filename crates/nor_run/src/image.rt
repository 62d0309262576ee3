//! A script on the bank of a file.
ghost use Rattle.std.specs.Prelude.{◌≡◌, ◌≤◌, true, false, IsErr, IfOk};
ghost use Rattle.nor_bus.specs.Cycles.{KeepsLanes};
ghost use Rattle.nor_bus.specs.Driven.{AllLanes};
ghost use Rattle.nor_image.specs.Loaded.{bus_of, loaded_width};
ghost use Rattle.nor_script.specs.Script.{IsScript};
ghost use Rattle.nor_run.specs.Causes.{MayHalt};
ghost use Rattle.nor_run.specs.Scripts.{IsJustLoaded, IsLoaded, HasRoom, HasLetters, EndsRun, Reports, ReportsImage};

use crate::bank::run_bank;
use crate::{Ran, RunError};
use nor_image::{Loaded, fill_image};
use nor_io::Sink;
use nor_script::Line;

/// A call on a bank of whichever kind, which takes the bank and gives it back beside what it answers.
#[macro_export]
macro_rules! with_each_bank {
    ($loaded:expr, $bank:ident => $call:expr) => {
        match $loaded {
            Loaded::Intel8($bank) => {
                let (bank, ran) = $call;
                (Loaded::Intel8(bank), ran)
            }
            Loaded::Intel16($bank) => {
                let (bank, ran) = $call;
                (Loaded::Intel16(bank), ran)
            }
            Loaded::Intel32($bank) => {
                let (bank, ran) = $call;
                (Loaded::Intel32(bank), ran)
            }
            Loaded::Intel64($bank) => {
                let (bank, ran) = $call;
                (Loaded::Intel64(bank), ran)
            }
            Loaded::Amd8($bank) => {
                let (bank, ran) = $call;
                (Loaded::Amd8(bank), ran)
            }
            Loaded::Amd16($bank) => {
                let (bank, ran) = $call;
                (Loaded::Amd16(bank), ran)
            }
            Loaded::Amd32($bank) => {
                let (bank, ran) = $call;
                (Loaded::Amd32(bank), ran)
            }
            Loaded::Amd64($bank) => {
                let (bank, ran) = $call;
                (Loaded::Amd64(bank), ran)
            }
        }
    };
}

// Runs a script on a bank of whichever kind.
fn run_loaded<K: Sink>(
    loaded: Loaded,
    lines: &[Line],
    out: &mut K,
) -> (Loaded, Result<Ran, RunError>)
    requires script { IsScript lines.now }
    requires loaded { IsJustLoaded (loaded_width loaded) (bus_of loaded) }
    ensures width { loaded_width result.0 ≡ loaded_width loaded }
    ensures ends { EndsRun false (loaded_width loaded) (bus_of loaded).lanes
        (K.state out.old) (K.state out.new) result.1 }
    ensures reports { Reports false (loaded_width loaded) lines.now
        (bus_of loaded) (bus_of result.0) (K.state out.old) (K.state out.new) result.1 }
    ensures lanes { KeepsLanes (bus_of loaded) (bus_of result.0) }
    ensures later { (K.state out.old).faults ≤ (K.state out.new).faults }
{
    with_each_bank!(loaded, bank => run_bank(bank, lines, out))
}

/// Runs a script on the bank that was loaded from a file, and puts the report: the entries of each line
/// as soon as they are made, each lane's counters, and the number of entries. The bytes of the file to save
/// become the version 2 file of the bank as it then is: they must be as many.
///
/// The lines must be those of a script. `Probe` comes exactly where probing refuses the bank, and nothing is
/// put. `Put` comes only from the sink. After an error the bytes are as they were. It takes no memory, and
/// never answers `NoMemory`.
///
/// The report is that of entries that answer the lines, and of the chips' counters, and the file is that of
/// the bank, whose chips stay what they are; after `Put` the sink has taken a first part of the lines of entries
/// that answer the first lines, or of such a report of all. Where the chips' tables begin with `QRY`, the entries
/// are a legal history of the plain array that opens with the bank's bytes and locks. The bank then has the locks
/// of the array after it, and, outside what the script leaves under erase, its bytes; each lane's erases have
/// risen by those that were opened. The bank halts only where a line arms a cut or a chip never ends its work.
pub fn run_image<K: Sink>(
    loaded: Loaded,
    file: &mut [u8],
    lines: &[Line],
    out: &mut K,
) -> Result<Ran, RunError>
    requires script { IsScript lines.now }
    requires loaded { IsLoaded loaded }
    requires room { HasRoom file.old loaded }
    ensures ends { EndsRun false (loaded_width loaded) (bus_of loaded).lanes
        (K.state out.old) (K.state out.new) result }
    ensures reports { ReportsImage false (loaded_width loaded) lines.now (bus_of loaded)
        (K.state out.old) (K.state out.new) file.new result }
    ensures caused { AllLanes HasLetters (bus_of loaded)
        → IfOk result (λ ran. ran.halted ≡ true → MayHalt lines.now (bus_of loaded).lanes) }
    ensures same { IsErr result → file.new ≡ file.old }
    ensures later { (K.state out.old).faults ≤ (K.state out.new).faults }
{
    let (loaded, ran) = run_loaded(loaded, lines, out);
    match ran {
        Ok(ran) => {
            fill_image(&loaded, file);
            Ok(ran)
        }
        Err(error) => Err(error),
    }
}
