//! Files that a command names, and banks that are made of them.
ghost use Rattle.std.specs.Prelude.{◌≡◌, ◌≢◌, ◌≤◌, IfOk, IfErr, Err};
ghost use Rattle.std.specs.Result.{result_err};
ghost use Rattle.nor_bus.specs.Bus.{units_of};
ghost use Rattle.nor_bus.specs.Driven.{AllLanes};
ghost use Rattle.nor_image.specs.Loaded.{bus_of};
ghost use Rattle.nor_probe.specs.Probed.{refusal, IsFoundOn};
ghost use Rattle.nor_probe.specs.declared.error.ProbeError.TheVariants.{Off as LostPower};
ghost use Rattle.nor_run.specs.Scripts.{IsLoaded};
ghost use Rattle.norbank.specs.Open.{IsPowered, IsIdleChip, IsOpen, SameBytes};
ghost use Rattle.norbank.specs.Opened.{IsLoadedAs, FailsLoad, IsBankOf, IsNoBank, IsOpened, FailsOpen};

use crate::stop::{File, Stop};
use nor_bus::Bus;
use nor_image::{Loaded, read_image};
use nor_io::Shelf;
use nor_probe::{Found, ProbeError, probe};
use nor_word::BusWord;
use std::alloc::Global;

/// The bytes of a file that a command names.
pub fn load<H: Shelf>(alloc: Global, file: File, name: &str, shelf: &mut H) -> Result<Vec<u8>, Stop>
    ensures loaded { IfOk result (λ bytes.
        IsLoadedAs (H.state shelf.old).files name.now bytes.items) }
    ensures stops { IfErr result (FailsLoad file name.now (H.state shelf.old) (H.state shelf.new)) }
    ensures same { (H.state shelf.new).files ≡ (H.state shelf.old).files }
    ensures later { (H.state shelf.old).faults ≤ (H.state shelf.new).faults }
{
    match shelf.load(alloc, name) {
        Ok(bytes) => Ok(bytes),
        Err(error) => Err(Stop::of_load(file, error)),
    }
}

/// The bank that a file stands for. Its bytes are given up.
pub fn bank_of(alloc: Global, file: Vec<u8>) -> Result<Loaded, Stop>
    ensures bank { IfOk result (IsBankOf file.items) }
    ensures idle { IfOk result (λ loaded. AllLanes IsIdleChip (bus_of loaded)) }
    ensures loaded { IfOk result IsLoaded }
    ensures stops { IfErr result (IsNoBank file.items) }
{
    let loaded = read_image(alloc, &file)?;
    Ok(loaded)
}

/// The bank that the file under a name stands for.
pub fn open<H: Shelf>(alloc: Global, name: &str, shelf: &mut H) -> Result<Loaded, Stop>
    ensures opened { IfOk result (IsOpened (H.state shelf.old).files name.now) }
    ensures stops { IfErr result (FailsOpen name.now (H.state shelf.old) (H.state shelf.new)) }
    ensures same { (H.state shelf.new).files ≡ (H.state shelf.old).files }
{
    let file = load(alloc, File::Bank, name, shelf)?;
    bank_of(alloc, file)
}

/// What the bank is. Its chips show their arrays afterwards.
pub fn found_on<W: BusWord, B: Bus<W>>(bus: &mut B) -> Result<Found, ProbeError>
    requires powered { IsPowered (B.state bus.old) }
    requires idle { AllLanes IsIdleChip (B.state bus.old) }
    ensures powered { result ≢ Err LostPower }
    ensures refused { result_err result ≡ refusal W.WIDTH (B.state bus.old).lanes }
    ensures found { IfOk result (IsFoundOn W.WIDTH (B.state bus.old).lanes) }
    ensures open { IsOpen (B.state bus.new) }
    ensures bytes { SameBytes (B.state bus.old) (B.state bus.new) }
    ensures units { units_of (B.state bus.new) ≡ units_of (B.state bus.old) }
{
    probe::<W, B>(bus)
}
