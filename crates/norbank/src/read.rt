//! `read`: bytes of a bank, as hex text.
ghost use Rattle.std.specs.Prelude.{◌≡◌, ◌≤◌, ◌*◌};
ghost use Rattle.nor_cell.specs.declared.device.Device.{Device};
ghost use Rattle.nor_bus.specs.Bus.{IsBank, IsWired, units_of};
ghost use Rattle.nor_bus.specs.Driven.{AllLanes};
ghost use Rattle.nor_image.specs.Loaded.{bus_of, loaded_width};
ghost use Rattle.norbank.specs.Does.{Does};
ghost use Rattle.norbank.specs.Open.{IsPowered, IsIdleChip};
ghost use Rattle.norbank.specs.Opened.{ReadsBank};
ghost use Rattle.norbank.specs.Words.{Read as ReadAsked};

use crate::open::{found_on, open};
use crate::printing::print_bytes;
use crate::stop::{Done, Stop};
use nor_bus::{Bus, SimBank};
use nor_cell::Chip;
use nor_image::{Loaded, with_bank};
use nor_io::{Shelf, Sink};
use nor_word::BusWord;
use std::alloc::Global;

// How many bytes the bank has.
fn size_of<W: BusWord, B: Bus<W>>(bus: &B) -> u64
    ensures value { result ≡ units_of (B.state bus.now) * W.WIDTH }
    ensures wired { IsWired W.WIDTH (B.state bus.now) }
{
    u64::from(bus.units()) * u64::from(W::WIDTH)
}

// Prints bytes of a bank that probing accepts.
fn read_bus<W: BusWord, B: Bus<W>, K: Sink>(
    bus: &mut B,
    at: u32,
    len: u32,
    out: &mut K,
) -> Result<Done, Stop>
    requires powered { IsPowered (B.state bus.old) }
    requires idle { AllLanes IsIdleChip (B.state bus.old) }
    ensures reads { (device : Device) → IsBank W.WIDTH device (B.state bus.old).lanes
        → ReadsBank W.WIDTH device (B.state bus.old).lanes at len
        (K.state out.old) (K.state out.new) result }
    ensures later { (K.state out.old).faults ≤ (K.state out.new).faults }
{
    found_on::<W, B>(bus)?;
    if u64::from(at) + u64::from(len) > size_of::<W, B>(bus) {
        return Err(Stop::OutOfRange);
    }
    print_bytes::<W, B, K>(bus, at, len, out)?;
    Ok(Done::All)
}

fn read_bank<W: BusWord, C: Chip + Drop, K: Sink>(
    bank: SimBank<W, C>,
    at: u32,
    len: u32,
    out: &mut K,
) -> Result<Done, Stop>
    requires powered { IsPowered bank }
    requires idle { AllLanes IsIdleChip bank }
    ensures reads { (device : Device) → IsBank W.WIDTH device bank.lanes
        → ReadsBank W.WIDTH device bank.lanes at len (K.state out.old) (K.state out.new) result }
    ensures later { (K.state out.old).faults ≤ (K.state out.new).faults }
{
    let mut bank = bank;
    read_bus::<W, SimBank<W, C>, K>(&mut bank, at, len, out)
}

fn read_loaded<K: Sink>(loaded: Loaded, at: u32, len: u32, out: &mut K) -> Result<Done, Stop>
    requires powered { IsPowered (bus_of loaded) }
    requires idle { AllLanes IsIdleChip (bus_of loaded) }
    ensures reads { (device : Device) → IsBank (loaded_width loaded) device (bus_of loaded).lanes
        → ReadsBank (loaded_width loaded) device (bus_of loaded).lanes at len
        (K.state out.old) (K.state out.new) result }
    ensures later { (K.state out.old).faults ≤ (K.state out.new).faults }
{
    with_bank!(loaded, bank => read_bank(bank, at, len, out))
}

/// Prints bytes of the bank that the file under a name stands for.
pub fn read<H: Shelf, K: Sink>(
    alloc: Global,
    image: &str,
    at: u32,
    len: u32,
    shelf: &mut H,
    out: &mut K,
) -> Result<Done, Stop>
    ensures does { Does (ReadAsked image.now at len) (H.state shelf.old) (H.state shelf.new)
        (K.state out.old) (K.state out.new) result }
    ensures later { (K.state out.old).faults ≤ (K.state out.new).faults }
{
    let loaded = open(alloc, image, shelf)?;
    read_loaded(loaded, at, len, out)
}
