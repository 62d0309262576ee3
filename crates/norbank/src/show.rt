//! `show`: what a bank is.
ghost use Rattle.std.specs.Prelude.{◌≤◌};
ghost use Rattle.nor_bus.specs.Driven.{AllLanes};
ghost use Rattle.nor_image.specs.Loaded.{bus_of, loaded_width};
ghost use Rattle.norbank.specs.Does.{Does};
ghost use Rattle.norbank.specs.Open.{IsPowered, IsIdleChip};
ghost use Rattle.norbank.specs.Opened.{ShowsBank};
ghost use Rattle.norbank.specs.Words.{Show as ShowAsked};

use crate::open::{found_on, open};
use crate::stop::{Done, Stop};
use nor_bus::SimBank;
use nor_cell::Chip;
use nor_image::{Loaded, with_bank};
use nor_io::{Shelf, Sink};
use nor_show::show_text;
use nor_word::BusWord;
use std::alloc::Global;

// Prints what a bank is that probing accepts.
fn show_bank<W: BusWord, C: Chip + Drop, K: Sink>(
    alloc: Global,
    bank: SimBank<W, C>,
    out: &mut K,
) -> Result<Done, Stop>
    requires powered { IsPowered bank }
    requires idle { AllLanes IsIdleChip bank }
    ensures shows { ShowsBank W.WIDTH bank.lanes (K.state out.old) (K.state out.new) result }
    ensures later { (K.state out.old).faults ≤ (K.state out.new).faults }
{
    let mut bank = bank;
    let found = found_on::<W, SimBank<W, C>>(&mut bank)?;
    let text = show_text(alloc, W::WIDTH, found.geometry, &found.query, &found.map)?;
    out.put(text.as_bytes())?;
    Ok(Done::All)
}

fn show_loaded<K: Sink>(alloc: Global, loaded: Loaded, out: &mut K) -> Result<Done, Stop>
    requires powered { IsPowered (bus_of loaded) }
    requires idle { AllLanes IsIdleChip (bus_of loaded) }
    ensures shows { ShowsBank (loaded_width loaded) (bus_of loaded).lanes
        (K.state out.old) (K.state out.new) result }
    ensures later { (K.state out.old).faults ≤ (K.state out.new).faults }
{
    with_bank!(loaded, bank => show_bank(alloc, bank, out))
}

/// Prints what the bank is that the file under a name stands for.
pub fn show<H: Shelf, K: Sink>(
    alloc: Global,
    image: &str,
    shelf: &mut H,
    out: &mut K,
) -> Result<Done, Stop>
    ensures does { Does (ShowAsked image.now) (H.state shelf.old) (H.state shelf.new)
        (K.state out.old) (K.state out.new) result }
    ensures later { (K.state out.old).faults ≤ (K.state out.new).faults }
{
    let loaded = open(alloc, image, shelf)?;
    show_loaded(alloc, loaded, out)
}
