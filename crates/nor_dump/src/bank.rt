//! The file of a bank that is made.
ghost use Rattle.std.specs.Prelude.{◌≡◌, IfOk};
ghost use Rattle.nor_cell.specs.Table.{set_of};
ghost use Rattle.nor_bus.specs.Bus.{IsBank};
ghost use Rattle.nor_image.specs.Loaded.{bus_of, loaded_width};
ghost use Rattle.nor_image.specs.Reading.{chips_of};
ghost use Rattle.nor_dump.specs.Made.{CanMake, IsMade, made_chips};

use crate::Change;
use crate::lanes::lanes_of;
use nor_amd::Amd;
use nor_bus::SimBank;
use nor_cell::{Cells, Device, Geometry, NoMemory, Set, set_of};
use nor_image::{Loaded, write_image};
use nor_intel::Intel;
use std::alloc::Global;

// Chips of set 0001 on the bus of a width.
fn intel_bank(width: u8, device: Device, chips: Vec<Intel>) -> Loaded
    requires { IsBank width device chips.items }
    ensures lanes { (bus_of result).lanes ≡ chips.items }
    ensures width { loaded_width result ≡ width }
{
    match width {
        1 => Loaded::Intel8(SimBank::new(device, chips)),
        2 => Loaded::Intel16(SimBank::new(device, chips)),
        4 => Loaded::Intel32(SimBank::new(device, chips)),
        _ => Loaded::Intel64(SimBank::new(device, chips)),
    }
}

// Chips of set 0002.
fn amd_bank(width: u8, device: Device, chips: Vec<Amd>) -> Loaded
    requires { IsBank width device chips.items }
    ensures lanes { (bus_of result).lanes ≡ chips.items }
    ensures width { loaded_width result ≡ width }
{
    match width {
        1 => Loaded::Amd8(SimBank::new(device, chips)),
        2 => Loaded::Amd16(SimBank::new(device, chips)),
        4 => Loaded::Amd32(SimBank::new(device, chips)),
        _ => Loaded::Amd64(SimBank::new(device, chips)),
    }
}

// The chips of these cells on the bus of a width, as after power-on.
fn power_up(
    alloc: Global,
    width: u8,
    device: Device,
    set: Set,
    lanes: Vec<Cells>,
) -> Result<Loaded, NoMemory>
    requires { IsBank width device (chips_of set lanes.items) }
    ensures lanes { IfOk result (λ loaded. (bus_of loaded).lanes ≡ chips_of set lanes.items) }
    ensures width { IfOk result (λ loaded. loaded_width loaded ≡ width) }
{
    match set {
        Set::Intel => {
            let chips = lanes.into_iter().map(Intel::new).collect(alloc)?;
            Ok(intel_bank(width, device, chips))
        }
        Set::Amd => {
            let chips = lanes.into_iter().map(Amd::new).collect(alloc)?;
            Ok(amd_bank(width, device, chips))
        }
    }
}

// The bank of such chips. The dump is given up.
fn loaded_of(
    alloc: Global,
    width: u8,
    g: Geometry,
    table: &[u8; 512],
    changes: &[Change],
    raw: Vec<u8>,
) -> Result<Loaded, NoMemory>
    requires { CanMake width g table.now changes.now raw.items }
    ensures lanes { IfOk result (λ loaded.
        (bus_of loaded).lanes ≡ made_chips g table.now changes.now raw.items g.lanes) }
    ensures width { IfOk result (λ loaded. loaded_width loaded ≡ width) }
{
    let lanes = lanes_of(alloc, g, table, changes, &raw, width)?;
    power_up(alloc, width, g.device, set_of(table), lanes)
}

/// The file, of version 2, of the bank of a bus of `width` bytes with this geometry, whose chips have the
/// query table and the changes and whose bytes are those of the dump, in the order of their addresses. Its
/// locks are those after power-on, its counters 0. The dump is given up before the file is made.
///
/// A dump of the file is the dump that it was made of.
pub fn make_bank(
    alloc: Global,
    width: u8,
    g: Geometry,
    table: &[u8; 512],
    changes: &[Change],
    raw: Vec<u8>,
) -> Result<Vec<u8>, NoMemory>
    requires { CanMake width g table.now changes.now raw.items }
    ensures { IfOk result (λ file. IsMade width g table.now changes.now raw.items file.items) }
{
    let loaded = loaded_of(alloc, width, g, table, changes, raw)?;
    write_image(alloc, &loaded)
}
