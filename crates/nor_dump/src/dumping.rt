//! What is taken out of a bank's file.
ghost use Rattle.std.specs.Prelude.{◌≡◌, ◌<◌, ◌≤◌, ◌*◌, ◌^◌, ℕ, List, IfOk, IfErr};
ghost use Rattle.nor_bus.specs.Bus.{IsBank, bank_byte, bank_bytes, bank_size, chip_at, lanes_of};
ghost use Rattle.nor_cell.specs.declared.device.Device.{Device};
ghost use Rattle.nor_image.specs.Image.{IsImageOf, IsCause, device_of};
ghost use Rattle.nor_image.specs.Loaded.{bus_of, loaded_width};
ghost use Rattle.nor_dump.specs.Dump.{IsDumpOf, IsTableOf, table_at};

use nor_bus::{Bus, SimBank};
use nor_cell::{Chip, Geometry, NoMemory};
use nor_image::{ImageError, Loaded, read_image, with_bank};
use nor_lane::split;
use nor_word::BusWord;
use std::alloc::Global;

// How its chips lie on the bus.
fn geometry_of<W: BusWord, C: Chip + Drop>(bank: &SimBank<W, C>) -> Geometry
    ensures lanes { result.lanes ≡ lanes_of bank.now }
    ensures bank { IsBank W.WIDTH result.device bank.now.lanes }
{
    // Every bus says that its chips fill its word.
    let _ = bank.units();
    Geometry {
        lanes: bank.chips().len() as u8,
        device: bank.chip(0).cells().device,
    }
}

// How many bytes it has.
fn size_of<W: BusWord, C: Chip + Drop>(bank: &SimBank<W, C>) -> u32
    ensures value { result ≡ bank_size bank.now.lanes }
    ensures few { result ≤ 2 ^ 27 * lanes_of bank.now }
{
    // Every bus says that its chips fill its word.
    let _ = bank.units();
    let size = bank.chip(0).cells().bytes.len() as u32;
    bank.chips().len() as u32 * size
}

// One of its bytes.
fn byte_at<W: BusWord, C: Chip + Drop>(bank: &SimBank<W, C>, g: Geometry, at: u32) -> u8
    requires lanes { g.lanes ≡ lanes_of bank.now }
    requires bank { IsBank W.WIDTH g.device bank.now.lanes }
    requires within { at < bank_size bank.now.lanes }
    requires few { at < 2 ^ 27 * g.lanes }
    ensures { result ≡ bank_byte g.device bank.now.lanes at }
{
    let (lane, place) = split(g, at);
    bank.chip(lane).cells().bytes[place as usize]
}

// Its bytes in the order of their addresses.
fn bank_bytes<W: BusWord, C: Chip + Drop>(
    alloc: Global,
    bank: &SimBank<W, C>,
) -> Result<Vec<u8>, NoMemory>
    ensures { IfOk result (λ raw. (device : Device) → IsBank W.WIDTH device bank.now.lanes
        → raw.items ≡ bank_bytes device bank.now.lanes 0 (bank_size bank.now.lanes)) }
{
    let g = geometry_of(bank);
    let size = size_of(bank);
    let mut raw = Vec::with_capacity(alloc, size as usize)?;
    for at in 0..size {
        raw.push(byte_at(bank, g, at))?;
    }
    Ok(raw)
}

fn loaded_bytes(alloc: Global, loaded: &Loaded) -> Result<Vec<u8>, NoMemory>
    ensures { IfOk result (λ raw. (device : Device)
        → IsBank (loaded_width loaded.now) device (bus_of loaded.now).lanes
        → raw.items ≡ bank_bytes device (bus_of loaded.now).lanes 0 (bank_size (bus_of loaded.now).lanes)) }
{
    with_bank!(loaded, bank => bank_bytes(alloc, bank))
}

/// The bank of a file, which is given up.
pub fn loaded_of(alloc: Global, file: Vec<u8>) -> Result<Loaded, ImageError>
    ensures image { IfOk result (λ loaded.
        IsImageOf file.items (loaded_width loaded) (bus_of loaded).lanes) }
    ensures wired { IfOk result (λ loaded.
        IsBank (loaded_width loaded) (device_of file.items) (bus_of loaded).lanes) }
    ensures refused { IfErr result (IsCause file.items) }
{
    read_image(alloc, &file)
}

/// The bytes of the bank that a file stands for, in the order of their addresses. The file is given up
/// before they are taken. The error is that of [`read_image`].
pub fn dump(alloc: Global, file: Vec<u8>) -> Result<Vec<u8>, ImageError>
    ensures bytes { IfOk result (λ raw. IsDumpOf file.items raw.items) }
    ensures only { IfOk result (λ raw. (other : List ℕ) → IsDumpOf file.items other → other ≡ raw.items) }
    ensures refused { IfErr result (IsCause file.items) }
{
    let loaded = loaded_of(alloc, file)?;
    Ok(loaded_bytes(alloc, &loaded)?)
}

fn bank_table<W: BusWord, C: Chip + Drop>(bank: &SimBank<W, C>, lane: u8) -> Option<[u8; 512]>
    ensures { result ≡ table_at bank.now.lanes lane }
{
    if usize::from(lane) < bank.chips().len() {
        Some(bank.chip(lane).cells().table)
    } else {
        None
    }
}

/// The query table of a lane of the bank that a file stands for; `None` where the bank hasn't got the lane.
/// The error is that of [`read_image`].
pub fn lane_table(alloc: Global, file: Vec<u8>, lane: u8) -> Result<Option<[u8; 512]>, ImageError>
    ensures table { IfOk result (IsTableOf file.items lane) }
    ensures refused { IfErr result (IsCause file.items) }
{
    let loaded = loaded_of(alloc, file)?;
    Ok(with_bank!(&loaded, bank => bank_table(bank, lane)))
}
