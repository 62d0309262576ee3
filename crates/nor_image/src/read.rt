ghost use Rattle.std.specs.Prelude.{◌≡◌, ◌<◌, ◌≤◌, ℕ, IfOk, IfErr, None};
ghost use Rattle.nor_cell.specs.Bits.{AreBytes};
ghost use Rattle.nor_bus.specs.Bus.{IsBank, lane as lane_of_bus, lanes_of};
ghost use Rattle.nor_image.specs.Image.{header_fields, first_refusal, image_refusal, version_of};
ghost use Rattle.nor_image.specs.Image.{device_of, lanes_of_file, IsImageOf, IsCause};
ghost use Rattle.nor_image.specs.Loaded.{bus_of, loaded_width, IsFreshBus};
ghost use Rattle.nor_image.specs.Reading.{MayRead, AreLanes, chips_of};
ghost use Rattle.nor_image.specs.Written.{file_in, AreStorable, AgreeOnLocks};

use crate::header::{Header, read_header};
use crate::record::{FIRST_RECORD, machine_of, read_record, record_len};
use crate::{ImageError, Loaded};
use nor_amd::Amd;
use nor_bus::SimBank;
use nor_cell::{Cells, Device, NoMemory, Set, set_of};
use nor_intel::Intel;
use std::alloc::Global;

// The records of all lanes, behind which the file ends.
fn read_lanes(alloc: Global, file: &[u8], header: Header) -> Result<Vec<Cells>, ImageError>
    requires header { first_refusal file.now (header_fields file.now) ≡ None }
    requires version { header.version ≡ version_of file.now }
    requires lanes { header.geometry.lanes ≡ lanes_of_file file.now }
    requires few { header.geometry.lanes ≤ 4 }
    requires device { header.geometry.device ≡ device_of file.now }
    ensures { MayRead (image_refusal file.now) (λ lanes. AreLanes file.now lanes.items) result }
{
    let mut lanes = Vec::with_capacity(alloc, usize::from(header.geometry.lanes))?;
    let mut at = FIRST_RECORD;
    for lane in 0..header.geometry.lanes {
        let cells = read_record(alloc, file, header, lane, &lanes, at)?;
        at += record_len(header.version, machine_of(file), &cells);
        lanes.push(cells)?;
    }
    if at < file.len() {
        return Err(ImageError::Trailing { at: at as u32 });
    }
    Ok(lanes)
}

// Chips of set 0001 on the bus of a width.
fn intel_bank(width: u8, device: Device, chips: Vec<Intel>) -> Loaded
    requires { IsBank width device chips.items }
    ensures fresh { IsFreshBus (bus_of result) }
    ensures lanes { (bus_of result).lanes ≡ chips.items }
    ensures width { loaded_width result ≡ width }
{
    match width {
        1 => Loaded::Intel8(SimBank::new(device, chips)),
        2 => Loaded::Intel16(SimBank::new(device, chips)),
        4 => Loaded::Intel32(SimBank::new(device, chips)),
        _ => Loaded::Intel64(SimBank::new(device, chips)),
    }
}

// Chips of set 0002.
fn amd_bank(width: u8, device: Device, chips: Vec<Amd>) -> Loaded
    requires { IsBank width device chips.items }
    ensures fresh { IsFreshBus (bus_of result) }
    ensures lanes { (bus_of result).lanes ≡ chips.items }
    ensures width { loaded_width result ≡ width }
{
    match width {
        1 => Loaded::Amd8(SimBank::new(device, chips)),
        2 => Loaded::Amd16(SimBank::new(device, chips)),
        4 => Loaded::Amd32(SimBank::new(device, chips)),
        _ => Loaded::Amd64(SimBank::new(device, chips)),
    }
}

// The chips of these cells on the bus of a width, just powered on.
fn power_up(
    alloc: Global,
    width: u8,
    device: Device,
    set: Set,
    lanes: Vec<Cells>,
) -> Result<Loaded, NoMemory>
    requires { IsBank width device (chips_of set lanes.items) }
    ensures fresh { IfOk result (λ loaded. IsFreshBus (bus_of loaded)) }
    ensures lanes { IfOk result (λ loaded. (bus_of loaded).lanes ≡ chips_of set lanes.items) }
    ensures width { IfOk result (λ loaded. loaded_width loaded ≡ width) }
{
    match set {
        Set::Intel => {
            let chips = lanes.into_iter().map(Intel::new).collect(alloc)?;
            Ok(intel_bank(width, device, chips))
        }
        Set::Amd => {
            let chips = lanes.into_iter().map(Amd::new).collect(alloc)?;
            Ok(amd_bank(width, device, chips))
        }
    }
}

/// The bank that a file stands for, just powered on.
///
/// The first refusal in the order of reading is the answer, each at its place in bytes: a field
/// that isn't whole is `Truncated` where the file ends, one with a bad value is `BadHeader` where
/// it begins, or `BadMagic` or `SizeDiffers`, and bytes behind the last record are `Trailing`.
pub fn read_image(alloc: Global, file: &[u8]) -> Result<Loaded, ImageError>
    ensures image { IfOk result (λ loaded.
        IsImageOf file.now (loaded_width loaded) (bus_of loaded).lanes) }
    ensures fresh { IfOk result (λ loaded. IsFreshBus (bus_of loaded)) }
    ensures refused { IfErr result (IsCause file.now) }

    // The file is that of the bank in its version, byte by byte.
    ensures file { IfOk result (λ loaded.
        file.now ≡ file_in (version_of file.now) (loaded_width loaded) (bus_of loaded).lanes) }

    // What holds of each bank that was loaded.
    ensures wired { IfOk result (λ loaded.
        IsBank (loaded_width loaded) (device_of file.now) (bus_of loaded).lanes) }
    ensures bytes { IfOk result (λ loaded. (c : ℕ) → c < lanes_of (bus_of loaded)
        → AreBytes (lane_of_bus (bus_of loaded) c).cells) }
    ensures storable { IfOk result (λ loaded. AreStorable (bus_of loaded).lanes) }
    ensures agree { IfOk result (λ loaded. AgreeOnLocks (bus_of loaded).lanes) }
{
    let header = read_header(file)?;
    let lanes = read_lanes(alloc, file, header)?;
    let set = set_of(&lanes[0].table);
    let loaded = power_up(alloc, header.width, header.geometry.device, set, lanes)?;
    Ok(loaded)
}
