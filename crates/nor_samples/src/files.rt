//! Bank files, and the bytes of the banks that they stand for.

use crate::tables::whole_table;
use nor_cell::{Device, Geometry, Set};
use nor_image::{ImageError, Loaded, read_image};
use std::alloc::{AllocError, Global};

// How many bytes each chip has.
const CHIP_SIZE: u16 = 8192;

/// Every wiring: the width of the bus word in bytes, the lanes and their device.
pub const WIRINGS: [(u8, u8, Device); 9] = [
    (1, 1, Device::X8),
    (1, 1, Device::X16Byte),
    (2, 2, Device::X8),
    (2, 2, Device::X16Byte),
    (2, 1, Device::X16),
    (4, 4, Device::X8),
    (4, 4, Device::X16Byte),
    (4, 2, Device::X16),
    (8, 4, Device::X16),
];

/// A bus word of `width` bytes, and how the chips lie on it.
#[derive(Clone, Copy)]
pub struct Wiring {
    pub width: u8,
    pub geometry: Geometry,
}

// Byte `place` of the chip of a lane. A chip that shows its array where its query table is asked for
// would answer to some wiring: its cells have `QRY` at the addresses of every device.
fn cell(lane: u8, place: u16) -> u8 {
    match place {
        0x10 | 0x20 => b'Q',
        0x11 | 0x22 => b'R',
        0x12 | 0x24 => b'Y',
        0x21 | 0x23 | 0x25 => 0,
        _ => {
            let low = (place % 256) as u8;
            low.wrapping_add(lane.wrapping_mul(0x40))
        }
    }
}

fn push_zeros(file: &mut Vec<u8>, count: u16) -> Result<(), AllocError> {
    for _ in 0..count {
        file.push(0)?;
    }
    Ok(())
}

// A chip with no weak places and no pace.
fn push_record(file: &mut Vec<u8>, lane: u8, table: &[u8; 512]) -> Result<(), AllocError> {
    push_zeros(file, 20)?;
    file.extend_from_slice(table)?;
    file.extend_from_slice(&u32::from(CHIP_SIZE).to_le_bytes())?;
    for place in 0..CHIP_SIZE {
        file.push(cell(lane, place))?;
    }
    Ok(())
}

fn device_code(device: Device) -> u8 {
    match device {
        Device::X8 => 0,
        Device::X16 => 1,
        Device::X16Byte => 2,
    }
}

fn bank_file(
    alloc: Global,
    wiring: Wiring,
    tables: &[[u8; 512]; 4],
) -> Result<Vec<u8>, AllocError> {
    let mut file = Vec::new(alloc);
    let Geometry { lanes, device } = wiring.geometry;
    file.extend_from_slice(b"NORBANK1")?;
    file.extend_from_slice(&[wiring.width, device_code(device), lanes, 0])?;
    for lane in 0..lanes {
        if let Some(table) = tables.get(usize::from(lane)) {
            push_record(&mut file, lane, table)?;
        }
    }
    Ok(file)
}

/// A bank of such chips, just powered on, whose lanes have these query tables.
pub fn load_tables(
    alloc: Global,
    wiring: Wiring,
    tables: &[[u8; 512]; 4],
) -> Result<Loaded, ImageError> {
    let Ok(file) = bank_file(alloc, wiring, tables) else {
        return Err(ImageError::NoMemory);
    };
    read_image(alloc, &file)
}

/// The same, where each lane has the [`whole_table`] of a set.
pub fn load(alloc: Global, wiring: Wiring, set: Set) -> Result<Loaded, ImageError> {
    load_tables(alloc, wiring, &[whole_table(set); 4])
}

// The bytes of a device word of every chip in turn.
fn push_words(bytes: &mut Vec<u8>, geometry: Geometry, word: u16) -> Result<(), AllocError> {
    for lane in 0..geometry.lanes {
        match geometry.device {
            Device::X8 | Device::X16Byte => bytes.push(cell(lane, word))?,
            Device::X16 => {
                bytes.push(cell(lane, word.wrapping_mul(2)))?;
                bytes.push(cell(lane, word.wrapping_mul(2).wrapping_add(1)))?;
            }
        }
    }
    Ok(())
}

/// The first bytes of such a bank: those of the first 1,024 device words of every chip.
pub fn first_bytes(alloc: Global, geometry: Geometry) -> Result<Vec<u8>, AllocError> {
    let mut bytes = Vec::new(alloc);
    for word in 0..1024 {
        push_words(&mut bytes, geometry, word)?;
    }
    Ok(bytes)
}
