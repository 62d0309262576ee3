//! Bank files of the banks that are tried, and the query tables of their chips.
use nor_cell::Device::{self, X8, X16, X16Byte};
use nor_cell::Geometry;
use nor_image::{Loaded, read_image};
use std::alloc::{AllocError, Global};
use std::test::Fail;

/// How many reads a program and an erase show working, and a chip until it suspends.
#[derive(Clone, Copy)]
pub struct Paces {
    pub program: u8,
    pub erase: u8,
    pub suspend: u8,
}

const USUAL: Paces = Paces {
    program: 2,
    erase: 4,
    suspend: 2,
};

/// A place of a lane's chip at which it breaks off.
#[derive(Clone, Copy)]
pub struct WeakPlace {
    pub lane: u8,
    pub place: u32,
}

/// The bytes of every chip.
#[derive(Clone, Copy)]
pub enum Content {
    Ones,
    Zeros,
    /// Of one chip alone: from 0 to 255, over and over.
    Rising,
}

/// A bank just powered on.
#[derive(Clone, Copy)]
pub struct Image {
    pub geometry: Geometry,
    pub table: [u8; 512],
    pub content: Content,
    pub paces: [Paces; 4],
    pub weak: Option<WeakPlace>,
    pub stuck: Option<u8>,
}

// Eight blocks of 1 KiB, and a buffer of 32 bytes: from place 0x10 on.
const HEAD: [u8; 33] = [
    0x51, 0x52, 0x59, 0x01, 0x00, 0x31, 0x00, 0x00, 0x00, 0x00, 0x00, 0x27, 0x36, 0x00, 0x00, 0x04,
    0x06, 0x0a, 0x00, 0x02, 0x02, 0x02, 0x00, 0x0d, 0x01, 0x00, 0x05, 0x00, 0x01, 0x07, 0x00, 0x04,
    0x00,
];

// The extended tables of either set, with locks and programs beside a suspended erase.
const INTEL: [u8; 10] = [0x50, 0x52, 0x49, 0x31, 0x31, 0x22, 0x00, 0x00, 0x00, 0x01];

const AMD: [u8; 16] = [
    0x50, 0x52, 0x49, 0x31, 0x33, 0x00, 0x02, 0x01, 0x00, 0x08, 0x00, 0x00, 0x00, 0x00, 0x00, 0x02,
];

// A chip of 4 KiB of set 0002, with small blocks at its top and no buffer.
const TOP_HEAD: [u8; 41] = [
    0x51, 0x52, 0x59, 0x02, 0x00, 0x39, 0x00, 0x00, 0x00, 0x00, 0x00, 0x27, 0x36, 0x00, 0x00, 0x04,
    0x06, 0x0a, 0x00, 0x02, 0x02, 0x02, 0x00, 0x0c, 0x01, 0x00, 0x05, 0x00, 0x03, 0x00, 0x00, 0x00,
    0x00, 0x06, 0x00, 0x00, 0x00, 0x02, 0x00, 0x04, 0x00,
];

const TOP_AMD: [u8; 16] = [
    0x50, 0x52, 0x49, 0x31, 0x33, 0x00, 0x02, 0x01, 0x00, 0x08, 0x00, 0x00, 0x00, 0x00, 0x00, 0x03,
];

/// The query table of a chip of set 0001 that offers all that its set can.
pub fn intel_table() -> [u8; 512] {
    let mut table = [0; 512];
    table[0x10..0x31].copy_from_slice(&HEAD);
    table[0x31..0x3B].copy_from_slice(&INTEL);
    table
}

/// The same of set 0002, without an erase of all blocks at once.
pub fn amd_table() -> [u8; 512] {
    let mut table = intel_table();
    table[0x13] = 2;
    table[0x31..0x41].copy_from_slice(&AMD);
    table
}

fn top_table() -> [u8; 512] {
    let mut table = [0; 512];
    table[0x10..0x39].copy_from_slice(&TOP_HEAD);
    table[0x39..0x49].copy_from_slice(&TOP_AMD);
    table
}

/// A table with other bytes at these places.
pub fn with(table: [u8; 512], edits: &[(usize, u8)]) -> [u8; 512] {
    let mut edited = table;
    for (place, byte) in edits {
        if let Some(at) = edited.get_mut(*place) {
            *at = *byte;
        }
    }
    edited
}

/// A bank of such chips, all ones.
pub fn ones(lanes: u8, device: Device, table: [u8; 512]) -> Image {
    Image {
        geometry: Geometry { lanes, device },
        table,
        content: Content::Ones,
        paces: [USUAL; 4],
        weak: None,
        stuck: None,
    }
}

/// One chip of set 0001, whose bytes rise.
pub fn rising() -> Image {
    rising_with(&[])
}

/// The same with other bytes in its table.
pub fn rising_with(edits: &[(usize, u8)]) -> Image {
    Image {
        content: Content::Rising,
        ..ones(1, X16, with(intel_table(), edits))
    }
}

/// Two chips of set 0001, that of lane 1 slower.
pub fn unequal() -> Image {
    let first = Paces { erase: 3, ..USUAL };
    let second = Paces { erase: 9, ..USUAL };
    Image {
        paces: [first, second, USUAL, USUAL],
        ..ones(2, X16, intel_table())
    }
}

// Two chips of set 0001 without a buffer.
fn unbuffered() -> Image {
    ones(2, X16, with(intel_table(), &[(0x2A, 0)]))
}

/// Two chips of set 0001 without a buffer, that of lane 1 weak in block 0.
pub fn weak() -> Image {
    Image {
        weak: Some(WeakPlace { lane: 1, place: 4 }),
        ..unbuffered()
    }
}

/// Two chips of set 0001 without a buffer, that of lane 1 stuck.
pub fn stuck() -> Image {
    Image {
        stuck: Some(1),
        ..unbuffered()
    }
}

/// Four chips of set 0002.
pub fn four() -> Image {
    ones(4, X16, amd_table())
}

/// One chip of set 0002 in byte mode.
pub fn byte_mode() -> Image {
    ones(1, X16Byte, with(amd_table(), &[(0x28, 2)]))
}

/// One chip of set 0002 with small blocks at its top.
pub fn top_boot() -> Image {
    ones(1, X16, top_table())
}

/// Two chips of set 0002 that erase all blocks at once.
pub fn whole_erase() -> Image {
    let quick = Paces { erase: 0, ..USUAL };
    Image {
        paces: [quick; 4],
        ..ones(2, X16, with(amd_table(), &[(0x22, 0x0A), (0x26, 2)]))
    }
}

// The code of a device in a file, and how many bytes of the bus word each of its chips takes.
fn code_of(device: Device) -> (u8, u8) {
    match device {
        X8 => (0, 1),
        X16 => (1, 2),
        X16Byte => (2, 1),
    }
}

/// The byte at a place of every chip.
pub fn byte_of(content: Content, place: u32) -> u8 {
    match content {
        Content::Ones => 0xFF,
        Content::Zeros => 0,
        Content::Rising => (place % 256) as u8,
    }
}

fn push_chip(file: &mut Vec<u8>, image: &Image, lane: u8, paces: Paces) -> Result<(), AllocError> {
    let stuck = u8::from(image.stuck == Some(lane));
    let place = match image.weak {
        Some(weak) if weak.lane == lane => Some(weak.place),
        _ => None,
    };
    let Paces {
        program,
        erase,
        suspend,
    } = paces;
    file.extend_from_slice(&[program, 0, 0, 0, erase, 0, 0, 0, suspend, stuck])?;
    file.extend_from_slice(&[u8::from(place.is_some()), 0, 0, 0, 0, 0, 0, 0, 0, 0])?;
    file.extend_from_slice(&image.table)?;
    let size = 1_u32 << (image.table[0x27] % 32);
    file.extend_from_slice(&size.to_le_bytes())?;
    if let Some(place) = place {
        file.extend_from_slice(&place.to_le_bytes())?;
    }
    for at in 0..size {
        file.push(byte_of(image.content, at))?;
    }
    Ok(())
}

/// The bank of such a file.
pub fn load(alloc: Global, image: &Image) -> Result<Loaded, Fail> {
    let Geometry { lanes, device } = image.geometry;
    let (code, bytes) = code_of(device);
    let width = bytes.wrapping_mul(lanes);
    let mut file = Vec::new(alloc);
    file.extend_from_slice(b"NORBANK1")?;
    file.extend_from_slice(&[width, code, lanes, 0])?;
    for (lane, paces) in (0..lanes).zip(&image.paces) {
        push_chip(&mut file, image, lane, *paces)?;
    }
    let loaded = read_image(alloc, &file)?;
    Ok(loaded)
}
