//! Files of banks.
use super::tables::{Table, amd, intel, large, top, with};
use std::alloc::{AllocError, Global};

// What the cells of a chip hold.
#[derive(Clone, Copy)]
enum Cells {
    Rising,
    Falling,
    Ones,
    Zeros,
}

/// The banks of the tests. Chips have 8 KiB in eight blocks, and of sets 0001 and 0002 all that
/// their set can offer but an erase of all blocks at once, where nothing else is said.
#[derive(Clone, Copy)]
pub enum Bank {
    /// One chip of set 0001, whose cells rise, as all where nothing else is said.
    OneX16,
    FourX16,
    OneInByteMode,
    FourAmd,
    OneAmdInByteMode,
    /// The cells of lane 1 fall.
    TwoX8,
    /// Four chips of set 0002, all ones.
    FourOnes,
    /// A chip of set 0002 in byte mode, all ones.
    OnesInByteMode,
    /// Two chips of set 0001, all ones, of which the second erases three times as long.
    Unequal,
    /// Two chips of set 0001 without a buffer, all ones, of which the second is weak at place 4.
    WeakSecond,
    /// The same, all zeros.
    WeakZeros,
    /// The same, all ones, of which the second is stuck instead.
    StuckSecond,
    /// A chip of 4 KiB of set 0002, all ones.
    TopBoot,
    /// A chip of 8 MiB of set 0001, all ones.
    Large,
    /// Two chips of set 0002, all ones, that erase all blocks at once, in no time.
    AllAtOnce,
    /// One chip of set 0001 without suspend and locks.
    OnePlain,
    /// One chip of set 0001 with locks and without suspend.
    OneWithLocks,
    /// Two chips of set 0001 in bytes, without suspend and locks. The cells of lane 1 fall.
    TwoPlainX8,
    /// Four chips of set 0002 without suspend and locks, all ones.
    FourPlainAmd,
    /// One chip of set 0002 in byte mode, without suspend and locks, all ones.
    OnePlainAmdInByteMode,
}

// The bus width, the device's code and the lanes, the tables, what the cells of lane 1 and of the
// others hold, how long each chip erases, whether lane 1 is weak or stuck, and how many locks
// each chip keeps without power.
#[derive(Clone, Copy)]
struct Image {
    width: u8,
    device: u8,
    lanes: u8,
    table: Table,
    cells: Cells,
    lane_1: Cells,
    paces: [u8; 4],
    weak: bool,
    stuck: bool,
    locks: u32,
}

const X8: u8 = 0;

const X16: u8 = 1;

const X16_BYTE: u8 = 2;

// A bank of chips with these cells, which keep no locks.
fn of_chips(width: u8, device: u8, lanes: u8, table: Table, cells: Cells) -> Image {
    Image {
        width,
        device,
        lanes,
        table,
        cells,
        lane_1: cells,
        paces: [4; 4],
        weak: false,
        stuck: false,
        locks: 0,
    }
}

// Two chips of bytes, of which the second falls.
fn two_x8(table: Table) -> Image {
    Image {
        lane_1: Cells::Falling,
        ..of_chips(2, X8, 2, with(table, &[(0x28, 0)]), Cells::Rising)
    }
}

// Two chips of set 0001 without a buffer.
fn unbuffered(cells: Cells) -> Image {
    of_chips(4, X16, 2, with(intel(), &[(0x2A, 0)]), cells)
}

// A bank whose chips keep locks.
fn keeping(locks: u32, image: Image) -> Image {
    Image { locks, ..image }
}

// A bank whose chips offer neither suspend nor locks.
fn plain_of(bank: Bank) -> Image {
    let table = with(intel(), &[(0x36, 0)]);
    let amd = with(amd(), &[(0x37, 0), (0x3A, 0)]);
    match bank {
        Bank::TwoPlainX8 => two_x8(table),
        Bank::FourPlainAmd => of_chips(8, X16, 4, amd, Cells::Ones),
        Bank::OnePlainAmdInByteMode => {
            let table = with(amd, &[(0x28, 2)]);
            of_chips(1, X16_BYTE, 1, table, Cells::Ones)
        }
        _ => of_chips(2, X16, 1, table, Cells::Rising),
    }
}

// A bank with a chip that differs from the others.
fn unequal_of(bank: Bank) -> Image {
    match bank {
        Bank::WeakSecond => Image {
            weak: true,
            ..unbuffered(Cells::Ones)
        },
        Bank::WeakZeros => Image {
            weak: true,
            ..unbuffered(Cells::Zeros)
        },
        Bank::StuckSecond => Image {
            stuck: true,
            ..unbuffered(Cells::Ones)
        },
        _ => Image {
            paces: [3, 9, 4, 4],
            ..of_chips(4, X16, 2, intel(), Cells::Ones)
        },
    }
}

// A bank of set 0002 that keeps locks.
fn amd_of(bank: Bank) -> Image {
    let mixed = with(amd(), &[(0x28, 2)]);
    match bank {
        Bank::OneAmdInByteMode => keeping(8, of_chips(1, X16_BYTE, 1, mixed, Cells::Rising)),
        Bank::FourOnes => keeping(8, of_chips(8, X16, 4, amd(), Cells::Ones)),
        Bank::OnesInByteMode => keeping(8, of_chips(1, X16_BYTE, 1, mixed, Cells::Ones)),
        Bank::TopBoot => keeping(11, of_chips(2, X16, 1, top(), Cells::Ones)),
        Bank::AllAtOnce => {
            let table = with(amd(), &[(0x22, 0x0A), (0x26, 2)]);
            Image {
                paces: [0; 4],
                ..keeping(8, of_chips(4, X16, 2, table, Cells::Ones))
            }
        }
        _ => keeping(8, of_chips(8, X16, 4, amd(), Cells::Rising)),
    }
}

fn image_of(bank: Bank) -> Image {
    match bank {
        Bank::OneX16 => of_chips(2, X16, 1, intel(), Cells::Rising),
        Bank::FourX16 => of_chips(8, X16, 4, intel(), Cells::Rising),
        Bank::OneInByteMode => of_chips(1, X16_BYTE, 1, intel(), Cells::Rising),
        Bank::TwoX8 => two_x8(intel()),
        Bank::Large => of_chips(2, X16, 1, large(), Cells::Ones),
        Bank::OneWithLocks => {
            let table = with(intel(), &[(0x36, 0x20)]);
            of_chips(2, X16, 1, table, Cells::Rising)
        }
        Bank::FourAmd
        | Bank::OneAmdInByteMode
        | Bank::FourOnes
        | Bank::OnesInByteMode
        | Bank::TopBoot
        | Bank::AllAtOnce => amd_of(bank),
        Bank::Unequal | Bank::WeakSecond | Bank::WeakZeros | Bank::StuckSecond => unequal_of(bank),
        Bank::OnePlain | Bank::TwoPlainX8 | Bank::FourPlainAmd | Bank::OnePlainAmdInByteMode => {
            plain_of(bank)
        }
    }
}

fn push_zeros(file: &mut Vec<u8>, count: u32) -> Result<(), AllocError> {
    for _ in 0..count {
        file.push(0)?;
    }
    Ok(())
}

// The cells of a chip.
fn push_cells(file: &mut Vec<u8>, size: u32, cells: Cells) -> Result<(), AllocError> {
    for place in 0..size {
        let rise = (place % 256) as u8;
        file.push(match cells {
            Cells::Rising => rise,
            Cells::Falling => 255 - rise,
            Cells::Ones => 0xFF,
            Cells::Zeros => 0,
        })?;
    }
    Ok(())
}

// A chip that programs and suspends at pace 2. Version 2 has its locks, none of which is set.
fn push_lane(
    file: &mut Vec<u8>,
    image: &Image,
    lane: u8,
    pace: u8,
    version: u8,
) -> Result<(), AllocError> {
    let is_weak = lane == 1 && image.weak;
    let stuck = u8::from(lane == 1 && image.stuck);
    file.extend_from_slice(&[2, 0, 0, 0, pace, 0, 0, 0, 2, stuck, u8::from(is_weak), 0])?;
    push_zeros(file, 8)?;
    file.extend_from_slice(&image.table)?;
    let size = 1_u32 << (image.table[0x27] % 32);
    file.extend_from_slice(&size.to_le_bytes())?;
    if is_weak {
        file.extend_from_slice(&[4, 0, 0, 0])?;
    }
    if version == b'2' {
        file.extend_from_slice(&image.locks.to_le_bytes())?;
        push_zeros(file, image.locks)?;
    }
    push_cells(
        file,
        size,
        if lane == 1 { image.lane_1 } else { image.cells },
    )
}

fn file_in(alloc: Global, bank: Bank, version: u8) -> Result<Vec<u8>, AllocError> {
    let image = image_of(bank);
    let mut file = Vec::new(alloc);
    file.extend_from_slice(b"NORBANK")?;
    file.extend_from_slice(&[version, image.width, image.device, image.lanes, 0])?;
    for (lane, pace) in (0..image.lanes).zip(&image.paces) {
        push_lane(&mut file, &image, lane, *pace, version)?;
    }
    Ok(file)
}

/// Places of a file, and the bytes that are there: of each so many.
pub type Bytes = &'static [(usize, usize, u8)];

// The file with other bytes at these places.
fn changed(file: Vec<u8>, bytes: Bytes) -> Vec<u8> {
    let mut file = file;
    for (at, count, byte) in bytes {
        for there in file.iter_mut().skip(*at).take(*count) {
            *there = *byte;
        }
    }
    file
}

/// The file of version 1, with other bytes at these places.
pub fn file_of(alloc: Global, bank: Bank, bytes: Bytes) -> Result<Vec<u8>, AllocError> {
    Ok(changed(file_in(alloc, bank, b'1')?, bytes))
}

/// The file of version 2 of a bank with no lock set, with other bytes at these places.
pub fn saved_file_of(alloc: Global, bank: Bank, bytes: Bytes) -> Result<Vec<u8>, AllocError> {
    Ok(changed(file_in(alloc, bank, b'2')?, bytes))
}

/// The first `len` bytes of a file, or all that it has.
pub fn first_part(file: &[u8], len: usize) -> &[u8] {
    if len <= file.len() {
        &file[..len]
    } else {
        file
    }
}
