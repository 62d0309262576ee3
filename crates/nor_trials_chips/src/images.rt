//! Files that are refused, and banks that are written and read again.
mod locks;

use crate::tables;
use nor_image::{ImageError, Loaded, fill_image, read_image, write_image};
use std::alloc::{AllocError, Global};
use std::process::Abort;
use std::test::Fail;

// What a file's lane is to have: the size of its chip as a power of two, its weak places, and
// whether its cells fall from 255, or rise from 0.
#[derive(Clone, Copy)]
struct Lane<'a> {
    log: u8,
    weak: &'a [u32],
    falls: bool,
}

const RISES: Lane = Lane {
    log: 13,
    weak: &[],
    falls: false,
};

const FALLS: Lane = Lane {
    log: 13,
    weak: &[],
    falls: true,
};

const SMALL: Lane = Lane {
    log: 12,
    weak: &[],
    falls: false,
};

fn low_byte(n: usize) -> u8 {
    n.to_le_bytes()[0]
}

fn push_lane(file: &mut Vec<u8>, lane: Lane) -> Result<(), AllocError> {
    let count = low_byte(lane.weak.len());
    file.extend_from_slice(&[
        2, 0, 0, 0, 4, 0, 0, 0, 2, 0, count, 0, 0, 0, 0, 0, 0, 0, 0, 0,
    ])?;
    let mut table = tables::intel();
    table[0x27] = lane.log;
    file.extend_from_slice(&table)?;
    let size = 1u32 << (lane.log % 32);
    file.extend_from_slice(&size.to_le_bytes())?;
    for place in lane.weak {
        file.extend_from_slice(&place.to_le_bytes())?;
    }
    for p in 0..size {
        let rise = (p % 256) as u8;
        file.push(if lane.falls { 255 - rise } else { rise })?;
    }
    Ok(())
}

// The file of a bank: the bus width, the device and the lanes.
fn bank_file(alloc: Global, width: u8, device: u8, lanes: &[Lane]) -> Result<Vec<u8>, AllocError> {
    let mut file = Vec::new(alloc);
    file.extend_from_slice(b"NORBANK1")?;
    file.extend_from_slice(&[width, device, low_byte(lanes.len()), 0])?;
    for lane in lanes {
        push_lane(&mut file, *lane)?;
    }
    Ok(file)
}

fn refusal(alloc: Global, file: &[u8]) -> Option<ImageError> {
    read_image(alloc, file).err()
}

// A place of a file, the value that its byte is to have, and where the field is that is then refused.
type Edit = (usize, u8, Option<u32>);

fn edited(alloc: Global, file: &[u8], at: usize, value: u8) -> Result<Vec<u8>, AllocError> {
    let mut edited = file.to_vec(alloc)?;
    if let Some(byte) = edited.get_mut(at) {
        *byte = value;
    }
    Ok(edited)
}

fn refuses_each(
    rt: &impl Abort,
    alloc: Global,
    file: &[u8],
    edits: &[Edit],
) -> Result<(), AllocError> {
    for (at, value, place) in edits {
        let edited = edited(alloc, file, *at, *value)?;
        let refused = place.map(|at| ImageError::BadHeader { at });
        assert_eq!(rt; refusal(alloc, &edited), refused, "byte {at} as {value}");
    }
    Ok(())
}

// Of a bank of one lane.
const EDITS: [Edit; 32] = [
    // as of version 2, the first cells aren't the number of its locks
    (7, 0x32, Some(548)),
    (8, 0, Some(8)),
    (8, 1, Some(10)),
    (8, 3, Some(8)),
    (8, 0x10, Some(8)),
    (8, 0xFF, Some(8)),
    (9, 0, Some(10)),
    (9, 1, None),
    (9, 0x10, Some(9)),
    (9, 0xFF, Some(9)),
    (10, 0, Some(10)),
    (10, 1, None),
    (10, 0x10, Some(10)),
    (10, 0xFF, Some(10)),
    (11, 0, None),
    (11, 1, Some(11)),
    (11, 0x10, Some(11)),
    (11, 0xFF, Some(11)),
    (20, 0x10, None),
    (20, 0x11, Some(20)),
    (21, 1, None),
    (21, 2, Some(21)),
    (23, 2, Some(22)),
    (12, 0xFF, None),
    (24, 0xFF, None),
    (544, 1, Some(544)),
    (545, 0x10, Some(544)),
    // the table names set 0002, or no size that a chip may have
    (51, 2, None),
    (71, 0x20, None),
    // a table that is refused
    (48, 0, None),
    (8739, 0, None),
    (8740, 0, None),
];

#[test]
fn a_field_that_has_a_bad_value_is_refused(rt: HostRuntime) -> Result<(), Fail> {
    let mut one = bank_file(rt.alloc(), 2, 1, &[RISES])?;
    assert_eq!(rt; one.len(), 8740);
    refuses_each(&rt, rt.alloc(), &one, &EDITS)?;
    for (at, value) in [(0, 0), (3, 0xFF), (7, 0x33)] {
        let other = edited(rt.alloc(), &one, at, value)?;
        assert_eq!(rt; refusal(rt.alloc(), &other), Some(ImageError::BadMagic));
    }
    one.push(0)?;
    let trailing = ImageError::Trailing { at: 8740 };
    assert_eq!(rt; refusal(rt.alloc(), &one), Some(trailing));
    Ok(())
}

#[test]
fn lanes_have_one_size(rt: HostRuntime) -> Result<(), Fail> {
    let two = bank_file(rt.alloc(), 2, 0, &[RISES, FALLS])?;
    refuses_each(
        &rt,
        rt.alloc(),
        &two,
        &[(9273, 0x20, None), (9273, 0x10, Some(9272))],
    )?;
    // its table gives the other size too
    let other = edited(rt.alloc(), &two, 8799, 0x0C)?;
    let both = edited(rt.alloc(), &other, 9273, 0x10)?;
    let differs = ImageError::SizeDiffers { lane: 1 };
    assert_eq!(rt; refusal(rt.alloc(), &both), Some(differs));
    Ok(())
}

#[test]
fn weak_places_ascend_in_whole_units(rt: HostRuntime) -> Result<(), Fail> {
    for (weak, place) in [
        ([4, 8190], None),
        ([0, 2], None),
        ([4, 4], Some(552)),
        ([8, 4], Some(552)),
        ([5, 8], Some(548)),
        ([4, 8192], Some(552)),
    ] {
        let lane = Lane {
            log: 13,
            weak: weak.as_slice(),
            falls: true,
        };
        let file = bank_file(rt.alloc(), 2, 1, &[lane])?;
        let refused = place.map(|at| ImageError::BadHeader { at });
        assert_eq!(rt; refusal(rt.alloc(), &file), refused);
    }
    Ok(())
}

#[test]
fn a_file_ends_where_its_last_record_does(rt: HostRuntime) -> Result<(), Fail> {
    let file = bank_file(rt.alloc(), 1, 2, &[SMALL])?;
    assert_eq!(rt; file.len(), 4644);
    for at in 0..file.len() {
        let short = ImageError::Truncated { at: at as u32 };
        assert_eq!(rt; refusal(rt.alloc(), &file[..at]), Some(short));
    }
    Ok(())
}

// A place among the eight kinds of banks.
fn kind_of(bank: &Loaded) -> u8 {
    match bank {
        Loaded::Intel8(_) => 0,
        Loaded::Intel16(_) => 1,
        Loaded::Intel32(_) => 2,
        Loaded::Intel64(_) => 3,
        Loaded::Amd8(_) => 4,
        Loaded::Amd16(_) => 5,
        Loaded::Amd32(_) => 6,
        Loaded::Amd64(_) => 7,
    }
}

// The file of the bank of a file, which is of this kind.
fn saved(rt: &impl Abort, alloc: Global, file: &[u8], kind: u8) -> Result<Vec<u8>, ImageError> {
    let bank = read_image(alloc, file)?;
    assert_eq!(rt; kind_of(&bank), kind);
    Ok(write_image(alloc, &bank)?)
}

// A file of version 2 is that of its own bank, also where it is put over other bytes.
fn is_its_own(rt: &impl Abort, alloc: Global, file: &[u8]) -> Result<(), ImageError> {
    let bank = read_image(alloc, file)?;
    let mut written = write_image(alloc, &bank)?;
    assert!(rt; written.as_slice() == file);
    written.fill(0);
    fill_image(&bank, &mut written);
    assert!(rt; written.as_slice() == file);
    Ok(())
}

// A bank: its width, its device, its lanes, the set of its chips, its kind, and how many bytes version 2
// has more. Each record has the number of its locks.
const BANKS: [(u8, u8, usize, u8, u8, usize); 8] = [
    (1, 0, 1, 1, 0, 4),
    (2, 1, 1, 1, 1, 4),
    (4, 1, 2, 1, 2, 8),
    (8, 1, 4, 1, 3, 16),
    // lane 0's table offers no locks, and the others', which still name set 0001, offer eight
    (1, 2, 1, 2, 4, 4),
    (2, 0, 2, 2, 5, 16),
    (4, 0, 4, 2, 6, 40),
    (8, 1, 4, 2, 7, 40),
];

#[test]
fn a_loaded_bank_is_written_as_version_2(rt: HostRuntime) -> Result<(), Fail> {
    let weak = Lane {
        log: 13,
        weak: &[4, 8190],
        falls: true,
    };
    let lanes = [RISES, weak, FALLS, RISES];
    for (width, device, count, set, kind, more) in BANKS {
        let file = bank_file(rt.alloc(), width, device, lanes.get(..count).unwrap_or(&[]))?;
        let file = edited(rt.alloc(), &file, 51, set)?;
        let saved = saved(&rt, rt.alloc(), &file, kind)?;
        assert_eq!(rt; saved.len().wrapping_sub(file.len()), more);
        assert!(rt; saved.starts_with(b"NORBANK2"));
        assert!(rt; saved.get(8..540) == file.get(8..540));
        is_its_own(&rt, rt.alloc(), &saved)?;
    }
    Ok(())
}
