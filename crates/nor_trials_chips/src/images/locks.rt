//! Locks in a file of version 2.
use super::{Edit, Lane, RISES, bank_file, edited, is_its_own, refusal, refuses_each, saved};
use nor_image::ImageError;
use std::alloc::{AllocError, Global};
use std::test::Fail;

// What the extended table of set 0002 says that offers locks.
const AMD: [u8; 16] = [
    0x50, 0x52, 0x49, 0x31, 0x33, 0, 2, 1, 0, 8, 0, 0, 0, 0, 0, 2,
];

// Bytes that are put over those of a file from a place on, as far as the file goes.
fn over(alloc: Global, file: &[u8], at: usize, bytes: &[u8]) -> Result<Vec<u8>, AllocError> {
    let mut file = file.to_vec(alloc)?;
    for (k, byte) in bytes.iter().enumerate() {
        if let Some(place) = file.get_mut(at.saturating_add(k)) {
            *place = *byte;
        }
    }
    Ok(file)
}

// A file of version 1, whose chips of 8 KiB have the set 0002, and eight blocks with locks.
fn amd_file(alloc: Global, width: u8, device: u8, lanes: &[Lane]) -> Result<Vec<u8>, AllocError> {
    let mut file = bank_file(alloc, width, device, lanes)?;
    for table in [32, 8760] {
        file = over(alloc, &file, table + 0x13, &[2])?;
        file = over(alloc, &file, table + 0x31, &AMD)?;
    }
    Ok(file)
}

// The same file of version 2, of one lane or two, with these locks in each.
fn with_locks(alloc: Global, file: &[u8], locks: [u8; 8]) -> Result<Vec<u8>, AllocError> {
    let mut two = Vec::new(alloc);
    two.extend_from_slice(b"NORBANK2")?;
    two.extend_from_slice(file.get(8..12).unwrap_or(&[]))?;
    for at in [12, 8740] {
        if let Some(record) = file.get(at..at + 8728) {
            two.extend_from_slice(record.get(..536).unwrap_or(&[]))?;
            two.extend_from_slice(&[8, 0, 0, 0])?;
            two.extend_from_slice(&locks)?;
            two.extend_from_slice(record.get(536..).unwrap_or(&[]))?;
        }
    }
    Ok(two)
}

// A lock byte is 0 or 1, and there is one for each block.
const OF_ONE_LANE: [Edit; 7] = [
    (548, 9, Some(548)),
    (548, 0, Some(548)),
    (551, 1, Some(548)),
    (552, 1, None),
    (552, 2, Some(552)),
    (559, 0xFF, Some(559)),
    (560, 0xFF, None),
];

#[test]
fn locks_are_read_and_written(rt: HostRuntime) -> Result<(), Fail> {
    let one = amd_file(rt.alloc(), 1, 2, &[RISES])?;
    let none = with_locks(rt.alloc(), &one, [0; 8])?;
    assert!(rt; saved(&rt, rt.alloc(), &one, 4)?.as_slice() == none.as_slice());
    let two = with_locks(rt.alloc(), &one, [0, 0, 1, 0, 0, 0, 0, 1])?;
    assert_eq!(rt; two.len(), 8752);
    is_its_own(&rt, rt.alloc(), &two)?;
    refuses_each(&rt, rt.alloc(), &two, &OF_ONE_LANE)?;
    for len in [548, 551, 552, 559, 8751] {
        let part = two.get(..len).unwrap_or(&[]);
        let short = ImageError::Truncated { at: len as u32 };
        assert_eq!(rt; refusal(rt.alloc(), part), Some(short));
    }
    // in version 1 the same bytes are cells, and twelve too many
    let as_one = edited(rt.alloc(), &two, 7, 0x31)?;
    let trailing = ImageError::Trailing { at: 8740 };
    assert_eq!(rt; refusal(rt.alloc(), &as_one), Some(trailing));
    Ok(())
}

// Lane 1 begins at 8752, and its locks at 9292.
const OF_TWO_LANES: [Edit; 5] = [
    (9288, 8, None),
    (9288, 7, Some(9288)),
    (9292, 1, Some(9292)),
    (9293, 0, Some(9293)),
    (552, 1, Some(9292)),
];

const WITHOUT_LOCKS_IN_LANE_1: [Edit; 4] = [
    (552, 1, None),
    (552, 2, Some(552)),
    (9288, 0, None),
    (9288, 8, Some(9288)),
];

#[test]
fn lanes_agree_on_their_locks(rt: HostRuntime) -> Result<(), Fail> {
    let one = amd_file(rt.alloc(), 4, 1, &[RISES, RISES])?;
    let two = with_locks(rt.alloc(), &one, [0, 1, 0, 0, 0, 0, 0, 0])?;
    refuses_each(&rt, rt.alloc(), &two, &OF_TWO_LANES)?;
    // a lane whose table offers no locks stores none, and agrees with each
    let without = edited(rt.alloc(), &one, 8760 + 0x3A, 0)?;
    let saved = saved(&rt, rt.alloc(), &without, 6)?;
    assert_eq!(rt; saved.len(), 17484);
    refuses_each(&rt, rt.alloc(), &saved, &WITHOUT_LOCKS_IN_LANE_1)?;
    Ok(())
}
