//! Maps of parts that exist, and their borders.
use nor_cell::Span;
use nor_region::{BlockMap, Region, RegionError, block_map};
use std::process::Abort;
use std::test::Fail;

// The block begins at `from` and ends with `last`, and both lie in it.
fn has_block(rt: &impl Abort, map: &BlockMap, block: u32, from: u32, last: u32) {
    assert!(rt; block < map.blocks());
    assert!(rt; from <= last);
    assert!(rt; last < map.size());
    let len = last - from + 1;
    assert_eq!(rt; map.span(block), Span { from, len });
    assert_eq!(rt; map.block_of(from), block);
    assert_eq!(rt; map.block_of(last), block);
}

// So many bytes and blocks, of which some begin and end so.
fn has_blocks(rt: &impl Abort, map: &BlockMap, size: u32, blocks: u32, some: &[(u32, u32, u32)]) {
    assert_eq!(rt; map.size(), size);
    assert_eq!(rt; map.blocks(), blocks);
    for (block, from, last) in some {
        has_block(rt, map, *block, *from, *last);
    }
}

const EIGHT: Region = Region {
    count: 8,
    size: 1024,
};

const ONE_SMALL: Region = Region {
    count: 1,
    size: 128,
};

const SEVEN_SMALL: Region = Region {
    count: 7,
    size: 128,
};

const THREE_LARGE: Region = Region {
    count: 3,
    size: 1024,
};

const FOUR_LOW: Region = Region {
    count: 4,
    size: 0x8000,
};

const REST: Region = Region {
    count: 63,
    size: 0x20000,
};

const MOST_BLOCKS: Region = Region {
    count: 65536,
    size: 256,
};

const ONE: Region = Region {
    count: 1,
    size: 1024,
};

const SEVEN: Region = Region {
    count: 7,
    size: 1024,
};

const NINE: Region = Region {
    count: 9,
    size: 1024,
};

const LARGEST: Region = Region {
    count: 65536,
    size: 16_776_960,
};

const TOP_BOOT: [Region; 3] = [ONE_SMALL, SEVEN_SMALL, THREE_LARGE];

#[test]
fn maps_have_their_blocks(rt: HostRuntime) -> Result<(), Fail> {
    let eight = block_map(&[EIGHT], false, 8192)?;
    let some = [(0, 0, 1023), (1, 1024, 2047), (7, 7168, 8191)];
    has_blocks(&rt, &eight, 8192, 8, &some);
    assert_eq!(rt; eight.regions(), [EIGHT].as_slice());
    // the small blocks of a chip that boots from its top are its last
    let top = block_map(&TOP_BOOT, true, 4096)?;
    let some = [
        (2, 0x800, 0xBFF),
        (3, 0xC00, 0xC7F),
        (9, 0xF00, 0xF7F),
        (10, 0xF80, 0xFFF),
    ];
    has_blocks(&rt, &top, 4096, 11, &some);
    let last_first = [THREE_LARGE, SEVEN_SMALL, ONE_SMALL];
    assert_eq!(rt; top.regions(), last_first.as_slice());
    let straight = block_map(&TOP_BOOT, false, 4096)?;
    has_blocks(&rt, &straight, 4096, 11, &[(8, 0x400, 0x7FF)]);
    Ok(())
}

#[test]
fn banks_and_large_chips_have_their_blocks(rt: HostRuntime) -> Result<(), Fail> {
    let chip = block_map(&[FOUR_LOW, REST], false, 0x80_0000)?;
    assert!(rt; chip.size() <= 0x800_0000);
    let bank = chip.scaled(4);
    let some = [
        (3, 0x6_0000, 0x7_FFFF),
        (4, 0x8_0000, 0xF_FFFF),
        (66, 0x1F8_0000, 0x1FF_FFFF),
    ];
    has_blocks(&rt, &bank, 0x200_0000, 67, &some);
    let copy = bank.clone()?;
    assert!(rt; copy == bank);
    assert!(rt; copy != chip);
    let most = MOST_BLOCKS;
    let most = block_map(
        &[most, most, most, most, most, most, most, most],
        false,
        0x800_0000,
    )?;
    let some = [
        (0, 0, 0xFF),
        (65535, 0xFF_FF00, 0xFF_FFFF),
        (65536, 0x100_0000, 0x100_00FF),
        (458_751, 0x6FF_FF00, 0x6FF_FFFF),
        (458_752, 0x700_0000, 0x700_00FF),
        (524_287, 0x7FF_FF00, 0x7FF_FFFF),
    ];
    has_blocks(&rt, &most, 0x800_0000, 524_288, &some);
    Ok(())
}

fn mismatch(sum: u64, size: u64) -> Option<RegionError> {
    Some(RegionError::SizeMismatch { sum, size })
}

#[test]
fn regions_that_are_no_map(rt: HostRuntime) {
    let one = ONE;
    let nine = [one, one, one, one, one, one, one, one, one];
    let none = block_map(&[], true, 8192).err();
    assert_eq!(rt; none, Some(RegionError::NoRegions));
    let many = block_map(&nine, false, 8192).err();
    assert_eq!(rt; many, Some(RegionError::TooManyRegions));
    let short = block_map(&[SEVEN], false, 8192).err();
    assert_eq!(rt; short, mismatch(7168, 8192));
    let over = block_map(&[NINE], false, 8192).err();
    assert_eq!(rt; over, mismatch(9216, 8192));
    let most = LARGEST;
    let far_over = block_map(
        &[most, most, most, most, most, most, most, most],
        false,
        4096,
    );
    assert_eq!(rt; far_over.err(), mismatch(8_795_958_804_480, 4096));
}
