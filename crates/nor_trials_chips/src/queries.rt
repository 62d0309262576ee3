//! Tables of parts that exist, and each check at its border.
use crate::tables;
use nor_cell::{Device, Set, SuspendKind, Work};
use nor_query::{Extended, QueryError, QueryKind, decode, encode};
use nor_region::Region;
use std::process::Abort;
use std::test::Fail;

fn region(count: u32, size: u32) -> Region {
    Region { count, size }
}

fn is_written_back(rt: &impl Abort, table: &[u8; 512]) -> Result<(), Fail> {
    let query = decode(table)?;
    assert!(rt; query.valid());
    assert!(rt; encode(&query) == *table);
    Ok(())
}

// Bytes of a table of set 0001 that may be others.
const MAY_CHANGE: [(u8, u8); 9] = [
    (0x14, 0),
    (0x28, 0),
    (0x29, 0),
    (0x2A, 0),
    (0x2A, 0xFF),
    (0x2B, 0),
    (0x2B, 0xFF),
    (0x2E, 0),
    (0x30, 0),
];

#[test]
fn tables_are_read_and_written_back(rt: HostRuntime) -> Result<(), Fail> {
    let mut without_buffer = tables::intel();
    without_buffer[0x2A] = 0;
    let mut on_eight_wires = tables::intel();
    on_eight_wires[0x28] = 0;
    let mut in_byte_mode = tables::amd();
    in_byte_mode[0x28] = 2;
    let all = [
        tables::intel(),
        without_buffer,
        on_eight_wires,
        tables::amd(),
        in_byte_mode,
        tables::top_boot(),
        tables::large(),
        tables::musicpal_bottom(),
        tables::musicpal_top(),
        tables::zynq(),
        tables::ml605(),
        tables::riscv_virt(),
        tables::arm_virt(),
    ];
    for table in &all {
        is_written_back(&rt, table)?;
    }
    for change in MAY_CHANGE {
        is_written_back(&rt, &with(tables::intel(), &[change]))?;
    }
    Ok(())
}

#[test]
fn each_field_has_its_place(rt: HostRuntime) -> Result<(), Fail> {
    let mut table = tables::large();
    table[0x0F] = 0xAA;
    table[0x17..0x1B].copy_from_slice(&[3, 0, 0x50, 1]);
    table[0x109] = 0xBB;
    table[0x1FF] = 0xCC;
    let query = decode(&table)?;
    assert_eq!(rt; query.set, Set::Intel);
    assert_eq!(rt;
        (query.ext, query.alt_set, query.alt_ext),
        (0x10A, 3, 0x150)
    );
    assert_eq!(rt; query.volts, [0x17, 0x20, 0, 0]);
    assert_eq!(rt; query.times, [8, 9, 10, 0, 1, 1, 2, 0]);
    assert_eq!(rt;
        (
            query.size_log,
            query.interface,
            query.buffer_log,
            query.minor
        ),
        (23, 1, 5, 3)
    );
    let regions = [region(4, 0x8000), region(63, 0x20000)];
    assert_eq!(rt; query.regions.as_slice(), regions.as_slice());
    assert_eq!(rt;
        query.extended,
        Extended::Intel {
            features: 0x22,
            in_suspend: 1
        }
    );
    assert_eq!(rt;
        (query.rest[0x0F], query.rest[0x109], query.rest[0x1FF]),
        (0xAA, 0xBB, 0xCC)
    );
    assert_eq!(rt;
        (query.rest[0x10], query.rest[0x30], query.rest[0x10A]),
        (0, 0, 0)
    );
    assert!(rt; encode(&query) == table);
    Ok(())
}

// A byte of a table of set 0001, another there, and the place and the kind of what is wrong with it then.
const WRONG: [(usize, u8, u16, QueryKind); 28] = [
    (0x10, 0x00, 0x10, QueryKind::NoQry),
    (0x10, 0xFF, 0x10, QueryKind::NoQry),
    (0x11, 0x00, 0x11, QueryKind::NoQry),
    (0x11, 0xFF, 0x11, QueryKind::NoQry),
    (0x12, 0x00, 0x12, QueryKind::NoQry),
    (0x12, 0xFF, 0x12, QueryKind::NoQry),
    (0x13, 0x00, 0x13, QueryKind::UnknownSet(0)),
    (0x13, 0x03, 0x13, QueryKind::UnknownSet(3)),
    (0x13, 0xFF, 0x13, QueryKind::UnknownSet(0xFF)),
    (0x14, 0xFF, 0x13, QueryKind::UnknownSet(0xFF01)),
    (0x27, 0x00, 0x27, QueryKind::BadSize(0)),
    (0x27, 0x0B, 0x27, QueryKind::BadSize(11)),
    (0x27, 0x1C, 0x27, QueryKind::BadSize(28)),
    (0x27, 0xFF, 0x27, QueryKind::BadSize(255)),
    (0x28, 0x03, 0x28, QueryKind::BadInterface(3)),
    (0x28, 0xFF, 0x28, QueryKind::BadInterface(0xFF)),
    (0x29, 0xFF, 0x28, QueryKind::BadInterface(0xFF01)),
    (0x2C, 0x00, 0x2C, QueryKind::NoRegions),
    (0x2C, 0x09, 0x2C, QueryKind::TooManyRegions(9)),
    (0x2C, 0xFF, 0x2C, QueryKind::TooManyRegions(255)),
    (0x15, 0x30, 0x15, QueryKind::BadExtended),
    (0x16, 0x02, 0x15, QueryKind::BadExtended),
    (0x31, 0x51, 0x31, QueryKind::BadExtended),
    (0x32, 0x51, 0x32, QueryKind::BadExtended),
    (0x33, 0x51, 0x33, QueryKind::BadExtended),
    (0x34, 0x32, 0x34, QueryKind::UnknownVersion),
    (0x35, 0x2F, 0x35, QueryKind::UnknownVersion),
    (0x35, 0x36, 0x35, QueryKind::UnknownVersion),
];

// The same where regions don't fill the chip of 8 KiB, and what they sum to.
const OTHER_SUMS: [(usize, u8, u64); 7] = [
    (0x2D, 0x00, 1024),
    (0x2D, 0x06, 7168),
    (0x2D, 0xFF, 262_144),
    (0x2E, 0xFF, 66_854_912),
    (0x2F, 0x00, 1024),
    (0x2F, 0xFF, 522_240),
    (0x30, 0xFF, 133_701_632),
];

// A table with another byte at a place is refused for this.
fn fails(rt: &impl Abort, at: usize, byte: u8, place: u16, kind: QueryKind) {
    let mut table = tables::intel();
    assert!(rt; at < 512);
    table[at] = byte;
    let error = QueryError { at: place, kind };
    assert_eq!(rt; decode(&table).err(), Some(error), "{at:x}: {byte:x}");
}

#[test]
fn the_first_check_that_fails_is_named(rt: HostRuntime) {
    let none = QueryError {
        at: 0x10,
        kind: QueryKind::NoQry,
    };
    assert_eq!(rt; decode(&[0; 512]).err(), Some(none));
    for (at, byte, place, kind) in WRONG {
        fails(&rt, at, byte, place, kind);
    }
    for (at, byte, sum) in OTHER_SUMS {
        let kind = QueryKind::SizeMismatch { sum, size: 8192 };
        fails(&rt, at, byte, 0x2D, kind);
    }
}

// What a table says: its suspend; whether it offers locks and the erase of all blocks, and whether its regions
// are reversed; buffer units for the three devices, and limits for the four works.
type Says = ([u8; 512], SuspendKind, [bool; 3], [u16; 3], [u32; 4]);

fn says(rt: &impl Abort, row: &Says) -> Result<(), Fail> {
    let (table, suspend, offers, units, limits) = row;
    let query = decode(table)?;
    assert_eq!(rt; query.suspend_kind(), *suspend);
    let offered = [query.has_locks(), query.has_chip_erase(), query.reversed()];
    assert_eq!(rt; offered, *offers);
    for (device, units) in [Device::X8, Device::X16, Device::X16Byte].iter().zip(units) {
        assert_eq!(rt; query.buffer_units(*device), *units);
    }
    let works = [Work::Word, Work::Buffer, Work::Block, Work::Chip];
    for (work, limit) in works.iter().zip(limits) {
        assert_eq!(rt; query.limit(*work), *limit);
    }
    Ok(())
}

// The table with other bytes at some places.
fn with(table: [u8; 512], bytes: &[(u8, u8)]) -> [u8; 512] {
    let mut table = table;
    for (place, byte) in bytes {
        table[*place as usize] = *byte;
    }
    table
}

#[test]
fn what_a_chip_offers(rt: HostRuntime) -> Result<(), Fail> {
    use SuspendKind::{None, Program, Read};
    let locks = [true, false, false];
    let reversed = [true, false, true];
    let buffer = [32, 16, 0];
    let usual = [80, 272, 4112, 17];
    let reads = with(
        tables::intel(),
        &[(0x1F, 0xFF), (0x2A, 1), (0x36, 2), (0x3A, 2)],
    );
    let version_0 = with(tables::top_boot(), &[(0x3D, 0x30), (0x3F, 1), (0x42, 0)]);
    let timed = [(0x22, 0x0A), (0x26, 2)];
    for row in [
        (tables::intel(), Program, locks, buffer, usual),
        (tables::amd(), Program, locks, buffer, usual),
        (tables::top_boot(), Program, reversed, buffer, usual),
        (
            tables::large(),
            Program,
            locks,
            buffer,
            [528, 1040, 4112, 17],
        ),
        (
            tables::musicpal_top(),
            Program,
            [false, true, false],
            [0, 0, 0],
            [272, 17, 524_304, 1_048_592],
        ),
        (
            tables::ml605(),
            None,
            [false, false, false],
            [256, 256, 0],
            [2064, 2064, 16_400, 17],
        ),
        (
            reads,
            Read,
            [false, false, false],
            [2, 0, 0],
            [1_048_592, 272, 4112, 17],
        ),
        (version_0, Read, [false, false, false], buffer, usual),
        // the whole chip is erased at once where set 0002 gives a time for it
        (
            with(tables::amd(), &timed),
            Program,
            [true, true, false],
            buffer,
            [80, 272, 4112, 4112],
        ),
        (
            with(tables::intel(), &timed),
            Program,
            locks,
            buffer,
            [80, 272, 4112, 4112],
        ),
    ] {
        says(&rt, &row)?;
    }
    Ok(())
}

// A chip that boots from its top has its last region first.
#[test]
fn regions_lie_as_the_chip_has_them(rt: HostRuntime) -> Result<(), Fail> {
    let map = decode(&tables::top_boot())?.block_map();
    let regions = [region(3, 1024), region(7, 128), region(1, 128)];
    assert_eq!(rt; map.regions(), regions.as_slice());
    assert_eq!(rt; map.blocks(), 11);
    Ok(())
}

#[test]
fn queries_that_no_table_can_stand_for(rt: HostRuntime) -> Result<(), Fail> {
    let mut named_byte = decode(&tables::intel())?;
    named_byte.rest[0x31] = 1;
    assert!(rt; !named_byte.valid());
    let mut free_byte = decode(&tables::intel())?;
    free_byte.rest[0x3B] = 1;
    assert!(rt; free_byte.valid());
    let mut other_set = decode(&tables::intel())?;
    other_set.set = Set::Amd;
    assert!(rt; !other_set.valid());
    let mut minor = decode(&tables::intel())?;
    minor.minor = 6;
    assert!(rt; !minor.valid());
    let mut regions = decode(&tables::intel())?;
    regions.ext = 0x39;
    regions.regions.clear();
    regions.regions.push(region(1, 256));
    regions.regions.push(region(62, 128));
    assert!(rt; regions.valid());
    regions.regions.clear();
    regions.regions.push(region(2, 192));
    regions.regions.push(region(61, 128));
    assert!(rt; !regions.valid());
    Ok(())
}
