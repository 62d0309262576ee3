//! Simulated chips of either set, taken through bus cycles: what each read shows.
ghost use Rattle.std.specs.Prelude.{◌≡◌, ◌*◌, ◌<◌, ◌≤◌, IsTrue, IfOk, length};
ghost use Rattle.nor_cell.specs.Chip.{units};
ghost use Rattle.nor_cell.specs.Ranges.{AreOffered, are_blocks, is_ascending_below, is_none_or_each, begin_units};

mod amd_all_blocks;
mod amd_boot;
mod amd_commands;
mod amd_faults;
mod amd_jobs;
mod intel_commands;
mod intel_jobs;

use crate::tables;
use nor_amd::Amd;
use nor_cell::{CellParts, Device, Set, Span, has_locks, make_cells, unit_len};
use nor_intel::Intel;
use nor_samples::Made;
use std::alloc::{AllocError, Global};
use std::process::Abort;
use std::test::Fail;

const SIZE: usize = 8192;

// Where the table tells the interface, the time of an erase of all blocks, what may be done while an
// erase is suspended, and whether there are locks.
const INTERFACE: usize = 0x28;

const CHIP_TIME: u8 = 0x22;

const SUSPEND_KIND: u8 = 0x37;

const PROTECTION: u8 = 0x3A;

// What a chip of a test is, beside its table and its cells, which are ones.
#[derive(Clone, Copy)]
struct Setup {
    device: Device,
    // A place of the table, and another byte there.
    other: Option<(u8, u8)>,
    has_blocks: bool,
    // Whether its locks are given, all of them set.
    locked: bool,
    weak: Option<u32>,
    stuck: bool,
    // Of suspends and of erases.
    counted: u32,
}

const PLAIN: Setup = Setup {
    device: Device::X16,
    other: None,
    has_blocks: true,
    locked: false,
    weak: None,
    stuck: false,
    counted: 0,
};

const ON_EIGHT_WIRES: Setup = Setup {
    device: Device::X8,
    ..PLAIN
};

const IN_BYTE_MODE: Setup = Setup {
    device: Device::X16Byte,
    ..PLAIN
};

const BARE: Setup = Setup {
    has_blocks: false,
    ..PLAIN
};

const STUCK: Setup = Setup {
    stuck: true,
    ..PLAIN
};

fn blocks(alloc: Global, some: bool) -> Result<Vec<Span>, AllocError>
    ensures { IfOk result (λ v. IsTrue (are_blocks 8192 v.items)) }
{
    if some {
        let blocks = vec![in alloc;
            block(0),
            block(1),
            block(2),
            block(3),
            block(4),
            block(5),
            block(6),
            block(7),
        ]?;
        Ok(blocks)
    } else {
        Ok(Vec::new(alloc))
    }
}

fn block(number: u32) -> Span
    requires { number < 8 }
    ensures { result ≡ record { from = 1024 * number; len = 1024 } }
{
    Span {
        from: 1024 * number,
        len: 1024,
    }
}

fn weak_places(
    rt: &impl Abort,
    alloc: Global,
    device: Device,
    weak: Option<u32>,
) -> Result<Vec<u32>, AllocError>
    ensures ascending { IfOk result (λ v. IsTrue (is_ascending_below 8192 v.items)) }
    ensures units { IfOk result (λ v. IsTrue (begin_units device v.items)) }
    ensures few { IfOk result (λ v. length v.items ≤ 256) }
{
    match weak {
        None => Ok(Vec::new(alloc)),
        Some(place) => {
            assert!(rt; place < 8192);
            assert!(rt; place as usize % unit_len(device) == 0);
            let places = vec![in alloc; place]?;
            Ok(places)
        }
    }
}

fn table(set: Set, setup: Setup) -> [u8; 512] {
    let mut table = match set {
        Set::Intel => tables::intel(),
        Set::Amd => tables::amd(),
    };
    table[INTERFACE] = match setup.device {
        Device::X8 => 0,
        Device::X16 => 1,
        Device::X16Byte => 2,
    };
    if let Some((place, byte)) = setup.other {
        table[place as usize] = byte;
    }
    table
}

// A set lock for each block, or none given.
fn locks(
    rt: &impl Abort,
    alloc: Global,
    table: &[u8; 512],
    blocks: &[Span],
    locked: bool,
) -> Result<Vec<bool>, AllocError>
    ensures count { IfOk result (λ v. IsTrue (is_none_or_each (length blocks.now) (length v.items))) }
    ensures offered { IfOk result (λ v. AreOffered table.now v.items) }
{
    if locked {
        assert!(rt; has_locks(table));
        let locks = vec![in alloc; true; blocks.len()]?;
        Ok(locks)
    } else {
        Ok(Vec::new(alloc))
    }
}

fn make_chip<C: Made>(rt: &impl Abort, alloc: Global, setup: Setup) -> Result<C, Fail> {
    let table = table(C::SET, setup);
    let blocks = blocks(alloc, setup.has_blocks)?;
    let locks = locks(rt, alloc, &table, &blocks, setup.locked)?;
    let cells = make_cells(
        alloc,
        CellParts {
            device: setup.device,
            table,
            bytes: vec![in alloc; 0xFF; SIZE]?,
            weak: weak_places(rt, alloc, setup.device, setup.weak)?,
            stuck: setup.stuck,
            pace_program: 2,
            pace_erase: 4,
            pace_suspend: 2,
            suspends: setup.counted,
            erases: setup.counted,
            blocks,
            locks,
        },
    )?;
    Ok(C::made(cells))
}

#[derive(Clone, Copy)]
enum Cycle {
    Write(u32, u16),
    // The two unlock cycles, and then a write.
    Unlocked(u32, u16),
    // A unit's program begins, and the erase of a unit's block.
    Program(u32, u16),
    Erase(u32),
    // The erase of all blocks begins.
    EraseAll,
    // A read, and what it shows.
    Read(u32, u16),
    Cut(u8),
    PowerOn,
    // How many suspends and erases were counted.
    Counted(u32, u32),
}

use Cycle::{Counted, Cut, Erase, EraseAll, PowerOn, Program, Read, Unlocked, Write};

fn units_of<C: Made>(chip: &C) -> u32
    ensures { result ≡ units (C.state chip.now) }
{
    let cells = chip.cells();
    (cells.bytes.len() / unit_len(cells.device)) as u32
}

fn write<C: Made>(rt: &impl Abort, chip: &mut C, at: u32, value: u16) {
    assert!(rt; at < units_of(chip));
    chip.write(at, value);
}

fn write_unlocked<C: Made>(rt: &impl Abort, chip: &mut C, at: u32, value: u16) {
    write(rt, chip, 0x555, 0xAA);
    write(rt, chip, 0x2AA, 0x55);
    write(rt, chip, at, value);
}

fn run<C: Made>(rt: &impl Abort, name: &str, chip: &mut C, cycles: &[Cycle]) {
    for (i, cycle) in cycles.iter().enumerate() {
        match cycle {
            Write(at, value) => write(rt, chip, *at, *value),
            Unlocked(at, value) => write_unlocked(rt, chip, *at, *value),
            Program(at, value) => {
                write_unlocked(rt, chip, 0x555, 0xA0);
                write(rt, chip, *at, *value);
            }
            Erase(at) => {
                write_unlocked(rt, chip, 0x555, 0x80);
                write_unlocked(rt, chip, *at, 0x30);
            }
            EraseAll => {
                write_unlocked(rt, chip, 0x555, 0x80);
                write_unlocked(rt, chip, 0x555, 0x10);
            }
            Read(at, want) => {
                assert!(rt; *at < units_of(chip));
                assert_eq!(rt; chip.read(*at), *want, "{name}: cycle {i}");
            }
            Cut(mask) => chip.cut(*mask),
            PowerOn => chip.power_on(),
            Counted(suspends, erases) => {
                assert_eq!(rt; chip.cells().suspends, *suspends, "{name}: cycle {i}");
                assert_eq!(rt; chip.cells().erases, *erases, "{name}: cycle {i}");
            }
        }
    }
}

// Its name, its setup, and the cycles that a chip goes through, in parts.
type Row = (&'static str, Setup, &'static [&'static [Cycle]]);

// Each row on a new chip.
fn go_through<C: Made>(rt: &impl Abort, alloc: Global, rows: &[Row]) -> Result<(), Fail> {
    for (name, setup, parts) in rows {
        let mut chip = make_chip::<C>(rt, alloc, *setup)?;
        for cycles in parts.iter() {
            run(rt, name, &mut chip, cycles);
        }
    }
    Ok(())
}

#[test]
fn chips_of_set_0001(rt: HostRuntime) -> Result<(), Fail> {
    go_through::<Intel>(&rt, rt.alloc(), &intel_commands::ROWS)?;
    go_through::<Intel>(&rt, rt.alloc(), &intel_jobs::ROWS)
}

#[test]
fn chips_of_set_0002(rt: HostRuntime) -> Result<(), Fail> {
    go_through::<Amd>(&rt, rt.alloc(), &amd_commands::ROWS)?;
    go_through::<Amd>(&rt, rt.alloc(), &amd_jobs::ROWS)?;
    go_through::<Amd>(&rt, rt.alloc(), &amd_faults::ROWS)?;
    go_through::<Amd>(&rt, rt.alloc(), &amd_all_blocks::ROWS)
}
