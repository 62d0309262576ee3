//! A chip whose blocks differ in size: three of 1,024 bytes, and then eight of 128.
ghost use Rattle.std.specs.Prelude.{◌≡◌, ◌+◌, ◌*◌, ◌<◌, IsTrue, IfOk};
ghost use Rattle.nor_cell.specs.Ranges.{are_blocks};

use super::Cycle::{Erase, Program, Read, Unlocked, Write};
use super::{Cycle, run};
use crate::tables;
use nor_amd::Amd;
use nor_cell::{CellParts, Device, Span, make_cells};
use std::alloc::{AllocError, Global};
use std::test::Fail;

const SIZE: usize = 4096;

fn large(number: u32) -> Span
    requires { number < 3 }
    ensures { result ≡ record { from = 1024 * number; len = 1024 } }
{
    Span {
        from: 1024 * number,
        len: 1024,
    }
}

fn small(number: u32) -> Span
    requires { number < 8 }
    ensures { result ≡ record { from = 3072 + 128 * number; len = 128 } }
{
    Span {
        from: 3072 + 128 * number,
        len: 128,
    }
}

fn blocks(alloc: Global) -> Result<Vec<Span>, AllocError>
    ensures { IfOk result (λ v. IsTrue (are_blocks 4096 v.items)) }
{
    let blocks = vec![in alloc;
        large(0),
        large(1),
        large(2),
        small(0),
        small(1),
        small(2),
        small(3),
        small(4),
        small(5),
        small(6),
        small(7),
    ]?;
    Ok(blocks)
}

fn make_boot_chip(alloc: Global) -> Result<Amd, AllocError> {
    let cells = make_cells(
        alloc,
        CellParts {
            device: Device::X16,
            table: tables::top_boot(),
            bytes: vec![in alloc; 0xFF; SIZE]?,
            weak: Vec::new(alloc),
            stuck: false,
            pace_program: 2,
            pace_erase: 4,
            pace_suspend: 2,
            suspends: 0,
            erases: 0,
            blocks: blocks(alloc)?,
            locks: Vec::new(alloc),
        },
    )?;
    Ok(Amd::new(cells))
}

const CYCLES: [Cycle; 24] = [
    // the first of the small blocks is locked
    Unlocked(0x555, 0xE0),
    Write(0, 0xA0),
    Write(0x620, 0x00),
    Read(0x5FF, 1),
    Read(0x600, 0),
    Read(0x63F, 0),
    Read(0x640, 1),
    Write(0, 0x90),
    Write(0, 0x00),
    // the second one is erased, and the last stays
    Program(0x640, 0x1234),
    Read(0, 0xC0),
    Read(0, 0x80),
    Read(0x640, 0x1234),
    Program(0x7FF, 0x5678),
    Read(0, 0xC0),
    Read(0, 0x80),
    Read(0x7FF, 0x5678),
    Erase(0x67F),
    Read(0, 0x4C),
    Read(0, 0x08),
    Read(0, 0x4C),
    Read(0, 0x08),
    Read(0x640, 0xFFFF),
    Read(0x7FF, 0x5678),
];

#[test]
fn each_block_by_its_own_size(rt: HostRuntime) -> Result<(), Fail> {
    let mut chip = make_boot_chip(rt.alloc())?;
    run(&rt, "boot", &mut chip, &CYCLES);
    Ok(())
}
