//! Wirings that are one, and cells with their locks.
ghost use Rattle.std.specs.Prelude.{◌≡◌, IsTrue, IfOk, length};
ghost use Rattle.nor_cell.specs.Ranges.{are_blocks, is_none_or_each, AreOffered};

use nor_cell::{
    BadGeometry, CellParts, Cells, Device, Geometry, Span, has_locks, make_cells, make_geometry,
};
use std::alloc::{AllocError, Global};
use std::test::Fail;

#[test]
fn the_nine_wirings_and_no_others(rt: HostRuntime) {
    use Device::{X8, X16, X16Byte};
    for (width, lanes, device) in [
        (1, 1, X8),
        (1, 1, X16Byte),
        (2, 2, X8),
        (2, 2, X16Byte),
        (2, 1, X16),
        (4, 4, X8),
        (4, 4, X16Byte),
        (4, 2, X16),
        (8, 4, X16),
    ] {
        assert_eq!(rt;
            make_geometry(width, lanes, device),
            Ok(Geometry { lanes, device })
        );
    }
    for (width, lanes, device) in [
        (0, 0, X8),
        (1, 1, X16),
        (3, 3, X8),
        (4, 1, X16),
        (8, 8, X8),
        (8, 4, X8),
        (2, 1, X8),
        (4, 2, X16Byte),
    ] {
        assert_eq!(rt; make_geometry(width, lanes, device), Err(BadGeometry));
    }
}

fn halves(alloc: Global) -> Result<Vec<Span>, AllocError>
    ensures { IfOk result (λ v. IsTrue (are_blocks 4096 v.items) × (length v.items ≡ 2)) }
{
    let halves = vec![in alloc;
        Span { from: 0, len: 1024 },
        Span {
            from: 1024,
            len: 3072
        },
    ]?;
    Ok(halves)
}

// A chip of two blocks with these locks.
fn made(alloc: Global, table: [u8; 512], locks: Vec<bool>) -> Result<Cells, AllocError>
    requires count { IsTrue (is_none_or_each 2 (length locks.items)) }
    requires offered { AreOffered table locks.items }
{
    make_cells(
        alloc,
        CellParts {
            device: Device::X16,
            table,
            bytes: vec![in alloc; 0xFF; 4096]?,
            weak: vec![in alloc; 4, 4094]?,
            stuck: false,
            pace_program: 2,
            pace_erase: 4,
            pace_suspend: 2,
            suspends: 5,
            erases: 6,
            blocks: halves(alloc)?,
            locks,
        },
    )
}

#[test]
fn cells_are_made_with_open_locks_or_those_given(rt: HostRuntime) -> Result<(), Fail> {
    let alloc = rt.alloc();
    // a table of set 0002 that offers locks
    let mut table = [0; 512];
    table[0x13] = 2;
    table[0x15] = 0x31;
    table[0x3A] = 8;
    assert!(rt; has_locks(&table));
    let open = made(alloc, table, Vec::new(alloc))?;
    assert_eq!(rt; open.locks.as_slice(), [false, false].as_slice());
    assert_eq!(rt; open.weak.as_slice(), [4, 4094].as_slice());
    let given = made(alloc, table, vec![in alloc; false, true]?)?;
    assert_eq!(rt; given.locks.as_slice(), [false, true].as_slice());
    Ok(())
}
