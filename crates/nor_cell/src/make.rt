ghost use Rattle.std.specs.Prelude.{◌≡◌, ◌≤◌, length, IsTrue, IfOk};
ghost use Rattle.nor_cell.specs.Ranges.{is_chip_size, is_ascending_below, begin_units, are_blocks, is_none_or_each, AreOffered};
ghost use Rattle.nor_cell.specs.Cells.{AreMadeOf, given_or_open};

use crate::{CellParts, Cells, NoMemory};
use std::alloc::Global;

// The locks that are given, or an open one for each block.
fn given_or_open(alloc: Global, given: Vec<bool>, blocks: usize) -> Result<Vec<bool>, NoMemory>
    ensures { IfOk result (λ locks. locks.items ≡ given_or_open given.items blocks) }
{
    if given.is_empty() {
        vec![in alloc; false; blocks]
    } else {
        Ok(given)
    }
}

/// The parts, and where they bring no locks, an open lock for each block, which alone takes memory.
pub fn make_cells(alloc: Global, parts: CellParts) -> Result<Cells, NoMemory>
    requires sized { IsTrue (is_chip_size (length parts.bytes.items)) }
    requires ascending { IsTrue (is_ascending_below (length parts.bytes.items) parts.weak.items) }
    requires whole { IsTrue (begin_units parts.device parts.weak.items) }
    requires few_weak { length parts.weak.items ≤ 256 }
    requires pace { parts.pace_suspend ≤ 16 }
    requires follow { IsTrue (are_blocks (length parts.bytes.items) parts.blocks.items) }
    requires locks { IsTrue (is_none_or_each (length parts.blocks.items) (length parts.locks.items)) }
    requires offered { AreOffered parts.table parts.locks.items }
    ensures made { IfOk result (AreMadeOf parts) }
{
    let CellParts {
        device,
        table,
        bytes,
        weak,
        stuck,
        pace_program,
        pace_erase,
        pace_suspend,
        suspends,
        erases,
        blocks,
        locks,
    } = parts;
    let locks = given_or_open(alloc, locks, blocks.len())?;
    Ok(Cells {
        device,
        table,
        bytes,
        weak,
        stuck,
        pace_program,
        pace_erase,
        pace_suspend,
        suspends,
        erases,
        blocks,
        locks,
    })
}
