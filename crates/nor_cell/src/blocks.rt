//! The blocks of a chip: which one a place lies in, and where each lies.
ghost use Rattle.std.specs.Prelude.{◌≡◌, ◌<◌, ◌≤◌, ◌^◌, length};
ghost use Rattle.nor_cell.specs.Chip.{block_at, block, blocks_end, covered, span_end};
ghost use Rattle.nor_cell.specs.Machine.{target_of};

use crate::state::EraseTarget;
use crate::{Cells, Span};

/// The number of the block in which a place lies, or the number of blocks where it lies in none.
/// It costs a binary search.
pub(crate) fn block_at(cells: &Cells, place: u32) -> usize
    ensures { result ≡ block_at cells.now.blocks.items place }
{
    cells
        .blocks
        .as_slice()
        .partition_point(|span| span.from as u64 + span.len as u64 <= place as u64)
}

/// Where a block lies. A block that isn't there has no bytes.
pub fn block(cells: &Cells, number: usize) -> Span
    ensures span { result ≡ block cells.now.blocks.items number }
    ensures inside { span_end result ≤ length cells.now.bytes.items }
{
    if number < cells.blocks.len() {
        cells.blocks[number]
    } else {
        Span { from: 0, len: 0 }
    }
}

// All that the blocks cover: the whole chip, or nothing where there are none.
fn all_blocks(cells: &Cells) -> Span
    requires { length cells.now.bytes.items < 2 ^ 32 }
    ensures span { result ≡ record { from = 0; len = blocks_end cells.now.blocks.items } }
    ensures inside { span_end result ≤ length cells.now.bytes.items }
{
    let len = if cells.blocks.is_empty() {
        0
    } else {
        cells.bytes.len() as u32
    };
    Span { from: 0, len }
}

/// What an erase covers.
pub(crate) fn covered(cells: &Cells, target: EraseTarget) -> Span
    requires { length cells.now.bytes.items < 2 ^ 32 }
    ensures span { result ≡ covered (target_of target) cells.now.blocks.items }
    ensures inside { span_end result ≤ length cells.now.bytes.items }
{
    match target {
        EraseTarget::OneBlock { block: number } => block(cells, number),
        EraseTarget::AllBlocks => all_blocks(cells),
    }
}
