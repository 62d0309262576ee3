//! What `BlockMap` asks of its regions: one step for each region.
ghost use Rattle.std.specs.Prelude.{◌≡◌, ◌<◌, length};
ghost use Rattle.nor_cell.specs.Chip.{block as nth, block_at};
ghost use Rattle.nor_region.specs.Map.{IsMap, spans_of};
ghost use Rattle.nor_region.specs.Regions.{total_len};

use crate::Region;
use nor_cell::Span;

// How many blocks the regions have.
pub(crate) fn count_blocks(regions: &[Region]) -> u32
    requires { IsMap regions.now }
    ensures { result ≡ length (spans_of regions.now) }
{
    let mut blocks = 0;
    for region in regions {
        blocks += region.count;
    }
    blocks
}

// The block of a place.
pub(crate) fn block_at(regions: &[Region], at: u32) -> u32
    requires map { IsMap regions.now }
    requires inside { at < total_len regions.now }
    ensures { result ≡ block_at (spans_of regions.now) at }
{
    let mut first = 0;
    let mut from = 0;
    for region in regions {
        let len = region.count * region.size;
        if at - from < len {
            return first + (at - from) / region.size;
        }
        first += region.count;
        from += len;
    }
    unreachable!()
}

// The bytes of a block.
pub(crate) fn span_at(regions: &[Region], block: u32) -> Span
    requires map { IsMap regions.now }
    requires inside { block < length (spans_of regions.now) }
    ensures { result ≡ nth (spans_of regions.now) block }
{
    let mut from = 0;
    let mut left = block;
    for region in regions {
        if left < region.count {
            return Span {
                from: from + left * region.size,
                len: region.size,
            };
        }
        from += region.count * region.size;
        left -= region.count;
    }
    unreachable!()
}
