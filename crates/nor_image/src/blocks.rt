//! The blocks that a query table gives.
ghost use Rattle.std.specs.Prelude.{◌≡◌, ◌≤◌, length, IfOk, IsTrue};
ghost use Rattle.nor_cell.specs.Ranges.{are_blocks};
ghost use Rattle.nor_region.specs.Map.{spans_of};
ghost use Rattle.nor_region.specs.Regions.{total_len};
ghost use Rattle.nor_query.specs.Derived.{table_blocks};
ghost use Rattle.nor_image.specs.Image.{is_size_by};

use nor_cell::{NoMemory, Span};
use nor_query::decode;
use nor_region::BlockMap;
use std::alloc::Global;

// The blocks of a map.
fn spans_of(alloc: Global, map: &BlockMap) -> Result<Vec<Span>, NoMemory>
    ensures spans { IfOk result (λ spans. spans.items ≡ spans_of map.now) }
    ensures few { IfOk result (λ spans. length spans.items ≤ total_len map.now) }
{
    // Each region has blocks of some bytes.
    let _ = map.regions();
    let mut spans = Vec::with_capacity(alloc, map.blocks() as usize)?;
    for block in 0..map.blocks() {
        spans.push(map.span(block))?;
    }
    Ok(spans)
}

/// The blocks of a chip of so many bytes with this table: none where the table is refused.
pub fn blocks_of_table(alloc: Global, table: &[u8; 512], size: u32) -> Result<Vec<Span>, NoMemory>
    requires { IsTrue (is_size_by table.now size) }
    ensures blocks { IfOk result (λ blocks. blocks.items ≡ table_blocks table.now) }
    ensures follow { IfOk result (λ blocks. IsTrue (are_blocks size blocks.items)) }
    ensures few { IfOk result (λ blocks. length blocks.items ≤ size) }
{
    match decode(table) {
        Ok(query) => spans_of(alloc, &query.block_map()),
        Err(_) => Ok(Vec::new(alloc)),
    }
}
