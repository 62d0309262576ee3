//! The chips of a bank that is made.
ghost use Rattle.std.specs.Prelude.{◌≡◌, ◌<◌, ◌≤◌, ◌*◌, ◌^◌, length, IfOk, IsTrue, None};
ghost use Rattle.nor_cell.specs.Bits.{unit_len};
ghost use Rattle.nor_cell.specs.Cells.{chip_of};
ghost use Rattle.nor_cell.specs.Power.{powered};
ghost use Rattle.nor_cell.specs.Ranges.{are_blocks, is_chip_size};
ghost use Rattle.nor_cell.specs.Table.{set_of, field_8};
ghost use Rattle.nor_lane.specs.Candidates.{is_geometry};
ghost use Rattle.nor_query.specs.Checks.{first_error};
ghost use Rattle.nor_query.specs.Derived.{table_blocks};
ghost use Rattle.nor_region.specs.Map.{spans_of};
ghost use Rattle.nor_image.specs.Reading.{chips_of};
ghost use Rattle.nor_dump.specs.Made.{CanMake, chip_size, lane_cells, made_chip, made_chips};

use crate::Change;
use crate::changes::{is_stuck, paces_of, weak_of};
use nor_cell::{CellParts, Cells, Geometry, NoMemory, Span, make_cells};
use nor_lane::join;
use nor_query::decode;
use nor_region::BlockMap;
use std::alloc::Global;

// The bytes of the bank that a lane's chip of so many bytes has.
fn lane_cells(
    alloc: Global,
    g: Geometry,
    raw: &[u8],
    lane: u8,
    size: u32,
) -> Result<Vec<u8>, NoMemory>
    requires wiring { IsTrue (is_geometry g) }
    requires lane { lane < g.lanes }
    requires sized { IsTrue (is_chip_size size) }
    requires whole { length raw.now ≡ g.lanes * size }
    ensures { IfOk result (λ cells. cells.items ≡ lane_cells g raw.now lane size) }
{
    let mut cells = Vec::with_capacity(alloc, size as usize)?;
    for place in 0..size {
        cells.push(raw[join(g, lane, place) as usize])?;
    }
    Ok(cells)
}

/// How many bytes a chip with this table has.
pub fn chip_len(table: &[u8; 512]) -> u32
    requires { first_error table.now ≡ None }
    ensures value { result ≡ chip_size table.now }
    ensures sized { IsTrue (is_chip_size result) }
{
    let query = decode(table).unwrap();
    query.block_map().size()
}

// The blocks of a map.
fn spans_of(alloc: Global, map: &BlockMap) -> Result<Vec<Span>, NoMemory>
    ensures { IfOk result (λ spans. spans.items ≡ spans_of map.now) }
{
    let mut spans = Vec::with_capacity(alloc, map.blocks() as usize)?;
    for block in 0..map.blocks() {
        spans.push(map.span(block))?;
    }
    Ok(spans)
}

// The blocks of a chip with this table.
fn blocks_of(alloc: Global, table: &[u8; 512]) -> Result<Vec<Span>, NoMemory>
    requires { first_error table.now ≡ None }
    ensures blocks { IfOk result (λ blocks. blocks.items ≡ table_blocks table.now) }
    ensures follow { IfOk result (λ blocks. IsTrue (are_blocks (chip_size table.now) blocks.items)) }
{
    let query = decode(table).unwrap();
    let map = query.block_map();
    // Its blocks follow each other up to its size.
    let _ = map.size();
    spans_of(alloc, &map)
}

// The cells of one lane.
fn cells_of(
    alloc: Global,
    g: Geometry,
    table: &[u8; 512],
    changes: &[Change],
    raw: &[u8],
    width: u8,
    lane: u8,
) -> Result<Cells, NoMemory>
    requires can { CanMake width g table.now changes.now raw.now }
    requires lane { lane < g.lanes }
    ensures { IfOk result (λ cells. powered (chip_of (set_of table.now) cells)
        ≡ made_chip g table.now changes.now raw.now lane) }
{
    let paces = paces_of(changes);
    let parts = CellParts {
        device: g.device,
        table: *table,
        bytes: lane_cells(alloc, g, raw, lane, chip_len(table))?,
        weak: weak_of(alloc, lane, changes)?,
        stuck: is_stuck(lane, changes),
        pace_program: paces.program,
        pace_erase: paces.erase,
        pace_suspend: paces.suspend,
        suspends: 0,
        erases: 0,
        blocks: blocks_of(alloc, table)?,
        locks: Vec::new(alloc),
    };
    make_cells(alloc, parts)
}

/// The cells of all lanes.
pub fn lanes_of(
    alloc: Global,
    g: Geometry,
    table: &[u8; 512],
    changes: &[Change],
    raw: &[u8],
    width: u8,
) -> Result<Vec<Cells>, NoMemory>
    requires can { CanMake width g table.now changes.now raw.now }
    ensures { IfOk result (λ lanes. chips_of (set_of table.now) lanes.items
        ≡ made_chips g table.now changes.now raw.now g.lanes) }
{
    let mut lanes = Vec::with_capacity(alloc, usize::from(g.lanes))?;
    for lane in 0..g.lanes {
        lanes.push(cells_of(alloc, g, table, changes, raw, width, lane)?)?;
    }
    Ok(lanes)
}
