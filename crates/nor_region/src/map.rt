ghost use Rattle.std.specs.Prelude.{◌≡◌, ◌<◌, ◌≤◌, ◌*◌, ◌^◌, ℕ, map, length, IsTrue, IfOk};
ghost use Rattle.std.specs.Result.{result_err};
ghost use Rattle.nor_cell.specs.Chip.{block as nth, block_at, is_within};
ghost use Rattle.nor_cell.specs.Ranges.{are_blocks, follow_to};
ghost use Rattle.nor_region.specs.Map.{IsMap, spans_of, in_order, refusal, scaled_region, scaled_span};
ghost use Rattle.nor_region.specs.Regions.{are_regions, total_len};

use crate::look::{block_at, count_blocks, span_at};
use crate::region::sum_lens;
use crate::{MAX_REGIONS, Region, RegionError, total_len};
use arrayvec::ArrayVec;
use nor_cell::Span;
use std::marker::Model;

/// The blocks of a chip, or of a bank of chips side by side: its regions, one behind the other
/// from address 0 on.
#[derive(Clone, Debug, PartialEq, Eq, Drop)]
pub struct BlockMap {
    regions: ArrayVec<Region, 8>,
}

impl Model for BlockMap {
    ghost use Rattle.std.specs.Prelude.{List};
    ghost use Rattle.nor_region.specs.declared.region.Region.{Region};
    ghost use Rattle.nor_region.specs.Map.{IsMap};

    ghost Value = { List Region };

    ghost view = { λ m. m.regions.items };

    ghost invariant = { λ m. IsMap m.regions.items };

    ghost inverse = { λ regions. record { regions = record { items = regions } } };
}

/// The map of a chip of `size` bytes with these regions, in the table's order; a reversed chip has
/// the last of them at its lowest address. Refused are, in this order, no region (`NoRegions`),
/// more than eight (`TooManyRegions`), and regions that have more or fewer bytes than the chip
/// (`SizeMismatch`).
pub fn block_map(regions: &[Region], reversed: bool, size: u32) -> Result<BlockMap, RegionError>
    requires { IsTrue (are_regions regions.now) }
    ensures refused { result_err result ≡ refusal regions.now size }
    ensures map { IfOk result (λ m. m ≡ in_order reversed regions.now) }
    ensures whole { IfOk result (λ m. total_len m ≡ size) }
{
    if regions.is_empty() {
        return Err(RegionError::NoRegions);
    }
    if regions.len() > MAX_REGIONS {
        return Err(RegionError::TooManyRegions);
    }
    let sum = total_len(regions);
    let size = u64::from(size);
    if sum != size {
        return Err(RegionError::SizeMismatch { sum, size });
    }
    Ok(BlockMap {
        regions: in_order(regions, reversed),
    })
}

// The regions, or the last of them first.
fn in_order(regions: &[Region], reversed: bool) -> ArrayVec<Region, 8>
    requires { length regions.now ≤ 8 }
    ensures { result.items ≡ in_order reversed regions.now }
{
    let mut ordered = ArrayVec::new();
    ordered.try_extend_from_slice(regions).unwrap();
    if reversed {
        ordered.as_mut_slice().reverse();
    }
    ordered
}

// The regions of so many chips side by side.
fn scaled(regions: &[Region], lanes: u8) -> ArrayVec<Region, 8>
    requires map { IsMap regions.now }
    requires lanes { lanes ≤ 4 }
    requires chip { total_len regions.now ≤ 2 ^ 27 }
    ensures { result.items ≡ map (scaled_region lanes) regions.now }
{
    let mut wide = ArrayVec::new();
    for region in regions {
        wide.push(Region {
            count: region.count,
            size: u32::from(lanes) * region.size,
        });
    }
    wide
}

impl BlockMap {
    /// The map of a bank of `lanes` such chips side by side, 1 to 4 of them: each block begins at
    /// `lanes` times its address, and has `lanes` times its bytes. The map is that of one chip, of
    /// at most 128 MiB.
    pub fn scaled(&self, lanes: u8) -> BlockMap
        requires some { 0 < lanes }
        requires few { lanes ≤ 4 }
        requires chip { total_len self.now ≤ 2 ^ 27 }
        ensures regions { result ≡ map (scaled_region lanes) self.now }
        ensures spans { spans_of result ≡ map (scaled_span lanes) (spans_of self.now) }
        ensures size { total_len result ≡ lanes * total_len self.now }
    {
        BlockMap {
            regions: scaled(self.regions(), lanes),
        }
    }

    /// How many blocks it has.
    pub fn blocks(&self) -> u32
        ensures { result ≡ length (spans_of self.now) }
    {
        count_blocks(self.regions())
    }

    /// How many bytes it has. Its blocks follow each other from address 0 to there.
    pub fn size(&self) -> u32
        ensures size { result ≡ total_len self.now }
        ensures partition { IsTrue (follow_to result 0 (spans_of self.now)) }
        ensures blocks { IsTrue (are_blocks result (spans_of self.now)) }
    {
        sum_lens(self.regions()) as u32
    }

    /// The regions in the order of their addresses, one to eight of them.
    pub fn regions(&self) -> &[Region]
        ensures regions { result.now ≡ self.now }
        ensures map { IsMap self.now }
    {
        self.regions.as_slice()
    }

    /// The bytes of a block, counted from 0.
    pub fn span(&self, block: u32) -> Span
        requires { block < length (spans_of self.now) }
        ensures { result ≡ nth (spans_of self.now) block }
    {
        span_at(self.regions(), block)
    }

    /// The block in which an address lies, and no other one does.
    pub fn block_of(&self, at: u32) -> u32
        requires { at < total_len self.now }
        ensures first { result ≡ block_at (spans_of self.now) at }
        ensures block { result < length (spans_of self.now) }
        ensures inside { IsTrue (is_within (nth (spans_of self.now) result) at) }
        ensures only { (b : ℕ) → b < length (spans_of self.now)
            → IsTrue (is_within (nth (spans_of self.now) b) at) → b ≡ result }
    {
        block_at(self.regions(), at)
    }
}
