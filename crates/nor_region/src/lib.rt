//! Erase regions and the block map.
//!
//! A chip is divided into erase regions, each so many blocks of one size (JEDEC JESD68, "Erase
//! Block Region Information"). Laid end to end they give the blocks, which partition the chip: each
//! address lies in exactly one block, and each block begins where the one before it ends.
//!
//! `block_map` lays the regions of a query table out, the last of them first where the chip is
//! reversed, and says why they don't fit the chip where they don't. `BlockMap` finds the block of
//! an address and the span of a block in at most eight steps, and `scaled` makes the map of a bank
//! of chips side by side. Contracts see a `BlockMap` as its list of regions, and `spans_of` in
//! `specs/Map.antt` says which blocks they are.
//!
//! It takes no memory, and stands on `nor_cell` for `Span` and the words on spans.
#![tactic(auto)]

mod look;
mod map;
mod region;

pub use map::{BlockMap, block_map};
pub use region::{MAX_REGIONS, Region, RegionError, total_len};
