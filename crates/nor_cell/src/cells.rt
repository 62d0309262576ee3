ghost use Rattle.std.specs.Prelude.{◌≡◌, ◌≤◌, length, IsTrue};
ghost use Rattle.nor_cell.specs.Ranges.{is_chip_size, is_ascending_below, begin_units, are_blocks, AreOffered};

use crate::{Device, Span};
use std::alloc::AllocError;

/// Memory ran out.
pub type NoMemory = AllocError;

/// What a chip is made of. The paces and counters are numbers of status reads and of erases; `weak`
/// are the places, in bytes, at which programming and erasing break off. Where `locks` is empty
/// each block has an open lock.
#[derive(Drop)]
pub struct CellParts {
    pub device: Device,
    /// The low bytes of the query table's words 0x000 to 0x1FF.
    pub table: [u8; 512],
    pub bytes: Vec<u8>,
    pub weak: Vec<u32>,
    /// Whether a program or an erase never ends.
    pub stuck: bool,
    pub pace_program: u32,
    pub pace_erase: u32,
    pub pace_suspend: u8,
    pub suspends: u32,
    pub erases: u32,
    pub blocks: Vec<Span>,
    pub locks: Vec<bool>,
}

/// What a chip keeps without power, and its locks, one for each block.
#[derive(Drop)]
pub struct Cells {
    pub device: Device,
    pub table: [u8; 512],
    pub bytes: Vec<u8>,
    pub weak: Vec<u32>,
    pub stuck: bool,
    pub pace_program: u32,
    pub pace_erase: u32,
    pub pace_suspend: u8,
    pub suspends: u32,
    pub erases: u32,
    pub blocks: Vec<Span>,
    pub locks: Vec<bool>,
    pub ghost sized: { IsTrue (is_chip_size (length bytes.items)) },
    pub ghost ascending: { IsTrue (is_ascending_below (length bytes.items) weak.items) },
    pub ghost whole: { IsTrue (begin_units device weak.items) },
    pub ghost few_weak: { length weak.items ≤ 256 },
    pub ghost pace: { pace_suspend ≤ 16 },
    pub ghost follow: { IsTrue (are_blocks (length bytes.items) blocks.items) },
    pub ghost locked: { length locks.items ≡ length blocks.items },
    pub ghost offered: { AreOffered table locks.items },
}
