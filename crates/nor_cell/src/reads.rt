//! What a simulated chip tells of itself.
ghost use Rattle.std.specs.Prelude.{◌≡◌, ◌<◌, ◌^◌, length};
ghost use Rattle.nor_cell.specs.Bits.{AreBytes, unit_len, unit_at};
ghost use Rattle.nor_cell.specs.Cells.{HasCells};
ghost use Rattle.nor_cell.specs.Chip.{Part, units, block_of, is_locked, is_any_set, is_held, runs};
ghost use Rattle.nor_cell.specs.Shown.{register, query_at};
ghost use Rattle.nor_cell.specs.Look.{held_off};
ghost use Rattle.nor_cell.specs.Ranges.{IsChip};

use crate::bits::{unit_at, unit_len};
use crate::blocks::block_at;
use crate::state::{HeldErase, RunningJob};
use crate::table::can_program_suspended;
use crate::{Cells, Device, Machine};

/// The register of the query table or of the identifiers that a unit shows.
pub fn register(device: Device, unit: u32) -> u32
    ensures { result ≡ register device unit }
{
    match device {
        Device::X8 => unit,
        Device::X16 => unit,
        Device::X16Byte => unit / 2,
    }
}

// What the type of cells says.
fn are_bytes(bytes: &[u8])
    ensures { AreBytes bytes.now }
{}

// What the type of a query table says.
fn is_table(table: &[u8; 512])
    ensures size { length table.now ≡ 512 }
    ensures bytes { AreBytes table.now }
{
    are_bytes(table.as_slice());
}

impl Machine {
    /// What the chip keeps without power, and its locks.
    pub fn cells(&self) -> &Cells
        ensures cells { HasCells self.now result.now }
        ensures ranges { IsChip self.now }
    {
        are_bytes(&self.cells.bytes);
        is_table(&self.cells.table);
        &self.cells
    }

    /// A unit of the array.
    pub fn array_unit(&self, at: u32) -> u16
        requires { at < units self.now }
        ensures value { result ≡ unit_at self.now.part.device self.now.cells at }
        ensures fits { result < 256 ^ unit_len self.now.part.device }
    {
        unit_at(self.cells.device, &self.cells.bytes, at as usize)
    }

    /// What a unit shows of the query table: 0 below register 0x10 and from 0x200 on.
    pub fn query_byte(&self, at: u32) -> u8
        ensures { result ≡ query_at self.now.part at }
    {
        let register = register(self.cells.device, at);
        if 0x10 <= register && register < 0x200 {
            self.cells.table[register as usize]
        } else {
            0
        }
    }

    /// The number of the block in which a unit lies. It costs a binary search.
    pub fn block_of(&self, at: u32) -> usize
        requires { at < units self.now }
        ensures { result ≡ block_of self.now at }
    {
        block_at(&self.cells, at * unit_len(self.cells.device) as u32)
    }

    /// Whether a block is locked.
    pub fn is_locked(&self, block: usize) -> bool
        ensures { result ≡ is_locked self.now block }
    {
        block < self.cells.locks.len() && self.cells.locks[block]
    }

    /// Whether any block is locked.
    pub fn is_any_locked(&self) -> bool
        ensures { result ≡ is_any_set self.now.locks }
    {
        self.cells.locks.iter().any(|locked| *locked)
    }

    /// Whether a job runs.
    pub fn runs(&self) -> bool
        ensures { result ≡ runs self.now.job }
    {
        !matches!(self.job, RunningJob::Idle)
    }

    /// Whether an erase is suspended.
    pub fn is_held(&self) -> bool
        ensures { result ≡ is_held self.now.held }
    {
        matches!(self.held, HeldErase::Block { .. })
    }

    /// Whether a suspended erase keeps a block from being programmed.
    pub fn held_off(&self, block: usize) -> bool
        ensures { result ≡ held_off self.now block }
    {
        match self.held {
            HeldErase::None => false,
            HeldErase::Block { block: held, .. } => {
                !can_program_suspended(&self.cells.table) || block == held
            }
        }
    }
}
