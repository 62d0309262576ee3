//! Buffer loads, and the programs that begin with them.
ghost use Rattle.std.specs.Prelude.{◌≡◌, ◌+◌, ◌*◌, ◌<◌, ◌≤◌, ◌++◌, [], ◌∷◌, length, true};
ghost use Rattle.nor_cell.specs.Bits.{unit_len, unit_bytes};
ghost use Rattle.nor_cell.specs.Chip.{Idle, NoFault, Part, BufferData, BufferConfirm, units};
ghost use Rattle.nor_cell.specs.Loads.{room};
ghost use Rattle.nor_cell.specs.Machine.{load_of, takes, loaded, program_started};

use crate::bits::unit_len;
use crate::state::{NextStep, RunningJob};
use crate::table::{buffer_units, left_at_start};
use crate::{Device, Machine, Work};
use arrayvec::ArrayVec;

// A unit's bytes are loaded behind the others.
fn push_unit(load: &mut ArrayVec<u8, 512>, device: Device, value: u16)
    requires { length load.old.items + unit_len device ≤ 512 }
    ensures { load.new.items ≡ load.old.items ++ unit_bytes device value }
{
    let [low, high] = value.to_le_bytes();
    load.push(low);
    if matches!(device, Device::X16) {
        load.push(high);
    }
}

impl Machine {
    /// How many units a buffer load may have. 0: the chip takes none.
    pub fn room(&self) -> u16
        ensures value { result ≡ room self.now }
        ensures few { unit_len self.now.part.device * result ≤ 512 }
    {
        buffer_units(self.cells.device, &self.cells.table)
    }

    /// So many units are expected, for a block.
    pub fn begin_load(&mut self, block: usize, missing: u16)
        requires some { 0 < missing }
        requires room { missing ≤ room self.old }
        requires job { (self.old).job ≡ Idle }
        requires fault { (self.old).fault ≡ NoFault }
        ensures { self.new ≡ record self.old { step = BufferData block missing 0 [] } }
    {
        let _few = self.room();
        self.load.clear();
        self.step = NextStep::BufferData {
            block,
            missing,
            first: 0,
        };
    }

    /// Whether a unit is the one that a buffer load may take next: the first anywhere in the load's
    /// block, each later one behind the one before, in the same page and block.
    pub fn takes(&self, at: u32) -> bool
        requires { at < units self.now }
        ensures { result ≡ takes (self.now).step self.now at }
    {
        let NextStep::BufferData { block, first, .. } = self.step else {
            return false;
        };
        let unit = unit_len(self.cells.device) as u32;
        let page = self.room() as u32;
        self.block_of(at) == block
            && (self.load.is_empty()
                || unit * at == unit * first + self.load.len() as u32 && at / page == first / page)
    }

    /// The next unit of a buffer load is taken. After the last one the load waits for its confirm.
    pub fn take_unit(&mut self, at: u32, value: u16)
        requires unit { at < units self.old }
        requires next { takes (self.old).step self.old at ≡ true }
        requires job { (self.old).job ≡ Idle }
        requires fault { (self.old).fault ≡ NoFault }
        ensures { self.new ≡ loaded (self.old).step self.old at value }
    {
        if let NextStep::BufferData {
            block,
            missing,
            first,
        } = self.step
        {
            let first = if self.load.is_empty() { at } else { first };
            push_unit(&mut self.load, self.cells.device, value);
            self.step = if missing > 1 {
                NextStep::BufferData {
                    block,
                    missing: missing - 1,
                    first,
                }
            } else {
                NextStep::BufferConfirm { first }
            };
        }
    }

    /// One unit is loaded, as if it were a whole buffer load.
    pub fn load_unit(&mut self, at: u32, value: u16)
        requires unit { at < units self.old }
        requires job { (self.old).job ≡ Idle }
        requires fault { (self.old).fault ≡ NoFault }
        ensures { self.new ≡ record self.old
            { step = BufferConfirm at (unit_bytes (self.old).part.device value) } }
    {
        self.load.clear();
        push_unit(&mut self.load, self.cells.device, value);
        self.step = NextStep::BufferConfirm { first: at };
    }

    /// What is loaded is programmed, from a unit on.
    pub fn start_program(&mut self, work: Work, first: u32)
        requires { (self.old).step ≡ BufferConfirm first (load_of (self.old).step) }
        ensures { self.new ≡ program_started work first (load_of (self.old).step) self.old }
    {
        self.step = NextStep::Rest;
        self.job = RunningJob::Program {
            at: unit_len(self.cells.device) as u32 * first,
            left: left_at_start(work, self.cells.pace_program, &self.cells.table),
        };
    }
}
