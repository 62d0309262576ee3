//! The chip on its bus.
ghost use Rattle.std.specs.Prelude.{◌≡◌, ◌<◌, ◌^◌};
ghost use Rattle.nor_cell.specs.Bits.{unit_len};
ghost use Rattle.nor_cell.specs.Cells.{chip_of};
ghost use Rattle.nor_cell.specs.Chip.{units};
ghost use Rattle.nor_cell.specs.Look.{look};
ghost use Rattle.nor_cell.specs.Power.{powered};
ghost use Rattle.nor_cell.specs.Simulated.{LeavesBroken, CutsBy};
ghost use Rattle.nor_cell.specs.Steps.{Reads, Keeps};

use crate::commands::{SUSPEND, step};
use crate::shown::shown;
use crate::toggles::toggle;
use nor_cell::{Cells, Chip, Machine, Set};
use std::marker::Model;

/// A simulated chip of the AMD set, seen as its `ChipState`.
#[derive(Drop)]
pub struct Amd {
    machine: Machine,
}

impl Model for Amd {
    ghost use Rattle.std.specs.Prelude.{◌≡◌};
    ghost use Rattle.nor_cell.specs.Chip.{ChipState};
    ghost use Rattle.nor_cell.specs.declared.device.Set.TheVariants.{Amd as AmdSet};

    ghost Value = { ChipState };

    ghost view = { λ a. a.machine };

    ghost invariant = { λ a. a.machine.part.set ≡ AmdSet };
}

impl Amd {
    /// A chip with these cells, as after power-on, which keeps their locks. It takes no memory.
    pub fn new(cells: Cells) -> Amd
        ensures powered { result ≡ powered (chip_of Set.Amd cells) }
        ensures locks { result.locks ≡ cells.locks.items }
    {
        Amd {
            machine: Machine::new(Set::Amd, cells),
        }
    }
}

impl Chip for Amd {
    ghost state = { λ chip. chip };

    ghost leaves = { CutsBy };

    fn read(&mut self, at: u32) -> u16
        requires { at < units self.old }
        ensures step { Reads self.old at result self.new }
        ensures fits { result < 256 ^ unit_len (self.old).part.device }
        ensures kept { Keeps self.old self.new }
        // What a job that breaks off leaves.
        ensures broken { LeavesBroken self.old (look self.old) (self.new).cells }
    {
        self.machine.look();
        toggle(&mut self.machine, at);
        shown(&self.machine, at)
    }

    fn write(&mut self, at: u32, value: u16) {
        if !self.machine.runs() {
            step(&mut self.machine, at, value);
        } else if value.to_le_bytes()[0] == SUSPEND {
            self.machine.suspend();
        }
    }

    fn cut(&mut self, mask: u8) {
        self.machine.cut(mask);
    }

    fn power_on(&mut self) {
        self.machine.power_on();
    }

    fn cells(&self) -> &Cells {
        self.machine.cells()
    }
}
