//! A simulated chip of either set: its cells, where it stands in its commands, and what both sets
//! make of a read, of a loss of power, and of its return.
ghost use Rattle.std.specs.Prelude.{◌≡◌, true, false};
ghost use Rattle.nor_cell.specs.Cells.{chip_of};
ghost use Rattle.nor_cell.specs.Chip.{set_lock};
ghost use Rattle.nor_cell.specs.Look.{look, looked, LooksTo, suspended, resumed};
ghost use Rattle.nor_cell.specs.Machine.{is_over, target_of, erase_started};
ghost use Rattle.nor_cell.specs.Power.{Cuts, locks_after, powered};
ghost use Rattle.nor_cell.specs.Simulated.{CutsBy, CutsHeld, CutsJob, LeavesBroken};
ghost use Rattle.nor_cell.specs.Steps.{Keeps};
ghost use Rattle.nor_cell.specs.Table.{has_locks};

use crate::bits::unit_len;
use crate::blocks::{block, covered};
use crate::ends::{erase, program, set_bits, store_partly};
use crate::state::{EraseTarget, Failure, HeldErase, NextStep, RunningJob, ShownMode, StatusFlags};
use crate::table::{can_suspend, has_locks, left_at_start};
use crate::{Cells, Set, Work};
use arrayvec::ArrayVec;
use std::marker::Model;

/// A simulated chip, seen as its `ChipState`. What each set makes of its commands is written by
/// its own crate, which sets the fields of the command state.
#[derive(Drop)]
pub struct Machine {
    pub set: Set,
    pub cells: Cells,
    pub mode: ShownMode,
    pub step: NextStep,
    pub job: RunningJob,
    pub held: HeldErase,
    pub flags: StatusFlags,
    pub fault: Failure,
    /// The toggle bits of the AMD set.
    pub toggle_6: bool,
    pub toggle_2: bool,
    /// The bytes of a buffer load, then of the program that runs, or that broke off.
    pub load: ArrayVec<u8, 512>,
}

impl Model for Machine {
    ghost use Rattle.nor_cell.specs.Chip.{ChipState};

    ghost Value = { ChipState };

    ghost use Rattle.nor_cell.specs.Machine.{machine_of, Fits};

    ghost view = { λ m. machine_of m.set m.cells m.mode m.step m.job m.held m.flags m.fault
        m.toggle_6 m.toggle_2 m.load.items };

    ghost invariant = { λ m. Fits m.cells m.mode m.step m.job m.load.items };
}

impl Machine {
    /// A chip with these cells, as after power-on.
    pub fn new(set: Set, cells: Cells) -> Machine
        ensures { result ≡ powered (chip_of set cells) }
    {
        let mut machine = Machine {
            set,
            cells,
            mode: ShownMode::Array,
            step: NextStep::Rest,
            job: RunningJob::Idle,
            held: HeldErase::None,
            flags: StatusFlags::default(),
            fault: Failure::None,
            toggle_6: false,
            toggle_2: false,
            load: ArrayVec::new(),
        };
        machine.power_on();
        machine
    }

    /// What a read does first: a job goes on, or ends.
    pub fn look(&mut self)
        ensures cells { LooksTo self.old (look self.old) self.new.cells }
        ensures rest { self.new ≡ record (looked (look self.old) self.old) { cells = self.new.cells } }
        ensures broken { LeavesBroken self.old (look self.old) self.new.cells }
        ensures kept { Keeps self.old self.new }
    {
        self.go_on();
    }

    // A job that has reads left goes on, and one that has none ends.
    fn go_on(&mut self)
        ensures cells { LooksTo self.old (look self.old) self.new.cells }
        ensures rest { self.new ≡ record (looked (look self.old) self.old) { cells = self.new.cells } }
        ensures broken { LeavesBroken self.old (look self.old) self.new.cells }
    {
        if self.cells.stuck {
            return;
        }
        match self.job {
            RunningJob::Idle => {}
            RunningJob::Program { at, left } if left > 0 => {
                let left = left - 1;
                self.job = RunningJob::Program { at, left };
            }
            RunningJob::Erase { target, left } if left > 0 => {
                let left = left - 1;
                self.job = RunningJob::Erase { target, left };
            }
            RunningJob::Pausing { block, wait, left } if wait > 0 => {
                let wait = wait - 1;
                self.job = RunningJob::Pausing { block, wait, left };
            }
            RunningJob::Program { .. } => self.end(),
            RunningJob::Erase { .. } => self.end(),
            RunningJob::Pausing { .. } => self.end(),
        }
    }

    // A job that has no reads left ends: a program and an erase with what they leave of the cells,
    // and an erase that is being suspended is held.
    fn end(&mut self)
        requires stuck { (self.old).part.stuck ≡ false }
        requires over { is_over (self.old).job ≡ true }
        ensures cells { LooksTo self.old (look self.old) self.new.cells }
        ensures rest { self.new ≡ record (looked (look self.old) self.old) { cells = self.new.cells } }
        ensures broken { LeavesBroken self.old (look self.old) self.new.cells }
    {
        match self.job {
            RunningJob::Idle => {}
            RunningJob::Program { at, .. } => {
                let unit = unit_len(self.cells.device);
                let load = self.load.as_slice();
                let broke = program(
                    &mut self.cells.bytes,
                    &self.cells.weak,
                    unit,
                    at as usize,
                    load,
                );
                self.job = RunningJob::Idle;
                match self.set {
                    Set::Intel => self.flags.program |= broke,
                    Set::Amd if broke => self.fault = Failure::ProgramTime { at },
                    Set::Amd => {}
                }
            }
            RunningJob::Erase { target, .. } => {
                let span = covered(&self.cells, target);
                let broke = erase(&mut self.cells.bytes, &self.cells.weak, span);
                self.job = RunningJob::Idle;
                match self.set {
                    Set::Intel => self.flags.erase |= broke,
                    Set::Amd if broke => self.fault = Failure::EraseTime { target },
                    Set::Amd => {}
                }
            }
            RunningJob::Pausing { block, left, .. } => {
                self.job = RunningJob::Idle;
                self.held = HeldErase::Block { block, left };
                self.cells.suspends = self.cells.suspends.saturating_add(1);
            }
        }
    }
}

impl Machine {
    /// The suspend code while a job runs. An erase of one block that has more reads left than the
    /// suspend pace will be suspended; any other job goes on.
    pub fn suspend(&mut self)
        ensures { self.new ≡ suspended self.old }
    {
        if self.cells.stuck || !can_suspend(&self.cells.table) {
            return;
        }
        if let RunningJob::Erase {
            target: EraseTarget::OneBlock { block },
            left,
        } = self.job
        {
            let wait = self.cells.pace_suspend as u32;
            if wait < left {
                self.job = RunningJob::Pausing {
                    block,
                    wait,
                    left: left - wait,
                };
            }
        }
    }

    /// A suspended erase goes on.
    pub fn resume(&mut self)
        ensures { self.new ≡ resumed self.old }
    {
        if let HeldErase::Block { block, left } = self.held {
            self.job = RunningJob::Erase {
                target: EraseTarget::OneBlock { block },
                left,
            };
            self.held = HeldErase::None;
        }
    }

    /// An erase begins.
    pub fn start_erase(&mut self, target: EraseTarget)
        ensures { self.new ≡ erase_started (target_of target) self.old }
    {
        let work = match target {
            EraseTarget::OneBlock { .. } => Work::Block,
            EraseTarget::AllBlocks => Work::Chip,
        };
        self.step = NextStep::Rest;
        self.job = RunningJob::Erase {
            target,
            left: left_at_start(work, self.cells.pace_erase, &self.cells.table),
        };
        self.cells.erases = self.cells.erases.saturating_add(1);
    }

    /// A block is locked or unlocked.
    pub fn set_lock(&mut self, block: usize, locked: bool)
        requires { has_locks (self.old).part.table ≡ true }
        ensures { self.new ≡ set_lock block locked self.old }
    {
        self.step = NextStep::Rest;
        if block < self.cells.locks.len() {
            self.cells.locks[block] = locked;
        }
    }
}

impl Machine {
    // What a loss of power leaves of the job's cells.
    fn cut_job(&mut self, mask: u8)
        ensures { CutsJob mask self.old self.new }
    {
        match self.job {
            RunningJob::Idle => {}
            RunningJob::Program { at, .. } => {
                store_partly(
                    &mut self.cells.bytes,
                    at as usize,
                    self.load.as_slice(),
                    mask,
                );
            }
            RunningJob::Erase { target, .. } => {
                let span = covered(&self.cells, target);
                set_bits(&mut self.cells.bytes, span, mask);
            }
            RunningJob::Pausing { block: number, .. } => {
                let span = block(&self.cells, number);
                set_bits(&mut self.cells.bytes, span, mask);
            }
        }
    }

    // What it leaves of the block whose erase is suspended.
    fn cut_held(&mut self, mask: u8)
        ensures { CutsHeld mask self.old self.new }
    {
        if let HeldErase::Block { block: number, .. } = self.held {
            let span = block(&self.cells, number);
            set_bits(&mut self.cells.bytes, span, mask);
        }
    }

    /// Power is lost. A block under erase, running or suspended, is left as old OR mask, and what
    /// is programmed as old AND (datum OR mask).
    pub fn cut(&mut self, mask: u8)
        ensures step { Cuts self.old self.new }
        ensures left { CutsBy mask self.old self.new }
        ensures kept { Keeps self.old self.new }
    {
        self.cut_job(mask);
        self.cut_held(mask);
    }

    /// Power is back.
    pub fn power_on(&mut self)
        ensures { self.new ≡ powered self.old }
    {
        self.mode = ShownMode::Array;
        self.step = NextStep::Rest;
        self.job = RunningJob::Idle;
        self.held = HeldErase::None;
        self.flags = StatusFlags::default();
        self.fault = Failure::None;
        self.toggle_6 = false;
        self.toggle_2 = false;
        self.power_locks();
    }

    // The locks that the return of power leaves: one set has all set that are offered, the other
    // keeps them.
    fn power_locks(&mut self)
        ensures { self.new ≡ record self.old
            { locks = locks_after (self.old).part.set (self.old).part.table (self.old).locks } }
    {
        match self.set {
            Set::Intel => {
                let locked = has_locks(&self.cells.table);
                self.cells.locks.fill(locked);
            }
            Set::Amd => {}
        }
    }
}
