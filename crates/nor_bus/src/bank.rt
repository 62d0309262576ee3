ghost use Rattle.std.specs.Prelude.{◌≡◌, ◌<◌, ◌≤◌, ◌*◌, ◌↔◌, map, length, true, None, IsTrue, IsFalse, IsErr, IfOk, OnOk, OnErr};
ghost use Rattle.nor_cell.specs.Bits.{unit_len};
ghost use Rattle.nor_bus.specs.Bus.{BusState, IsBank, fails, lanes_of, units_of, lane as lane_state};
ghost use Rattle.nor_bus.specs.Cycles.{Passes, BusReads, BusWrites, BusFails, KeepsLanes, LeavesByMask};

use crate::chips::{cut_all, power_all, read_all, units_of_chips, write_all};
use crate::{Armed, Bus, Off};
use nor_cell::{Chip, Device, unit_len};
use nor_word::BusWord;
use std::marker::{Model, PhantomData};

/// A bank of one, two or four simulated chips side by side on a bus of `W`.
#[derive(Drop)]
pub struct SimBank<W: BusWord, C: Chip + Drop> {
    chips: Vec<C>,
    device: Device,
    has_power: bool,
    armed: Option<Armed>,
    cycles: u64,
    failed: u64,
    word: PhantomData<W>,
}

impl<W: BusWord, C: Chip + Drop> Model for SimBank<W, C> {
    ghost use Rattle.std.specs.Prelude.{◌≡◌, map};
    ghost use Rattle.nor_bus.specs.Bus.{BusState, IsBank};

    ghost Value = { BusState };

    ghost view = { λ s. record {
      lanes = map C.state s.chips.items;
      power = s.has_power;
      armed = s.armed;
      cycles = s.cycles;
      failed = s.failed;
    } };

    ghost invariant = { λ s. IsBank W.WIDTH s.device (map C.state s.chips.items) };
}

/// How many bytes of the word a lane takes.
pub fn lane_bytes(device: Device) -> u8
    ensures value { result ≡ unit_len device }
    ensures few { (1 ≤ result) × (result ≤ 2) }
{
    unit_len(device) as u8
}

impl<W: BusWord, C: Chip + Drop> SimBank<W, C> {
    /// The chips on a bus with power, with no cut armed and no cycle made.
    pub fn new(device: Device, chips: Vec<C>) -> SimBank<W, C>
        requires { IsBank W.WIDTH device (map C.state chips.items) }
        ensures { result ≡ record {
          lanes = map C.state chips.items;
          power = true;
          armed = None;
          cycles = 0;
          failed = 0;
        } }
    {
        SimBank {
            chips,
            device,
            has_power: true,
            armed: None,
            cycles: 0,
            failed: 0,
            word: PhantomData,
        }
    }

    /// The chip of a lane.
    pub fn chip(&self, lane: u8) -> &C
        requires { lane < lanes_of self.now }
        ensures { C.state result.now ≡ lane_state self.now lane }
    {
        &self.chips[lane as usize]
    }

    /// The chips, lane by lane.
    pub fn chips(&self) -> &[C]
        ensures chips { map C.state result.now ≡ (self.now).lanes }
        ensures some { 0 < length result.now }
        ensures few { length result.now ≤ 4 }
    {
        &self.chips[..]
    }

    // Whether this cycle fails. If so, and power goes just now, the chips are cut. If not, it counts.
    fn passes(&mut self) -> bool
        ensures fails { IsFalse result ↔ (fails self.old ≡ true) }
        ensures passed { IsTrue result → Passes self.old self.new }
        ensures same { IsTrue result → (self.new).lanes ≡ (self.old).lanes }
        ensures failed { IsFalse result → BusFails self.old self.new }
        ensures left { IsFalse result → LeavesByMask C.leaves self.old self.new }
        ensures kept { KeepsLanes self.old self.new }
    {
        if !self.has_power {
            self.failed = self.failed.saturating_add(1);
            return false;
        }
        if let Some(armed) = self.armed {
            if armed.after == 0 {
                cut_all(&mut self.chips, armed.mask);
                self.has_power = false;
                self.failed = self.failed.saturating_add(1);
                return false;
            }
            self.armed = Some(Armed {
                after: armed.after - 1,
                mask: armed.mask,
            });
        }
        self.cycles = self.cycles.saturating_add(1);
        true
    }
}

impl<W: BusWord, C: Chip + Drop> Bus<W> for SimBank<W, C> {
    ghost state = { λ s. s };

    fn units(&self) -> u32 {
        units_of_chips(&self.chips, lane_bytes(self.device))
    }

    fn read(&mut self, at: u32) -> Result<W, Off>
        requires { at < units_of self.old }
        ensures reads { IfOk result (λ word. BusReads self.old at (W.bytes word) self.new) }
        ensures fails { OnErr result (BusFails self.old self.new) }
        ensures off { IsErr result ↔ (fails self.old ≡ true) }
        ensures kept { KeepsLanes self.old self.new }
        ensures units { units_of self.new ≡ units_of self.old }
        // The cycle that meets the cut cuts by its mask, and so does a write.
        ensures left { OnErr result (LeavesByMask C.leaves self.old self.new) }
    {
        if !self.passes() {
            return Err(Off);
        }
        Ok(read_all::<W, C>(&mut self.chips, at, lane_bytes(self.device)))
    }

    fn write(&mut self, at: u32, word: W) -> Result<(), Off>
        requires { at < units_of self.old }
        ensures writes { OnOk result (BusWrites self.old at (W.bytes word) self.new) }
        ensures fails { OnErr result (BusFails self.old self.new) }
        ensures off { IsErr result ↔ (fails self.old ≡ true) }
        ensures kept { KeepsLanes self.old self.new }
        ensures units { units_of self.new ≡ units_of self.old }
        ensures left { OnErr result (LeavesByMask C.leaves self.old self.new) }
    {
        if !self.passes() {
            return Err(Off);
        }
        write_all(&mut self.chips, at, lane_bytes(self.device), word);
        Ok(())
    }

    fn arm(&mut self, after: u32, mask: u8) {
        self.armed = Some(Armed { after, mask });
    }

    fn power_on(&mut self) {
        power_all(&mut self.chips);
        self.has_power = true;
        self.armed = None;
    }

    fn is_on(&self) -> bool {
        self.has_power
    }

    fn cycles(&self) -> u64 {
        self.cycles
    }

    fn failed(&self) -> u64 {
        self.failed
    }
}
