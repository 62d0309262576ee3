ghost use Rattle.std.specs.Prelude.{◌≡◌, ◌<◌, ◌≤◌, ◌/◌, ℕ, true, false, Some, IfOk, OnOk, OnErr, IsErr, ◌↔◌};
ghost use Rattle.nor_bus.specs.Bus.{BusState, fails, units_of, IsWired};
ghost use Rattle.nor_bus.specs.Cycles.{BusReads, BusWrites, BusFails, KeepsLanes, PowersOn};

use nor_word::BusWord;

/// The cycle failed: the bus has no power, and the cycle reached no chip.
#[derive(Clone, Copy, Debug, PartialEq, Eq)]
pub struct Off;

/// A loss of power after so many more cycles that reach the chips. The mask says what simulated
/// chips leave of work under way.
#[derive(Clone, Copy, Debug, PartialEq, Eq)]
pub struct Armed {
    pub after: u32,
    pub mask: u8,
}

/// A bus whose chips each take their lane of its word. Addresses count bus words: address `u`
/// reaches unit `u` of every chip at once.
pub trait Bus<W: BusWord> {
    /// The lanes' chips, whether power is on, the armed cut, and the counts of cycles that reached
    /// the chips and of cycles that failed.
    ghost state: { Self → BusState };

    /// How many units each chip has, so how many bus words the bank has. The chips fill the word
    /// and are alike.
    fn units(&self) -> u32
        ensures count { result ≡ units_of (state self.now) }
        ensures wired { IsWired W.WIDTH (state self.now) };

    /// One read cycle. Its count stays at its last value once there, and so does that of failed cycles.
    fn read(&mut self, at: u32) -> Result<W, Off>
        requires { at < units_of (state self.old) }
        ensures reads { IfOk result (λ word.
            BusReads (state self.old) at (W.bytes word) (state self.new)) }
        ensures fails { OnErr result (BusFails (state self.old) (state self.new)) }
        ensures off { IsErr result ↔ (fails (state self.old) ≡ true) }
        ensures kept { KeepsLanes (state self.old) (state self.new) }
        ensures units { units_of (state self.new) ≡ units_of (state self.old) };

    /// One write cycle.
    fn write(&mut self, at: u32, word: W) -> Result<(), Off>
        requires { at < units_of (state self.old) }
        ensures writes { OnOk result (BusWrites (state self.old) at (W.bytes word) (state self.new)) }
        ensures fails { OnErr result (BusFails (state self.old) (state self.new)) }
        ensures off { IsErr result ↔ (fails (state self.old) ≡ true) }
        ensures kept { KeepsLanes (state self.old) (state self.new) }
        ensures units { units_of (state self.new) ≡ units_of (state self.old) };

    /// Lets power go after so many more cycles. It replaces an earlier armed cut.
    fn arm(&mut self, after: u32, mask: u8)
        requires { (state self.old).power ≡ true }
        ensures { state self.new ≡ record (state self.old)
            { armed = Some (record { after = after; mask = mask }) } };

    /// Brings power back to every chip, with no cut armed.
    fn power_on(&mut self)
        requires { (state self.old).power ≡ false }
        ensures powers { PowersOn (state self.old) (state self.new) }
        ensures kept { KeepsLanes (state self.old) (state self.new) }
        ensures units { units_of (state self.new) ≡ units_of (state self.old) };

    fn is_on(&self) -> bool
        ensures { result ≡ (state self.now).power };

    /// How many cycles reached the chips.
    fn cycles(&self) -> u64
        ensures { result ≡ (state self.now).cycles };

    /// How many cycles failed.
    fn failed(&self) -> u64
        ensures { result ≡ (state self.now).failed };
}
