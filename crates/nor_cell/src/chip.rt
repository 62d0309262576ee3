ghost use Rattle.std.specs.Prelude.{◌≡◌, ◌<◌, ◌^◌, ℕ};
ghost use Rattle.nor_cell.specs.Bits.{unit_len};
ghost use Rattle.nor_cell.specs.Cells.{HasCells};
ghost use Rattle.nor_cell.specs.Chip.{ChipState, units};
ghost use Rattle.nor_cell.specs.Power.{Cuts, powered};
ghost use Rattle.nor_cell.specs.Ranges.{IsChip};
ghost use Rattle.nor_cell.specs.Steps.{Reads, Keeps, written};

use crate::Cells;

/// A chip of either set on a bus. A cycle reads or writes one unit, which is one device word.
pub trait Chip {
    /// What the chip is and holds, and where it stands in its commands.
    ghost state: { Self → ChipState };

    /// What a cut by a mask may leave of work under way. A simulated chip leaves just what the mask picks.
    ghost leaves: { ℕ → ChipState → ChipState → Type 0 };

    /// One read cycle at a unit.
    fn read(&mut self, at: u32) -> u16
        requires { at < units (state self.old) }
        ensures step { Reads (state self.old) at result (state self.new) }
        ensures fits { result < 256 ^ unit_len (state self.old).part.device }
        ensures kept { Keeps (state self.old) (state self.new) };

    /// One write cycle at a unit.
    fn write(&mut self, at: u32, value: u16)
        requires { at < units (state self.old) }
        ensures step { state self.new ≡ written (state self.old) at value }
        ensures kept { Keeps (state self.old) (state self.new) };

    /// Power is lost. The mask picks what a simulated chip leaves of work under way.
    fn cut(&mut self, mask: u8)
        ensures step { Cuts (state self.old) (state self.new) }
        ensures left { leaves mask (state self.old) (state self.new) }
        ensures kept { Keeps (state self.old) (state self.new) };

    /// Power is back.
    fn power_on(&mut self)
        ensures step { state self.new ≡ powered (state self.old) }
        ensures kept { Keeps (state self.old) (state self.new) };

    /// What the chip keeps without power, and its locks.
    fn cells(&self) -> &Cells
        ensures cells { HasCells (state self.now) result.now }
        ensures ranges { IsChip (state self.now) };
}
