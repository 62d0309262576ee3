// Cycles of several chips, one after another.
ghost use Rattle.std.specs.Prelude.{◌≡◌, ◌≢◌, ◌<◌, ◌≤◌, ◌+◌, ◌*◌, ◌^◌, ℕ, IsTrue, map, length};
ghost use Rattle.nor_cell.specs.Ranges.{is_chip_size};
ghost use Rattle.nor_cell.specs.Bits.{unit_len};
ghost use Rattle.nor_cell.specs.Chip.{ChipState, units};
ghost use Rattle.nor_cell.specs.Steps.{Reads, Keeps, written};
ghost use Rattle.nor_cell.specs.Power.{Cuts, powered};
ghost use Rattle.nor_word.specs.Word.{lane_of};
ghost use Rattle.nor_bus.specs.Bus.{chip_at, wide};
ghost use Rattle.nor_bus.specs.Chips.{ChangedTo, AnswersKept, TakesKept, CutsKept, PowersKept};

use nor_cell::Chip;
use nor_word::{BusWord, lane_get, lane_put};

// How many units each chip has, by the first.
pub fn units_of_chips<C: Chip>(chips: &Vec<C>, bytes: u8) -> u32
    requires some { 0 < length chips.now.items }
    requires one_or_two { (1 ≤ bytes) × (bytes ≤ 2) }
    requires alike { wide (chip_at (map C.state chips.now.items) 0) ≡ bytes }
    ensures count { result ≡ units (chip_at (map C.state chips.now.items) 0) }
    ensures sized { IsTrue (is_chip_size (length (chip_at (map C.state chips.now.items) 0).cells)) }
{
    let size = chips[0].cells().bytes.len();
    // Each cycle asks for it, and a division by a number that isn't known would take as long as the rest.
    let units = if bytes == 1 { size } else { size / 2 };
    units as u32
}

fn read_one<C: Chip>(chips: &mut Vec<C>, k: usize, at: u32) -> u16
    requires there { k < length chips.old.items }
    requires within { at < units (chip_at (map C.state chips.old.items) k) }
    ensures size { length (map C.state chips.new.items) ≡ length (map C.state chips.old.items) }
    ensures step { Reads (chip_at (map C.state chips.old.items) k) at result
        (chip_at (map C.state chips.new.items) k) }
    ensures kept { Keeps (chip_at (map C.state chips.old.items) k)
        (chip_at (map C.state chips.new.items) k) }
    ensures fits { result < 256 ^ wide (chip_at (map C.state chips.old.items) k) }
    ensures others { (j : ℕ) → j ≢ k
        → chip_at (map C.state chips.new.items) j ≡ chip_at (map C.state chips.old.items) j }
{
    chips[k].read(at)
}

fn write_one<C: Chip>(chips: &mut Vec<C>, k: usize, at: u32, value: u16)
    requires there { k < length chips.old.items }
    requires within { at < units (chip_at (map C.state chips.old.items) k) }
    ensures size { length (map C.state chips.new.items) ≡ length (map C.state chips.old.items) }
    ensures step { chip_at (map C.state chips.new.items) k
        ≡ written (chip_at (map C.state chips.old.items) k) at value }
    ensures kept { Keeps (chip_at (map C.state chips.old.items) k)
        (chip_at (map C.state chips.new.items) k) }
    ensures others { (j : ℕ) → j ≢ k
        → chip_at (map C.state chips.new.items) j ≡ chip_at (map C.state chips.old.items) j }
{
    chips[k].write(at, value)
}

fn cut_one<C: Chip>(chips: &mut Vec<C>, k: usize, mask: u8)
    requires there { k < length chips.old.items }
    ensures size { length (map C.state chips.new.items) ≡ length (map C.state chips.old.items) }
    ensures step { Cuts (chip_at (map C.state chips.old.items) k)
        (chip_at (map C.state chips.new.items) k) }
    ensures left { C.leaves mask (chip_at (map C.state chips.old.items) k)
        (chip_at (map C.state chips.new.items) k) }
    ensures kept { Keeps (chip_at (map C.state chips.old.items) k)
        (chip_at (map C.state chips.new.items) k) }
    ensures others { (j : ℕ) → j ≢ k
        → chip_at (map C.state chips.new.items) j ≡ chip_at (map C.state chips.old.items) j }
{
    chips[k].cut(mask)
}

fn power_one<C: Chip>(chips: &mut Vec<C>, k: usize)
    requires there { k < length chips.old.items }
    ensures size { length (map C.state chips.new.items) ≡ length (map C.state chips.old.items) }
    ensures step { chip_at (map C.state chips.new.items) k
        ≡ powered (chip_at (map C.state chips.old.items) k) }
    ensures kept { Keeps (chip_at (map C.state chips.old.items) k)
        (chip_at (map C.state chips.new.items) k) }
    ensures others { (j : ℕ) → j ≢ k
        → chip_at (map C.state chips.new.items) j ≡ chip_at (map C.state chips.old.items) j }
{
    chips[k].power_on()
}

/// Reads every chip, and gives the word of their answers.
pub fn read_all<W: BusWord, C: Chip>(chips: &mut Vec<C>, at: u32, bytes: u8) -> W
    requires one_or_two { (1 ≤ bytes) × (bytes ≤ 2) }
    requires fills { length chips.old.items * bytes ≤ W.WIDTH }
    requires within { (k : ℕ) → k < length chips.old.items
        → at < units (chip_at (map C.state chips.old.items) k) }
    requires alike { (k : ℕ) → k < length chips.old.items
        → wide (chip_at (map C.state chips.old.items) k) ≡ bytes }
    ensures all { ChangedTo (length chips.old.items) (AnswersKept at bytes (W.bytes result))
        (map C.state chips.old.items) (map C.state chips.new.items) }
{
    let mut word = W::splat(0);
    for k in 0..chips.len() {
        let value = read_one(chips, k, at);
        word = lane_put(word, k as u8, bytes, value);
    }
    word
}

/// Writes to every chip its part of a word.
pub fn write_all<W: BusWord, C: Chip>(chips: &mut Vec<C>, at: u32, bytes: u8, word: W)
    requires one_or_two { (1 ≤ bytes) × (bytes ≤ 2) }
    requires fills { length chips.old.items * bytes ≤ W.WIDTH }
    requires within { (k : ℕ) → k < length chips.old.items
        → at < units (chip_at (map C.state chips.old.items) k) }
    ensures all { ChangedTo (length chips.old.items) (TakesKept at bytes (W.bytes word))
        (map C.state chips.old.items) (map C.state chips.new.items) }
{
    for k in 0..chips.len() {
        write_one(chips, k, at, lane_get(word, k as u8, bytes));
    }
}

pub fn cut_all<C: Chip>(chips: &mut Vec<C>, mask: u8)
    ensures all { ChangedTo (length chips.old.items) (CutsKept (C.leaves mask))
        (map C.state chips.old.items) (map C.state chips.new.items) }
{
    for k in 0..chips.len() {
        cut_one(chips, k, mask);
    }
}

pub fn power_all<C: Chip>(chips: &mut Vec<C>)
    ensures all { ChangedTo (length chips.old.items) PowersKept
        (map C.state chips.old.items) (map C.state chips.new.items) }
{
    for k in 0..chips.len() {
        power_one(chips, k);
    }
}
