//! The sum of a bank's bytes.
ghost use Rattle.std.specs.Prelude.{◌≡◌, ◌≤◌, ◌*◌, ◌^◌, length};
ghost use Rattle.std.specs.List.{sum};
ghost use Rattle.nor_drill.specs.Summary.{sum_of};

use nor_bus::SimBank;
use nor_cell::Chip;
use nor_word::BusWord;

#[tactic(auto, using(crate::proofs::Sums::few_bytes))]
fn bytes_of<C: Chip>(chip: &C) -> &[u8]
    ensures bytes { result.now ≡ (C.state chip.now).cells }
    ensures few { length result.now ≤ 2 ^ 27 }
{
    chip.cells().bytes.as_slice()
}

// The sum of the bytes of a chip, of at most 128 MiB.
#[tactic(auto, using(crate::proofs::Sums::more_bytes))]
fn sum_of_chip<C: Chip>(chip: &C) -> u64
    ensures sum { result ≡ sum (C.state chip.now).cells }
    ensures few { result ≤ 255 * 2 ^ 27 }
{
    let bytes = bytes_of(chip);
    let mut sum = 0u64;
    for byte in bytes {
        sum += u64::from(*byte);
    }
    sum
}

/// The sum of the bytes of a bank.
#[tactic(auto, using(crate::proofs::Sums::more_chips, crate::proofs::Sums::all_chips))]
pub fn sum_of<W: BusWord, C: Chip + Drop>(bank: &SimBank<W, C>) -> u64
    ensures { result ≡ sum_of bank.now.lanes }
{
    let mut sum = 0u64;
    for lane in 0..bank.chips().len() as u8 {
        sum += sum_of_chip(bank.chip(lane));
    }
    sum
}
