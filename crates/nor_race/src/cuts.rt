//! The cuts of a script, which are armed before the first worker starts.
ghost use Rattle.std.specs.Prelude.{◌≡◌, None, length};
ghost use Rattle.nor_race.specs.Cuts.{ArmsCut, ArmsAll, IsCut, AreCuts};

use crate::note::Note;
use nor_array::{Op, Reply};
use nor_bank::Bank;
use nor_bus::Bus;
use nor_script::{Line, Word};
use nor_word::BusWord;

// Arms the cut of a line.
fn arm<W: BusWord, B: Bus<W>>(bank: &mut Bank<W, B>, line: &Line) -> Reply
    requires sound { bank.old.halted ≡ None }
    requires cut { IsCut line.now }
    ensures { ArmsCut line.now bank.old bank.new result }
{
    let Word::Call(call) = &line.word else {
        unreachable!()
    };
    match call {
        Op::Arm { after, mask } => bank.arm(*after, *mask),
        _ => unreachable!(),
    }
}

/// Arms the cuts that the notes are for, one in place of the other, and notes that each is done. It makes
/// no cycle.
pub(crate) fn arm_cuts<W: BusWord, B: Bus<W>>(
    bank: &mut Bank<W, B>,
    lines: &[Line],
    cuts: &mut [Note],
)
    requires sound { bank.old.halted ≡ None }
    requires cuts { AreCuts lines.now cuts.old }
    ensures arms { ArmsAll lines.now cuts.new bank.old bank.new }
    ensures length { length cuts.new ≡ length cuts.old }
{
    for i in 0..cuts.len() {
        let note = &mut cuts[i];
        note.reply = arm(bank, &lines[note.line as usize]);
    }
}
