//! What can be raced.
ghost use Rattle.std.specs.Prelude.{◌≡◌, true, Decides};
ghost use Rattle.nor_script.specs.Racing.{IsRaceScript, may_race};
ghost use Rattle.nor_script.specs.Script.{HasCaller};

use nor_array::Op;
use nor_script::{Line, MAX_LINES, Script, Word};

fn can_race_line(line: &Line) -> bool
    ensures { Decides result (HasCaller line.now.word line.now.caller × (may_race line.now.word ≡ true)) }
{
    let has_caller = 1 <= line.caller && line.caller <= 8;
    match &line.word {
        Word::Call(Op::Read { .. } | Op::Program { .. }) => has_caller,
        Word::Call(Op::Lock { .. } | Op::Unlock { .. } | Op::IsLocked { .. }) => has_caller,
        Word::Call(Op::Arm { .. }) => line.caller == 0,
        Word::Call(_) => false,
        Word::Erase { .. } | Word::EraseAll => has_caller,
    }
}

/// Whether a script can be raced: each line is a cut, or a whole erase, a read, a program or a lock call
/// of a caller from 1 to 8. A script that was parsed to be raced is such a one.
pub fn can_race(script: &Script) -> bool
    ensures { Decides result (IsRaceScript script.now) }
{
    let lines = script.lines();
    if lines.len() > MAX_LINES {
        return false;
    }
    for line in lines {
        if !can_race_line(line) {
            return false;
        }
    }
    true
}
