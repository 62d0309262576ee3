//! A script that is raced, and its history put.
ghost use Rattle.std.specs.Prelude.{◌≡◌, ◌≤◌, ◌<◌, List, length, slice_get, true, Some, None, IsSome, IfOk, IfErr};
ghost use Rattle.nor_array.specs.declared.entry.Entry.{Entry};
ghost use Rattle.nor_bank.specs.Work.{KeepsBank};
ghost use Rattle.nor_bus.specs.Cycles.{KeepsLanes};
ghost use Rattle.nor_run.specs.Running.{RunsLines, EndsLines};
ghost use Rattle.nor_run.specs.Scripts.{IsJustLoaded, EndsRun, Reports};
ghost use Rattle.nor_run.specs.Taking.{Hands, StopsIn};
ghost use Rattle.nor_script.specs.Racing.{IsRaceScript};
ghost use Rattle.nor_race.specs.Ran.{op_of};
ghost use Rattle.nor_race.specs.Told.{AreTold, HasHistory, HandsAll, HandsTold};

use crate::gate::Gate;
use crate::note::Note;
use crate::notes::Notes;
use crate::race::{Raced, race_lines};
use nor_array::{Op, Reply};
use nor_bank::Bank;
use nor_bus::{Bus, SimBank};
use nor_cell::Chip;
use nor_io::Sink;
use nor_run::{Ran, RunError, Taker, hand_over, of_put, put_end, ran_on, start_bank};
use nor_script::{Line, Script, Word};
use nor_word::BusWord;
use std::alloc::Global;
use std::sync::Wait;
use std::thread::Threads;

// Hands over the entry that a note tells.
fn hand_word<T: Taker>(line: &Line, note: &Note, k: u64, taker: &mut T) -> Result<Reply, T::Stop>
    requires call { IsSome (op_of line.now.word note.now.closes) }
    ensures { HandsTold T.takes k line.now note.now taker.old taker.new result }
{
    let caller = line.caller;
    let reply = note.reply;
    if note.closes {
        return hand_over(taker, k, caller, &Op::Poll, reply, &note.bytes);
    }
    match &line.word {
        Word::Call(op) => hand_over(taker, k, caller, op, reply, &note.bytes),
        Word::Erase { block } => {
            let op = Op::EraseOpen { block: *block };
            hand_over(taker, k, caller, &op, reply, &note.bytes)
        }
        Word::EraseAll => hand_over(taker, k, caller, &Op::EraseAll, reply, &note.bytes),
    }
}

// Hands over the entry at position `k`, and gives its reply.
fn hand_note<T: Taker>(
    lines: &[Line],
    notes: &Notes,
    k: u64,
    taker: &mut T,
) -> Result<Reply, T::Stop>
    requires history { HasHistory lines.now notes.now }
    requires there { k < length notes.now }
    ensures { (es : List Entry) (e : Entry) → AreTold lines.now notes.now es
        → slice_get es k ≡ Some e → Hands T.takes k e taker.old taker.new result }
{
    let line = &lines[notes.line(k) as usize];
    hand_word(line, notes.note(k), k, taker)
}

// Hands over the entries, in the order of the history.
fn hand_notes<T: Taker>(lines: &[Line], notes: &Notes, taker: &mut T) -> Result<Ran, T::Stop>
    requires history { HasHistory lines.now notes.now }
    ensures whole { IfOk result (λ ran. (es : List Entry) → AreTold lines.now notes.now es
        → HandsAll T.takes es taker.old taker.new ran) }
    ensures part { IfErr result (λ stop. (es : List Entry) → AreTold lines.now notes.now es
        → StopsIn T.takes es taker.old taker.new stop) }
{
    let mut ran = Ran {
        entries: 0,
        halted: false,
    };
    for k in 0..notes.count() {
        let reply = hand_note(lines, notes, k, taker)?;
        ran = ran_on(ran, reply);
    }
    Ok(ran)
}

// Races the lines for the bank, and puts their entries when all have ended, in the order of the history.
fn race_and_put<
    R: Threads + Wait + Sync,
    W: BusWord + Send,
    B: Bus<W> + Send,
    G: Gate + Sync,
    K: Sink,
>(
    rt: &R,
    alloc: Global,
    bank: Bank<W, B>,
    script: &Script,
    gate: &G,
    out: &mut K,
) -> (Bank<W, B>, Result<Ran, RunError>)
    requires fresh { (bank.halted ≡ None) × (bank.erase ≡ None) }
    requires script { IsRaceScript script.now }
    ensures runs { RunsLines true script.now bank result.0
        (K.state out.old) (K.state out.new) result.1 }
    ensures ends { EndsLines true (K.state out.old) (K.state out.new) result.1 }
    ensures keeps { KeepsBank bank result.0 }
    ensures later { (K.state out.old).faults ≤ (K.state out.new).faults }
{
    match race_lines(rt, alloc, bank, script, gate) {
        Ok(raced) => {
            let Raced { bank, notes } = raced;
            let ran = hand_notes(script.lines(), &notes, out);
            (bank, of_put(ran))
        }
        Err((bank, _)) => (bank, Err(RunError::NoMemory)),
    }
}

/// Races a script for a bank that was just loaded, puts the report, and gives the bank back.
pub fn race_bank<
    R: Threads + Wait + Sync,
    W: BusWord + Send,
    C: Chip + Drop + Send,
    G: Gate + Sync,
    K: Sink,
>(
    rt: &R,
    alloc: Global,
    bank: SimBank<W, C>,
    script: &Script,
    gate: &G,
    out: &mut K,
) -> (SimBank<W, C>, Result<Ran, RunError>)
    requires script { IsRaceScript script.now }
    requires loaded { IsJustLoaded W.WIDTH bank }
    ensures ends { EndsRun true W.WIDTH bank.lanes (K.state out.old) (K.state out.new) result.1 }
    ensures reports { Reports true W.WIDTH script.now bank result.0
        (K.state out.old) (K.state out.new) result.1 }
    ensures lanes { KeepsLanes bank result.0 }
    ensures later { (K.state out.old).faults ≤ (K.state out.new).faults }
{
    match start_bank(bank) {
        Ok(bank) => {
            let (bank, ran) = race_and_put(rt, alloc, bank, script, gate, out);
            let ran = put_end(bank.bus(), ran, out);
            (bank.stop(), ran)
        }
        Err((bank, error)) => (bank, Err(error)),
    }
}
