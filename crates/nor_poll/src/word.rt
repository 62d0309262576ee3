//! Programming one bus word, by the commands of either set.
ghost use Rattle.std.specs.Prelude.{◌≡◌, ℕ, IsTrue, IfOk, IfErr, OnOk, OnErr};
ghost use Rattle.nor_cell.specs.Wiring.{is_wiring};
ghost use Rattle.nor_bus.specs.Driven.{Went, Lost, Reaches, Counted, EachPart};
ghost use Rattle.nor_poll.specs.Polled.{polling_for};
ghost use Rattle.nor_poll.specs.Reads.{EachSent};
ghost use Rattle.nor_poll.specs.Word.{ProgramsWord, AreBroken, IsPrompt, WordHalts, DarkensSending, word_sent, word_begin, word_most};

use crate::polling::set_polling;
use crate::rest::end_program;
use crate::{Command, Halt, LaneSet, Polling, broken_lanes, wait_ready, write_command};
use nor_bus::{Bus, Off, write_word};
use nor_cell::{Geometry, Set};
use nor_word::BusWord;

// Up to the word itself.
fn begin_word<W: BusWord, B: Bus<W>>(
    set: Set,
    bus: &mut B,
    g: Geometry,
    at: u32,
    new: W,
) -> Result<(), Off>
    ensures sent { OnOk result (Reaches W.WIDTH g at (B.state bus.old)
        → EachSent (word_sent set at (W.bytes new)) (B.state bus.old) (B.state bus.new)) }
    ensures dark { OnErr result (Reaches W.WIDTH g at (B.state bus.old)
        → DarkensSending set at (B.state bus.old) (B.state bus.new)) }
    ensures went { OnOk result (Went (word_begin set) (word_begin set) (B.state bus.old) (B.state bus.new)) }
    ensures lost { OnErr result (Lost (word_begin set) (B.state bus.old) (B.state bus.new)) }
{
    write_command::<W, B>(set, bus, g, at, Command::ProgramWord)?;
    write_word::<W, B>(bus, at, new)?;
    Ok(())
}

// How a program is polled that ends with this word.
pub fn polling_of<W: BusWord>(set: Set, g: Geometry, new: W) -> Polling<W>
    ensures { result ≡ polling_for set g new }
{
    match set {
        Set::Amd if g.lanes == 1 => Polling::Data(new),
        _ => set_polling(set),
    }
}

/// Programs one bus word at bus address `at`: each lane its part of `new`. `limit` is the most
/// polls that it makes.
///
/// What it does to a lane holds where `g` is the bus's own wiring, the bus has the address, and the
/// lane's chip would program there: `TakesProgram` in `specs/Word.antt`. Such a lane ends with old AND
/// new, all else as before, no error set and its array shown. The set tells the lanes that broke off,
/// which are those that are weak there and would change: these hold bits between.
///
/// `Off` comes only where a cycle failed. `Stuck` comes after `limit` polls, and names a lane that the
/// last of them told to work, whose chip is stuck where a word takes fewer reads than that. After both,
/// each lane's unit has bits between; no other cell, no lock, no held erase and no counter has changed
/// but, after `Off`, a block under erase.
pub fn program_word<W: BusWord, B: Bus<W>>(
    set: Set,
    bus: &mut B,
    g: Geometry,
    at: u32,
    new: W,
    limit: u32,
) -> Result<LaneSet, Halt>
    requires wiring { IsTrue (is_wiring W.WIDTH g.lanes g.device) }
    ensures done { OnOk result (Reaches W.WIDTH g at (B.state bus.old)
        → EachPart (W.bytes new) (ProgramsWord set at) (B.state bus.old) (B.state bus.new)) }
    ensures broken { IfOk result (AreBroken set W.WIDTH g at (W.bytes new) (B.state bus.old)) }
    ensures cycles { OnOk result (Counted 5 (word_most set limit)
        (B.state bus.old) (B.state bus.new)) }
    ensures prompt { IfOk result (IsPrompt set W.WIDTH g at (B.state bus.old) (B.state bus.new)) }
    ensures halts { IfErr result (WordHalts set W.WIDTH g at (W.bytes new) limit
        (B.state bus.old) (B.state bus.new)) }
{
    begin_word::<W, B>(set, bus, g, at, new)?;
    let watch = wait_ready::<W, B>(bus, g, at, polling_of(set, g, new), limit)?;
    let broken = broken_lanes(&watch);
    end_program::<W, B>(set, bus, g, at, broken)?;
    Ok(broken)
}
