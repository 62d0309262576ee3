//! Programming a buffer of bus words, by the commands of either set.
ghost use Rattle.std.specs.Prelude.{◌≡◌, ◌≤◌, ◌+◌, ◌-◌, ◌%◌, ◌^◌, ◌<◌, ℕ, IsTrue, IfOk, IfErr, OnOk, OnErr, length, map};
ghost use Rattle.nor_cell.specs.Wiring.{is_wiring};
ghost use Rattle.nor_bus.specs.Bus.{lane, lanes_of, units_of};
ghost use Rattle.nor_bus.specs.Driven.{Went, Lost, Counted};
ghost use Rattle.nor_poll.specs.Buffer.{EachLoad, ReachesAll, ProgramsLoad, AreLoadsBroken, IsLoadPrompt, LoadHalts, DarkensInWords, DarkensLoading, after_words, load_sent, load_begin, load_most, last_of};
ghost use Rattle.nor_poll.specs.Reads.{EachSent};

use crate::rest::end_program;
use crate::word::polling_of;
use crate::{Command, Halt, LaneSet, broken_lanes, wait_ready, write_command};
use nor_bus::{Bus, Off, write_code, write_word};
use nor_cell::{Geometry, Set};
use nor_word::BusWord;

// The address of the k-th of some bus words.
fn behind(at: u32, k: usize) -> u32
    requires { k < 256 }
    ensures { result ≡ (at + k) % 2 ^ 32 }
{
    at.wrapping_add(k as u32)
}

// Writes these words one after another, each lane its parts.
fn write_words<W: BusWord, B: Bus<W>>(
    bus: &mut B,
    g: Geometry,
    at: u32,
    words: &[W],
) -> Result<(), Off>
    requires few { length words.now ≤ 256 }
    ensures lanes { OnOk result (ReachesAll W.WIDTH g at (length words.now) (B.state bus.old)
        → (c : ℕ) → c < lanes_of (B.state bus.old) → lane (B.state bus.new) c
        ≡ after_words c at (map W.bytes words.now) (lane (B.state bus.old) c)) }
    ensures dark { OnErr result (ReachesAll W.WIDTH g at (length words.now) (B.state bus.old)
        → (c : ℕ) → c < lanes_of (B.state bus.old) → DarkensInWords c at (map W.bytes words.now)
        (lane (B.state bus.old) c) (lane (B.state bus.new) c)) }
    ensures went { OnOk result (Went (length words.now) (length words.now)
        (B.state bus.old) (B.state bus.new)) }
    ensures lost { OnErr result (Lost (length words.now) (B.state bus.old) (B.state bus.new)) }
{
    for k in 0..words.len() {
        write_word::<W, B>(bus, behind(at, k), words[k])?;
    }
    Ok(())
}

// Up to the confirm.
fn begin_load<W: BusWord, B: Bus<W>>(
    set: Set,
    bus: &mut B,
    g: Geometry,
    at: u32,
    new: &[W],
) -> Result<(), Off>
    requires some { 1 ≤ length new.now }
    requires few { length new.now ≤ 256 }
    ensures sent { OnOk result (ReachesAll W.WIDTH g at (length new.now) (B.state bus.old)
        → EachSent (load_sent set at (length new.now) (map W.bytes new.now))
        (B.state bus.old) (B.state bus.new)) }
    ensures dark { OnErr result (ReachesAll W.WIDTH g at (length new.now) (B.state bus.old)
        → DarkensLoading set at (length new.now) (map W.bytes new.now)
        (B.state bus.old) (B.state bus.new)) }
    ensures went { OnOk result (Went (load_begin set (length new.now))
        (load_begin set (length new.now)) (B.state bus.old) (B.state bus.new)) }
    ensures lost { OnErr result (Lost (load_begin set (length new.now))
        (B.state bus.old) (B.state bus.new)) }
    ensures small { OnOk result (units_of (B.state bus.new) ≤ 2 ^ 27) }
{
    write_command::<W, B>(set, bus, g, at, Command::LoadBuffer)?;
    write_code::<W, B>(bus, at, (new.len() - 1) as u8)?;
    write_words::<W, B>(bus, g, at, new)?;
    write_command::<W, B>(set, bus, g, at, Command::ConfirmLoad)?;
    Ok(())
}

/// Programs bus words from bus address `at` on by one buffer load, each lane its parts. `limit` is the
/// most polls that it makes; they look at the last word.
///
/// What it does to a lane holds where `g` is the bus's own wiring, the bus has the words, and the lane's
/// chip would program them: `TakesLoad` in `specs/Buffer.antt`. So the words have room in its buffer, and
/// lie in one buffer page and one block. Such a lane ends with old AND new, all else as before, no error
/// set and its array shown. The set tells the lanes that broke off, which are those with a weak place among
/// the words that would change: these hold bits between.
///
/// `Off` comes only where a cycle failed. `Stuck` comes after `limit` polls, and names a lane that the
/// last of them told to work, whose chip is stuck where a load takes fewer reads than that. After both,
/// each lane's units have bits between; no other cell, no lock, no held erase and no counter has changed
/// but, after `Off`, a block under erase.
pub fn program_buffer<W: BusWord, B: Bus<W>>(
    set: Set,
    bus: &mut B,
    g: Geometry,
    at: u32,
    new: &[W],
    limit: u32,
) -> Result<LaneSet, Halt>
    requires wiring { IsTrue (is_wiring W.WIDTH g.lanes g.device) }
    requires some { 1 ≤ length new.now }
    requires few { length new.now ≤ 256 }
    ensures done { OnOk result (ReachesAll W.WIDTH g at (length new.now) (B.state bus.old)
        → EachLoad (map W.bytes new.now) (ProgramsLoad set at (length new.now))
        (B.state bus.old) (B.state bus.new)) }
    ensures broken { IfOk result (AreLoadsBroken set W.WIDTH g at (map W.bytes new.now)
        (B.state bus.old)) }
    ensures cycles { OnOk result (Counted (length new.now + 6)
        (load_most set (length new.now) limit) (B.state bus.old) (B.state bus.new)) }
    ensures prompt { IfOk result (IsLoadPrompt set W.WIDTH g at (length new.now)
        (B.state bus.old) (B.state bus.new)) }
    ensures halts { IfErr result (LoadHalts set W.WIDTH g at (map W.bytes new.now) limit
        (B.state bus.old) (B.state bus.new)) }
{
    begin_load::<W, B>(set, bus, g, at, new)?;
    let last = new.len() - 1;
    let how = polling_of(set, g, new[last]);
    let watch = wait_ready::<W, B>(bus, g, behind(at, last), how, limit)?;
    let broken = broken_lanes(&watch);
    end_program::<W, B>(set, bus, g, at, broken)?;
    Ok(broken)
}
