ghost use Rattle.std.specs.Prelude.{◌≡◌, ◌<◌, ◌≤◌, ◌*◌, ◌↔◌, ℕ, true, IsTrue, IfOk, OnOk, OnErr, IsErr};
ghost use Rattle.nor_cell.specs.Bits.{unit_len};
ghost use Rattle.nor_cell.specs.Wiring.{is_wiring};
ghost use Rattle.nor_word.specs.Word.{lane_of};
ghost use Rattle.nor_bus.specs.Bus.{units_of, lane, lanes_of, fails, IsWired};
ghost use Rattle.nor_bus.specs.Cycles.{BusFails};
ghost use Rattle.nor_bus.specs.Driven.{IsOwn, Went};
ghost use Rattle.nor_poll.specs.Reads.{ReadBy, DarkensReading};
ghost use Rattle.nor_poll.specs.Told.{seen_at, TellsStatus, TellsErase};
ghost use Rattle.nor_poll.specs.Register.{status_says, heeded};

use crate::readings::{Readings, watch_of};
use crate::{Broke, Seen, Watch};
use nor_bus::{Bus, Off, read_word};
use nor_cell::Geometry;
use nor_word::BusWord;

// Bits of the status register.
const READY: u16 = 0x80;

const ERASE_SUSPENDED: u16 = 0x40;

const ERASE_ERROR: u16 = 0x20;

const PROGRAM_ERROR: u16 = 0x10;

const ALL_BUT_PROGRAM_ERROR: u16 = 0xEF;

// What a status register says.
pub fn seen_of(status: u16) -> Seen
    ensures { result ≡ status_says status }
{
    if status & READY == 0 {
        Seen::Working
    } else if status & ERASE_ERROR != 0 {
        Seen::Broken(Broke::Erase)
    } else if status & PROGRAM_ERROR != 0 {
        Seen::Broken(Broke::Program)
    } else if status & ERASE_SUSPENDED != 0 {
        Seen::Suspended
    } else {
        Seen::Ready
    }
}

// In an erase the error of a program says nothing: it may stand from before.
pub fn erase_seen_of(status: u16) -> Seen
    ensures { result ≡ status_says (heeded status) }
{
    seen_of(status & ALL_BUT_PROGRAM_ERROR)
}

/// Reads the status of every lane of a bank of set 0001, by one bus read, and tells what each is at.
///
/// What is told of a lane holds where `g` is the bus's own wiring and the lane's chip shows its
/// status. A broken erase is told before a broken program, both before a suspended erase, and that
/// before `Ready`. Any address `at` will do, as a chip shows its status at each; one that the bus
/// doesn't have is taken modulo its bus words. `Off` comes exactly where the cycle failed.
pub fn status_poll<W: BusWord, B: Bus<W>>(bus: &mut B, g: Geometry, at: u32) -> Result<Watch, Off>
    requires wiring { IsTrue (is_wiring W.WIDTH g.lanes g.device) }
    ensures told { IfOk result (λ watch. IsOwn W.WIDTH g (B.state bus.old) → (c : ℕ)
        → c < lanes_of (B.state bus.old)
        → TellsStatus (lane (B.state bus.old) c) (seen_at watch.lanes c) (lane (B.state bus.new) c)) }
    ensures past { IfOk result (λ watch. (c : ℕ) → g.lanes ≤ c
        → seen_at watch.lanes c ≡ Seen.Ready) }
    ensures went { OnOk result (Went 1 1 (B.state bus.old) (B.state bus.new)) }
    ensures read { OnOk result (ReadBy 1 1 (B.state bus.old) (B.state bus.new)) }
    ensures dark { OnErr result (DarkensReading 1 (B.state bus.old) (B.state bus.new)) }
    ensures fails { OnErr result (BusFails (B.state bus.old) (B.state bus.new)) }
    ensures off { IsErr result ↔ (fails (B.state bus.old) ≡ true) }
    ensures units { units_of (B.state bus.new) ≡ units_of (B.state bus.old) }
    ensures wired { IsWired W.WIDTH (B.state bus.old) }
{
    let word = read_word::<W, B>(bus, at)?;
    Ok(watch_of(Readings::Status(word), g))
}

/// The same poll of lanes whose block is under erase. It looks past the error of a program, which may
/// stand from before, and would hide that the erase is held.
pub fn erase_poll<W: BusWord, B: Bus<W>>(bus: &mut B, g: Geometry, at: u32) -> Result<Watch, Off>
    requires wiring { IsTrue (is_wiring W.WIDTH g.lanes g.device) }
    ensures told { IfOk result (λ watch. IsOwn W.WIDTH g (B.state bus.old) → (c : ℕ)
        → c < lanes_of (B.state bus.old) → TellsErase at (lane (B.state bus.old) c)
        (seen_at watch.lanes c) (lane (B.state bus.new) c)) }
    ensures past { IfOk result (λ watch. (c : ℕ) → g.lanes ≤ c
        → seen_at watch.lanes c ≡ Seen.Ready) }
    ensures read { OnOk result (ReadBy 1 1 (B.state bus.old) (B.state bus.new)) }
    ensures dark { OnErr result (DarkensReading 1 (B.state bus.old) (B.state bus.new)) }
    ensures units { units_of (B.state bus.new) ≡ units_of (B.state bus.old) }
{
    let word = read_word::<W, B>(bus, at)?;
    Ok(watch_of(Readings::EraseStatus(word), g))
}
