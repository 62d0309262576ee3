ghost use Rattle.std.specs.Prelude.{◌≡◌, ◌<◌, ◌↔◌, IfOk, OnOk, OnErr, IsErr, true};
ghost use Rattle.nor_bus.specs.Bus.{units_of, fails, IsWired};
ghost use Rattle.nor_bus.specs.Cycles.{BusFails};
ghost use Rattle.nor_bus.specs.Driven.{Went, Lost, EachLane, EachPart, TakesCode, TakesPart, AnswersPart, reached};

use crate::{Bus, Off};
use nor_word::BusWord;

// The address that is asked for. Only one that the bus doesn't have costs a division.
fn wrapped<W: BusWord, B: Bus<W>>(bus: &B, at: u32) -> u32
    ensures value { result ≡ reached at (B.state bus.now) }
    ensures within { result < units_of (B.state bus.now) }
    ensures wired { IsWired W.WIDTH (B.state bus.now) }
{
    let units = bus.units();
    if at < units { at } else { at % units }
}

/// Writes a command code to every byte of a bus word. An address that the bus doesn't have is taken
/// modulo its bus words, here and in the two calls below.
pub fn write_code<W: BusWord, B: Bus<W>>(bus: &mut B, at: u32, code: u8) -> Result<(), Off>
    ensures went { OnOk result (Went 1 1 (B.state bus.old) (B.state bus.new)) }
    ensures lanes { OnOk result (EachLane (TakesCode (reached at (B.state bus.old)) code)
        (B.state bus.old) (B.state bus.new)) }
    ensures lost { OnErr result (Lost 1 (B.state bus.old) (B.state bus.new)) }
    ensures fails { OnErr result (BusFails (B.state bus.old) (B.state bus.new)) }
    ensures off { IsErr result ↔ (fails (B.state bus.old) ≡ true) }
    ensures units { units_of (B.state bus.new) ≡ units_of (B.state bus.old) }
    ensures wired { IsWired W.WIDTH (B.state bus.old) }
{
    let there = wrapped::<W, B>(bus, at);
    bus.write(there, W::splat(code))?;
    Ok(())
}

/// Writes a bus word, each lane its part.
pub fn write_word<W: BusWord, B: Bus<W>>(bus: &mut B, at: u32, word: W) -> Result<(), Off>
    ensures went { OnOk result (Went 1 1 (B.state bus.old) (B.state bus.new)) }
    ensures lanes { OnOk result (EachPart (W.bytes word) (TakesPart (reached at (B.state bus.old)))
        (B.state bus.old) (B.state bus.new)) }
    ensures lost { OnErr result (Lost 1 (B.state bus.old) (B.state bus.new)) }
    ensures fails { OnErr result (BusFails (B.state bus.old) (B.state bus.new)) }
    ensures off { IsErr result ↔ (fails (B.state bus.old) ≡ true) }
    ensures units { units_of (B.state bus.new) ≡ units_of (B.state bus.old) }
    ensures wired { IsWired W.WIDTH (B.state bus.old) }
{
    let there = wrapped::<W, B>(bus, at);
    bus.write(there, word)?;
    Ok(())
}

/// Reads a bus word, each lane's part from its chip.
pub fn read_word<W: BusWord, B: Bus<W>>(bus: &mut B, at: u32) -> Result<W, Off>
    ensures went { OnOk result (Went 1 1 (B.state bus.old) (B.state bus.new)) }
    ensures lanes { IfOk result (λ word. EachPart (W.bytes word) (AnswersPart (reached at (B.state bus.old)))
        (B.state bus.old) (B.state bus.new)) }
    ensures lost { OnErr result (Lost 1 (B.state bus.old) (B.state bus.new)) }
    ensures fails { OnErr result (BusFails (B.state bus.old) (B.state bus.new)) }
    ensures off { IsErr result ↔ (fails (B.state bus.old) ≡ true) }
    ensures units { units_of (B.state bus.new) ≡ units_of (B.state bus.old) }
    ensures wired { IsWired W.WIDTH (B.state bus.old) }
{
    let there = wrapped::<W, B>(bus, at);
    let word = bus.read(there)?;
    Ok(word)
}
