ghost use Rattle.std.specs.Prelude.{◌≡◌, ◌<◌, IfOk, OnOk, OnErr};
ghost use Rattle.nor_bus.specs.Bus.{units_of, IsWired};
ghost use Rattle.nor_bus.specs.Driven.{EachPart, AnswersPart};
ghost use Rattle.nor_poll.specs.Reads.{ReadBy, DarkensReading};

use nor_bus::{Bus, Off, read_word};
use nor_word::BusWord;

/// One read of a poll, of an address modulo the bus words.
pub fn look<W: BusWord, B: Bus<W>>(bus: &mut B, at: u32) -> Result<W, Off>
    ensures answers { IfOk result (λ word. at < units_of (B.state bus.old)
        → EachPart (W.bytes word) (AnswersPart at) (B.state bus.old) (B.state bus.new)) }
    ensures went { OnOk result (ReadBy 1 1 (B.state bus.old) (B.state bus.new)) }
    ensures dark { OnErr result (DarkensReading 1 (B.state bus.old) (B.state bus.new)) }
    ensures units { units_of (B.state bus.new) ≡ units_of (B.state bus.old) }
    ensures wired { IsWired W.WIDTH (B.state bus.old) }
{
    let word = read_word::<W, B>(bus, at)?;
    Ok(word)
}
