ghost use Rattle.std.specs.Prelude.{◌≡◌, ◌<◌, ◌≤◌, IfOk, OnOk, OnErr};
ghost use Rattle.nor_cell.specs.Between.{IsIdle};
ghost use Rattle.nor_bus.specs.Bus.{units_of, IsWired};
ghost use Rattle.nor_bus.specs.Driven.{Went, Lost, EachLane, AllLanes};
ghost use Rattle.nor_bus.specs.Words.{query_word};
ghost use Rattle.nor_probe.specs.Asking.{Resets, Enters, Asks, ShowsQuery, Stays};

use nor_bus::{Bus, Off, read_word, write_code};
use nor_word::BusWord;

/// The codes that lead chips of sets 0002 and 0001 to their arrays.
const RESET_AMD: u8 = 0xF0;

const RESET_INTEL: u8 = 0xFF;

/// The code that leads a chip to its query table, and the two bus addresses at which it listens:
/// that of a sixteen bit chip in byte mode is twice the other.
const QUERY: u8 = 0x98;

const QUERY_AT: u32 = 0x55;

const QUERY_AT_IN_BYTE_MODE: u32 = 0xAA;

/// Leads every resting chip to its array. Two cycles.
pub fn reset<W: BusWord, B: Bus<W>>(bus: &mut B) -> Result<(), Off>
    ensures went { OnOk result (Went 2 2 (B.state bus.old) (B.state bus.new)) }
    ensures lanes { OnOk result (EachLane Resets (B.state bus.old) (B.state bus.new)) }
    ensures lost { OnErr result (Lost 2 (B.state bus.old) (B.state bus.new)) }
    ensures units { units_of (B.state bus.new) ≡ units_of (B.state bus.old) }
{
    write_code::<W, B>(bus, 0, RESET_AMD)?;
    write_code::<W, B>(bus, 0, RESET_INTEL)?;
    Ok(())
}

/// Leads every chip that shows its array to its query table. Two cycles.
pub fn enter_query<W: BusWord, B: Bus<W>>(bus: &mut B) -> Result<(), Off>
    ensures went { OnOk result (Went 2 2 (B.state bus.old) (B.state bus.new)) }
    ensures lanes { OnOk result (EachLane Enters (B.state bus.old) (B.state bus.new)) }
    ensures lost { OnErr result (Lost 2 (B.state bus.old) (B.state bus.new)) }
    ensures units { units_of (B.state bus.new) ≡ units_of (B.state bus.old) }
{
    write_code::<W, B>(bus, QUERY_AT, QUERY)?;
    write_code::<W, B>(bus, QUERY_AT_IN_BYTE_MODE, QUERY)?;
    Ok(())
}

/// Reads a word of chips that show their query tables. One cycle.
pub fn read_query<W: BusWord, B: Bus<W>>(bus: &mut B, at: u32) -> Result<W, Off>
    ensures went { OnOk result (Went 1 1 (B.state bus.old) (B.state bus.new)) }
    ensures lanes { OnOk result (at < units_of (B.state bus.old)
        → EachLane Stays (B.state bus.old) (B.state bus.new)) }
    ensures word { IfOk result (λ word. at < units_of (B.state bus.old)
        → AllLanes ShowsQuery (B.state bus.old)
        → W.bytes word ≡ query_word (B.state bus.old).lanes at) }
    ensures lost { OnErr result (Lost 1 (B.state bus.old) (B.state bus.new)) }
    ensures units { units_of (B.state bus.new) ≡ units_of (B.state bus.old) }
    ensures wired { IsWired W.WIDTH (B.state bus.old) }
{
    let word = read_word::<W, B>(bus, at)?;
    Ok(word)
}

/// Resets every resting chip and leads it to its query table. Four cycles.
pub fn ask<W: BusWord, B: Bus<W>>(bus: &mut B) -> Result<(), Off>
    ensures went { OnOk result (Went 4 4 (B.state bus.old) (B.state bus.new)) }
    ensures lanes { OnOk result (EachLane Asks (B.state bus.old) (B.state bus.new)) }
    ensures lost { OnErr result (Lost 4 (B.state bus.old) (B.state bus.new)) }
    ensures units { units_of (B.state bus.new) ≡ units_of (B.state bus.old) }
{
    reset::<W, B>(bus)?;
    enter_query::<W, B>(bus)?;
    Ok(())
}
