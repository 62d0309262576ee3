ghost use Rattle.std.specs.Prelude.{◌≡◌, ◌<◌, ◌&&◌, IfOk, OnOk, OnErr, IsTrue};
ghost use Rattle.nor_cell.specs.Bits.{unit_len};
ghost use Rattle.nor_cell.specs.Wiring.{is_wiring};
ghost use Rattle.nor_bus.specs.Bus.{units_of};
ghost use Rattle.nor_bus.specs.Driven.{Went, Lost, EachLane, AllLanes};
ghost use Rattle.nor_probe.specs.Asking.{ShowsQuery, Stays};
ghost use Rattle.nor_probe.specs.Found.{lanes_read, shows_at, shows_qry, query_address};

use crate::asking::read_query;
use nor_bus::{Bus, Off, lane_bytes};
use nor_cell::{Device, Geometry};
use nor_word::{BusWord, lane_get};

/// Whether each of the first lanes of a word reads a letter.
fn lanes_read<W: BusWord>(word: W, g: Geometry, letter: u8) -> bool
    requires { IsTrue (is_wiring W.WIDTH g.lanes g.device) }
    ensures { result ≡ lanes_read (unit_len g.device) g.lanes (W.bytes word) letter }
{
    let bytes = lane_bytes(g.device);
    let mut all = true;
    for lane in 0..g.lanes {
        all = all && lane_get(word, lane, bytes) == u16::from(letter);
    }
    all
}

/// The bus address of a word of the query table.
pub fn query_address(device: Device, n: u16) -> u32
    requires { n < 512 }
    ensures value { result ≡ query_address device n }
    ensures low { result < 1024 }
{
    match device {
        Device::X8 | Device::X16 => u32::from(n),
        Device::X16Byte => 2 * u32::from(n),
    }
}

/// Whether every lane of a wiring reads a letter at a word of the query table. One cycle.
fn shows_letter<W: BusWord, B: Bus<W>>(
    bus: &mut B,
    g: Geometry,
    n: u16,
    letter: u8,
) -> Result<bool, Off>
    requires wiring { IsTrue (is_wiring W.WIDTH g.lanes g.device) }
    requires low { n < 512 }
    ensures went { OnOk result (Went 1 1 (B.state bus.old) (B.state bus.new)) }
    ensures lanes { OnOk result (EachLane Stays (B.state bus.old) (B.state bus.new)) }
    ensures shows { IfOk result (λ shows. AllLanes ShowsQuery (B.state bus.old)
        → shows ≡ shows_at g (B.state bus.old).lanes n letter) }
    ensures lost { OnErr result (Lost 1 (B.state bus.old) (B.state bus.new)) }
    ensures units { units_of (B.state bus.new) ≡ units_of (B.state bus.old) }
{
    let word = read_query::<W, B>(bus, query_address(g.device, n))?;
    Ok(lanes_read(word, g, letter))
}

fn all_of(q: bool, r: bool, y: bool) -> bool
    ensures { result ≡ (q && r && y) }
{
    q && r && y
}

/// Whether every lane of a wiring shows `QRY`. Three cycles.
pub fn shows_qry<W: BusWord, B: Bus<W>>(bus: &mut B, g: Geometry) -> Result<bool, Off>
    requires { IsTrue (is_wiring W.WIDTH g.lanes g.device) }
    ensures went { OnOk result (Went 3 3 (B.state bus.old) (B.state bus.new)) }
    ensures lanes { OnOk result (EachLane Stays (B.state bus.old) (B.state bus.new)) }
    ensures shows { IfOk result (λ shows. AllLanes ShowsQuery (B.state bus.old)
        → shows ≡ shows_qry g (B.state bus.old).lanes) }
    ensures lost { OnErr result (Lost 3 (B.state bus.old) (B.state bus.new)) }
    ensures units { units_of (B.state bus.new) ≡ units_of (B.state bus.old) }
{
    let q = shows_letter::<W, B>(bus, g, 0x10, b'Q')?;
    let r = shows_letter::<W, B>(bus, g, 0x11, b'R')?;
    let y = shows_letter::<W, B>(bus, g, 0x12, b'Y')?;
    Ok(all_of(q, r, y))
}
