ghost use Rattle.std.specs.Prelude.{◌≡◌, ◌<◌, ◌≤◌, ◌+◌, ◌*◌, ◌^◌, length};
ghost use Rattle.hex.specs.Hex.{encode_lower};
ghost use Rattle.nor_cell.specs.declared.device.Device.{Device};
ghost use Rattle.nor_bus.specs.Bus.{IsBank, units_of, bank_bytes};
ghost use Rattle.norbank.specs.Open.{IsOpen};
ghost use Rattle.nor_io.specs.Puts.{PutsText};
ghost use Rattle.norbank.specs.Text.{hex_line};

use nor_bank::read_range;
use nor_bus::Bus;
use nor_io::{Sink, SinkError, put_hex};
use nor_word::BusWord;

// The most bytes that are read at once.
const PIECE: usize = 4096;

// Reads one piece of the bank, and puts its hex text.
fn put_piece<W: BusWord, B: Bus<W>, K: Sink>(
    bus: &mut B,
    at: u32,
    piece: &mut [u8],
    out: &mut K,
) -> Result<(), SinkError>
    requires open { IsOpen (B.state bus.old) }
    requires some { 0 < length piece.old }
    requires short { length piece.old ≤ 4096 }
    requires few { at + length piece.old < 2 ^ 32 }
    requires within { at + length piece.old ≤ units_of (B.state bus.old) * W.WIDTH }
    requires wired { (device : Device) × IsBank W.WIDTH device (B.state bus.old).lanes }
    ensures puts { (device : Device) → IsBank W.WIDTH device (B.state bus.old).lanes
        → PutsText (encode_lower (bank_bytes device (B.state bus.old).lanes at (length piece.old)))
        (K.state out.old) (K.state out.new) result }
    ensures same { (B.state bus.new).lanes ≡ (B.state bus.old).lanes }
    ensures open { IsOpen (B.state bus.new) }
    ensures units { units_of (B.state bus.new) ≡ units_of (B.state bus.old) }
    ensures later { (K.state out.old).faults ≤ (K.state out.new).faults }
{
    read_range::<W, B>(bus, at, piece).unwrap();
    put_hex(piece, out)
}

// Puts the hex text of bytes of the bank, piece by piece.
fn put_pieces<W: BusWord, B: Bus<W>, K: Sink>(
    bus: &mut B,
    at: u32,
    len: u32,
    out: &mut K,
) -> Result<(), SinkError>
    requires open { IsOpen (B.state bus.old) }
    requires few { at + len < 2 ^ 32 }
    requires within { at + len ≤ units_of (B.state bus.old) * W.WIDTH }
    requires wired { (device : Device) × IsBank W.WIDTH device (B.state bus.old).lanes }
    ensures puts { (device : Device) → IsBank W.WIDTH device (B.state bus.old).lanes
        → PutsText (encode_lower (bank_bytes device (B.state bus.old).lanes at len))
        (K.state out.old) (K.state out.new) result }
    ensures later { (K.state out.old).faults ≤ (K.state out.new).faults }
{
    let mut buffer = [0u8; PIECE];
    let mut done = 0u32;
    while done < len {
        let count = (len - done).min(4096);
        let piece = &mut buffer[..count as usize];
        if let Err(error) = put_piece::<W, B, K>(bus, at + done, piece, out) {
            return Err(error);
        }
        done += count;
    }
    Ok(())
}

/// Puts bytes of the bank as a line of lower-case hex text, a dash for none.
pub fn print_bytes<W: BusWord, B: Bus<W>, K: Sink>(
    bus: &mut B,
    at: u32,
    len: u32,
    out: &mut K,
) -> Result<(), SinkError>
    requires open { IsOpen (B.state bus.old) }
    requires few { at + len < 2 ^ 32 }
    requires within { at + len ≤ units_of (B.state bus.old) * W.WIDTH }
    requires wired { (device : Device) × IsBank W.WIDTH device (B.state bus.old).lanes }
    ensures puts { (device : Device) → IsBank W.WIDTH device (B.state bus.old).lanes
        → PutsText (hex_line (bank_bytes device (B.state bus.old).lanes at len))
        (K.state out.old) (K.state out.new) result }
    ensures later { (K.state out.old).faults ≤ (K.state out.new).faults }
{
    if len == 0 {
        return out.put(b"-\n");
    }
    match put_pieces::<W, B, K>(bus, at, len, out) {
        Ok(()) => out.put(b"\n"),
        Err(error) => Err(error),
    }
}
