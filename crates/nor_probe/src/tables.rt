//! The query tables of a bank's lanes.
ghost use Rattle.std.specs.Prelude.{◌≡◌, ◌≢◌, ◌<◌, IfOk, IfErr, OnOk, OnErr, IsTrue, true};
ghost use Rattle.std.specs.Result.{result_err};
ghost use Rattle.nor_cell.specs.Wiring.{is_wiring};
ghost use Rattle.nor_bus.specs.Bus.{units_of};
ghost use Rattle.nor_bus.specs.Driven.{Went, Lost, EachLane, AllLanes, Counted};
ghost use Rattle.nor_probe.specs.Asking.{ShowsQuery, Stays};
ghost use Rattle.nor_probe.specs.Found.{shows_qry};
ghost use Rattle.nor_probe.specs.Tables.{table_word, low_byte, difference_in, table_read};
ghost use Rattle.nor_probe.specs.Tables.{first_difference, known_byte, reads_at};
ghost use Rattle.nor_probe.specs.declared.error.ProbeError.TheVariants.{Off as LostPower};

use crate::ProbeError;
use crate::asking::read_query;
use crate::showing::query_address;
use nor_bus::{Bus, Off, lane_bytes};
use nor_cell::{Device, Geometry};
use nor_word::{BusWord, lane_get};

/// Chips show nothing of their tables below this bus address.
const FIRST_SHOWN: u32 = 0x10;

fn low_byte<W: BusWord>(word: W, g: Geometry, lane: u8) -> u8
    requires wiring { IsTrue (is_wiring W.WIDTH g.lanes g.device) }
    requires lane { lane < g.lanes }
    ensures { result ≡ low_byte g (W.bytes word) lane }
{
    (lane_get(word, lane, lane_bytes(g.device)) % 256) as u8
}

/// The low byte that all lanes of a word have, where the word has the byte of each table at this
/// offset. The error names the lowest lane that hasn't lane 0's.
fn common_byte<W: BusWord>(word: W, g: Geometry, offset: u16) -> Result<u8, ProbeError>
    requires { IsTrue (is_wiring W.WIDTH g.lanes g.device) }
    ensures differs { result_err result ≡ difference_in g offset (W.bytes word) }
    ensures byte { IfOk result (λ byte. byte ≡ low_byte g (W.bytes word) 0) }
    ensures power { IfErr result (λ e. e ≢ LostPower) }
{
    let left = low_byte(word, g, 0);
    for lane in 1..g.lanes {
        let right = low_byte(word, g, lane);
        if left != right {
            return Err(ProbeError::LaneDiffers {
                lane,
                offset,
                left,
                right,
            });
        }
    }
    Ok(left)
}

/// The byte that every lane's table has at an offset, where that needs no cycle: the lanes show
/// `QRY`, and nothing below [`FIRST_SHOWN`].
fn known_byte(device: Device, offset: u16) -> Option<u8>
    requires { offset < 512 }
    ensures { result ≡ known_byte device offset }
{
    match offset {
        0x10 => Some(b'Q'),
        0x11 => Some(b'R'),
        0x12 => Some(b'Y'),
        _ if query_address(device, offset) < FIRST_SHOWN => Some(0),
        _ => None,
    }
}

/// The byte that every lane's table has at an offset, of lanes that show `QRY`. The inner error says
/// how they differ there. One cycle, or none where the byte is known.
fn byte_at<W: BusWord, B: Bus<W>>(
    bus: &mut B,
    g: Geometry,
    offset: u16,
) -> Result<Result<u8, ProbeError>, Off>
    requires wiring { IsTrue (is_wiring W.WIDTH g.lanes g.device) }
    requires low { offset < 512 }
    ensures went { let cycles = reads_at g.device offset in
        OnOk result (Went cycles cycles (B.state bus.old) (B.state bus.new)) }
    ensures lanes { OnOk result (EachLane Stays (B.state bus.old) (B.state bus.new)) }
    ensures differs { let chips = (B.state bus.old).lanes in
        IfOk result (λ read. AllLanes ShowsQuery (B.state bus.old) → shows_qry g chips ≡ true
        → result_err read ≡ difference_in g offset (table_word g chips offset)) }
    ensures byte { let chips = (B.state bus.old).lanes in
        IfOk result (λ read. AllLanes ShowsQuery (B.state bus.old) → shows_qry g chips ≡ true
        → IfOk read (λ byte. byte ≡ low_byte g (table_word g chips offset) 0)) }
    ensures power { IfOk result (λ read. IfErr read (λ e. e ≢ LostPower)) }
    ensures lost { OnErr result (Lost 1 (B.state bus.old) (B.state bus.new)) }
    ensures units { units_of (B.state bus.new) ≡ units_of (B.state bus.old) }
{
    if let Some(byte) = known_byte(g.device, offset) {
        return Ok(Ok(byte));
    }
    let word = read_query::<W, B>(bus, query_address(g.device, offset))?;
    Ok(common_byte(word, g, offset))
}

/// The table that all lanes show, of lanes that show `QRY`. The inner error says where they differ
/// first. At most 501 cycles, one for each byte that isn't known, and none behind a difference.
pub fn read_table<W: BusWord, B: Bus<W>>(
    bus: &mut B,
    g: Geometry,
) -> Result<Result<[u8; 512], ProbeError>, Off>
    requires { IsTrue (is_wiring W.WIDTH g.lanes g.device) }
    ensures counted { OnOk result (Counted 0 501 (B.state bus.old) (B.state bus.new)) }
    ensures lanes { OnOk result (EachLane Stays (B.state bus.old) (B.state bus.new)) }
    ensures differs { let chips = (B.state bus.old).lanes in
        IfOk result (λ read. AllLanes ShowsQuery (B.state bus.old) → shows_qry g chips ≡ true
        → result_err read ≡ first_difference g chips) }
    ensures table { let chips = (B.state bus.old).lanes in
        IfOk result (λ read. AllLanes ShowsQuery (B.state bus.old) → shows_qry g chips ≡ true
        → IfOk read (λ table. table ≡ table_read g chips 0)) }
    ensures power { IfOk result (λ read. IfErr read (λ e. e ≢ LostPower)) }
    ensures lost { OnErr result (Lost 501 (B.state bus.old) (B.state bus.new)) }
    ensures units { units_of (B.state bus.new) ≡ units_of (B.state bus.old) }
{
    let mut table = [0; 512];
    for offset in 0..512 {
        match byte_at::<W, B>(bus, g, offset)? {
            Ok(byte) => table[usize::from(offset)] = byte,
            Err(differs) => return Ok(Err(differs)),
        }
    }
    Ok(Ok(table))
}
