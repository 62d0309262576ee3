ghost use Rattle.std.specs.Prelude.{◌≡◌, ◌≢◌, ◌<◌, ◌≤◌, ℕ, List, IfOk, IfErr, OnOk, OnErr, IsOk, IsTrue, Some, None, Err};
ghost use Rattle.std.specs.Option.{option_map};
ghost use Rattle.std.specs.Result.{result_err};
ghost use Rattle.nor_cell.specs.Between.{IsIdle};
ghost use Rattle.nor_cell.specs.Wiring.{is_wiring};
ghost use Rattle.nor_cell.specs.declared.geometry.Geometry.{Geometry};
ghost use Rattle.nor_bus.specs.Bus.{units_of};
ghost use Rattle.nor_bus.specs.Driven.{Lost, EachLane, AllLanes, Counted};
ghost use Rattle.nor_query.specs.Checks.{first_error};
ghost use Rattle.nor_probe.specs.Asking.{Resets, Rests};
ghost use Rattle.nor_probe.specs.Probed.{refusal, IsCommonTable, IsFoundBy, IsFoundOn, IsOfTable};
ghost use Rattle.nor_probe.specs.WellWired.{IsWellWired, ShowsItself, AllShow, IsOwnFound};
ghost use Rattle.nor_probe.specs.declared.error.ProbeError.TheVariants.{Query as QueryRefused, Off as LostPower};

use crate::ProbeError;
use crate::asking::reset;
use crate::find::answering;
use crate::tables::read_table;
use nor_bus::{Bus, Off};
use nor_cell::Geometry;
use nor_query::{Query, decode};
use nor_region::BlockMap;
use nor_word::BusWord;

/// What a bank is, as its chips say.
#[derive(Clone, Debug, PartialEq, Eq, Drop)]
pub struct Found {
    /// How the chips lie on the bus word.
    pub geometry: Geometry,
    /// What every chip's query table says.
    pub query: Query,
    /// The blocks of the bank, in bytes of the bank: each is the same block of every chip.
    pub map: BlockMap,
}

/// The wiring that the chips answer to, and the table that all lanes show; the inner error says that
/// there is none. At most 522 cycles.
fn look<W: BusWord, B: Bus<W>>(
    bus: &mut B,
) -> Result<Result<(Geometry, [u8; 512]), ProbeError>, Off>
    ensures counted { OnOk result (Counted 0 522 (B.state bus.old) (B.state bus.new)) }
    ensures lanes { OnOk result (EachLane Rests (B.state bus.old) (B.state bus.new)) }
    ensures refused { IfOk result (λ seen. AllLanes IsIdle (B.state bus.old)
        → IfErr seen (λ e. refusal W.WIDTH (B.state bus.old).lanes ≡ Some e)) }
    ensures table { IfOk result (λ seen. AllLanes IsIdle (B.state bus.old)
        → IfOk seen (λ s. IsCommonTable W.WIDTH (B.state bus.old).lanes s.0 s.1)) }
    ensures power { IfOk result (λ seen. IfErr seen (λ e. e ≢ LostPower)) }
    ensures wiring { IfOk result (λ seen.
        IfOk seen (λ s. IsTrue (is_wiring W.WIDTH s.0.lanes s.0.device))) }
    ensures lost { OnErr result (Lost 522 (B.state bus.old) (B.state bus.new)) }
    ensures units { units_of (B.state bus.new) ≡ units_of (B.state bus.old) }
{
    let Some(geometry) = answering::<W, B>(bus)? else {
        return Ok(Err(ProbeError::NoAnswer));
    };
    match read_table::<W, B>(bus, geometry)? {
        Ok(table) => Ok(Ok((geometry, table))),
        Err(differs) => Ok(Err(differs)),
    }
}

/// What the chips' table says of a bank of this wiring.
fn found_of(geometry: Geometry, table: &[u8; 512]) -> Result<Found, ProbeError>
    requires some { 0 < geometry.lanes }
    requires few { geometry.lanes ≤ 4 }
    ensures refused { result_err result ≡ option_map QueryRefused (first_error table.now) }
    ensures found { IfOk result (IsFoundBy geometry table.now) }
    ensures wiring { IfOk result (λ found. found.geometry ≡ geometry) }
    ensures power { IfErr result (λ e. e ≢ LostPower) }
{
    let query = decode(table)?;
    let map = query.block_map().scaled(geometry.lanes);
    Ok(Found {
        geometry,
        query,
        map,
    })
}

/// Finds what a bank is: how its chips are wired, what their query tables (JESD68) say, and its
/// blocks. At most 524 bus cycles.
///
/// The wiring is the first, in the order of [`nor_lane::candidates`], in which every lane shows
/// `QRY`. The chips must rest, so that the reset codes lead each of them to its array; they show
/// their arrays afterwards, and nothing else of them has changed. The answer then depends on the
/// chips alone: it is `refusal` of `specs/Probed.antt` where that has one, and else what
/// `IsFoundOn` says. `Off` comes only where a cycle failed.
///
/// Where the chips are what their tables say, the wiring is the bus's own, and the bank is found
/// exactly where all of them show one table and [`decode`] accepts it.
pub fn probe<W: BusWord, B: Bus<W>>(bus: &mut B) -> Result<Found, ProbeError>
    ensures refused { result ≢ Err LostPower → AllLanes IsIdle (B.state bus.old)
        → result_err result ≡ refusal W.WIDTH (B.state bus.old).lanes }
    ensures found { IfOk result (λ found. AllLanes IsIdle (B.state bus.old)
        → IsFoundOn W.WIDTH (B.state bus.old).lanes found) }
    ensures wiring { IfOk result (λ found.
        IsTrue (is_wiring W.WIDTH found.geometry.lanes found.geometry.device)) }
    ensures table { IfOk result IsOfTable }

    // On a well wired bus.
    ensures shown { (g : Geometry) → IsWellWired W.WIDTH g (B.state bus.old)
        → ShowsItself W.WIDTH g (B.state bus.old) }
    ensures own { IfOk result (λ found. (g : Geometry) → IsWellWired W.WIDTH g (B.state bus.old)
        → AllLanes IsIdle (B.state bus.old) → IsOwnFound g (B.state bus.old) found) }
    ensures accepted { (g : Geometry) (table : List ℕ) → IsWellWired W.WIDTH g (B.state bus.old)
        → AllLanes IsIdle (B.state bus.old) → AllShow table (B.state bus.old)
        → first_error table ≡ None → result ≢ Err LostPower → IsOk result }

    ensures counted { result ≢ Err LostPower → Counted 1 524 (B.state bus.old) (B.state bus.new) }
    ensures lanes { result ≢ Err LostPower → EachLane Resets (B.state bus.old) (B.state bus.new) }
    ensures lost { result ≡ Err LostPower → Lost 524 (B.state bus.old) (B.state bus.new) }
    ensures units { units_of (B.state bus.new) ≡ units_of (B.state bus.old) }
{
    let seen = look::<W, B>(bus)?;
    reset::<W, B>(bus)?;
    let (geometry, table) = seen?;
    found_of(geometry, &table)
}
