ghost use Rattle.std.specs.Prelude.{◌≡◌, IfOk, IfSome, OnOk, OnErr, OnSome, IsTrue};
ghost use Rattle.nor_cell.specs.Between.{IsIdle};
ghost use Rattle.nor_cell.specs.Wiring.{is_wiring};
ghost use Rattle.nor_bus.specs.Bus.{units_of};
ghost use Rattle.nor_bus.specs.Driven.{Went, Lost, EachLane, AllLanes, Counted};
ghost use Rattle.nor_probe.specs.Asking.{Asks, Rests};
ghost use Rattle.nor_probe.specs.Found.{shows_qry, found_geometry};

use crate::asking::ask;
use crate::showing::shows_qry;
use nor_bus::{Bus, Off};
use nor_cell::Geometry;
use nor_lane::candidates;
use nor_word::BusWord;

/// Whether the chips, which it resets first, show `QRY` in every lane of a wiring. Seven cycles.
fn try_wiring<W: BusWord, B: Bus<W>>(bus: &mut B, g: Geometry) -> Result<bool, Off>
    requires { IsTrue (is_wiring W.WIDTH g.lanes g.device) }
    ensures went { OnOk result (Went 7 7 (B.state bus.old) (B.state bus.new)) }
    ensures lanes { OnOk result (EachLane Asks (B.state bus.old) (B.state bus.new)) }
    ensures shows { IfOk result (λ shows. AllLanes IsIdle (B.state bus.old)
        → shows ≡ shows_qry g (B.state bus.old).lanes) }
    ensures lost { OnErr result (Lost 7 (B.state bus.old) (B.state bus.new)) }
    ensures units { units_of (B.state bus.new) ≡ units_of (B.state bus.old) }
{
    ask::<W, B>(bus)?;
    let shows = shows_qry::<W, B>(bus, g)?;
    Ok(shows)
}

/// The first wiring that the chips answer to, if there is one; they show their query tables then. At
/// most 21 cycles.
pub fn answering<W: BusWord, B: Bus<W>>(bus: &mut B) -> Result<Option<Geometry>, Off>
    ensures counted { OnOk result (Counted 0 21 (B.state bus.old) (B.state bus.new)) }
    ensures lanes { OnOk result (EachLane Rests (B.state bus.old) (B.state bus.new)) }
    ensures asked { IfOk result (λ found.
        OnSome found (EachLane Asks (B.state bus.old) (B.state bus.new))) }
    ensures wiring { IfOk result (λ found.
        IfSome found (λ g. IsTrue (is_wiring W.WIDTH g.lanes g.device))) }
    ensures found { IfOk result (λ found. AllLanes IsIdle (B.state bus.old)
        → found ≡ found_geometry W.WIDTH (B.state bus.old).lanes) }
    ensures lost { OnErr result (Lost 21 (B.state bus.old) (B.state bus.new)) }
    ensures units { units_of (B.state bus.new) ≡ units_of (B.state bus.old) }
{
    let list = candidates(W::WIDTH);
    let wirings = list.as_slice();
    for i in 0..wirings.len() {
        let g = wirings[i];
        let shows = try_wiring::<W, B>(bus, g)?;
        if shows {
            return Ok(Some(g));
        }
    }
    Ok(None)
}
