//! Every wiring is found, and no other, in as many cycles as it takes.

use nor_bus::{Bus, SimBank};
use nor_cell::Device::{self, X8, X16, X16Byte};
use nor_cell::{Chip, Geometry, Set};
use nor_image::with_bank;
use nor_probe::probe;
use nor_samples::{Wiring, load};
use nor_word::BusWord;
use std::process::Abort;
use std::test::Fail;

// The width of the bus word, the lanes, their device, and how many cycles probing makes. Each wiring that is tried takes 7 cycles, the rest of the table 493, or
// 501 in byte mode, and the last reset 2.
const WIRINGS: [(u8, u8, Device, u64); 9] = [
    (1, 1, X8, 502),
    (1, 1, X16Byte, 517),
    (2, 2, X8, 502),
    (2, 2, X16Byte, 517),
    (2, 1, X16, 516),
    (4, 4, X8, 502),
    (4, 4, X16Byte, 517),
    (4, 2, X16, 516),
    (8, 4, X16, 502),
];

// The bank is found to be what it is, in so many cycles.
fn finds<W: BusWord, B: Bus<W>>(
    rt: &impl Abort,
    bus: &mut B,
    geometry: Geometry,
    cycles: u64,
) -> Result<(), Fail> {
    assert_eq!(rt; bus.cycles(), 0);
    let found = probe::<W, B>(bus)?;
    assert_eq!(rt; found.geometry, geometry);
    assert_eq!(rt; (found.query.size_log, found.query.ext), (13, 0x31));
    assert_eq!(rt; found.map.blocks(), 8);
    assert_eq!(rt; found.map.size(), u32::from(geometry.lanes) * 8192);
    assert_eq!(rt; bus.cycles(), cycles);
    assert_eq!(rt; bus.failed(), 0);
    Ok(())
}

fn finds_in<W: BusWord, C: Chip + Drop>(
    rt: &impl Abort,
    bus: SimBank<W, C>,
    geometry: Geometry,
    cycles: u64,
) -> Result<(), Fail> {
    let mut bus = bus;
    finds::<W, SimBank<W, C>>(rt, &mut bus, geometry, cycles)
}

#[test]
fn each_wiring_is_found(rt: HostRuntime) -> Result<(), Fail> {
    for set in [Set::Intel, Set::Amd] {
        for (width, lanes, device, cycles) in WIRINGS {
            let geometry = Geometry { lanes, device };
            let loaded = load(rt.alloc(), Wiring { width, geometry }, set)?;
            with_bank!(loaded, bank => finds_in(&rt, bank, geometry, cycles)?);
        }
    }
    Ok(())
}
