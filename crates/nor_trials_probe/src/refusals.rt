//! Banks that probing refuses, and how many cycles it makes until then.

use nor_bus::{Bus, SimBank};
use nor_cell::Device::{self, X8, X16, X16Byte};
use nor_cell::{Chip, Geometry, Set};
use nor_image::{Loaded, with_bank};
use nor_probe::{ProbeError, probe};
use nor_query::{QueryError, QueryKind};
use nor_samples::{Wiring, load_tables, whole_table};
use nor_word::BusWord;
use std::test::Fail;

fn wiring(width: u8, lanes: u8, device: Device) -> Wiring {
    Wiring {
        width,
        geometry: Geometry { lanes, device },
    }
}

// Why a bank is refused, and the cycles that probing made.
fn refusal_on<W: BusWord, C: Chip + Drop>(bus: SimBank<W, C>) -> (Option<ProbeError>, u64) {
    let mut bus = bus;
    let refusal = probe::<W, SimBank<W, C>>(&mut bus).err();
    (refusal, bus.cycles())
}

fn refusal(bank: Loaded) -> (Option<ProbeError>, u64) {
    with_bank!(bank, bank => refusal_on(bank))
}

fn differs(lane: u8, offset: u16, left: u8, right: u8) -> Option<ProbeError> {
    Some(ProbeError::LaneDiffers {
        lane,
        offset,
        left,
        right,
    })
}

#[test]
fn a_table_without_q_is_no_answer(rt: HostRuntime) -> Result<(), Fail> {
    let mut without_q = whole_table(Set::Intel);
    without_q[0x10] = 0;
    for (width, lanes, device, cycles) in [
        (1, 1, X8, 16),
        (2, 1, X16, 23),
        (4, 4, X16Byte, 23),
        (8, 4, X16, 9),
    ] {
        let bank = load_tables(rt.alloc(), wiring(width, lanes, device), &[without_q; 4])?;
        assert_eq!(rt; refusal(bank), (Some(ProbeError::NoAnswer), cycles));
    }
    Ok(())
}

#[test]
fn the_first_difference_of_the_lowest_lane_is_named(rt: HostRuntime) -> Result<(), Fail> {
    let same = whole_table(Set::Intel);
    let mut other_volts = same;
    other_volts[0x1B] = 0x30;
    let mut other_end = same;
    other_end[0x1FF] = 0x07;
    let two = load_tables(
        rt.alloc(),
        wiring(2, 2, X8),
        &[same, other_volts, same, same],
    )?;
    assert_eq!(rt; refusal(two), (differs(1, 0x1B, 0x27, 0x30), 18));
    let four = load_tables(
        rt.alloc(),
        wiring(8, 4, X16),
        &[same, other_end, other_volts, other_volts],
    )?;
    assert_eq!(rt; refusal(four), (differs(2, 0x1B, 0x27, 0x30), 18));
    let at_the_end = load_tables(
        rt.alloc(),
        wiring(4, 2, X16),
        &[same, other_end, same, same],
    )?;
    assert_eq!(rt; refusal(at_the_end), (differs(1, 0x1FF, 0x00, 0x07), 516));
    Ok(())
}

#[test]
fn a_common_table_is_refused_as_decoding_says(rt: HostRuntime) -> Result<(), Fail> {
    let mut too_short = whole_table(Set::Intel);
    too_short[0x2D] = 0x06;
    let bank = load_tables(rt.alloc(), wiring(2, 1, X16), &[too_short; 4])?;
    let mismatch = QueryError {
        at: 0x2D,
        kind: QueryKind::SizeMismatch {
            sum: 7168,
            size: 8192,
        },
    };
    assert_eq!(rt; refusal(bank), (Some(ProbeError::Query(mismatch)), 516));
    Ok(())
}
