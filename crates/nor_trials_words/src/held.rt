//! Erases are held by the calls of either set: at once, beside a word that is programmed, beside an error that
//! a program left, and on other wirings. And power goes at each cycle.
ghost use Rattle.std.specs.Prelude.{◌≤◌, IsTrue};
ghost use Rattle.nor_cell.specs.Wiring.{is_wiring};

use crate::erases::{BESIDE, Bank, Call, DONE, HELD, ON, Told, first_lanes, make_call, makes};
use crate::words::{TWO_CHIPS, program_word, reads, settle, two_chips};
use LaneState::{Finished, Running, Suspended};
use nor_amd::Amd;
use nor_bus::{Bus, SimBank, read_word, write_code, write_word};
use nor_cell::Device::{self, X8, X16, X16Byte};
use nor_cell::{Geometry, Set, make_geometry};
use nor_intel::Intel;
use nor_poll::{Halt, LaneState, Lanes};
use nor_samples::{Made, Setup, Suspending, WEAK_PLACE, make_bank, make_suspending_bank};
use nor_set1 as set1;
use nor_word::BusWord;
use std::alloc::Global;
use std::process::Abort;
use std::test::Fail;

fn suspending_chips<C: Made>(
    alloc: Global,
    weak_lane: Option<u8>,
    suspending: Suspending,
) -> Result<Bank<C>, Fail>
    requires { suspending.pace ≤ 16 }
{
    let setup = Setup {
        geometry: TWO_CHIPS,
        pace: 2,
        weak_lane,
        stuck_lane: None,
    };
    let bank = make_suspending_bank::<u32, C>(alloc, setup, suspending)?;
    Ok(bank)
}

const AT_ONCE: Suspending = Suspending {
    pace: 0,
    programs: false,
};

const WITH_PROGRAMS: Suspending = Suspending {
    pace: 1,
    programs: true,
};

// At pace 0 the first read finds the erase held, with all reads left. So a suspend of set 0001 makes one
// read, and one of set 0002 two.
const INTEL_AT_ONCE: [(Call, u64, Told); 7] = [
    (Call::Begin, 3, ON),
    (Call::Suspend, 4, HELD),
    (Call::Resume, 1, ON),
    (Call::Look, 2, ON),
    (Call::Look, 2, ON),
    (Call::Look, 2, ON),
    (Call::Look, 2, DONE),
];

const AMD_AT_ONCE: [(Call, u64, Told); 5] = [
    (Call::Begin, 6, ON),
    (Call::Suspend, 4, HELD),
    (Call::Resume, 1, ON),
    (Call::Look, 2, ON),
    (Call::Look, 3, DONE),
];

// A word takes two reads that show working. The erase is held before and after it.
const INTEL_BESIDE: [(Call, u64, Told); 8] = [
    (Call::Begin, 3, ON),
    (Call::Suspend, 5, HELD),
    (Call::Word, 7, HELD),
    (Call::Suspend, 4, HELD),
    (Call::Resume, 1, ON),
    (Call::Look, 2, ON),
    (Call::Look, 2, ON),
    (Call::Look, 2, DONE),
];

const AMD_BESIDE: [(Call, u64, Told); 7] = [
    (Call::Begin, 6, ON),
    (Call::Suspend, 5, HELD),
    (Call::Word, 8, HELD),
    (Call::Suspend, 4, HELD),
    (Call::Resume, 1, ON),
    (Call::Look, 2, ON),
    (Call::Look, 2, DONE),
];

fn holds<C: Made>(
    rt: &impl Abort,
    alloc: Global,
    suspending: Suspending,
    rows: &[(Call, u64, Told)],
    beside: u32,
) -> Result<(), Fail>
    requires { suspending.pace ≤ 16 }
{
    let mut bank = suspending_chips::<C>(alloc, None, suspending)?;
    assert!(rt; program_word(C::SET, &mut bank, TWO_CHIPS, 7, 0).is_ok());
    makes(rt, &mut bank, rows);
    assert!(rt; settle(C::SET, &mut bank, TWO_CHIPS, first_lanes(Finished, 2)).is_ok());
    reads(rt, &mut bank, 7, 0xFFFF_FFFF);
    reads(rt, &mut bank, BESIDE, beside);
    Ok(())
}

#[test]
fn an_erase_is_held_at_once(rt: HostRuntime) -> Result<(), Fail> {
    holds::<Intel>(&rt, rt.alloc(), AT_ONCE, &INTEL_AT_ONCE, 0xFFFF_FFFF)?;
    holds::<Amd>(&rt, rt.alloc(), AT_ONCE, &AMD_AT_ONCE, 0xFFFF_FFFF)
}

#[test]
fn a_word_is_programmed_beside_a_held_erase(rt: HostRuntime) -> Result<(), Fail> {
    holds::<Intel>(&rt, rt.alloc(), WITH_PROGRAMS, &INTEL_BESIDE, 0x5A5A_5A5A)?;
    holds::<Amd>(&rt, rt.alloc(), WITH_PROGRAMS, &AMD_BESIDE, 0x5A5A_5A5A)
}

// A program that breaks off beside a held erase sets bit 4 of lane 1's status, and nothing clears it. The
// erase that was resumed is suspended all the same.
#[test]
fn an_error_of_a_program_hides_no_held_erase(rt: HostRuntime) -> Result<(), Fail> {
    let mut bank = suspending_chips::<Intel>(rt.alloc(), Some(1), WITH_PROGRAMS)?;
    let at = WEAK_PLACE / 2;
    let ran = first_lanes(Running, 2);
    let held = Ok(first_lanes(Suspended, 2));
    assert_eq!(rt; set1::erase_start(&mut bank, TWO_CHIPS, BESIDE), Ok(()));
    assert_eq!(rt; set1::suspend(&mut bank, TWO_CHIPS, BESIDE, ran), held);
    assert!(rt; write_code::<u32, Bank<Intel>>(&mut bank, at, 0x40).is_ok());
    assert!(rt; write_word::<u32, Bank<Intel>>(&mut bank, at, 0).is_ok());
    for _ in 0..2 {
        assert!(rt; read_word::<u32, Bank<Intel>>(&mut bank, at).is_ok());
    }
    reads(&rt, &mut bank, at, 0x00D0_00C0);
    let on = set1::resume(&mut bank, TWO_CHIPS, BESIDE, first_lanes(Suspended, 2));
    assert_eq!(rt; on, Ok(ran));
    assert_eq!(rt; set1::suspend(&mut bank, TWO_CHIPS, BESIDE, ran), held);
    Ok(())
}

// Begins an erase, holds it, lets it go on, looks at it until it has ended, and settles the lanes.
fn erases_held<W: BusWord, B: Bus<W>>(set: Set, bus: &mut B, g: Geometry) -> Result<Lanes, Halt>
    requires { IsTrue (is_wiring W.WIDTH g.lanes g.device) }
{
    let mut lanes = first_lanes(Finished, g.lanes);
    for call in [Call::Begin, Call::Suspend, Call::Resume] {
        lanes = make_call::<W, B>(set, bus, g, call, lanes)?;
    }
    for _ in 0..4 {
        if lanes == first_lanes(Running, g.lanes) {
            lanes = make_call::<W, B>(set, bus, g, Call::Look, lanes)?;
        }
    }
    settle::<W, B>(set, bus, g, lanes)?;
    Ok(lanes)
}

fn erases_on<W: BusWord, C: Made>(
    rt: &impl Abort,
    alloc: Global,
    lanes: u8,
    device: Device,
) -> Result<(), Fail> {
    let geometry = make_geometry(W::WIDTH, lanes, device)?;
    let setup = Setup {
        geometry,
        pace: 1,
        weak_lane: None,
        stuck_lane: None,
    };
    let mut bank = make_bank::<W, C>(alloc, setup)?;
    for at in [7, BESIDE] {
        assert!(rt;
            program_word::<W, SimBank<W, C>>(C::SET, &mut bank, geometry, at, W::splat(0)).is_ok()
        );
    }
    let told = erases_held::<W, SimBank<W, C>>(C::SET, &mut bank, geometry);
    assert_eq!(rt; told, Ok(first_lanes(Finished, lanes)));
    reads(rt, &mut bank, 7, W::splat(0xFF));
    reads(rt, &mut bank, BESIDE, W::splat(0));
    Ok(())
}

#[test]
fn an_erase_is_held_on_other_wirings(rt: HostRuntime) -> Result<(), Fail> {
    erases_on::<u8, Intel>(&rt, rt.alloc(), 1, X8)?;
    erases_on::<u8, Amd>(&rt, rt.alloc(), 1, X8)?;
    erases_on::<u16, Intel>(&rt, rt.alloc(), 2, X16Byte)?;
    erases_on::<u16, Amd>(&rt, rt.alloc(), 2, X16Byte)?;
    erases_on::<u64, Intel>(&rt, rt.alloc(), 4, X16)?;
    erases_on::<u64, Amd>(&rt, rt.alloc(), 4, X16)
}

// The cycles of such an erase: 17, of which the first few begin it, and the 15th reads its end.
const CYCLES: u32 = 17;

const ENDING_READ: u32 = 14;

fn begin_cycles(set: Set) -> u32 {
    match set {
        Set::Intel => 3,
        Set::Amd => 6,
    }
}

// Until the last cycle of the begin the block is as it was. Then a cut leaves the bits that it had or the
// mask has, running or held, and behind the read that ends the erase nothing is lost.
fn goes_off_at_each<C: Made>(rt: &impl Abort, alloc: Global) -> Result<(), Fail> {
    for after in 0..CYCLES {
        let mut bank = two_chips::<C>(alloc, None, None)?;
        for at in [7, BESIDE] {
            assert!(rt; program_word(C::SET, &mut bank, TWO_CHIPS, at, 0x3030_3030).is_ok());
        }
        assert!(rt; bank.is_on());
        bank.arm(after, 0x0F);
        let told = erases_held::<u32, Bank<C>>(C::SET, &mut bank, TWO_CHIPS);
        assert_eq!(rt; told, Err(Halt::Off), "{after}");
        assert!(rt; !bank.is_on());
        bank.power_on();
        let left = if after < begin_cycles(C::SET) {
            0x3030_3030
        } else if after <= ENDING_READ {
            0x3F3F_3F3F
        } else {
            0xFFFF_FFFF
        };
        reads(rt, &mut bank, 7, left);
        reads(rt, &mut bank, BESIDE, 0x3030_3030);
        reads(rt, &mut bank, 0x200, 0xFFFF_FFFF);
    }
    Ok(())
}

#[test]
fn power_goes_at_each_cycle_of_an_erase(rt: HostRuntime) -> Result<(), Fail> {
    goes_off_at_each::<Intel>(&rt, rt.alloc())?;
    goes_off_at_each::<Amd>(&rt, rt.alloc())
}
