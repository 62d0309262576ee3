//! Words are programmed by buffer loads, by the calls of either set: in how many cycles, and what a weak
//! lane, a stuck lane and a loss of power at each cycle leave.
ghost use Rattle.std.specs.Prelude.{◌≡◌, IsTrue};
ghost use Rattle.nor_cell.specs.Wiring.{is_wiring};

use crate::erases::{Bank, begin, first_lanes, look, resume, suspend};
use crate::locks::{is_locked, set_lock};
use crate::words::{LIMIT, TWO_CHIPS, cycles_beside, reads, settle};
use nor_amd::Amd;
use nor_bus::{Bus, SimBank};
use nor_cell::Device::X16;
use nor_cell::{Geometry, Set, make_geometry};
use nor_intel::Intel;
use nor_poll::LaneState::{Finished, Running, Suspended};
use nor_poll::{Halt, LaneSet};
use nor_samples::{Made, Setup, make_whole_bank};
use nor_set1 as set1;
use nor_set2 as set2;
use nor_word::BusWord;
use std::alloc::Global;
use std::process::Abort;
use std::test::Fail;

fn program_buffer<W: BusWord, B: Bus<W>>(
    rt: &impl Abort,
    set: Set,
    bus: &mut B,
    g: Geometry,
    at: u32,
    new: &[W],
) -> Result<LaneSet, Halt>
    requires { IsTrue (is_wiring W.WIDTH g.lanes g.device) }
{
    assert!(rt; 1 <= new.len() && new.len() <= 256);
    match set {
        Set::Intel => set1::program_buffer::<W, B>(bus, g, at, new, LIMIT),
        Set::Amd => set2::program_buffer::<W, B>(bus, g, at, new, LIMIT),
    }
}

fn setup(geometry: Geometry, weak_lane: Option<u8>, stuck_lane: Option<u8>) -> Setup
    ensures { result.geometry ≡ geometry }
{
    Setup {
        geometry,
        pace: 1,
        weak_lane,
        stuck_lane,
    }
}

// Words with another value each. A load of n takes n + 1 cycles more than a word, its count and its confirm
// among them; one read shows working. The neighbours stay.
fn loads<W: BusWord, C: Made>(
    rt: &impl Abort,
    alloc: Global,
    bus: &mut SimBank<W, C>,
    g: Geometry,
    at: u32,
    n: u8,
) -> Result<(), Fail>
    requires { IsTrue (is_wiring W.WIDTH g.lanes g.device) }
{
    let mut new = Vec::new(alloc);
    for k in 0..n {
        new.push(W::splat(0x70 | k))?;
    }
    let before = bus.cycles();
    let told = program_buffer::<W, SimBank<W, C>>(rt, C::SET, bus, g, at, &new);
    assert_eq!(rt; told, Ok(LaneSet { bits: 0 }));
    let cycles = cycles_beside(C::SET, g.lanes).saturating_add(2);
    assert_eq!(rt;
        bus.cycles().wrapping_sub(before),
        u64::from(cycles.saturating_add(u32::from(n)))
    );
    reads(rt, bus, at.wrapping_sub(1), W::splat(0xFF));
    let mut there = at;
    for word in &new {
        reads(rt, bus, there, *word);
        there = there.wrapping_add(1);
    }
    reads(rt, bus, there, W::splat(0xFF));
    Ok(())
}

// A page of 16 units, a part of one, and a word alone.
fn tries<W: BusWord, C: Made>(rt: &impl Abort, alloc: Global, lanes: u8) -> Result<(), Fail> {
    let geometry = make_geometry(W::WIDTH, lanes, X16)?;
    let mut bank = make_whole_bank::<W, C>(alloc, setup(geometry, None, None))?;
    assert!(rt; set_lock::<W, SimBank<W, C>>(C::SET, &mut bank, geometry, 0, false).is_ok());
    loads(rt, alloc, &mut bank, geometry, 16, 16)?;
    loads(rt, alloc, &mut bank, geometry, 35, 7)?;
    loads(rt, alloc, &mut bank, geometry, 63, 1)
}

fn tries_each<C: Made>(rt: &impl Abort, alloc: Global) -> Result<(), Fail> {
    tries::<u16, C>(rt, alloc, 1)?;
    tries::<u32, C>(rt, alloc, 2)?;
    tries::<u64, C>(rt, alloc, 4)
}

#[test]
fn words_are_programmed_by_a_load(rt: HostRuntime) -> Result<(), Fail> {
    tries_each::<Intel>(&rt, rt.alloc())?;
    tries_each::<Amd>(&rt, rt.alloc())
}

const ZEROS: [u32; 4] = [0; 4];

// Lane 1 breaks off at its unit 2, which keeps the low bits; what lies behind stays.
fn tells_weak<C: Made>(rt: &impl Abort, alloc: Global) -> Result<(), Fail> {
    let mut bank = make_whole_bank::<u32, C>(alloc, setup(TWO_CHIPS, Some(1), None))?;
    let bus = &mut bank;
    assert_eq!(rt;
        set_lock::<u32, SimBank<u32, C>>(C::SET, bus, TWO_CHIPS, 0, false),
        Ok(())
    );
    let told = program_buffer(rt, C::SET, bus, TWO_CHIPS, 0, &ZEROS);
    assert_eq!(rt; told, Ok(LaneSet { bits: 2 }));
    for (at, word) in [(0, 0), (1, 0), (2, 0x0F0F_0000), (3, 0xFFFF_0000)] {
        reads(rt, bus, at, word);
    }
    Ok(())
}

#[test]
fn a_weak_lane_is_told(rt: HostRuntime) -> Result<(), Fail> {
    tells_weak::<Intel>(&rt, rt.alloc())?;
    tells_weak::<Amd>(&rt, rt.alloc())
}

// Lane 1 is stuck. A poll of set 0001 is one read, and one of set 0002 two.
fn tells_stuck<C: Made>(rt: &impl Abort, alloc: Global, cycles: u64) -> Result<(), Fail> {
    let mut bank = make_whole_bank::<u32, C>(alloc, setup(TWO_CHIPS, None, Some(1)))?;
    let bus = &mut bank;
    assert_eq!(rt;
        set_lock::<u32, SimBank<u32, C>>(C::SET, bus, TWO_CHIPS, 0, false),
        Ok(())
    );
    let before = bus.cycles();
    let halt = program_buffer(rt, C::SET, bus, TWO_CHIPS, 0, &ZEROS);
    assert_eq!(rt; halt, Err(Halt::Stuck { lane: 1 }));
    assert_eq!(rt; bus.cycles().wrapping_sub(before), cycles);
    Ok(())
}

#[test]
fn a_stuck_lane_ends_the_call(rt: HostRuntime) -> Result<(), Fail> {
    tells_stuck::<Intel>(&rt, rt.alloc(), 8 + u64::from(LIMIT))?;
    tells_stuck::<Amd>(&rt, rt.alloc(), 9 + 2 * u64::from(LIMIT))
}

// Up to the confirm each word is as it was. Then a cut leaves the mask's bits, for the read that shows
// working and the next, which ends the program.
fn goes_off<C: Made>(rt: &impl Abort, alloc: Global, begun: u32) -> Result<(), Fail> {
    let mut bank = make_whole_bank::<u32, C>(alloc, setup(TWO_CHIPS, None, None))?;
    let bus = &mut bank;
    for after in 0..begun.saturating_add(3) {
        let at = after.wrapping_mul(16);
        let left = if after < begun {
            0xFFFF_FFFF
        } else if after - begun < 2 {
            0x0F0F_0F0F
        } else {
            0
        };
        assert_eq!(rt;
            set_lock::<u32, SimBank<u32, C>>(C::SET, bus, TWO_CHIPS, at, false),
            Ok(())
        );
        assert!(rt; bus.is_on());
        bus.arm(after, 0x0F);
        let halt = program_buffer(rt, C::SET, bus, TWO_CHIPS, at, &ZEROS);
        assert_eq!(rt; halt, Err(Halt::Off), "{after}");
        assert!(rt; !bus.is_on());
        bus.power_on();
        for k in 0..4 {
            reads(rt, bus, at.wrapping_add(k), left);
        }
        reads(rt, bus, at.wrapping_add(4), 0xFFFF_FFFF);
    }
    Ok(())
}

#[test]
fn power_goes_at_each_cycle_of_a_load(rt: HostRuntime) -> Result<(), Fail> {
    goes_off::<Intel>(&rt, rt.alloc(), 8)?;
    goes_off::<Amd>(&rt, rt.alloc(), 9)
}

// The erase of block 0 is held. Block 1 is unlocked and programmed beside it, and then the erase goes on to
// its end.
fn works_beside<C: Made>(rt: &impl Abort, alloc: Global) -> Result<(), Fail> {
    let mut bank: Bank<C> = make_whole_bank::<u32, C>(alloc, setup(TWO_CHIPS, None, None))?;
    let bus = &mut bank;
    assert!(rt; set_lock::<u32, Bank<C>>(C::SET, bus, TWO_CHIPS, 0, false).is_ok());
    assert!(rt; program_buffer(rt, C::SET, bus, TWO_CHIPS, 0, &ZEROS).is_ok());
    let set = C::SET;
    assert!(rt; begin::<u32, Bank<C>>(set, bus, TWO_CHIPS, false).is_ok());
    let mut lanes = first_lanes(Running, 2);
    lanes = suspend::<u32, Bank<C>>(set, bus, TWO_CHIPS, lanes).unwrap_or(lanes);
    assert_eq!(rt; [lanes.lanes[0], lanes.lanes[1]], [Suspended, Suspended]);
    assert!(rt; set_lock::<u32, Bank<C>>(C::SET, bus, TWO_CHIPS, 512, false).is_ok());
    assert_eq!(rt;
        is_locked::<u32, Bank<C>>(C::SET, bus, TWO_CHIPS, 512),
        Ok(false)
    );
    let told = program_buffer(rt, C::SET, bus, TWO_CHIPS, 512, &ZEROS);
    assert_eq!(rt; told, Ok(LaneSet { bits: 0 }));
    for at in 512..516 {
        reads(rt, bus, at, 0);
    }
    lanes = resume::<u32, Bank<C>>(set, bus, TWO_CHIPS, lanes).unwrap_or(lanes);
    for _ in 0..3 {
        lanes = look::<u32, Bank<C>>(set, bus, TWO_CHIPS, lanes).unwrap_or(lanes);
    }
    assert_eq!(rt; [lanes.lanes[0], lanes.lanes[1]], [Finished, Finished]);
    assert!(rt; settle(C::SET, bus, TWO_CHIPS, lanes).is_ok());
    for at in 0..4 {
        reads(rt, bus, at, 0xFFFF_FFFF);
    }
    Ok(())
}

#[test]
fn a_load_works_beside_a_held_erase(rt: HostRuntime) -> Result<(), Fail> {
    works_beside::<Intel>(&rt, rt.alloc())?;
    works_beside::<Amd>(&rt, rt.alloc())
}
