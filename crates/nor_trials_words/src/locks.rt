//! Blocks are locked and unlocked by the calls of either set, on every wiring.
ghost use Rattle.std.specs.Prelude.{◌≡◌, IsTrue};
ghost use Rattle.nor_cell.specs.Wiring.{is_wiring};

use crate::words::{TWO_CHIPS, program_word, reads};
use nor_amd::Amd;
use nor_bus::{Bus, Off, SimBank};
use nor_cell::{Device, Geometry, Set, make_geometry};
use nor_intel::Intel;
use nor_samples::{Made, Setup, WIRINGS, make_whole_bank};
use nor_set1 as set1;
use nor_set2 as set2;
use nor_word::BusWord;
use std::alloc::Global;
use std::process::Abort;
use std::test::Fail;

pub fn set_lock<W: BusWord, B: Bus<W>>(
    set: Set,
    bus: &mut B,
    g: Geometry,
    at: u32,
    locked: bool,
) -> Result<(), Off> {
    match (set, locked) {
        (Set::Intel, true) => set1::lock::<W, B>(bus, g, at),
        (Set::Intel, false) => set1::unlock::<W, B>(bus, g, at),
        (Set::Amd, true) => set2::lock::<W, B>(bus, g, at),
        (Set::Amd, false) => set2::unlock::<W, B>(bus, g, at),
    }
}

pub fn is_locked<W: BusWord, B: Bus<W>>(
    set: Set,
    bus: &mut B,
    g: Geometry,
    at: u32,
) -> Result<bool, Off>
    requires { IsTrue (is_wiring W.WIDTH g.lanes g.device) }
{
    match set {
        Set::Intel => set1::is_locked::<W, B>(bus, g, at),
        Set::Amd => set2::is_locked::<W, B>(bus, g, at),
    }
}

// How many cycles a lock takes that is set or cleared, and one that is read.
fn cycles_of(set: Set) -> (u64, u64) {
    match set {
        Set::Intel => (3, 3),
        Set::Amd => (7, 6),
    }
}

// The units of a block of 1 KiB.
fn block_units(device: Device) -> u32 {
    match device {
        Device::X16 => 512,
        Device::X8 | Device::X16Byte => 1024,
    }
}

fn setup(geometry: Geometry) -> Setup
    ensures { result.geometry ≡ geometry }
{
    Setup {
        geometry,
        pace: 2,
        weak_lane: None,
        stuck_lane: None,
    }
}

// The lock of block 1 is set or cleared, and read; those of its neighbours stay.
fn sets<W: BusWord, B: Bus<W>>(
    rt: &impl Abort,
    set: Set,
    bus: &mut B,
    g: Geometry,
    locked: bool,
    others: bool,
)
    requires { IsTrue (is_wiring W.WIDTH g.lanes g.device) }
{
    let units = block_units(g.device);
    let cycles = cycles_of(set);
    let before = bus.cycles();
    assert_eq!(rt; set_lock::<W, B>(set, bus, g, units, locked), Ok(()));
    assert_eq!(rt; bus.cycles().wrapping_sub(before), cycles.0);
    let before = bus.cycles();
    assert_eq!(rt; is_locked::<W, B>(set, bus, g, units), Ok(locked));
    assert_eq!(rt; bus.cycles().wrapping_sub(before), cycles.1);
    assert_eq!(rt; is_locked::<W, B>(set, bus, g, 0), Ok(others));
    assert_eq!(rt;
        is_locked::<W, B>(set, bus, g, units.wrapping_mul(2)),
        Ok(others)
    );
    reads(rt, bus, units, W::splat(0xFF));
}

fn tries<W: BusWord, C: Made>(
    rt: &impl Abort,
    alloc: Global,
    lanes: u8,
    device: Device,
) -> Result<(), Fail> {
    let geometry = make_geometry(W::WIDTH, lanes, device)?;
    let mut bank = make_whole_bank::<W, C>(alloc, setup(geometry))?;
    // power-on locks the blocks of set 0001
    let first = match C::SET {
        Set::Intel => true,
        Set::Amd => false,
    };
    for locked in [true, false, false, true] {
        sets(rt, C::SET, &mut bank, geometry, locked, first);
    }
    Ok(())
}

fn tries_each<C: Made>(rt: &impl Abort, alloc: Global) -> Result<(), Fail> {
    for (width, lanes, device) in WIRINGS {
        match width {
            1 => tries::<u8, C>(rt, alloc, lanes, device)?,
            2 => tries::<u16, C>(rt, alloc, lanes, device)?,
            4 => tries::<u32, C>(rt, alloc, lanes, device)?,
            _ => tries::<u64, C>(rt, alloc, lanes, device)?,
        }
    }
    Ok(())
}

#[test]
fn a_block_is_locked_on_each_wiring(rt: HostRuntime) -> Result<(), Fail> {
    tries_each::<Intel>(&rt, rt.alloc())?;
    tries_each::<Amd>(&rt, rt.alloc())
}

// A word of a locked block isn't programmed: set 0001 tells so, set 0002 doesn't.
fn refuses<C: Made>(rt: &impl Abort, alloc: Global, told: u8) -> Result<(), Fail> {
    let mut bank = make_whole_bank::<u32, C>(alloc, setup(TWO_CHIPS))?;
    let bus = &mut bank;
    for (locked, bits, left) in [(true, told, 0xFFFF_FFFF), (false, 0, 0)] {
        assert_eq!(rt;
            set_lock::<u32, SimBank<u32, C>>(C::SET, bus, TWO_CHIPS, 512, locked),
            Ok(())
        );
        let broken = program_word(C::SET, bus, TWO_CHIPS, 513, 0);
        assert_eq!(rt; broken.map(|broken| broken.bits), Ok(bits));
        reads(rt, bus, 513, left);
    }
    Ok(())
}

#[test]
fn a_locked_block_is_not_programmed(rt: HostRuntime) -> Result<(), Fail> {
    refuses::<Intel>(&rt, rt.alloc(), 3)?;
    refuses::<Amd>(&rt, rt.alloc(), 0)
}

// Power goes after so many cycles of an unlock, and in set 0002 the lock outlives it: it stands as before
// up to the cycle that clears it.
#[test]
fn power_goes_at_each_cycle_of_an_unlock(rt: HostRuntime) -> Result<(), Fail> {
    let mut bank = make_whole_bank::<u32, Amd>(rt.alloc(), setup(TWO_CHIPS))?;
    for after in 0..7 {
        assert_eq!(&rt; set2::lock(&mut bank, TWO_CHIPS, 0), Ok(()));
        assert!(&rt; bank.is_on());
        bank.arm(after, 0);
        assert_eq!(&rt; set2::unlock(&mut bank, TWO_CHIPS, 0), Err(Off), "{after}");
        assert!(&rt; !bank.is_on());
        bank.power_on();
        assert_eq!(&rt;
            set2::is_locked(&mut bank, TWO_CHIPS, 0),
            Ok(after < 5),
            "{after}"
        );
    }
    Ok(())
}
