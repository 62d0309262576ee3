//! Words are programmed on every wiring, by the calls of either set.
ghost use Rattle.std.specs.Prelude.{IsTrue};
ghost use Rattle.nor_cell.specs.Wiring.{is_wiring};

use nor_amd::Amd;
use nor_bus::{Bus, Off, SimBank, read_word, write_code};
use nor_cell::Device::{self, X8, X16, X16Byte};
use nor_cell::{Geometry, Set, make_geometry};
use nor_intel::Intel;
use nor_poll::{Halt, LaneSet, LaneState, Lanes, reset};
use nor_samples::{Made, Setup, WEAK_PLACE, WIRINGS, make_bank};
use nor_set1 as set1;
use nor_set2 as set2;
use nor_word::BusWord;
use std::alloc::Global;
use std::process::Abort;
use std::test::Fail;

// A word of these chips shows working for at most 2^6 reads, and a driver makes 16 more.
pub const LIMIT: u32 = 80;

pub const NO_LANE: LaneSet = LaneSet { bits: 0 };

pub const TWO_CHIPS: Geometry = Geometry {
    lanes: 2,
    device: X16,
};

// Programs a word by the call of a set.
pub fn program_word<W: BusWord, B: Bus<W>>(
    set: Set,
    bus: &mut B,
    g: Geometry,
    at: u32,
    new: W,
) -> Result<LaneSet, Halt>
    requires { IsTrue (is_wiring W.WIDTH g.lanes g.device) }
{
    match set {
        Set::Intel => set1::program_word::<W, B>(bus, g, at, new, LIMIT),
        Set::Amd => set2::program_word::<W, B>(bus, g, at, new, LIMIT),
    }
}

// Settles lanes by the call of a set.
pub fn settle<W: BusWord, B: Bus<W>>(
    set: Set,
    bus: &mut B,
    g: Geometry,
    lanes: Lanes,
) -> Result<(), Off>
    requires { IsTrue (is_wiring W.WIDTH g.lanes g.device) }
{
    match set {
        Set::Intel => set1::settle::<W, B>(bus, g, lanes),
        Set::Amd => set2::settle::<W, B>(bus, g, lanes),
    }
}

// How many writes begin a word.
pub fn writes(set: Set) -> u32 {
    match set {
        Set::Intel => 3,
        Set::Amd => 4,
    }
}

// How many cycles a word takes beside the reads that show working. Set 0001 ends with one read and a
// write, set 0002 with one read of one lane, or with two of more.
pub fn cycles_beside(set: Set, lanes: u8) -> u32 {
    let ends = match set {
        Set::Amd if lanes == 1 => 1,
        _ => 2,
    };
    writes(set).saturating_add(ends)
}

// A word that differs in each byte.
fn counting<W: BusWord>(first: u8) -> W {
    let mut word = W::splat(first);
    for k in 0..W::WIDTH {
        word = word.with_byte(k, first.wrapping_add(k));
    }
    word
}

// Each byte of a word with these bits too.
fn with_bits<W: BusWord>(word: W, bits: u8) -> W {
    let mut wider = word;
    for k in 0..W::WIDTH {
        wider = wider.with_byte(k, word.byte(k) | bits);
    }
    wider
}

pub fn reads<W: BusWord, B: Bus<W>>(rt: &impl Abort, bus: &mut B, at: u32, word: W) {
    let read = read_word::<W, B>(bus, at);
    assert!(rt; read.is_ok_and(|read| read.equals(word)), "at {at}");
}

// Programs a word in so many cycles that reach the chips, or up to so many more.
fn programs<W: BusWord, B: Bus<W>>(
    rt: &impl Abort,
    set: Set,
    bus: &mut B,
    g: Geometry,
    at: u32,
    new: W,
    cycles: (u32, u32),
)
    requires { IsTrue (is_wiring W.WIDTH g.lanes g.device) }
{
    let before = bus.cycles();
    assert_eq!(rt; program_word::<W, B>(set, bus, g, at, new), Ok(NO_LANE));
    let made = bus.cycles().wrapping_sub(before);
    let more = made.saturating_sub(u64::from(cycles.0));
    assert!(rt;
        u64::from(cycles.0) <= made && more <= u64::from(cycles.1),
        "{made}"
    );
    assert_eq!(rt; bus.failed(), 0);
}

// Ones, then a word, then a part of its bits, then nothing new; the neighbours stay. One lane of set
// 0002 needs up to two reads more where its datum has bits that it lacks.
fn tries<W: BusWord, C: Made>(
    rt: &impl Abort,
    alloc: Global,
    lanes: u8,
    device: Device,
    pace: u32,
) -> Result<(), Fail> {
    let geometry = make_geometry(W::WIDTH, lanes, device)?;
    let setup = Setup {
        geometry,
        pace,
        weak_lane: None,
        stuck_lane: None,
    };
    let mut bank = make_bank::<W, C>(alloc, setup)?;
    let cycles = pace.saturating_add(cycles_beside(C::SET, lanes));
    let more = match C::SET {
        Set::Intel => 0,
        Set::Amd => 2,
    };
    let word = counting::<W>(0x70);
    programs(rt, C::SET, &mut bank, geometry, 7, word, (cycles, 0));
    reads(rt, &mut bank, 7, word);
    let word = W::splat(0x70);
    programs(rt, C::SET, &mut bank, geometry, 7, word, (cycles, 0));
    reads(rt, &mut bank, 7, word);
    programs(
        rt,
        C::SET,
        &mut bank,
        geometry,
        7,
        W::splat(0xFF),
        (cycles, more),
    );
    reads(rt, &mut bank, 7, word);
    reads(rt, &mut bank, 6, W::splat(0xFF));
    reads(rt, &mut bank, 8, W::splat(0xFF));
    Ok(())
}

fn tries_each<C: Made>(rt: &impl Abort, alloc: Global, pace: u32) -> Result<(), Fail> {
    for (width, lanes, device) in WIRINGS {
        match width {
            1 => tries::<u8, C>(rt, alloc, lanes, device, pace)?,
            2 => tries::<u16, C>(rt, alloc, lanes, device, pace)?,
            4 => tries::<u32, C>(rt, alloc, lanes, device, pace)?,
            _ => tries::<u64, C>(rt, alloc, lanes, device, pace)?,
        }
    }
    Ok(())
}

#[test]
fn a_word_is_programmed_on_each_wiring(rt: HostRuntime) -> Result<(), Fail> {
    for pace in [0, 1, 40] {
        tries_each::<Intel>(&rt, rt.alloc(), pace)?;
        tries_each::<Amd>(&rt, rt.alloc(), pace)?;
    }
    Ok(())
}

// Power goes after so many cycles of a program; then it comes back, and the unit reads this.
fn goes_off<W: BusWord, B: Bus<W>>(
    rt: &impl Abort,
    set: Set,
    bus: &mut B,
    g: Geometry,
    after: u32,
    word: W,
)
    requires { IsTrue (is_wiring W.WIDTH g.lanes g.device) }
{
    let failed = bus.failed();
    assert!(rt; bus.is_on());
    bus.arm(after, 0x0F);
    let new = counting::<W>(0x30);
    let halt = program_word::<W, B>(set, bus, g, after, new);
    assert_eq!(rt; halt, Err(Halt::Off), "{after}");
    assert_eq!(rt; bus.failed(), failed.wrapping_add(1));
    assert!(rt; !bus.is_on());
    bus.power_on();
    reads::<W, B>(rt, bus, after, word);
    reads::<W, B>(rt, bus, 20, W::splat(0xFF));
}

// Until the last write the unit is as it was. Then a cut leaves the bits that the datum clears and the
// mask has, for the one read that shows working and the next, which ends the program. Behind that the
// unit has the datum.
fn goes_off_at_each<W: BusWord, C: Made>(
    rt: &impl Abort,
    alloc: Global,
    lanes: u8,
    device: Device,
) -> Result<(), Fail> {
    let geometry = make_geometry(W::WIDTH, lanes, device)?;
    let setup = Setup {
        geometry,
        pace: 1,
        weak_lane: None,
        stuck_lane: None,
    };
    let mut bank = make_bank::<W, C>(alloc, setup)?;
    let new = counting::<W>(0x30);
    let begun = writes(C::SET);
    for after in 0..cycles_beside(C::SET, lanes).saturating_add(1) {
        let left = if after < begun {
            W::splat(0xFF)
        } else if after - begun < 2 {
            with_bits(new, 0x0F)
        } else {
            new
        };
        goes_off(rt, C::SET, &mut bank, geometry, after, left);
    }
    Ok(())
}

#[test]
fn power_goes_at_each_cycle_of_a_word(rt: HostRuntime) -> Result<(), Fail> {
    goes_off_at_each::<u8, Intel>(&rt, rt.alloc(), 1, X8)?;
    goes_off_at_each::<u8, Amd>(&rt, rt.alloc(), 1, X8)?;
    goes_off_at_each::<u16, Amd>(&rt, rt.alloc(), 2, X16Byte)?;
    goes_off_at_each::<u64, Intel>(&rt, rt.alloc(), 4, X16)
}

/// Two chips of 8 KiB on a word of four bytes, of which one may be weak and one stuck.
pub fn two_chips<C: Made>(
    alloc: Global,
    weak_lane: Option<u8>,
    stuck_lane: Option<u8>,
) -> Result<SimBank<u32, C>, Fail> {
    let setup = Setup {
        geometry: TWO_CHIPS,
        pace: 2,
        weak_lane,
        stuck_lane,
    };
    let bank = make_bank::<u32, C>(alloc, setup)?;
    Ok(bank)
}

// Lane 1 is weak. The program that breaks off takes as many cycles as one that is done, and one more,
// which clears the error.
fn tells_weak<C: Made>(rt: &impl Abort, alloc: Global) -> Result<(), Fail> {
    let mut bank = two_chips::<C>(alloc, Some(1), None)?;
    let at = WEAK_PLACE / 2;
    let cycles = cycles_beside(C::SET, 2).saturating_add(2);
    // ones change nothing, so nothing breaks off
    programs(
        rt,
        C::SET,
        &mut bank,
        TWO_CHIPS,
        at,
        0xFFFF_FFFF,
        (cycles, 0),
    );
    let before = bank.cycles();
    let set = program_word(C::SET, &mut bank, TWO_CHIPS, at, 0);
    assert_eq!(rt; set, Ok(LaneSet { bits: 2 }));
    assert_eq!(rt; bank.cycles().wrapping_sub(before), u64::from(cycles) + 1);
    reads(rt, &mut bank, at, 0x0F0F_0000);
    programs(rt, C::SET, &mut bank, TWO_CHIPS, 0, 0, (cycles, 0));
    reads(rt, &mut bank, 0, 0);
    Ok(())
}

#[test]
fn a_weak_lane_is_told(rt: HostRuntime) -> Result<(), Fail> {
    tells_weak::<Intel>(&rt, rt.alloc())?;
    tells_weak::<Amd>(&rt, rt.alloc())
}

// Lane 1 is stuck. A poll of set 0001 is one read, and one of set 0002 two.
fn tells_stuck<C: Made>(rt: &impl Abort, alloc: Global, reads_a_poll: u32) -> Result<(), Fail> {
    let mut bank = two_chips::<C>(alloc, None, Some(1))?;
    let halt = program_word(C::SET, &mut bank, TWO_CHIPS, 0, 0);
    assert_eq!(rt; halt, Err(Halt::Stuck { lane: 1 }));
    let polls = LIMIT.saturating_mul(reads_a_poll);
    assert_eq!(rt;
        bank.cycles(),
        u64::from(writes(C::SET).saturating_add(polls))
    );
    assert!(rt; bank.is_on());
    bank.arm(0, 0xFF);
    assert!(rt; write_code::<u32, SimBank<u32, C>>(&mut bank, 0, 0xF0).is_err());
    assert!(rt; !bank.is_on());
    bank.power_on();
    reads(rt, &mut bank, 0, 0xFFFF_0000);
    Ok(())
}

#[test]
fn a_stuck_lane_ends_the_call(rt: HostRuntime) -> Result<(), Fail> {
    tells_stuck::<Intel>(&rt, rt.alloc(), 1)?;
    tells_stuck::<Amd>(&rt, rt.alloc(), 2)
}

// A code that leaves the array, and what a read shows then; settling takes so many cycles.
fn settles<C: Made>(
    rt: &impl Abort,
    alloc: Global,
    code: u8,
    shown: u32,
    cycles: u64,
) -> Result<(), Fail> {
    let mut bank = two_chips::<C>(alloc, None, None)?;
    assert!(rt; write_code::<u32, SimBank<u32, C>>(&mut bank, 0x55, code).is_ok());
    reads(rt, &mut bank, 0x10, shown);
    let lanes = Lanes {
        lanes: [LaneState::Finished; 4],
    };
    let before = bank.cycles();
    assert_eq!(rt; settle(C::SET, &mut bank, TWO_CHIPS, lanes), Ok(()));
    assert_eq!(rt; bank.cycles().wrapping_sub(before), cycles);
    reads(rt, &mut bank, 0x10, 0xFFFF_FFFF);
    Ok(())
}

// A status register of set 0001, and the query mode of set 0002.
#[test]
fn settled_lanes_show_their_arrays(rt: HostRuntime) -> Result<(), Fail> {
    settles::<Intel>(&rt, rt.alloc(), 0x70, 0x0080_0080, 2)?;
    settles::<Amd>(&rt, rt.alloc(), 0x98, 0x0051_0051, 1)
}

// A reset ends the query.
fn resets<C: Made>(rt: &impl Abort, alloc: Global) -> Result<(), Fail> {
    let mut bank = two_chips::<C>(alloc, None, None)?;
    assert!(rt; write_code::<u32, SimBank<u32, C>>(&mut bank, 0x55, 0x98).is_ok());
    reads(rt, &mut bank, 0x10, 0x0051_0051);
    assert_eq!(rt;
        reset::<u32, SimBank<u32, C>>(C::SET, &mut bank, TWO_CHIPS, 0),
        Ok(())
    );
    reads(rt, &mut bank, 0x10, 0xFFFF_FFFF);
    Ok(())
}

#[test]
fn lanes_that_are_reset_show_their_arrays(rt: HostRuntime) -> Result<(), Fail> {
    resets::<Intel>(&rt, rt.alloc())?;
    resets::<Amd>(&rt, rt.alloc())
}
