//! Power goes where it was told to and comes back. No cell has changed, but what was under way.

use nor_bus::{Bus, Off, SimBank, read_word, write_code, write_word};
use nor_cell::Device::X8;
use nor_cell::{Chip, Geometry, Set};
use nor_image::Loaded;
use nor_intel::Intel;
use nor_probe::{ProbeError, probe};
use nor_samples::{Wiring, load};
use std::alloc::Global;
use std::process::Abort;
use std::test::Fail;

type Bank = SimBank<u16, Intel>;

const TWO_BYTE_WIDE: Wiring = Wiring {
    width: 2,
    geometry: Geometry {
        lanes: 2,
        device: X8,
    },
};

fn two_byte_bank(alloc: Global) -> Result<Bank, Fail> {
    match load(alloc, TWO_BYTE_WIDE, Set::Intel)? {
        Loaded::Intel16(bank) => Ok(bank),
        _ => Err("no bank of two-byte words")?,
    }
}

fn arm(rt: &impl Abort, bank: &mut Bank, after: u32) {
    assert!(rt; bank.is_on());
    bank.arm(after, 0xFF);
}

// So many cycles reach the chips, all later ones fail, and every failed cycle is counted.
fn goes_off_after(rt: &impl Abort, bank: &mut Bank, after: u32) {
    let cycles = bank.cycles().wrapping_add(u64::from(after));
    let failed = bank.failed();
    for _ in 0..after {
        assert!(rt; read_word::<u16, Bank>(bank, 0).is_ok());
        assert!(rt; bank.is_on());
    }
    assert_eq!(rt; read_word::<u16, Bank>(bank, 0), Err(Off));
    assert!(rt; !bank.is_on());
    assert_eq!(rt; bank.failed(), failed.wrapping_add(1));
    assert_eq!(rt; write_word::<u16, Bank>(bank, 0, 0), Err(Off));
    assert_eq!(rt; write_code::<u16, Bank>(bank, 0, 0x20), Err(Off));
    assert_eq!(rt; bank.failed(), failed.wrapping_add(3));
    assert_eq!(rt; bank.cycles(), cycles);
}

// Power comes back, and the bank has its bytes: those of lane 0 count from 0, those of lane 1 from 0x40.
fn comes_back(rt: &impl Abort, bank: &mut Bank) {
    assert!(rt; !bank.is_on());
    bank.power_on();
    assert!(rt; bank.is_on());
    for (at, word) in [(0, 0x4000), (1, 0x4101), (0xF, 0x4F0F), (0x1FFF, 0x3FFF)] {
        assert_eq!(rt; read_word::<u16, Bank>(bank, at), Ok(word), "{at}");
    }
}

// The bank has so many bus words, and lane 0's chip has its own bytes.
fn has_first_chip(rt: &impl Abort, bank: &Bank, units: u32) {
    assert_eq!(rt; bank.units(), units);
    let bytes = &bank.chip(0).cells().bytes;
    assert_eq!(rt; bytes.get(0xFE..0x101), Some([0xFE, 0xFF, 0].as_slice()));
}

#[test]
fn a_bank_just_loaded_has_power_and_its_chips(rt: HostRuntime) -> Result<(), Fail> {
    let bank = two_byte_bank(rt.alloc())?;
    has_first_chip(&rt, &bank, 8192);
    assert!(rt; bank.is_on());
    assert_eq!(rt; bank.cycles(), 0);
    assert_eq!(rt; bank.failed(), 0);
    Ok(())
}

#[test]
fn power_goes_after_the_armed_cycles(rt: HostRuntime) -> Result<(), Fail> {
    let mut bank = two_byte_bank(rt.alloc())?;
    for after in [0, 1, 2] {
        arm(&rt, &mut bank, after);
        goes_off_after(&rt, &mut bank, after);
        comes_back(&rt, &mut bank);
    }
    Ok(())
}

#[test]
fn a_second_arm_replaces_the_first(rt: HostRuntime) -> Result<(), Fail> {
    let mut bank = two_byte_bank(rt.alloc())?;
    for (first, second) in [(0, 2), (2, 1)] {
        arm(&rt, &mut bank, first);
        arm(&rt, &mut bank, second);
        goes_off_after(&rt, &mut bank, second);
        comes_back(&rt, &mut bank);
    }
    Ok(())
}

// Where a word is programmed below, and what it holds: byte 0x3F of each chip.
const AT: u32 = 0x3F;

// The block is unlocked and the word is programmed with zeros, and power goes with a mask before the
// chips are read. What is left of the word after power-on is the answer.
fn cut_in_a_program(rt: &impl Abort, bank: &mut Bank, mask: u8) -> Result<u16, Off> {
    write_code::<u16, Bank>(bank, AT, 0x60)?;
    write_code::<u16, Bank>(bank, AT, 0xD0)?;
    write_code::<u16, Bank>(bank, AT, 0x40)?;
    write_word::<u16, Bank>(bank, AT, 0)?;
    assert!(rt; bank.is_on());
    bank.arm(0, mask);
    assert_eq!(rt; read_word::<u16, Bank>(bank, AT), Err(Off));
    assert!(rt; !bank.is_on());
    bank.power_on();
    read_word::<u16, Bank>(bank, AT)
}

#[test]
fn a_cut_leaves_what_the_armed_mask_says(rt: HostRuntime) -> Result<(), Fail> {
    for (mask, left) in [(0xFF, 0x7F3F), (0x0F, 0x0F0F), (0x30, 0x3030), (0, 0)] {
        let mut bank = two_byte_bank(rt.alloc())?;
        assert_eq!(rt; cut_in_a_program(&rt, &mut bank, mask), Ok(left));
    }
    Ok(())
}

#[test]
fn power_that_goes_while_probing_is_told(rt: HostRuntime) -> Result<(), Fail> {
    for after in [0, 4, 7, 8, 500, 501] {
        let mut bank = two_byte_bank(rt.alloc())?;
        arm(&rt, &mut bank, after);
        assert_eq!(rt; probe::<u16, Bank>(&mut bank).err(), Some(ProbeError::Off));
        assert_eq!(rt; bank.cycles(), u64::from(after));
        assert_eq!(rt; bank.failed(), 1);
    }
    Ok(())
}

#[test]
fn probing_makes_no_cycle_behind_its_last(rt: HostRuntime) -> Result<(), Fail> {
    let mut bank = two_byte_bank(rt.alloc())?;
    arm(&rt, &mut bank, 502);
    assert!(rt; probe::<u16, Bank>(&mut bank).is_ok());
    assert_eq!(rt; bank.cycles(), 502);
    assert!(rt; bank.is_on());
    assert_eq!(rt; read_word::<u16, Bank>(&mut bank, 0), Err(Off));
    Ok(())
}
