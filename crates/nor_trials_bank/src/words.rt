//! Ranges are read and programmed: what the bank lacks, what is locked, and what stays.
use crate::beside::Call::{Fill, IsLocked, Lock, Open, Program, Read, Unlock};
use crate::images::{
    Content, Image, amd_table, byte_mode, four, intel_table, load, ones, rising, rising_with,
    top_boot, unequal, weak,
};
use crate::rows::{Row, goes};
use nor_array::Reply::{Bit, Done, Locked, NoLocks, OutOfRange, TooLong};
use nor_bank::{Bank, read_range};
use nor_bus::{Bus, SimBank};
use nor_cell::Device::X16;
use nor_image::Loaded;
use nor_intel::Intel;
use nor_probe::ProbeError;
use std::alloc::Global;
use std::process::Abort;
use std::test::Fail;

const BYTE_OF_A_LANE: [Row; 2] = [
    (1, Program(5, &[0x0F]), Done, &[]),
    (
        1,
        Read(0, 8),
        Done,
        &[0xFF, 0xFF, 0xFF, 0xFF, 0xFF, 0x0F, 0xFF, 0xFF],
    ),
];

const CLEARED_IN_TWO: [Row; 3] = [
    (1, Program(0, &[0xF0]), Done, &[]),
    (1, Program(0, &[0x0F]), Done, &[]),
    (1, Read(0, 1), Done, &[0x00]),
];

const ACROSS_WORDS: [Row; 2] = [
    (1, Program(3, &[0, 0]), Done, &[]),
    (1, Read(2, 4), Done, &[0x02, 0x00, 0x00, 0x05]),
];

type OneChip = SimBank<u16, Intel>;

fn one_chip(rt: &impl Abort, alloc: Global, image: &Image) -> Result<OneChip, Fail> {
    let Loaded::Intel16(bus) = load(alloc, image)? else {
        panic!(rt; "another bank")
    };
    Ok(bus)
}

#[test]
fn a_bank_is_found_or_refused(rt: HostRuntime) -> Result<(), Fail> {
    let bus = one_chip(&rt, rt.alloc(), &rising_with(&[(0x10, 0)]))?;
    let Err((bus, error)) = Bank::<u16, OneChip>::start(bus) else {
        panic!(rt; "it was found")
    };
    assert_eq!(&rt; error, ProbeError::NoAnswer);
    assert!(&rt; bus.is_on());
    let bus = one_chip(&rt, rt.alloc(), &rising())?;
    let Ok(bank) = Bank::<u16, OneChip>::start(bus) else {
        panic!(rt; "it was refused")
    };
    assert_eq!(&rt; (bank.size(), bank.found().map.blocks()), (0x2000, 8));
    assert_eq!(&rt; bank.range_refusal(0x1FFF, 2), Some(OutOfRange));
    assert_eq!(&rt; bank.range_refusal(0, 4097), Some(TooLong));
    assert_eq!(&rt; bank.range_refusal(0x1000, 4096), None);
    let mut bus = bank.stop();
    let mut bytes = [0; 4];
    assert_eq!(&rt;
        read_range::<u16, OneChip>(&mut bus, 0x10, &mut bytes),
        Ok(())
    );
    assert_eq!(&rt; bytes, [0x10, 0x11, 0x12, 0x13]);
    Ok(())
}

#[test]
fn bytes_are_programmed(rt: HostRuntime) -> Result<(), Fail> {
    let alloc = rt.alloc();
    goes(&rt, alloc, &four(), &BYTE_OF_A_LANE, &[(0, 0); 4])?;
    goes(&rt, alloc, &four(), &CLEARED_IN_TWO, &[(0, 0); 4])?;
    goes(&rt, alloc, &byte_mode(), &CLEARED_IN_TWO, &[(0, 0)])?;
    let plain = rising_with(&[(0x36, 0)]);
    goes(&rt, alloc, &plain, &ACROSS_WORDS, &[(0, 0)])
}

// Each is the next one's reason too, or wrong by one.
const REFUSED: [Row; 16] = [
    (1, Read(0x1FFF, 2), OutOfRange, &[]),
    (1, Read(0x1FFF, 4097), OutOfRange, &[]),
    (1, Read(0x2001, 0), OutOfRange, &[]),
    (1, Read(0x2000, 0), Done, &[]),
    (1, Read(0, 4097), TooLong, &[]),
    (1, Read(0x1FFE, 2), Done, &[0xFE, 0xFF]),
    (1, Fill(0x2000, 1, 0), OutOfRange, &[]),
    (1, Fill(0xFFFF_FFFF, 1, 0), OutOfRange, &[]),
    (1, Fill(0, 4097, 0), TooLong, &[]),
    (1, Program(0, &[]), Done, &[]),
    (1, Program(0x2000, &[]), Done, &[]),
    (1, Fill(0x1FFF, 1, 0), Locked { block: 7 }, &[]),
    (1, Open(8), OutOfRange, &[]),
    (1, Lock(8), OutOfRange, &[]),
    (1, Unlock(8), OutOfRange, &[]),
    (1, IsLocked(8), OutOfRange, &[]),
];

#[test]
fn ranges_and_blocks_are_refused(rt: HostRuntime) -> Result<(), Fail> {
    goes(&rt, rt.alloc(), &rising(), &REFUSED, &[(0, 0)])
}

const SET_BY_POWER_ON: [Row; 5] = [
    (1, Program(1, &[0xF0]), Locked { block: 0 }, &[]),
    (1, IsLocked(0), Bit(true), &[]),
    (1, Unlock(0), Done, &[]),
    (1, Program(1, &[0xF0]), Done, &[]),
    (1, Read(0, 2), Done, &[0x00, 0x00]),
];

const FREE: [Row; 1] = [(1, IsLocked(0), Bit(false), &[])];

// Across the border of blocks 9 and 10.
const AT_A_BORDER: [Row; 5] = [
    (1, Program(0xF7F, &[0, 0]), Done, &[]),
    (1, Lock(10), Done, &[]),
    (1, Program(0xF7F, &[0, 0]), Locked { block: 10 }, &[]),
    (1, Open(10), Locked { block: 10 }, &[]),
    (1, Read(0xF7F, 2), Done, &[0x00, 0x00]),
];

const NO_LOCKS: [Row; 3] = [
    (1, Lock(0), NoLocks, &[]),
    (1, Unlock(0), NoLocks, &[]),
    (1, IsLocked(0), NoLocks, &[]),
];

#[test]
fn locked_blocks_refuse(rt: HostRuntime) -> Result<(), Fail> {
    let alloc = rt.alloc();
    goes(&rt, alloc, &rising(), &SET_BY_POWER_ON, &[(0, 0)])?;
    goes(&rt, alloc, &four(), &FREE, &[(0, 0); 4])?;
    goes(&rt, alloc, &top_boot(), &AT_A_BORDER, &[(0, 0)])?;
    let plain = rising_with(&[(0x36, 0)]);
    goes(&rt, alloc, &plain, &NO_LOCKS, &[(0, 0)])
}

// Ones over bits that are cleared already change nothing, whatever the chip's weak places.
const ONES_OVER_ZEROS: [Row; 3] = [
    (1, Unlock(0), Done, &[]),
    (1, Program(0, &[0xFF; 16]), Done, &[]),
    (1, Read(0, 16), Done, &[0; 16]),
];

#[test]
fn cleared_bits_stay(rt: HostRuntime) -> Result<(), Fail> {
    let zeros = Image {
        content: Content::Zeros,
        ..weak()
    };
    goes(&rt, rt.alloc(), &zeros, &ONES_OVER_ZEROS, &[(0, 0); 2])
}

// Words that wouldn't change part a range into pieces, and so do pages and blocks.
const PIECES: [Row; 13] = [
    (1, Unlock(0), Done, &[]),
    (1, Unlock(1), Done, &[]),
    (
        1,
        Program(0x11, &[0x11, 0xFF, 0xFF, 0, 0, 0xFF, 0xFF, 0]),
        Done,
        &[],
    ),
    (
        1,
        Read(0x10, 10),
        Done,
        &[0xFF, 0x11, 0xFF, 0xFF, 0, 0, 0xFF, 0xFF, 0, 0xFF],
    ),
    (1, Program(0x1D, &[1, 2, 3, 4, 5, 6]), Done, &[]),
    (1, Read(0x1C, 8), Done, &[0xFF, 1, 2, 3, 4, 5, 6, 0xFF]),
    (1, Program(0x3FD, &[1, 2, 3, 4, 5, 6, 7]), Done, &[]),
    (1, Read(0x3FC, 9), Done, &[0xFF, 1, 2, 3, 4, 5, 6, 7, 0xFF]),
    (1, Program(0x3FC, &[0x0F; 9]), Done, &[]),
    (1, Read(0x3FC, 9), Done, &[0x0F, 1, 2, 3, 4, 5, 6, 7, 0x0F]),
    (1, Fill(0x101, 200, 0x3C), Done, &[]),
    (1, Read(0x100, 3), Done, &[0xFF, 0x3C, 0x3C]),
    (1, Read(0x1C7, 3), Done, &[0x3C, 0x3C, 0xFF]),
];

#[test]
fn a_range_is_programmed_in_its_pieces(rt: HostRuntime) -> Result<(), Fail> {
    let alloc = rt.alloc();
    goes(&rt, alloc, &ones(1, X16, intel_table()), &PIECES, &[(0, 0)])?;
    goes(&rt, alloc, &ones(1, X16, amd_table()), &PIECES, &[(0, 0)])?;
    goes(&rt, alloc, &unequal(), &PIECES, &[(0, 0); 2])?;
    goes(&rt, alloc, &byte_mode(), &PIECES, &[(0, 0)])
}
