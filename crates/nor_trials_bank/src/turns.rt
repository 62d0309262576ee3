//! Erases in turns: who waits for whom, what is suspended, and when it ends.
use crate::beside::Call::{Fill, IsLocked, Lock, Open, OpenAll, Poll, Program, Read, Unlock};
use crate::images::{
    amd_table, four, intel_table, ones, rising, rising_with, unequal, whole_erase, with,
};
use crate::rows::{CLOSED, POLLED, Row, goes};
use nor_array::Reply::{
    Bit, Busy, Done, Erased, Locked, NoChipErase, NotYet, Nothing, Occupied, Opened,
};
use nor_cell::Device::X16;
use std::test::Fail;

// Lane 0 ends at the fourth poll. Lane 1 has five reads left then, is suspended with three, and
// ends at the eighth.
const IN_TURNS: [Row; 11] = [
    (1, Unlock(0), Done, &[]),
    (1, Open(0), Opened, &[]),
    POLLED,
    POLLED,
    POLLED,
    POLLED,
    (2, Read(0x800, 4), Done, &[0xFF; 4]),
    POLLED,
    POLLED,
    POLLED,
    CLOSED,
];

// The first read leaves one read and seven, and the second suspends nothing.
const LAZY: [Row; 12] = [
    (1, Unlock(0), Done, &[]),
    (1, Open(0), Opened, &[]),
    (2, Read(0x800, 4), Done, &[0xFF; 4]),
    (2, Read(0x800, 4), Done, &[0xFF; 4]),
    POLLED,
    POLLED,
    POLLED,
    POLLED,
    POLLED,
    POLLED,
    POLLED,
    CLOSED,
];

#[test]
fn lanes_of_other_paces_end_in_turns(rt: HostRuntime) -> Result<(), Fail> {
    let alloc = rt.alloc();
    goes(&rt, alloc, &unequal(), &IN_TURNS, &[(0, 1), (1, 1)])?;
    goes(&rt, alloc, &unequal(), &LAZY, &[(1, 1), (1, 1)])
}

// Two reads left aren't above the pace at which the chip suspends, so it ends.
const NEARLY_OVER: [Row; 8] = [
    (1, Unlock(0), Done, &[]),
    (1, Open(0), Opened, &[]),
    POLLED,
    POLLED,
    (2, Read(0x400, 2), Done, &[0x00, 0x01]),
    (2, Read(0, 1), Busy { block: 0 }, &[]),
    CLOSED,
    (1, Read(0, 2), Done, &[0xFF, 0xFF]),
];

const TOUCHED: [Row; 4] = [
    (1, Unlock(1), Done, &[]),
    (1, Open(1), Opened, &[]),
    (2, Read(0x3FE, 3), Busy { block: 1 }, &[]),
    (2, Read(0x3FE, 2), Done, &[0xFE, 0xFF]),
];

const ANOTHER: [Row; 11] = [
    (1, Unlock(0), Done, &[]),
    (1, Unlock(1), Done, &[]),
    (1, Open(0), Opened, &[]),
    (2, Open(1), Occupied { block: 0 }, &[]),
    (2, Open(0), Busy { block: 0 }, &[]),
    (2, Poll, Nothing, &[]),
    POLLED,
    POLLED,
    POLLED,
    POLLED,
    CLOSED,
];

#[test]
fn others_are_told_what_is_under_erase(rt: HostRuntime) -> Result<(), Fail> {
    let alloc = rt.alloc();
    goes(&rt, alloc, &rising(), &NEARLY_OVER, &[(0, 1)])?;
    goes(&rt, alloc, &rising(), &TOUCHED, &[(1, 1)])?;
    goes(&rt, alloc, &rising(), &ANOTHER, &[(0, 1)])
}

const NO_SUSPEND: [Row; 10] = [
    (1, Open(0), Opened, &[]),
    (2, Read(0x400, 2), NotYet, &[]),
    (2, Read(0, 1), Busy { block: 0 }, &[]),
    (2, Poll, Nothing, &[]),
    (2, Open(1), Occupied { block: 0 }, &[]),
    POLLED,
    POLLED,
    POLLED,
    CLOSED,
    (1, Read(0, 2), Done, &[0xFF, 0xFF]),
];

// A read that finds the chips ready settles them, and the block stays open for its owner.
const FOUND_READY: [Row; 8] = [
    (1, Open(0), Opened, &[]),
    POLLED,
    POLLED,
    POLLED,
    POLLED,
    (2, Read(0x400, 2), Done, &[0x00, 0x01]),
    (2, Read(0, 1), Busy { block: 0 }, &[]),
    CLOSED,
];

const LOCKS_ALONE: [Row; 4] = [
    (1, Unlock(0), Done, &[]),
    (1, Open(0), Opened, &[]),
    (2, Lock(1), NotYet, &[]),
    (2, Lock(0), Busy { block: 0 }, &[]),
];

// Each look reads twice what toggles, and four reads show working.
const NO_SUSPEND_OF_FOUR: [Row; 7] = [
    (1, Program(0, &[0]), Done, &[]),
    (1, Open(0), Opened, &[]),
    (2, Program(0x1000, &[0]), NotYet, &[]),
    (2, Read(0x1000, 1), NotYet, &[]),
    (2, Program(0x1000, &[0]), Done, &[]),
    CLOSED,
    (1, Read(0, 1), Done, &[0xFF]),
];

#[test]
fn others_wait_where_nothing_suspends(rt: HostRuntime) -> Result<(), Fail> {
    let alloc = rt.alloc();
    let plain = rising_with(&[(0x36, 0)]);
    goes(&rt, alloc, &plain, &NO_SUSPEND, &[(0, 1)])?;
    goes(&rt, alloc, &plain, &FOUND_READY, &[(0, 1)])?;
    let locks = rising_with(&[(0x36, 0x20)]);
    goes(&rt, alloc, &locks, &LOCKS_ALONE, &[(0, 1)])?;
    let plain = ones(4, X16, with(amd_table(), &[(0x37, 0), (0x3A, 0)]));
    goes(&rt, alloc, &plain, &NO_SUSPEND_OF_FOUR, &[(0, 1); 4])
}

// A program resumes what a read suspended, and lets it run on to its end.
const FOR_READS: [Row; 10] = [
    (1, Unlock(0), Done, &[]),
    (1, Unlock(1), Done, &[]),
    (1, Open(0), Opened, &[]),
    (2, Read(0x400, 2), Done, &[0x00, 0x01]),
    (2, Program(0x400, &[0, 0]), NotYet, &[]),
    (2, Program(0x400, &[0, 0]), NotYet, &[]),
    (2, Program(0x400, &[0, 0]), Done, &[]),
    (2, Read(0x400, 2), Done, &[0x00, 0x00]),
    (2, Read(0, 2), Busy { block: 0 }, &[]),
    CLOSED,
];

const FOR_READS_OF_SET_2: [Row; 7] = [
    (1, Open(0), Opened, &[]),
    (2, Read(0x400, 2), Done, &[0xFF, 0xFF]),
    (2, Program(0x400, &[0, 0]), NotYet, &[]),
    (2, Program(0x400, &[0, 0]), Done, &[]),
    (2, Read(0x400, 2), Done, &[0x00, 0x00]),
    (2, Read(0, 2), Busy { block: 0 }, &[]),
    CLOSED,
];

#[test]
fn a_program_waits_where_reads_alone_suspend(rt: HostRuntime) -> Result<(), Fail> {
    let alloc = rt.alloc();
    goes(
        &rt,
        alloc,
        &rising_with(&[(0x3A, 0)]),
        &FOR_READS,
        &[(1, 1)],
    )?;
    let reads = ones(1, X16, with(amd_table(), &[(0x37, 1)]));
    goes(&rt, alloc, &reads, &FOR_READS_OF_SET_2, &[(1, 1)])
}

// Each lane has one suspend: the program, the loads and the lock calls find it so.
const BESIDE: [Row; 11] = [
    (1, Open(0), Opened, &[]),
    (2, Program(0x2002, &[0x00, 0x5A]), Done, &[]),
    (2, Fill(0x2010, 64, 0), Done, &[]),
    (2, Lock(1), Done, &[]),
    (2, Program(0x1000, &[0]), Locked { block: 1 }, &[]),
    (3, IsLocked(1), Bit(true), &[]),
    (3, Unlock(1), Done, &[]),
    (3, Read(0x2000, 4), Done, &[0xFF, 0xFF, 0x00, 0x5A]),
    POLLED,
    CLOSED,
    (1, Read(0, 1), Done, &[0xFF]),
];

#[test]
fn programs_and_locks_go_on_beside_an_erase(rt: HostRuntime) -> Result<(), Fail> {
    goes(&rt, rt.alloc(), &four(), &BESIDE, &[(1, 1); 4])
}

const ALL: [Row; 9] = [
    (1, Program(0x10, &[0]), Done, &[]),
    (1, OpenAll, Opened, &[]),
    (2, Read(0x3000, 1), Busy { block: 6 }, &[]),
    (2, Open(1), Busy { block: 1 }, &[]),
    (2, OpenAll, Occupied { block: 0 }, &[]),
    (1, Poll, Erased, &[]),
    (1, Read(0x10, 1), Done, &[0xFF]),
    (1, Lock(3), Done, &[]),
    (1, OpenAll, Locked { block: 3 }, &[]),
];

const NOT_ALL: [Row; 1] = [(1, OpenAll, NoChipErase, &[])];

#[test]
fn all_blocks_are_erased_at_once(rt: HostRuntime) -> Result<(), Fail> {
    let alloc = rt.alloc();
    goes(&rt, alloc, &whole_erase(), &ALL, &[(0, 1), (0, 1)])?;
    goes(&rt, alloc, &four(), &NOT_ALL, &[(0, 0); 4])?;
    goes(
        &rt,
        alloc,
        &ones(1, X16, intel_table()),
        &NOT_ALL,
        &[(0, 0)],
    )
}
