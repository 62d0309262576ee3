//! How many bus cycles a call makes.
use crate::beside::Beside;
use crate::beside::Call::{
    self, Cut, Fill, IsLocked, Lock, Open, OpenAll, Poll, PowerOn, Program, Read, Unlock,
};
use crate::images::{
    Content, Image, amd_table, four, intel_table, load, ones, rising, weak, whole_erase, with,
};
use nor_bus::{Bus, SimBank};
use nor_cell::Chip;
use nor_cell::Device::X16;
use nor_image::with_bank;
use nor_word::BusWord;
use std::alloc::Global;
use std::process::Abort;
use std::test::Fail;

/// A caller, its call, and the least and the most cycles that it makes.
type Cost = (u8, Call, u64, u64);

fn takes_on<W: BusWord, C: Chip + Drop>(
    rt: &impl Abort,
    alloc: Global,
    image: &Image,
    bus: SimBank<W, C>,
    costs: &[Cost],
) -> Result<(), Fail> {
    let mut beside = Beside::start(rt, alloc, image, bus)?;
    for (k, (caller, call, least, most)) in costs.iter().enumerate() {
        let before = beside.bank.bus().cycles();
        let (reply, _) = beside.makes(rt, *caller, *call)?;
        let made = beside.bank.bus().cycles().saturating_sub(before);
        assert!(rt;
            *least <= made && made <= *most,
            "row {k} {call:?} {reply:?} made {made}"
        );
    }
    Ok(())
}

fn takes(rt: &impl Abort, alloc: Global, image: &Image, costs: &[Cost]) -> Result<(), Fail> {
    with_bank!(load(alloc, image)?, bus => takes_on(rt, alloc, image, bus, costs))
}

const ONE_LOAD: [Cost; 2] = [(1, Unlock(1), 0, 80), (1, Fill(0x420, 32, 0), 0, 72)];

const ONE_LOAD_OF_FOUR: [Cost; 1] = [(1, Fill(0x100, 128, 0), 0, 72)];

#[test]
fn a_load_takes_fewer_cycles_than_its_words(rt: HostRuntime) -> Result<(), Fail> {
    takes(&rt, rt.alloc(), &rising(), &ONE_LOAD)?;
    takes(&rt, rt.alloc(), &four(), &ONE_LOAD_OF_FOUR)
}

// Of set 0001 a lock call makes three cycles; a word one read for its old bits, four writes and
// three polls; a load one write more for its count, its confirm and each word behind the first.
const ONE_CHIP: [Cost; 19] = [
    (1, Read(0, 4096), 2048, 2048),
    (1, Read(1, 2), 2, 2),
    (1, Unlock(0), 3, 3),
    (1, Unlock(1), 3, 3),
    (1, IsLocked(0), 3, 3),
    (1, Program(0x400, &[0, 0]), 11, 11),
    (1, Fill(0x440, 64, 0), 83, 83),
    (1, Open(0), 6, 6),
    (1, Poll, 2, 2),
    // two writes, three reads at this pace and a write; then nothing runs any more
    (2, Read(0x400, 2), 7, 7),
    (2, Read(0x400, 2), 1, 1),
    (2, Read(0x400, 1024), 512, 512),
    (2, Program(0x404, &[0, 0]), 11, 11),
    (2, Lock(2), 3, 3),
    // the erase is resumed before it is looked at
    (1, Poll, 3, 3),
    (2, Read(0, 1), 0, 0),
    (2, Open(1), 0, 0),
    (2, Read(0x400, 0), 0, 0),
    // the last one shows the array again
    (1, Poll, 3, 3),
];

const NO_LOCKS: [Cost; 3] = [
    (1, Program(0x400, &[0, 0]), 8, 8),
    (1, Open(0), 3, 3),
    (1, Cut(0, 0), 0, 0),
];

#[test]
fn calls_of_set_1_make_so_many_cycles(rt: HostRuntime) -> Result<(), Fail> {
    let alloc = rt.alloc();
    let one = ones(1, X16, intel_table());
    takes(&rt, alloc, &one, &ONE_CHIP)?;
    takes(&rt, alloc, &one, &LOADS_OF_ONE)?;
    takes(&rt, alloc, &ones(2, X16, intel_table()), &TWO_CHIPS)?;
    let no_locks = ones(1, X16, with(intel_table(), &[(0x36, 2)]));
    takes(&rt, alloc, &no_locks, &NO_LOCKS)
}

// Of set 0002 a lock is read in six cycles and set in seven.
const FOUR_CHIPS: [Cost; 10] = [
    (1, Read(0, 4096), 512, 512),
    (1, Lock(0), 7, 7),
    (1, Unlock(0), 7, 7),
    (1, IsLocked(0), 6, 6),
    (1, Open(0), 12, 12),
    (2, Read(0x2000, 8), 7, 7),
    (2, Read(0x2000, 4096), 512, 512),
    (2, Program(0x2000, &[0]), 15, 15),
    (1, Poll, 3, 3),
    (1, Poll, 3, 3),
];

// The lock, each word once, and for each piece of 16 words these and nine cycles.
const LOADS_OF_FOUR: [Cost; 4] = [
    (1, Fill(0x1000, 8, 0), 15, 15),
    (1, Fill(0x1100, 64, 0), 31, 31),
    (1, Fill(0x2000, 512, 0), 170, 170),
    (1, Fill(0x3000, 4096, 0), 1318, 1318),
];

// Each of four blocks asks for its lock.
const LOADS_OF_ONE: [Cost; 7] = [
    (1, Unlock(1), 3, 3),
    (1, Fill(0x400, 512, 0), 643, 643),
    (1, Unlock(4), 3, 3),
    (1, Unlock(5), 3, 3),
    (1, Unlock(6), 3, 3),
    (1, Unlock(7), 3, 3),
    (1, Fill(0x1000, 4096, 0), 5132, 5132),
];

// Two chips are asked at once: what changes is how many words there are.
const TWO_CHIPS: [Cost; 14] = [
    (1, Read(0, 4096), 1024, 1024),
    (1, Unlock(0), 3, 3),
    (1, Unlock(1), 3, 3),
    (1, Program(0x800, &[0, 0]), 11, 11),
    (1, Fill(0x840, 64, 0), 43, 43),
    (1, Fill(0xA00, 512, 0), 323, 323),
    (1, Unlock(2), 3, 3),
    (1, Unlock(3), 3, 3),
    (1, Fill(0x1000, 4096, 0), 2566, 2566),
    (1, Open(0), 6, 6),
    (1, Poll, 2, 2),
    (2, Read(0x800, 2), 7, 7),
    (2, Read(0x800, 1024), 256, 256),
    (1, Poll, 3, 3),
];

// One chip tells by a single read that its program has ended: a program polls once less.
const ONE_OF_SET_2: [Cost; 13] = [
    (1, Read(0, 4096), 2048, 2048),
    (1, Lock(0), 7, 7),
    (1, Unlock(0), 7, 7),
    (1, IsLocked(0), 6, 6),
    (1, Fill(0x840, 64, 0), 86, 86),
    (1, Fill(0xA00, 512, 0), 646, 646),
    (1, Fill(0x1000, 4096, 0), 5144, 5144),
    (1, Open(0), 12, 12),
    (2, Read(0x400, 2), 7, 7),
    (2, Read(0x400, 1024), 512, 512),
    (2, Program(0x400, &[0]), 14, 14),
    (1, Poll, 3, 3),
    (1, Poll, 3, 3),
];

const TWO_OF_SET_2: [Cost; 13] = [
    (1, Read(0, 4096), 1024, 1024),
    (1, Lock(0), 7, 7),
    (1, Unlock(0), 7, 7),
    (1, IsLocked(0), 6, 6),
    (1, Fill(0x840, 64, 0), 47, 47),
    (1, Fill(0xA00, 512, 0), 334, 334),
    (1, Fill(0x1000, 4096, 0), 2636, 2636),
    (1, Open(0), 12, 12),
    (2, Read(0x800, 4), 7, 7),
    (2, Read(0x800, 1024), 256, 256),
    (2, Program(0x800, &[0]), 15, 15),
    (1, Poll, 3, 3),
    (1, Poll, 3, 3),
];

// What is nearly over ends beside the read, and a poll that knows the end makes no cycle.
const ENDED: [Cost; 6] = [
    (1, Open(0), 12, 12),
    (1, Poll, 2, 2),
    (2, Read(0x2000, 8), 7, 7),
    (1, Poll, 0, 0),
    (2, Read(0x2000, 8), 1, 1),
    (1, IsLocked(0), 6, 6),
];

// The locks of eight blocks, and six writes.
const ALL: [Cost; 2] = [(1, OpenAll, 54, 80 + 8 * 8), (1, Poll, 2, 12)];

#[test]
fn calls_of_set_2_make_so_many_cycles(rt: HostRuntime) -> Result<(), Fail> {
    let alloc = rt.alloc();
    takes(&rt, alloc, &ones(1, X16, amd_table()), &ONE_OF_SET_2)?;
    takes(&rt, alloc, &ones(2, X16, amd_table()), &TWO_OF_SET_2)?;
    takes(&rt, alloc, &four(), &FOUR_CHIPS)?;
    takes(&rt, alloc, &four(), &LOADS_OF_FOUR)?;
    takes(&rt, alloc, &four(), &ENDED)?;
    takes(&rt, alloc, &whole_erase(), &ALL)
}

// Words that don't change are read once, and no more.
const UNCHANGED: [Cost; 3] = [
    (1, Unlock(0), 3, 3),
    (1, Program(0, &[0xFF; 16]), 7, 7),
    (1, Fill(0, 2048, 0x5A), 515, 515),
];

const UNCHANGED_OF_FOUR: [Cost; 2] = [
    (1, Fill(0, 64, 0xFF), 14, 14),
    (1, Fill(0, 4096, 0), 518, 518),
];

#[test]
fn words_that_stay_are_not_programmed(rt: HostRuntime) -> Result<(), Fail> {
    let alloc = rt.alloc();
    let content = Content::Zeros;
    takes(&rt, alloc, &Image { content, ..weak() }, &UNCHANGED)?;
    takes(&rt, alloc, &Image { content, ..four() }, &UNCHANGED_OF_FOUR)
}

// A kept loss of power costs the cycle that is tried, which fails; power-on costs none.
const OFF: [Cost; 4] = [
    (1, Cut(1, 0), 0, 0),
    (1, Read(0, 16), 1, 1),
    (1, Read(0, 16), 0, 0),
    (1, PowerOn, 0, 0),
];

#[test]
fn a_bank_without_power_reaches_no_chip(rt: HostRuntime) -> Result<(), Fail> {
    takes(&rt, rt.alloc(), &ones(1, X16, amd_table()), &OFF)
}
