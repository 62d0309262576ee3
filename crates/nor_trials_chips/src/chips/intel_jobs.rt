//! Suspended erases, weak places, a stuck chip, and losses of power, of set 0001.
use super::Cycle::{Counted, Cut, PowerOn, Read, Write};
use super::{Cycle, PLAIN, Row, STUCK, Setup};

const WEAK: Setup = Setup {
    weak: Some(4),
    counted: u32::MAX,
    ..PLAIN
};

// Blocks 0 and 1 are unlocked, and the erase of block 0 begins with four reads to go.
const ERASE: [Cycle; 6] = [
    Write(0, 0x60),
    Write(0, 0xD0),
    Write(0, 0x60),
    Write(512, 0xD0),
    Write(0, 0x20),
    Write(0, 0xD0),
];

// Block 0 is unlocked, and four units are loaded.
const LOAD: [Cycle; 8] = [
    Write(0, 0x60),
    Write(0, 0xD0),
    Write(0, 0xE8),
    Write(0, 0x0003),
    Write(0, 0x1111),
    Write(1, 0x2222),
    Write(2, 0x3333),
    Write(3, 0x4444),
];

// An erase is suspended above the pace alone.
const ABOVE_THE_PACE: [Cycle; 25] = [
    // three reads left: it pauses for two, and one is left for later
    Read(0, 0),
    Write(0, 0xB0),
    Read(0, 0),
    Read(0, 0),
    Read(0, 0xC0),
    Counted(1, 1),
    // another erase isn't begun, nor is the held block programmed; another block is
    Write(0, 0x20),
    Write(512, 0xD0),
    Read(0, 0xF0),
    Write(0, 0x50),
    Write(0, 0x40),
    Write(1, 0x0000),
    Read(0, 0xF0),
    Write(0, 0x50),
    Write(0, 0x40),
    Write(512, 0x0FF0),
    Read(0, 0x40),
    Read(0, 0x40),
    Read(0, 0xC0),
    Write(0, 0xFF),
    Read(512, 0x0FF0),
    Read(1, 0xFFFF),
    // it goes on, and ends
    Write(0, 0xD0),
    Read(0, 0),
    Read(0, 0x80),
];

const AT_THE_PACE: [Cycle; 7] = [
    // two reads left, which is the pace: it goes on
    Read(0, 0),
    Read(0, 0),
    Write(0, 0xB0),
    Read(0, 0),
    Read(0, 0),
    Read(0, 0x80),
    Counted(1, 2),
];

const BELOW_THE_PACE: [Cycle; 9] = [
    // one read left
    Read(0, 0),
    Read(0, 0),
    Read(0, 0),
    Write(0, 0xB0),
    Read(0, 0),
    Read(0, 0x80),
    Counted(1, 3),
    // nothing is held: 0xD0 is as any other code
    Write(0, 0xD0),
    Read(0, 0xFFFF),
];

// A weak unit breaks off a load and an erase.
const WEAK_LOAD: [Cycle; 9] = [
    Write(0, 0xD0),
    Read(0, 0),
    Read(0, 0),
    Read(0, 0x90),
    Write(0, 0xFF),
    Read(0, 0x1111),
    Read(1, 0x2222),
    Read(2, 0x3F3F),
    Read(3, 0xFFFF),
];

const WEAK_ERASE: [Cycle; 15] = [
    Read(0, 0),
    Write(0, 0xB0),
    Read(0, 0),
    Read(0, 0),
    Read(0, 0xD0),
    Write(0, 0xD0),
    Read(0, 0),
    Read(0, 0xB0),
    Write(0, 0xFF),
    Read(0, 0xF1F1),
    Read(2, 0xFFFF),
    // both counters were at their last value
    Counted(u32::MAX, u32::MAX),
    Write(0, 0x50),
    Write(0, 0x70),
    Read(0, 0x80),
];

// A stuck chip works for ever.
const WORKS_FOR_EVER: [Cycle; 31] = [
    Write(0, 0xB0),
    Read(0, 0),
    Read(0, 0),
    Read(0, 0),
    Read(0, 0),
    Read(0, 0),
    Read(0, 0),
    Read(0, 0),
    Read(0, 0),
    Read(0, 0),
    PowerOn,
    Read(0, 0xFFFF),
    Write(0, 0x60),
    Write(0, 0xD0),
    Write(0, 0x40),
    Write(0, 0x1234),
    Read(0, 0),
    Read(0, 0),
    Read(0, 0),
    Read(0, 0),
    Cut(0x00),
    PowerOn,
    Read(0, 0x1234),
    Write(0, 0x60),
    Write(0, 0xD0),
    Write(0, 0x20),
    Write(0, 0xD0),
    Cut(0x81),
    PowerOn,
    Read(0, 0x93B5),
    Read(511, 0xFFFF),
];

// A cut tears a buffer load only after its confirm.
const BEFORE_ITS_CONFIRM: [Cycle; 6] = [
    Cut(0x0F),
    PowerOn,
    Read(0, 0xFFFF),
    Read(1, 0xFFFF),
    Read(2, 0xFFFF),
    Read(3, 0xFFFF),
];

const AFTER_ITS_CONFIRM: [Cycle; 10] = [
    Write(0, 0xD0),
    Cut(0x0F),
    PowerOn,
    Read(0, 0x1F1F),
    Read(1, 0x2F2F),
    Read(2, 0x3F3F),
    Read(3, 0x4F4F),
    Read(4, 0xFFFF),
    Write(0, 0x90),
    Read(2, 1),
];

pub(super) const ROWS: [Row; 4] = [
    (
        "suspends",
        PLAIN,
        &[
            &ERASE,
            &ABOVE_THE_PACE,
            &ERASE,
            &AT_THE_PACE,
            &ERASE,
            &BELOW_THE_PACE,
        ],
    ),
    (
        "broken off",
        WEAK,
        &[&LOAD, &WEAK_LOAD, &ERASE, &WEAK_ERASE],
    ),
    ("stuck", STUCK, &[&ERASE, &WORKS_FOR_EVER]),
    (
        "torn",
        PLAIN,
        &[&LOAD, &BEFORE_ITS_CONFIRM, &LOAD, &AFTER_ITS_CONFIRM],
    ),
];
