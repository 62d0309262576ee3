//! The erase of all blocks at once.
use super::Cycle::{Counted, Cut, Erase, EraseAll, PowerOn, Program, Read, Unlocked, Write};
use super::{CHIP_TIME, Cycle, PLAIN, Row, Setup};

// A typical time of two to the tenth; the pace of four reads is less.
const OFFERED: Setup = Setup {
    other: Some((CHIP_TIME, 10)),
    ..PLAIN
};

const SHORT: Setup = Setup {
    other: Some((CHIP_TIME, 1)),
    ..PLAIN
};

const WEAK: Setup = Setup {
    weak: Some(0x402),
    ..OFFERED
};

// A unit of block 0 and one of the last block are programmed.
const PROGRAMMED: [Cycle; 8] = [
    Program(0, 0x1234),
    Read(0, 0xC0),
    Read(0, 0x80),
    Read(0, 0x1234),
    Program(0xFFF, 0x5678),
    Read(0, 0xC0),
    Read(0, 0x80),
    Read(0xFFF, 0x5678),
];

const ERASED: [Cycle; 22] = [
    EraseAll,
    Counted(0, 1),
    // four reads left, and nothing suspends it
    Write(0, 0xB0),
    Read(0, 0x4C),
    Read(0xFFF, 0x08),
    Write(0, 0xB0),
    Read(0x200, 0x4C),
    Read(0, 0x08),
    Read(0, 0xFFFF),
    Read(0xFFF, 0xFFFF),
    // nothing is held
    Write(0, 0x30),
    Read(0, 0xFFFF),
    Counted(0, 1),
    // one block is suspended as ever
    Erase(0),
    Write(0, 0xB0),
    Read(0, 0x4C),
    Read(0, 0x08),
    Read(0, 0x84),
    Counted(1, 2),
    // and keeps all from being erased
    EraseAll,
    Read(0x200, 0xFFFF),
    Counted(1, 2),
];

// A wrong address or code, no cycle that announces an erase: neither unit is erased.
const NOT_ASKED_FOR: [Cycle; 10] = [
    Unlocked(0x555, 0x80),
    Unlocked(0x554, 0x10),
    Unlocked(0x555, 0x80),
    Unlocked(0, 0x10),
    Unlocked(0x555, 0x80),
    Unlocked(0x555, 0x11),
    Unlocked(0x555, 0x10),
    Read(0, 0x1234),
    Read(0xFFF, 0x5678),
    Counted(0, 0),
];

const NOT_OFFERED: [Cycle; 4] = [
    EraseAll,
    Read(0, 0x1234),
    Read(0xFFF, 0x5678),
    Counted(0, 0),
];

const IN_A_SHORT_TIME: [Cycle; 4] = [EraseAll, Read(0, 0x4C), Read(0, 0x08), Read(0, 0xFFFF)];

// One locked block keeps all from being erased.
const WITH_A_LOCK: [Cycle; 17] = [
    Unlocked(0x555, 0xE0),
    Write(0, 0xA0),
    Write(0x600, 0x00),
    Write(0, 0x90),
    Write(0, 0x00),
    EraseAll,
    Read(0, 0x1234),
    Read(0xFFF, 0x5678),
    Counted(0, 0),
    Unlocked(0x555, 0xE0),
    Write(0, 0xA0),
    Write(0x600, 0x01),
    Write(0, 0x90),
    Write(0, 0x00),
    EraseAll,
    Read(0, 0x4C),
    Counted(0, 1),
];

// A weak place and a cut reach all blocks.
const BROKEN_OFF: [Cycle; 10] = [
    EraseAll,
    Read(0, 0x4C),
    Read(0, 0x08),
    Read(0, 0x4C),
    Read(0, 0x08),
    Read(0, 0x6C),
    Write(0, 0xF0),
    Read(0, 0xF2F4),
    Read(0xFFF, 0xF6F8),
    Read(0x201, 0xFFFF),
];

const CUT_OFF: [Cycle; 8] = [
    EraseAll,
    Read(0, 0x4C),
    Cut(0x81),
    PowerOn,
    Read(0, 0x93B5),
    Read(0xFFF, 0xD7F9),
    Read(0x200, 0xFFFF),
    Counted(0, 1),
];

pub(super) const ROWS: [Row; 7] = [
    ("erased", OFFERED, &[&PROGRAMMED, &ERASED]),
    ("not asked for", OFFERED, &[&PROGRAMMED, &NOT_ASKED_FOR]),
    ("not offered", PLAIN, &[&PROGRAMMED, &NOT_OFFERED]),
    ("with a lock", OFFERED, &[&PROGRAMMED, &WITH_A_LOCK]),
    ("broken off", WEAK, &[&PROGRAMMED, &BROKEN_OFF]),
    ("cut off", OFFERED, &[&PROGRAMMED, &CUT_OFF]),
    ("in a short time", SHORT, &[&IN_A_SHORT_TIME]),
];
