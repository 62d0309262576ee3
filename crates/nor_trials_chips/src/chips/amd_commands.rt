//! Each command, with its cycles right and with one of them wrong.
use super::Cycle::{Counted, Cut, Erase, PowerOn, Program, Read, Unlocked, Write};
use super::{BARE, Cycle, IN_BYTE_MODE, ON_EIGHT_WIRES, PLAIN, PROTECTION, Row, Setup};

// Four units from 0 on are loaded.
pub(super) const LOAD: [Cycle; 6] = [
    Unlocked(0, 0x25),
    Write(0, 0x0003),
    Write(0, 0x1111),
    Write(1, 0x2222),
    Write(2, 0x3333),
    Write(3, 0x4444),
];

const WITHOUT_LOCKS: Setup = Setup {
    other: Some((PROTECTION, 0)),
    ..PLAIN
};

const LOCKED: Setup = Setup {
    locked: true,
    ..PLAIN
};

// A program needs each of its cycles.
const PROGRAM: [Cycle; 37] = [
    Write(0x554, 0xAA),
    Write(0x2AA, 0x55),
    Write(0x555, 0xA0),
    Write(0x20, 0x1234),
    Read(0x20, 0xFFFF),
    Write(0x555, 0xAB),
    Write(0x2AA, 0x55),
    Write(0x555, 0xA0),
    Write(0x20, 0x1234),
    Read(0x20, 0xFFFF),
    Write(0x555, 0xAA),
    Write(0x2AB, 0x55),
    Write(0x555, 0xA0),
    Write(0x20, 0x1234),
    Read(0x20, 0xFFFF),
    Write(0x555, 0xAA),
    Write(0x2AA, 0x54),
    Write(0x555, 0xA0),
    Write(0x20, 0x1234),
    Read(0x20, 0xFFFF),
    Write(0x555, 0xAA),
    Write(0x2AA, 0x55),
    Write(0x554, 0xA0),
    Write(0x20, 0x1234),
    Read(0x20, 0xFFFF),
    Write(0x555, 0xAA),
    Write(0x2AA, 0x55),
    Write(0x555, 0xA1),
    Write(0x20, 0x1234),
    Read(0x20, 0xFFFF),
    // right, with high bytes, which are ignored
    Write(0x555, 0x12AA),
    Write(0x2AA, 0xAA55),
    Write(0x555, 0xFFA0),
    Write(0x20, 0x1234),
    Read(0x20, 0xC0),
    Read(0x20, 0x80),
    Read(0x20, 0x1234),
];

// So does an erase.
const ERASE: [Cycle; 53] = [
    Program(0x200, 0x0F0F),
    Read(0, 0xC0),
    Read(0, 0x80),
    Read(0x200, 0x0F0F),
    Unlocked(0x554, 0x80),
    Write(0x555, 0xAA),
    Write(0x2AA, 0x55),
    Write(0x200, 0x30),
    Read(0x200, 0x0F0F),
    Counted(0, 0),
    Unlocked(0x555, 0x81),
    Write(0x555, 0xAA),
    Write(0x2AA, 0x55),
    Write(0x200, 0x30),
    Read(0x200, 0x0F0F),
    Counted(0, 0),
    Unlocked(0x555, 0x80),
    Write(0x554, 0xAA),
    Write(0x2AA, 0x55),
    Write(0x200, 0x30),
    Read(0x200, 0x0F0F),
    Counted(0, 0),
    Unlocked(0x555, 0x80),
    Write(0x555, 0xAB),
    Write(0x2AA, 0x55),
    Write(0x200, 0x30),
    Read(0x200, 0x0F0F),
    Counted(0, 0),
    Unlocked(0x555, 0x80),
    Write(0x555, 0xAA),
    Write(0x2AB, 0x55),
    Write(0x200, 0x30),
    Read(0x200, 0x0F0F),
    Counted(0, 0),
    Unlocked(0x555, 0x80),
    Write(0x555, 0xAA),
    Write(0x2AA, 0x54),
    Write(0x200, 0x30),
    Read(0x200, 0x0F0F),
    Counted(0, 0),
    Unlocked(0x555, 0x80),
    Write(0x555, 0xAA),
    Write(0x2AA, 0x55),
    Write(0x200, 0x31),
    Read(0x200, 0x0F0F),
    Counted(0, 0),
    Erase(0x3FF),
    Read(0x200, 0x4C),
    Read(0x200, 0x08),
    Read(0x200, 0x4C),
    Read(0x200, 0x08),
    Read(0x200, 0xFFFF),
    Counted(0, 1),
];

// Another code, and then no load.
const OTHER_LOAD: [Cycle; 3] = [Unlocked(0, 0x24), Write(0, 16), Read(0, 0xFFFF)];

// Behind a load: it shows the complement of its last unit.
const BUFFER: [Cycle; 19] = [
    Read(0, 0xFFFF),
    Write(0, 0x29),
    Read(0, 0xC0),
    Read(0, 0x80),
    Read(0, 0x1111),
    Read(1, 0x2222),
    Read(2, 0x3333),
    Read(3, 0x4444),
    Read(4, 0xFFFF),
    // the count may go anywhere, and so may the last cycle
    Unlocked(0x3FF, 0x25),
    Write(0, 1),
    Write(0x20E, 0x0000),
    Write(0x20F, 0x0080),
    Write(0, 0x29),
    Read(0, 0x40),
    Read(0, 0x00),
    Read(0x20E, 0x0000),
    Read(0x20F, 0x0080),
    Read(0x210, 0xFFFF),
];

// Locks are shown and set in their mode.
const LOCKS: [Cycle; 31] = [
    Unlocked(0x554, 0xE0),
    Read(0, 0xFFFF),
    Unlocked(0x555, 0xE1),
    Read(0, 0xFFFF),
    Unlocked(0x555, 0xE0),
    Read(0x200, 1),
    // block 1 is locked
    Write(0, 0xA0),
    Write(0x3FF, 0x00),
    Read(0x1FF, 1),
    Read(0x200, 0),
    Read(0x3FF, 0),
    Read(0x400, 1),
    // not announced, and another second cycle
    Write(0, 0xA1),
    Write(0x400, 0x00),
    Write(0, 0xA0),
    Write(0x400, 0x02),
    Write(0x400, 0x00),
    Read(0x400, 1),
    // and unlocked
    Write(0, 0xA0),
    Write(0x200, 0x01),
    Read(0x200, 1),
    // the mode isn't left by these
    Write(0, 0x91),
    Write(0, 0x00),
    Read(0, 1),
    Write(0, 0x90),
    Write(0, 0x01),
    Write(0, 0xF0),
    Read(0, 1),
    Write(0, 0x90),
    Write(0, 0x00),
    Read(0, 0xFFFF),
];

// A locked block is left alone, and stays locked over power-on.
const LOCKED_BLOCK: [Cycle; 21] = [
    Unlocked(0x555, 0xE0),
    Write(0, 0xA0),
    Write(0x200, 0x00),
    Write(0, 0x90),
    Write(0, 0x00),
    Program(0x200, 0x0000),
    Read(0x200, 0xFFFF),
    Unlocked(0x200, 0x25),
    Write(0, 0),
    Write(0x200, 0x0000),
    Write(0, 0x29),
    Read(0x200, 0xFFFF),
    Erase(0x200),
    Read(0x200, 0xFFFF),
    Counted(0, 0),
    Cut(0x00),
    PowerOn,
    Unlocked(0x555, 0xE0),
    Read(0x1FF, 1),
    Read(0x200, 0),
    Read(0x400, 1),
];

// A chip is made with its locks.
const MADE_LOCKED: [Cycle; 12] = [
    Program(0, 0x0000),
    Read(0, 0xFFFF),
    Unlocked(0x555, 0xE0),
    Read(0, 0),
    Read(0xFFF, 0),
    Write(0, 0xA0),
    Write(0xE00, 0x01),
    PowerOn,
    Unlocked(0x555, 0xE0),
    Read(0, 0),
    Read(0xDFF, 0),
    Read(0xE00, 1),
];

const NO_LOCKS: [Cycle; 2] = [Unlocked(0x555, 0xE0), Read(0x400, 0xFFFF)];

// The query table at its address.
const QUERY: [Cycle; 18] = [
    Write(0x54, 0x98),
    Read(0x10, 0xFFFF),
    Write(0x55, 0x99),
    Read(0x10, 0xFFFF),
    Write(0x55, 0xAB98),
    Read(0x10, 0x51),
    Read(0x13, 0x02),
    Read(0x3A, 0x08),
    Read(0x0F, 0),
    Read(0x200, 0),
    Write(0x55, 0xFF),
    Read(0x10, 0x51),
    Write(0, 0xF0),
    Read(0x10, 0xFFFF),
    // codes that the array doesn't take
    Write(0x555, 0xF0),
    Write(0x555, 0x30),
    Write(0x555, 0x90),
    Read(0x10, 0xFFFF),
];

const EIGHT_WIRES: [Cycle; 8] = [
    Program(0x401, 0xFF7F),
    Read(0, 0xC0),
    Read(0, 0x80),
    Read(0x401, 0x7F),
    Read(0x402, 0xFF),
    Write(0x55, 0x98),
    Read(0x11, 0x52),
    Read(0x28, 0),
];

const NO_BLOCKS: [Cycle; 11] = [
    Program(0, 0x0000),
    Read(0, 0xFFFF),
    Erase(0),
    Read(0, 0xFFFF),
    Counted(0, 0),
    Unlocked(0x555, 0xE0),
    Read(0, 0xFFFF),
    Write(0x55, 0x98),
    Read(0x10, 0x51),
    Write(0, 0xF0),
    Read(0x10, 0xFFFF),
];

// A byte mode has addresses of its own.
const BYTE_MODE: [Cycle; 30] = [
    // those of the other wirings do nothing
    Program(0x10, 0x1234),
    Read(0x10, 0xFF),
    Write(0x55, 0x98),
    Read(0x20, 0xFF),
    Write(0xAA, 0x98),
    Read(0x20, 0x51),
    Read(0x21, 0x51),
    Read(0x22, 0x52),
    Read(0x50, 0x02),
    Write(0, 0xF0),
    Write(0xAAA, 0xAA),
    Write(0x555, 0x55),
    Write(0xAAA, 0xA0),
    Write(0x10, 0x1234),
    Read(0x10, 0xC0),
    Read(0x10, 0x80),
    Read(0x10, 0x34),
    Read(0x11, 0xFF),
    // it has no buffer
    Write(0xAAA, 0xAA),
    Write(0x555, 0x55),
    Write(0, 0x25),
    Write(0, 16),
    Read(0, 0xFF),
    // an erase begins
    Write(0xAAA, 0xAA),
    Write(0x555, 0x55),
    Write(0xAAA, 0x80),
    Write(0xAAA, 0xAA),
    Write(0x555, 0x55),
    Write(0, 0x30),
    Read(0, 0x4C),
];

pub(super) const ROWS: [Row; 12] = [
    ("program", PLAIN, &[&PROGRAM]),
    ("erase", PLAIN, &[&ERASE]),
    ("other load", PLAIN, &[&OTHER_LOAD]),
    ("buffer", PLAIN, &[&LOAD, &BUFFER]),
    ("locks", PLAIN, &[&LOCKS]),
    ("locked block", PLAIN, &[&LOCKED_BLOCK]),
    ("made locked", LOCKED, &[&MADE_LOCKED]),
    ("no locks", WITHOUT_LOCKS, &[&NO_LOCKS]),
    ("query", PLAIN, &[&QUERY]),
    ("eight wires", ON_EIGHT_WIRES, &[&EIGHT_WIRES]),
    ("no blocks", BARE, &[&NO_BLOCKS]),
    ("byte mode", IN_BYTE_MODE, &[&BYTE_MODE]),
];
