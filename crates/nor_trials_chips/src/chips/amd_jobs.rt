//! Suspended erases, a stuck chip, and losses of power.
use super::Cycle::{Counted, Cut, Erase, PowerOn, Program, Read, Unlocked, Write};
use super::amd_commands::LOAD;
use super::{Cycle, PLAIN, Row, STUCK, SUSPEND_KIND, Setup};

const READS_ALONE: Setup = Setup {
    other: Some((SUSPEND_KIND, 1)),
    ..PLAIN
};

const UNKNOWN: Setup = Setup {
    other: Some((SUSPEND_KIND, 3)),
    ..PLAIN
};

// A held block shows its toggle bit.
const HELD: [Cycle; 25] = [
    Erase(0),
    // three reads left: it pauses for two, and one is left for later
    Read(0, 0x4C),
    Write(0, 0xB0),
    Read(0, 0x08),
    Read(0, 0x4C),
    // held: bit 2 toggles in the block, and bit 6 is still
    Read(0, 0xC0),
    Read(0, 0xC4),
    Read(0x200, 0xFFFF),
    Read(0x200, 0xFFFF),
    Read(0x1FF, 0xC0),
    Counted(1, 1),
    // in the query table nothing toggles, nor where the locks are shown
    Write(0x55, 0x98),
    Read(0x10, 0x51),
    Write(0, 0xF0),
    Unlocked(0x555, 0xE0),
    Read(0x10, 1),
    Write(0, 0x90),
    Write(0, 0x00),
    Read(0, 0xC4),
    // it goes on by its code alone, and ends
    Write(0, 0x31),
    Read(0, 0xC0),
    Write(7, 0x30),
    Read(0, 0x0C),
    Read(0, 0xFFFF),
    Counted(1, 1),
];

// While an erase is held, other blocks are programmed alone.
const PROGRAMMED_BESIDE: [Cycle; 15] = [
    Erase(0),
    Write(0, 0xB0),
    Read(0, 0x4C),
    Read(0, 0x08),
    Erase(0x200),
    Read(0x200, 0xFFFF),
    Counted(1, 1),
    // the held block shows that nothing runs
    Program(1, 0x0000),
    Read(1, 0x84),
    Read(1, 0x80),
    Program(0x200, 0x0FF0),
    Read(0, 0x40),
    Read(0, 0x00),
    Read(0x200, 0x0FF0),
    Read(0, 0x84),
];

const READ_BESIDE: [Cycle; 8] = [
    Erase(0),
    Write(0, 0xB0),
    Read(0, 0x4C),
    Read(0, 0x08),
    Read(0x200, 0xFFFF),
    Program(0x200, 0x0000),
    Read(0x200, 0xFFFF),
    Read(0, 0x84),
];

// What runs takes the suspend code alone.
const SUSPEND_ALONE: [Cycle; 15] = [
    Program(0, 0x00FF),
    Write(0, 0xB0),
    Read(0, 0x40),
    Write(0, 0xF0),
    Read(0, 0x00),
    Read(0, 0x00FF),
    // two reads left, which is the pace: it goes on
    Erase(0),
    Read(0, 0x4C),
    Write(0, 0xB1),
    Read(0, 0x08),
    Write(0, 0xB0),
    Read(0, 0x4C),
    Read(0, 0x08),
    Read(0, 0xFFFF),
    Counted(0, 1),
];

// The table has an unknown number, which offers no suspend.
const NEVER_HELD: [Cycle; 8] = [
    Erase(0),
    Write(0, 0xB0),
    Read(0, 0x4C),
    Read(0, 0x08),
    Read(0, 0x4C),
    Read(0, 0x08),
    Read(0, 0xFFFF),
    Counted(0, 1),
];

// A stuck chip toggles for ever.
const WORKS_FOR_EVER: [Cycle; 36] = [
    Erase(0),
    Read(0, 0x4C),
    Write(0, 0xB0),
    Read(0, 0x08),
    Read(0, 0x4C),
    Write(0, 0xB0),
    Read(0, 0x08),
    Read(0, 0x4C),
    Write(0, 0xB0),
    Read(0, 0x08),
    Read(0, 0x4C),
    Write(0, 0xB0),
    Read(0, 0x08),
    Read(0, 0x4C),
    Write(0, 0xB0),
    Read(0, 0x08),
    PowerOn,
    Program(0, 0x1234),
    Read(0, 0xC0),
    Read(0, 0x80),
    Read(0, 0xC0),
    Read(0, 0x80),
    Read(0, 0xC0),
    Read(0, 0x80),
    Read(0, 0xC0),
    Read(0, 0x80),
    Read(0, 0xC0),
    Read(0, 0x80),
    Cut(0x00),
    PowerOn,
    Read(0, 0x1234),
    Erase(0),
    Cut(0x81),
    PowerOn,
    Read(0, 0x93B5),
    Read(0x1FF, 0xFFFF),
];

// Before its last cycle a buffer load leaves nothing.
const BEFORE_ITS_LAST_CYCLE: [Cycle; 4] = [Cut(0x0F), PowerOn, Read(0, 0xFFFF), Read(3, 0xFFFF)];

// A cut tears what is under way.
const TORN: [Cycle; 17] = [
    Write(0, 0x29),
    Cut(0x0F),
    PowerOn,
    Read(0, 0x1F1F),
    Read(3, 0x4F4F),
    Read(4, 0xFFFF),
    // a held erase is lost with its block
    Erase(0),
    Write(0, 0xB0),
    Read(0, 0x4C),
    Read(0, 0x08),
    Read(0, 0x84),
    Cut(0xA0),
    PowerOn,
    Read(0, 0xBFBF),
    Write(0, 0x30),
    Read(0, 0xBFBF),
    Counted(1, 1),
];

pub(super) const ROWS: [Row; 8] = [
    ("held", PLAIN, &[&HELD]),
    ("programmed beside", PLAIN, &[&PROGRAMMED_BESIDE]),
    ("read beside", READS_ALONE, &[&READ_BESIDE]),
    ("suspend alone", PLAIN, &[&SUSPEND_ALONE]),
    ("never held", UNKNOWN, &[&NEVER_HELD]),
    ("stuck", STUCK, &[&WORKS_FOR_EVER]),
    (
        "before its last cycle",
        PLAIN,
        &[&LOAD, &BEFORE_ITS_LAST_CYCLE],
    ),
    ("torn", PLAIN, &[&LOAD, &TORN]),
];
