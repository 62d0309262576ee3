//! Aborted buffer loads, and jobs that weak places break off.
use super::Cycle::{Counted, Erase, PowerOn, Program, Read, Unlocked, Write};
use super::amd_commands::LOAD;
use super::{Cycle, PLAIN, Row, Setup};

const WEAK: Setup = Setup {
    weak: Some(4),
    counted: u32::MAX,
    ..PLAIN
};

// A cycle that doesn't follow aborts a buffer load.
const ABORTED: [Cycle; 45] = [
    // more units than the buffer takes
    Unlocked(0, 0x25),
    Write(0, 16),
    Write(0, 0),
    Write(0, 0),
    Read(0, 0x42),
    Read(0x200, 0x02),
    Unlocked(0x555, 0xF0),
    Read(4, 0xFFFF),
    Read(15, 0xFFFF),
    // a unit of another block
    Unlocked(0, 0x25),
    Write(0, 1),
    Write(0x200, 0),
    Write(0, 0),
    Read(0, 0x42),
    Read(0x200, 0x02),
    Unlocked(0x555, 0xF0),
    Read(4, 0xFFFF),
    Read(15, 0xFFFF),
    // not the unit behind the last
    Unlocked(0, 0x25),
    Write(0, 1),
    Write(4, 0),
    Write(6, 0),
    Read(0, 0x42),
    Read(0x200, 0x02),
    Unlocked(0x555, 0xF0),
    Read(4, 0xFFFF),
    Read(15, 0xFFFF),
    // the unit behind the last, in another page
    Unlocked(0, 0x25),
    Write(0, 1),
    Write(15, 0),
    Write(16, 0),
    Read(0, 0x42),
    Read(0x200, 0x02),
    Unlocked(0x555, 0xF0),
    Read(4, 0xFFFF),
    Read(15, 0xFFFF),
    // another last cycle
    Unlocked(0, 0x25),
    Write(0, 0),
    Write(15, 0),
    Write(15, 0x28),
    Read(0, 0x42),
    Read(0x200, 0x02),
    Unlocked(0x555, 0xF0),
    Read(4, 0xFFFF),
    Read(15, 0xFFFF),
];

// An abort ends by its reset alone.
const RESET: [Cycle; 49] = [
    Unlocked(0, 0x25),
    Write(0, 16),
    Write(0x554, 0xAA),
    Write(0x2AA, 0x55),
    Write(0x555, 0xF0),
    Read(0, 0x42),
    Read(0x200, 0x02),
    Write(0x555, 0xAB),
    Write(0x2AA, 0x55),
    Write(0x555, 0xF0),
    Read(0, 0x42),
    Read(0x200, 0x02),
    Write(0x555, 0xAA),
    Write(0x2AB, 0x55),
    Write(0x555, 0xF0),
    Read(0, 0x42),
    Read(0x200, 0x02),
    Write(0x555, 0xAA),
    Write(0x2AA, 0x54),
    Write(0x555, 0xF0),
    Read(0, 0x42),
    Read(0x200, 0x02),
    Write(0x555, 0xAA),
    Write(0x2AA, 0x55),
    Write(0x554, 0xF0),
    Read(0, 0x42),
    Read(0x200, 0x02),
    Write(0x555, 0xAA),
    Write(0x2AA, 0x55),
    Write(0x555, 0xF1),
    Read(0, 0x42),
    Read(0x200, 0x02),
    Write(0x555, 0xAA),
    Write(0x2AA, 0x55),
    Write(0x555, 0xA0),
    Read(0, 0x42),
    Read(0x200, 0x02),
    Write(0x055, 0x98),
    Write(0x555, 0xF0),
    Write(0x555, 0xF0),
    Read(0, 0x42),
    Read(0x200, 0x02),
    Unlocked(0x555, 0xF0),
    Read(0, 0xFFFF),
    // and by power-on
    Unlocked(0, 0x25),
    Write(0, 16),
    Read(0, 0x42),
    PowerOn,
    Read(0, 0xFFFF),
];

// A weak unit breaks off the program that was loaded.
const WEAK_UNIT: [Cycle; 18] = [
    Write(0, 0x29),
    Read(0, 0xC0),
    Read(0, 0x80),
    // as it worked, with bit 5; the reset code alone is taken
    Read(0, 0xE0),
    Read(0x200, 0xA0),
    Write(0, 0xF1),
    Write(0x55, 0x98),
    Program(0x200, 0x0000),
    Read(0, 0xE0),
    Write(0x123, 0xF0),
    Read(0x200, 0xFFFF),
    Read(0, 0x1111),
    Read(1, 0x2222),
    Read(2, 0x3F3F),
    Read(3, 0xFFFF),
    // bit 2 toggled three times too, where it wasn't shown
    Erase(0x200),
    Read(0, 0x08),
    Read(0, 0x4C),
];

// Power-on ends a fault and clears the toggle bits.
const AFTER_POWER_ON: [Cycle; 13] = [
    // a unit that wouldn't change does no harm
    Program(2, 0xFFFF),
    Read(0, 0x40),
    Read(0, 0x00),
    Read(2, 0xFFFF),
    Program(2, 0x0000),
    Read(0, 0xC0),
    Read(0, 0x80),
    Read(0, 0xE0),
    PowerOn,
    Read(2, 0x0F0F),
    // both toggle bits begin again at 0
    Erase(0x200),
    Read(0, 0x4C),
    Read(0, 0x08),
];

// A weak place breaks off an erase.
const WEAK_ERASE: [Cycle; 28] = [
    Program(0, 0x1234),
    Read(0, 0xC0),
    Read(0, 0x80),
    Read(0, 0x1234),
    Erase(0),
    Write(0, 0xB0),
    Read(0, 0x4C),
    Read(0, 0x08),
    Read(0, 0x84),
    Write(0, 0x30),
    Read(0, 0x48),
    Read(0, 0x0C),
    // as it worked, with bit 5; the reset code alone is taken
    Read(0, 0x68),
    Read(0x200, 0x2C),
    Write(0, 0x30),
    Write(0, 0xB0),
    Read(0, 0x68),
    Read(0, 0x2C),
    Write(0, 0xF0),
    Read(0, 0xF2F4),
    Read(2, 0xFFFF),
    // both counters were at their last value
    Counted(u32::MAX, u32::MAX),
    // another block is erased
    Erase(0x200),
    Read(0, 0x48),
    Read(0, 0x0C),
    Read(0, 0x48),
    Read(0, 0x0C),
    Read(0x200, 0xFFFF),
];

pub(super) const ROWS: [Row; 5] = [
    ("aborted", PLAIN, &[&ABORTED]),
    ("reset", PLAIN, &[&RESET]),
    ("weak unit", WEAK, &[&LOAD, &WEAK_UNIT]),
    ("after power-on", WEAK, &[&AFTER_POWER_ON]),
    ("weak erase", WEAK, &[&WEAK_ERASE]),
];
