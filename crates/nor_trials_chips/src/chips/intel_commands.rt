//! What writes and reads of a chip of set 0001 do when no job breaks off.
use super::Cycle::{Counted, Read, Write};
use super::{BARE, Cycle, IN_BYTE_MODE, ON_EIGHT_WIRES, PLAIN, Row};

// Each command at rest, and each cycle that follows.
const EACH_COMMAND: [Cycle; 54] = [
    // the query table and the array, and codes that no row lists; the high byte is ignored
    Read(0x10, 0xFFFF),
    Write(0, 0xAB98),
    Read(0x10, 0x51),
    Read(0x0F, 0),
    Read(0x200, 0),
    Write(0, 0xFF),
    Read(0x10, 0xFFFF),
    Write(0, 0x98),
    Write(0, 0xF0),
    Read(0x10, 0xFFFF),
    // block 1 is locked: neither programmed nor erased; 0x50 clears what tells it
    Write(0, 0x90),
    Read(512 + 2, 1),
    Read(512 + 3, 0),
    Write(512, 0x40),
    Read(0, 0x80),
    Write(512, 0x0000),
    Read(0, 0x92),
    Write(0, 0x50),
    Read(0, 0x80),
    Write(0, 0x20),
    Write(512, 0xD0),
    Read(0, 0xA2),
    Write(0, 0x50),
    // unlocked it is programmed, by both codes, and erased
    Write(0, 0x60),
    Write(512, 0xD0),
    Write(0, 0x90),
    Read(512 + 2, 0),
    Write(0, 0x40),
    Write(512, 0x0F0F),
    Read(0, 0),
    Read(0, 0),
    Read(0, 0x80),
    Write(0, 0x10),
    Write(512, 0xFF00),
    Write(0, 0xFF),
    Read(0, 0),
    Read(0, 0),
    Read(0, 0x80),
    Write(0, 0xFF),
    Read(512, 0x0F00),
    Write(0, 0x20),
    Write(512, 0xD0),
    Read(0, 0),
    Read(0, 0),
    Read(0, 0),
    Read(0, 0),
    Read(0, 0x80),
    Write(0, 0xFF),
    Read(512, 0xFFFF),
    Counted(0, 1),
    // and locked again
    Write(0, 0x60),
    Write(512, 0x01),
    Write(0, 0x90),
    Read(512 + 2, 1),
];

// A cycle that does not follow is a sequence error.
const SEQUENCE_ERRORS: [Cycle; 36] = [
    Write(0, 0x20),
    Write(0, 0x21),
    Read(0, 0xB0),
    Write(0, 0x50),
    Write(0, 0x60),
    Write(0, 0x02),
    Read(0, 0xB0),
    Write(0, 0x50),
    // more units than the buffer takes
    Write(0, 0xE8),
    Write(0, 16),
    Read(0, 0xB0),
    Write(0, 0x50),
    // a unit of another block
    Write(0, 0xE8),
    Write(0, 0),
    Write(512, 0),
    Read(0, 0xB0),
    Write(0, 0x50),
    // not the unit behind the last
    Write(0, 0xE8),
    Write(0, 1),
    Write(4, 0),
    Write(6, 0),
    Read(0, 0xB0),
    Write(0, 0x50),
    // the unit behind the last, in another page
    Write(0, 0xE8),
    Write(0, 1),
    Write(15, 0),
    Write(16, 0),
    Read(0, 0xB0),
    Write(0, 0x50),
    // no confirm
    Write(0, 0xE8),
    Write(0, 0),
    Write(15, 0),
    Write(15, 0xD1),
    Read(0, 0xB0),
    Write(0, 0xFF),
    Read(15, 0xFFFF),
];

const EIGHT_WIRES: [Cycle; 10] = [
    Write(0, 0x98),
    Read(0x11, 0x52),
    Write(0, 0x90),
    Read(1024 + 2, 1),
    Write(0, 0x60),
    Write(1024, 0xD0),
    Write(0, 0xE8),
    Read(0, 0x80),
    Write(1024, 1),
    Read(0, 0x80),
];

const BYTE_MODE: [Cycle; 10] = [
    Write(0, 0x98),
    Read(0x20, 0x51),
    Read(0x21, 0x51),
    Read(0x22, 0x52),
    Write(0, 0x90),
    Read(1024 + 3, 0),
    Read(1024 + 4, 1),
    Read(1024 + 5, 1),
    // it has no buffer: 0xE8 is as any other code
    Write(0, 0xE8),
    Read(0, 0xFF),
];

const NO_BLOCKS: [Cycle; 9] = [
    Write(0, 0x90),
    Read(2, 0),
    Write(0, 0x70),
    Read(0, 0x80),
    Write(0, 0x20),
    Read(0, 0xFFFF),
    Write(0, 0xD0),
    Read(0, 0xFFFF),
    Counted(0, 0),
];

pub(super) const ROWS: [Row; 5] = [
    ("each command", PLAIN, &[&EACH_COMMAND]),
    ("sequence errors", PLAIN, &[&SEQUENCE_ERRORS]),
    ("eight wires", ON_EIGHT_WIRES, &[&EIGHT_WIRES]),
    ("byte mode", IN_BYTE_MODE, &[&BYTE_MODE]),
    ("no blocks", BARE, &[&NO_BLOCKS]),
];
