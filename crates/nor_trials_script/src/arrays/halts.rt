//! Loss of power, lanes that never end their work, and what they leave.
use super::Row;
use super::steps::{Call, KEPT_LOCKS, SET_LOCKS, Step};
use Call::{Arm, Erase, IsLocked, Lock, Poll, PowerOn, Program, Read, Unlock};
use Step::{Fits, Goes, Holds, Only};
use nor_array::Halted::{Off, Stuck};
use nor_array::Reply::{self, Bit, Done, Halted, NotYet, Nothing, Opened};

const OFF: Reply = Halted(Off { after: 7 });

const STUCK: Reply = Halted(Stuck { lane: 1 });

const BESIDE_AN_OPEN_BLOCK: [Step; 21] = [
    Fits(Read(0x7FE, 2), NotYet, 0, &[], false),
    Fits(Read(0x7FE, 2), STUCK, 0, &[], false),
    Fits(Lock(3), NotYet, 0, &[], false),
    Fits(Lock(3), STUCK, 0, &[], false),
    Goes(Erase(2), Opened, 0, &[]),
    Fits(Read(0x7FE, 2), STUCK, 0, &[], false),
    Fits(Read(0x7FE, 2), STUCK, 1024, &[], true),
    Fits(Read(0x7FE, 2), Halted(Off { after: 0 }), 1024, &[], false),
    Fits(Read(0x7FE, 2), NotYet, 0, &[], true),
    Fits(Read(0x7FE, 2), NotYet, 0, &[0xFF, 0xFF], false),
    Fits(Read(0x7FE, 2), Done, 0, &[0xFF, 0xFF], true),
    // The old bit comes after the bytes of the block.
    Fits(Lock(3), STUCK, 0, &[0], false),
    Fits(Lock(3), STUCK, 1023, &[0], false),
    Fits(Lock(3), STUCK, 1025, &[0], false),
    Fits(Lock(3), STUCK, 1024, &[0], true),
    Fits(Lock(3), STUCK, 1024, &[1], false),
    Fits(Lock(3), NotYet, 1024, &[0], false),
    Fits(Lock(3), NotYet, 0, &[], true),
    Fits(Lock(3), Done, 0, &[], true),
    // An armed cut and an open block are nothing to arming.
    Goes(Arm(7), Done, 0, &[]),
    Only(Arm(8), Done),
];

const LOCKED_BY_POWER_ON: [Step; 7] = [
    Goes(Unlock(0), Done, 0, &[]),
    Goes(Unlock(7), Done, 0, &[]),
    Goes(Arm(7), Done, 0, &[]),
    Goes(Read(0, 1), OFF, 0, &[]),
    Goes(PowerOn, Done, 0, &[]),
    Only(IsLocked(0), Bit(true)),
    Only(IsLocked(7), Bit(true)),
];

const KEPT_BY_POWER_ON: [Step; 7] = [
    Only(PowerOn, Nothing),
    Goes(Unlock(3), Done, 0, &[]),
    Goes(Arm(7), Done, 0, &[]),
    Goes(Read(0, 1), OFF, 0, &[]),
    Goes(PowerOn, Done, 0, &[]),
    Only(IsLocked(3), Bit(false)),
    Only(IsLocked(2), Bit(true)),
];

// The block stood unlocked: after the halt it stands as before, or as asked for.
const IN_A_LOCK_CALL: [Step; 11] = [
    Goes(Arm(7), Done, 0, &[]),
    Fits(Lock(3), OFF, 0, &[0], true),
    Fits(Lock(3), OFF, 0, &[1], true),
    Fits(Lock(3), OFF, 0, &[2], false),
    Fits(Unlock(3), OFF, 0, &[0], true),
    Fits(Unlock(3), OFF, 0, &[1], false),
    Fits(IsLocked(3), OFF, 0, &[0], false),
    Goes(Lock(3), OFF, 0, &[1]),
    Goes(PowerOn, Done, 0, &[]),
    Only(IsLocked(3), Bit(true)),
    Only(IsLocked(2), Bit(false)),
];

const IN_A_PROGRAM_BESIDE_AN_ERASE: [Step; 18] = [
    Goes(Lock(5), Done, 0, &[]),
    Goes(Arm(7), Done, 0, &[]),
    Goes(Erase(2), Opened, 0, &[]),
    Fits(LOW, OFF, 1024, &[], false),
    Fits(LOW, Halted(Off { after: 8 }), 0, &[0x3F, 0x81], false),
    Fits(LOW, OFF, 1024, &[0x3F, 0x81], true),
    Goes(LOW, OFF, 1024, &[0x3F, 0x81]),
    Holds(0x7FD, 0xFF),
    Holds(0x7FE, 0x3F),
    Holds(0x7FF, 0x81),
    Holds(0x800, 0xA5),
    Holds(0xBFF, 0xA5),
    Holds(0xC00, 0xFF),
    // The halt is kept, with the number of the cut, until power is on again.
    Only(Poll(1), OFF),
    Only(Read(0, 0), OFF),
    Goes(PowerOn, Done, 0, &[]),
    Only(IsLocked(5), Bit(true)),
    Only(Erase(3), Opened),
];

const LOW: Call = Program(0x7FE, &[0x0F, 0]);

// A bit above the old one is never left, and nothing leads back from a chip that is stuck.
const STUCK_IN_A_PROGRAM: [Step; 9] = [
    Goes(Program(0, &[0x7F]), Done, 0, &[]),
    Fits(Program(0, &[0xF0]), STUCK, 0, &[0x7F], true),
    Fits(Program(0, &[0xF0]), STUCK, 0, &[0x70], true),
    Fits(Program(0, &[0xF0]), STUCK, 0, &[0xF0], false),
    Fits(Program(0, &[0xF0]), STUCK, 0, &[0x60], false),
    Fits(Program(0, &[0xF0]), STUCK, 0, &[0xFF], false),
    Goes(Program(0, &[0xF0]), STUCK, 0, &[0x75]),
    Holds(0, 0x75),
    Only(PowerOn, STUCK),
];

const IN_A_LOCKED_BLOCK: [Step; 3] = [
    Goes(Lock(0), Done, 0, &[]),
    Fits(Program(0, &[0]), STUCK, 0, &[0x7F], false),
    Fits(Program(0, &[0]), STUCK, 0, &[0xFF], true),
];

pub(super) const ROWS: [Row; 7] = [
    (KEPT_LOCKS, false, &BESIDE_AN_OPEN_BLOCK),
    (SET_LOCKS, true, &LOCKED_BY_POWER_ON),
    (KEPT_LOCKS, true, &KEPT_BY_POWER_ON),
    (KEPT_LOCKS, false, &IN_A_LOCK_CALL),
    (KEPT_LOCKS, false, &IN_A_PROGRAM_BESIDE_AN_ERASE),
    (KEPT_LOCKS, false, &STUCK_IN_A_PROGRAM),
    (KEPT_LOCKS, false, &IN_A_LOCKED_BLOCK),
];
