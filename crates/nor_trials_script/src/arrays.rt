//! What an array admits and what it becomes: tables of steps, each right and wrong by one.
mod halts;
mod steps;

use Call::{Erase, EraseAll, IsLocked, Lock, Poll, Program, Read, Unlock};
use Step::{Fails, Fits, Goes, Holds, Only};
use nor_array::Reply::{
    Bit, Busy, Done, Erased, Failed, Locked, NoChipErase, NoLocks, NotYet, Nothing, Occupied,
    Opened, OutOfRange, TooLong,
};
use nor_array::{Bytes, make_bytes};
use std::test::Fail;
use steps::{Call, KEPT_LOCKS, NO_LOCKS, Offer, SET_LOCKS, Step, goes_through};

const PROGRAM_AND_READ: [Step; 4] = [
    Goes(Program(1, &[0xF0]), Done, 0, &[]),
    Fits(Read(0, 4), Done, 0, &[0xFF, 0xF0, 0xFF, 0xFF], true),
    Fits(Read(0, 4), Done, 0, &[0xFF, 0xFF, 0xFF, 0xFF], false),
    Fits(Read(0, 4), Done, 0, &[0xFF, 0xF0, 0xFF], false),
];

// Each is the next one's reason too, or wrong by one byte, one block or one caller.
const IN_THEIR_ORDER: [Step; 16] = [
    Goes(Erase(2), Opened, 0, &[]),
    Only(Read(8193, 0), OutOfRange),
    Only(Read(0, 8193), OutOfRange),
    Only(Read(0x800, 8192), OutOfRange),
    Only(Read(0, 4097), TooLong),
    Only(Read(0, 4096), Busy { block: 2 }),
    Only(Read(0x7FF, 2), Busy { block: 2 }),
    Only(Read(0xBFF, 1), Busy { block: 2 }),
    Only(Read(0x800, 0), Done),
    Only(Read(8192, 0), Done),
    Only(Erase(8), OutOfRange),
    Only(Erase(2), Busy { block: 2 }),
    Only(Erase(7), Occupied { block: 2 }),
    Only(Poll(2), Nothing),
    Only(Lock(2), Busy { block: 2 }),
    Only(Unlock(8), OutOfRange),
];

const LOCKS: [Step; 10] = [
    Only(Program(0x3FF, &[0, 0]), Locked { block: 0 }),
    Only(IsLocked(1), Bit(true)),
    Goes(Unlock(0), Done, 0, &[]),
    Only(Program(0x3FF, &[0, 0]), Locked { block: 1 }),
    Only(Program(0x3FF, &[0]), Done),
    Only(Erase(0), Opened),
    Goes(Lock(0), Done, 0, &[]),
    Only(IsLocked(0), Bit(true)),
    Only(Erase(1), Locked { block: 1 }),
    Only(EraseAll, NoChipErase),
];

const WITHOUT_LOCKS: [Step; 2] = [Only(Lock(0), NoLocks), Only(IsLocked(0), NoLocks)];

const AN_ERASE: [Step; 9] = [
    Goes(Program(0x7FF, &[0, 0]), Done, 0, &[]),
    Goes(Erase(2), Opened, 0, &[]),
    Goes(Poll(1), NotYet, 0, &[]),
    Fails(Poll(1), 0x800, 0xC00, 1024, &[], false),
    Goes(Poll(1), Erased, 0, &[]),
    Holds(0x7FF, 0),
    Holds(0x800, 0xFF),
    Holds(0xBFF, 0xFF),
    Only(Poll(1), Nothing),
];

const A_WEAK_ERASE: [Step; 10] = [
    Goes(Erase(1), Opened, 0, &[]),
    Fits(Poll(1), Erased, 0, &[], false),
    Fails(Poll(1), 0x400, 0x800, 1023, &[], false),
    Fails(Poll(1), 0x401, 0x800, 1024, &[], false),
    Fails(Poll(1), 0x400, 0x7FF, 1024, &[], false),
    Goes(
        Poll(1),
        Failed {
            from: 0x400,
            to: 0x800,
            lanes: 1,
        },
        1024,
        &[],
    ),
    Holds(0x3FF, 0xFF),
    Holds(0x400, 0xA5),
    Holds(0x7FF, 0xA5),
    Holds(0x800, 0xFF),
];

// It would change only where a datum lacks a bit.
const A_WEAK_PROGRAM: [Step; 13] = [
    Only(Program(0x403, &[0, 0xFF, 0xFF, 0]), Done),
    Fits(LOW, Done, 0, &[], false),
    Fails(LOW, 0x403, 0x407, 0, &[0, 0xFF, 0x0F, 0], true),
    Fails(LOW, 0x406, 0x407, 0, &[0], false),
    Fails(LOW, 0x403, 0x404, 0, &[0], false),
    Fails(LOW, 0x402, 0x405, 0, &[0xFF, 0, 0xFF], false),
    Fails(LOW, 0x404, 0x408, 0, &[0xFF, 0x0F, 0, 0xFF], false),
    Fails(LOW, 0x404, 0x406, 0, &[0xFF], false),
    Fails(LOW, 0x404, 0x406, 0, &[0xFF, 0x8E], false),
    Fails(LOW, 0x404, 0x404, 0, &[], false),
    Goes(
        LOW,
        Failed {
            from: 0x404,
            to: 0x406,
            lanes: 1,
        },
        0,
        &[0xFF, 0x8F],
    ),
    Holds(0x405, 0x8F),
    Holds(0x406, 0xFF),
];

const LOW: Call = Program(0x403, &[0, 0xFF, 0x0F, 0]);

// Each call is told the lowest block that it touches, and another erase of all blocks the lowest of all.
const ALL_BLOCKS: [Step; 13] = [
    Goes(Lock(5), Done, 0, &[]),
    Only(EraseAll, Locked { block: 5 }),
    Goes(Unlock(5), Done, 0, &[]),
    Goes(EraseAll, Opened, 0, &[]),
    Only(Read(0x1801, 1), Busy { block: 6 }),
    Only(Read(0x7FF, 2), Busy { block: 1 }),
    Only(Erase(1), Busy { block: 1 }),
    Only(IsLocked(7), Busy { block: 7 }),
    Only(EraseAll, Occupied { block: 0 }),
    Only(Poll(2), Nothing),
    Goes(
        Poll(1),
        Failed {
            from: 0,
            to: 8192,
            lanes: 1,
        },
        8192,
        &[],
    ),
    Holds(0, 0xA5),
    Holds(8191, 0xA5),
];

// What is offered, whether all blocks are locked at the opening, and the steps.
type Row = (Offer, bool, &'static [Step]);

const ROWS: [Row; 8] = [
    (NO_LOCKS, false, &PROGRAM_AND_READ),
    (KEPT_LOCKS, false, &IN_THEIR_ORDER),
    (SET_LOCKS, true, &LOCKS),
    (NO_LOCKS, false, &WITHOUT_LOCKS),
    (KEPT_LOCKS, false, &AN_ERASE),
    (KEPT_LOCKS, false, &A_WEAK_ERASE),
    (KEPT_LOCKS, false, &A_WEAK_PROGRAM),
    (KEPT_LOCKS, false, &ALL_BLOCKS),
];

#[test]
fn arrays_go_through_their_steps(rt: HostRuntime) -> Result<(), Fail> {
    for (offer, locked, steps) in ROWS.iter().chain(&halts::ROWS) {
        goes_through(&rt, rt.alloc(), *offer, *locked, steps)?;
    }
    // bytes are those of a vector, and are given back
    let bytes = Bytes::from_vec(vec![in rt.alloc(); 7, 0, 255]?);
    assert!(rt; bytes == make_bytes(rt.alloc(), &[7, 0, 255])?);
    assert_eq!(rt; bytes.into_vec().as_slice(), [7, 0, 255].as_slice());
    Ok(())
}
