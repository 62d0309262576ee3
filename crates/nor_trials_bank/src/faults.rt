//! Weak places, stuck lanes and losses of power: what callers are told, and what is left.
use crate::beside::Beside;
use crate::beside::Call::{
    Cut, Fill, IsLocked, Lock, Open, OpenAll, Poll, PowerOn, Program, Read, Unlock,
};
use crate::images::{
    Image, WeakPlace, amd_table, four, intel_table, load, ones, rising, stuck, unequal, weak,
    whole_erase,
};
use crate::rows::{POLLED, Row, STUCK, goes};
use nor_array::Halted::Off;
use nor_array::Reply::{self, Bit, Done, Failed, Halted, NotYet, Nothing, Opened, OutOfRange};
use nor_bank::Bank;
use nor_bus::{Bus, SimBank};
use nor_cell::Device::X16;
use nor_image::Loaded;
use nor_intel::Intel;
use std::test::Fail;

const OFF: Reply = Halted(Off { after: 0 });

const FAILED_WORD: Reply = Failed {
    from: 8,
    to: 12,
    lanes: 2,
};

const FAILED_BLOCK: Reply = Failed {
    from: 0,
    to: 0x800,
    lanes: 2,
};

// Lane 1 breaks off at its third word, and keeps the low bits.
const WORD_BY_WORD: [Row; 7] = [
    (1, Unlock(0), Done, &[]),
    (1, Program(0, &[0; 16]), FAILED_WORD, &[]),
    (
        1,
        Read(0, 16),
        Done,
        &[
            0, 0, 0, 0, 0, 0, 0, 0, 0, 0, 0x0F, 0x0F, 0xFF, 0xFF, 0xFF, 0xFF,
        ],
    ),
    // what wouldn't change does no harm
    (1, Program(8, &[0xFF, 0xFF, 0x0F, 0x0F]), Done, &[]),
    (
        1,
        Program(11, &[0, 0x5A]),
        Failed {
            from: 11,
            to: 12,
            lanes: 2,
        },
        &[0x0F],
    ),
    (1, Read(8, 5), Done, &[0, 0, 0x0F, 0x0F, 0xFF]),
    (1, Program(12, &[0x5A]), Done, &[]),
];

// Pieces before the one that fails are done, and those behind it untouched.
const IN_PIECES: [Row; 4] = [
    (1, Unlock(0), Done, &[]),
    (1, Program(8, &[0x0F, 0x0F, 0xFF, 0xFF]), Done, &[]),
    (
        1,
        Program(
            0,
            &[
                0, 0, 0, 0, 0xFF, 0xFF, 0xFF, 0xFF, 0, 0, 0, 0, 0xFF, 0xFF, 0xFF, 0xFF, 0, 0, 0, 0,
            ],
        ),
        FAILED_WORD,
        &[0, 0, 0x0F, 0x0F],
    ),
    (
        1,
        Read(0, 20),
        Done,
        &[
            0, 0, 0, 0, 0xFF, 0xFF, 0xFF, 0xFF, 0, 0, 0x0F, 0x0F, 0xFF, 0xFF, 0xFF, 0xFF, 0xFF,
            0xFF, 0xFF, 0xFF,
        ],
    ),
];

// A load fails as a whole; lane 0 has stored all of it.
const IN_A_LOAD: [Row; 2] = [
    (1, Unlock(0), Done, &[]),
    (
        1,
        Program(1, &[0; 14]),
        Failed {
            from: 1,
            to: 15,
            lanes: 2,
        },
        &[0, 0, 0, 0, 0, 0, 0, 0, 0, 0x0F, 0x0F, 0, 0, 0xFF],
    ),
];

fn with_weak_lane(image: Image) -> Image {
    Image {
        weak: Some(WeakPlace { lane: 1, place: 4 }),
        ..image
    }
}

#[test]
fn a_program_tells_weak_lanes(rt: HostRuntime) -> Result<(), Fail> {
    let alloc = rt.alloc();
    goes(&rt, alloc, &weak(), &WORD_BY_WORD, &[(0, 0); 2])?;
    for table in [intel_table(), amd_table()] {
        let image = with_weak_lane(ones(2, X16, table));
        goes(&rt, alloc, &image, &IN_PIECES, &[(0, 0); 2])?;
        goes(&rt, alloc, &image, &IN_A_LOAD, &[(0, 0); 2])?;
    }
    Ok(())
}

// A suspend finds that lane 1 broke off; others go on, and the owner is told.
const WEAK_ERASE: [Row; 12] = [
    (1, Unlock(0), Done, &[]),
    (1, Unlock(1), Done, &[]),
    (1, Open(0), Opened, &[]),
    POLLED,
    (2, Read(0x800, 2), Done, &[0xFF, 0xFF]),
    (2, Program(0x800, &[0, 0]), Done, &[]),
    POLLED,
    (2, Read(0x800, 2), Done, &[0x00, 0x00]),
    (1, Poll, FAILED_BLOCK, &[]),
    (2, Read(0x800, 2), Done, &[0x00, 0x00]),
    (1, Open(0), Opened, &[]),
    POLLED,
];

const WEAK_ERASE_OF_SET_2: [Row; 6] = [
    (1, Program(0, &[0x33, 0x33]), Done, &[]),
    (1, Open(0), Opened, &[]),
    POLLED,
    POLLED,
    (1, Poll, FAILED_BLOCK, &[]),
    (1, Read(0, 2), Done, &[0xFF, 0xFF]),
];

const WEAK_ERASE_OF_ALL: [Row; 3] = [
    (1, OpenAll, Opened, &[]),
    (
        1,
        Poll,
        Failed {
            from: 0,
            to: 0x4000,
            lanes: 2,
        },
        &[],
    ),
    (1, Open(1), Opened, &[]),
];

#[test]
fn an_erase_tells_weak_lanes(rt: HostRuntime) -> Result<(), Fail> {
    let alloc = rt.alloc();
    goes(&rt, alloc, &weak(), &WEAK_ERASE, &[(1, 2); 2])?;
    let two = with_weak_lane(ones(2, X16, amd_table()));
    goes(&rt, alloc, &two, &WEAK_ERASE_OF_SET_2, &[(0, 1); 2])?;
    let whole = with_weak_lane(whole_erase());
    goes(&rt, alloc, &whole, &WEAK_ERASE_OF_ALL, &[(0, 2); 2])
}

// Power-on doesn't mend it.
const STUCK_WORD: [Row; 6] = [
    (1, Unlock(0), Done, &[]),
    (1, Program(0, &[0; 4]), STUCK, &[0x00, 0x00, 0xFF, 0xFF]),
    (1, Read(0, 4), STUCK, &[]),
    (0, PowerOn, STUCK, &[]),
    (0, Cut(1, 1), STUCK, &[]),
    (1, Read(0x4000, 1), OutOfRange, &[]),
];

const STUCK_LOAD: [Row; 3] = [
    (1, Unlock(0), Done, &[]),
    (
        1,
        Program(2, &[0; 8]),
        STUCK,
        &[0xFF, 0xFF, 0, 0, 0xFF, 0xFF, 0, 0],
    ),
    (1, Poll, STUCK, &[]),
];

const STUCK_SUSPEND: [Row; 5] = [
    (1, Unlock(0), Done, &[]),
    (1, Open(0), Opened, &[]),
    POLLED,
    (2, Read(0x800, 2), STUCK, &[]),
    (2, Open(0), STUCK, &[]),
];

#[test]
fn a_stuck_lane_halts_the_bank(rt: HostRuntime) -> Result<(), Fail> {
    let alloc = rt.alloc();
    goes(&rt, alloc, &stuck(), &STUCK_WORD, &[(0, 0); 2])?;
    goes(&rt, alloc, &stuck(), &STUCK_SUSPEND, &[(1, 1), (0, 1)])?;
    for table in [intel_table(), amd_table()] {
        let image = Image {
            stuck: Some(1),
            ..ones(2, X16, table)
        };
        goes(&rt, alloc, &image, &STUCK_WORD, &[(0, 0); 2])?;
        goes(&rt, alloc, &image, &STUCK_LOAD, &[(0, 0); 2])?;
    }
    Ok(())
}

// As often as the limit allows, and no more.
#[test]
fn the_last_poll_of_a_stuck_lane_halts(rt: HostRuntime) -> Result<(), Fail> {
    let Loaded::Intel32(bus) = load(rt.alloc(), &stuck())? else {
        panic!(rt; "another bank")
    };
    let mut beside = Beside::start(&rt, rt.alloc(), &stuck(), bus)?;
    for (call, reply) in [(Unlock(0), Done), (Open(0), Opened)] {
        let (told, _) = beside.makes(&rt, 1, call)?;
        assert_eq!(&rt; told, reply);
    }
    for k in 1..4112 {
        assert_eq!(&rt; beside.bank.poll(1), NotYet, "{k}");
    }
    let (last, _) = beside.makes(&rt, 1, Poll)?;
    assert_eq!(&rt; last, STUCK);
    Ok(())
}

const POWER_LOST: [Row; 6] = [
    (0, Cut(0, 0xFF), Done, &[]),
    (1, Read(0, 2), OFF, &[]),
    (1, Read(0x2000, 1), OutOfRange, &[]),
    (0, PowerOn, Done, &[]),
    (1, Read(0, 2), Done, &[0x00, 0x01]),
    (0, PowerOn, Nothing, &[]),
];

const ERASE_CUT: [Row; 9] = [
    (1, Unlock(0), Done, &[]),
    (1, Open(0), Opened, &[]),
    (0, Cut(0, 0x0F), Done, &[]),
    (2, Read(0x400, 2), OFF, &[]),
    (0, PowerOn, Done, &[]),
    (1, Poll, Nothing, &[]),
    (1, IsLocked(0), Bit(true), &[]),
    (2, Read(0x400, 2), Done, &[0x00, 0x01]),
    (2, Read(0, 2), Done, &[0x0F, 0x0F]),
];

// The later of two cuts holds.
const LOCK_KEPT: [Row; 7] = [
    (1, Lock(2), Done, &[]),
    (0, Cut(500, 1), Done, &[]),
    (0, Cut(0, 0), Done, &[]),
    (1, Read(0, 1), OFF, &[]),
    (0, PowerOn, Done, &[]),
    (1, IsLocked(2), Bit(true), &[]),
    (1, IsLocked(1), Bit(false), &[]),
];

#[test]
fn power_is_lost_and_comes_back(rt: HostRuntime) -> Result<(), Fail> {
    let alloc = rt.alloc();
    goes(&rt, alloc, &rising(), &POWER_LOST, &[(0, 0)])?;
    goes(&rt, alloc, &rising(), &ERASE_CUT, &[(0, 1)])?;
    goes(&rt, alloc, &four(), &LOCK_KEPT, &[(0, 0); 4])
}

// Power comes back to a bus whose bank was stopped.
#[test]
fn a_bank_is_started_anew(rt: HostRuntime) -> Result<(), Fail> {
    let Loaded::Intel32(bus) = load(rt.alloc(), &unequal())? else {
        panic!(rt; "another bank")
    };
    let mut beside = Beside::start(&rt, rt.alloc(), &unequal(), bus)?;
    for call in [
        Unlock(1),
        Fill(0x810, 6, 0x33),
        Unlock(0),
        Open(0),
        Cut(1, 0x0F),
    ] {
        let (told, _) = beside.makes(&rt, 1, call)?;
        assert!(&rt; told == Done || told == Opened);
    }
    let (told, _) = beside.makes(&rt, 2, Read(0x800, 4))?;
    assert_eq!(&rt; told, Halted(Off { after: 1 }));
    let mut bus = beside.stop();
    assert!(&rt; !bus.is_on());
    bus.power_on();
    let mut bank = match Bank::<u32, SimBank<u32, Intel>>::start(bus) {
        Ok(bank) => bank,
        Err((_bus, error)) => Err(error)?,
    };
    let mut bytes = [0; 8];
    assert_eq!(&rt; bank.size(), 0x4000);
    assert_eq!(&rt; bank.read(1, 0x80F, &mut bytes), Done);
    assert_eq!(&rt; bytes, [0xFF, 0x33, 0x33, 0x33, 0x33, 0x33, 0x33, 0xFF]);
    assert_eq!(&rt; bank.is_locked(1, 0), Bit(true));
    assert_eq!(&rt; bank.poll(1), Nothing);
    assert_eq!(&rt; bank.power_on(), Nothing);
    Ok(())
}
