//! The worked example of docs/USING.md.
use nor_array::Halted::Off;
use nor_array::Reply::{Busy, Done, Erased, Halted, NotYet, Opened};
use nor_bank::Bank;
use nor_bus::SimBank;
use nor_cell::{Device, Geometry};
use nor_intel::Intel;
use nor_samples::{Setup, make_bank};
use std::alloc::{AllocError, Global};
use std::process::Abort;
use std::test::Fail;

type Chips = SimBank<u32, Intel>;

// Two chips of set 0001, side by side, all ones, without locks.
fn two_chips(alloc: Global) -> Result<Chips, AllocError> {
    let setup = Setup {
        geometry: Geometry {
            lanes: 2,
            device: Device::X16,
        },
        pace: 2,
        weak_lane: None,
        stuck_lane: None,
    };
    match make_bank::<u32, Intel>(alloc, setup) {
        Ok(chips) => Ok(chips),
        Err(_) => Err(AllocError),
    }
}

// Polls of the caller's own erase, up to the one that ends it: what that answers.
fn polled(rt: &impl Abort, bank: &mut Bank<u32, Chips>, caller: u8) -> nor_array::Reply {
    for _ in 0..4112 {
        let reply = bank.poll(caller);
        if reply != NotYet {
            return reply;
        }
    }
    panic!(rt; "above the limit of the table")
}

#[test]
fn a_bank_is_used_through_a_cut(rt: HostRuntime) -> Result<(), Fail> {
    let mut bank = match Bank::start(two_chips(rt.alloc())?) {
        Ok(bank) => bank,
        Err((_bus, error)) => Err(error)?,
    };
    let mut bytes = [0; 4];
    assert!(&rt; bank.program(1, 0x800, &[1, 2, 3, 4]) == Done);
    assert!(&rt; bank.read(1, 0x800, &mut bytes) == Done && bytes == [1, 2, 3, 4]);
    // Caller 1 erases block 0. Caller 2 reads beside it, but not what is under erase.
    assert!(&rt; bank.erase_open(1, 0) == Opened);
    assert!(&rt; bank.read(2, 0x802, &mut bytes) == Done && bytes == [3, 4, 0xFF, 0xFF]);
    assert!(&rt; bank.read(2, 0, &mut bytes) == Busy { block: 0 });
    assert!(&rt; polled(&rt, &mut bank, 1) == Erased);
    // Power goes after 9 more cycles.
    assert!(&rt; bank.arm(9, 0) == Done);
    assert!(&rt; bank.program(1, 0, &[0; 64]) == Halted(Off { after: 9 }));
    assert!(&rt; bank.read(2, 0x800, &mut bytes) == Halted(Off { after: 9 }));
    assert!(&rt; bank.power_on() == Done);
    assert!(&rt; bank.read(2, 0x800, &mut bytes) == Done && bytes == [1, 2, 3, 4]);
    let _chips = bank.stop();
    Ok(())
}
