//! Power is lost at each cycle of a list of calls, and comes back.
use crate::beside::Beside;
use crate::beside::Call::{Cut, Fill, IsLocked, Lock, Open, Poll, PowerOn, Read, Unlock};
use crate::images::{Image, four, load, unequal};
use nor_array::Halted::Off;
use nor_array::Reply::{Bit, Done, Halted};
use nor_bus::SimBank;
use nor_cell::Chip;
use nor_image::{Loaded, with_bank};
use nor_word::BusWord;
use std::alloc::Global;
use std::process::Abort;
use std::test::Fail;

/// Where power is lost, and what simulated chips leave of their work.
#[derive(Clone, Copy)]
struct Loss {
    after: u32,
    mask: u8,
}

// Makes the calls, the first of which arms the cut: whether power was lost.
fn loses_power<W: BusWord, C: Chip + Drop>(
    rt: &impl Abort,
    beside: &mut Beside<W, C>,
    loss: Loss,
    block_one: u32,
) -> Result<bool, Fail> {
    let calls = [
        Cut(loss.after, loss.mask),
        Unlock(0),
        Unlock(1),
        Open(0),
        Read(0x1000, 4),
        Fill(block_one, 40, 0x5A),
        Poll,
        Poll,
        Poll,
        Poll,
        Poll,
    ];
    let mut lost = false;
    for call in calls {
        let (reply, _) = beside.makes(rt, 1, call)?;
        if let Halted(_) = reply {
            assert_eq!(rt; reply, Halted(Off { after: loss.after }), "{call:?}");
            lost = true;
        }
    }
    Ok(lost)
}

// After power-on every byte is the array's, and the bank works.
fn works_again<W: BusWord, C: Chip + Drop>(
    rt: &impl Abort,
    beside: &mut Beside<W, C>,
    block_one: u32,
) -> Result<(), Fail> {
    let (reply, _) = beside.makes(rt, 1, PowerOn)?;
    assert_eq!(rt; reply, Done);
    beside.agrees(rt)?;
    for call in [Unlock(1), Fill(block_one, 40, 0), Read(block_one, 41)] {
        let (reply, _) = beside.makes(rt, 1, call)?;
        assert_eq!(rt; reply, Done, "{call:?}");
    }
    Ok(())
}

fn is_cut<W: BusWord, C: Chip + Drop>(
    rt: &impl Abort,
    alloc: Global,
    image: &Image,
    bus: SimBank<W, C>,
    loss: Loss,
) -> Result<bool, Fail> {
    let mut beside = Beside::start(rt, alloc, image, bus)?;
    let map = &beside.bank.found().map;
    assert!(rt; 1 < map.blocks());
    let block_one = map.span(1).from;
    let lost = loses_power(rt, &mut beside, loss, block_one)?;
    if lost {
        works_again(rt, &mut beside, block_one)?;
    } else {
        beside.agrees(rt)?;
    }
    Ok(lost)
}

// Up to the first number of cycles that the calls don't make.
fn is_cut_at_each_cycle(
    rt: &impl Abort,
    alloc: Global,
    image: &Image,
    mask: u8,
) -> Result<(), Fail> {
    for after in 0..200 {
        let loss = Loss { after, mask };
        let lost = with_bank!(load(alloc, image)?, bus => is_cut(rt, alloc, image, bus, loss)?);
        if !lost {
            assert!(rt; 40 < after, "the calls made {after} cycles");
            return Ok(());
        }
    }
    panic!(rt; "the calls never ended")
}

#[test]
fn power_is_lost_at_each_cycle_of_set_1(rt: HostRuntime) -> Result<(), Fail> {
    is_cut_at_each_cycle(&rt, rt.alloc(), &unequal(), 0x00)
}

#[test]
fn power_is_lost_at_each_cycle_of_set_1_by_a_mask(rt: HostRuntime) -> Result<(), Fail> {
    is_cut_at_each_cycle(&rt, rt.alloc(), &unequal(), 0x5A)
}

#[test]
fn power_is_lost_at_each_cycle_of_set_2(rt: HostRuntime) -> Result<(), Fail> {
    is_cut_at_each_cycle(&rt, rt.alloc(), &four(), 0x00)
}

#[test]
fn power_is_lost_at_each_cycle_of_set_2_by_a_mask(rt: HostRuntime) -> Result<(), Fail> {
    is_cut_at_each_cycle(&rt, rt.alloc(), &four(), 0x5A)
}

// The read of 21 words meets the cut where the lock call doesn't.
#[test]
fn a_lock_that_is_done_outlives_power(rt: HostRuntime) -> Result<(), Fail> {
    let mut kept = 0_u32;
    for after in 0..21 {
        let Loaded::Amd64(bus) = load(rt.alloc(), &four())? else {
            panic!(rt; "another bank")
        };
        let mut beside = Beside::start(&rt, rt.alloc(), &four(), bus)?;
        let _armed = beside.makes(&rt, 1, Cut(after, 0))?;
        let (lock, _) = beside.makes(&rt, 1, Lock(2))?;
        let (read, _) = beside.makes(&rt, 1, Read(0, 168))?;
        assert_eq!(&rt; read, Halted(Off { after }));
        let (power, _) = beside.makes(&rt, 1, PowerOn)?;
        assert_eq!(&rt; power, Done);
        let (locked, _) = beside.makes(&rt, 1, IsLocked(2))?;
        if lock == Done {
            assert_eq!(&rt; locked, Bit(true), "after {after}");
            kept = kept.saturating_add(1);
        }
    }
    assert!(&rt; kept > 0);
    Ok(())
}
