//! Blocks are erased by the calls of either set: what each call tells of two chips, in how many cycles.
ghost use Rattle.std.specs.Prelude.{IsTrue};
ghost use Rattle.nor_cell.specs.Wiring.{is_wiring};

use crate::words::{TWO_CHIPS, program_word, reads, settle, two_chips};
use LaneState::{Broken, Finished, Running, Suspended};
use nor_amd::Amd;
use nor_bus::{Bus, Off, SimBank};
use nor_cell::{Geometry, Set};
use nor_intel::Intel;
use nor_poll::{Halt, LaneState, Lanes};
use nor_samples::Made;
use nor_set1 as set1;
use nor_set2 as set2;
use nor_word::BusWord;
use std::alloc::Global;
use std::process::Abort;
use std::test::Fail;

pub type Bank<C> = SimBank<u32, C>;

/// A bus address outside the block at 0.
pub const BESIDE: u32 = 0x400;

/// A call on the block at bus address 0, or a word programmed outside it.
#[derive(Clone, Copy, Debug, PartialEq, Eq)]
pub enum Call {
    Begin,
    BeginAll,
    Look,
    Suspend,
    Resume,
    Word,
}

/// What a call says of lanes 0 and 1.
pub type Told = Result<[LaneState; 2], Halt>;

pub fn begin<W: BusWord, B: Bus<W>>(
    set: Set,
    bus: &mut B,
    g: Geometry,
    all: bool,
) -> Result<(), Off> {
    match (set, all) {
        (Set::Amd, true) => set2::erase_all_start::<W, B>(bus, g),
        (Set::Amd, false) => set2::erase_start::<W, B>(bus, g, 0),
        (Set::Intel, _) => set1::erase_start::<W, B>(bus, g, 0),
    }
}

pub fn look<W: BusWord, B: Bus<W>>(
    set: Set,
    bus: &mut B,
    g: Geometry,
    lanes: Lanes,
) -> Result<Lanes, Off>
    requires { IsTrue (is_wiring W.WIDTH g.lanes g.device) }
{
    match set {
        Set::Intel => set1::erase_look::<W, B>(bus, g, 0, lanes),
        Set::Amd => set2::erase_look::<W, B>(bus, g, 0, lanes),
    }
}

pub fn suspend<W: BusWord, B: Bus<W>>(
    set: Set,
    bus: &mut B,
    g: Geometry,
    lanes: Lanes,
) -> Result<Lanes, Halt>
    requires { IsTrue (is_wiring W.WIDTH g.lanes g.device) }
{
    match set {
        Set::Intel => set1::suspend::<W, B>(bus, g, 0, lanes),
        Set::Amd => set2::suspend::<W, B>(bus, g, 0, lanes),
    }
}

pub fn resume<W: BusWord, B: Bus<W>>(
    set: Set,
    bus: &mut B,
    g: Geometry,
    lanes: Lanes,
) -> Result<Lanes, Off>
    requires { IsTrue (is_wiring W.WIDTH g.lanes g.device) }
{
    match set {
        Set::Intel => set1::resume::<W, B>(bus, g, 0, lanes),
        Set::Amd => set2::resume::<W, B>(bus, g, 0, lanes),
    }
}

/// Each of the first lanes is so, and the others are finished.
pub fn first_lanes(state: LaneState, count: u8) -> Lanes {
    let mut lanes = [Finished; 4];
    for lane in 0..4_u8 {
        if lane < count {
            lanes[lane as usize] = state;
        }
    }
    Lanes { lanes }
}

/// Makes the call: where each lane is then.
pub fn make_call<W: BusWord, B: Bus<W>>(
    set: Set,
    bus: &mut B,
    g: Geometry,
    call: Call,
    lanes: Lanes,
) -> Result<Lanes, Halt>
    requires { IsTrue (is_wiring W.WIDTH g.lanes g.device) }
{
    let now = match call {
        Call::Begin => {
            begin::<W, B>(set, bus, g, false)?;
            first_lanes(Running, g.lanes)
        }
        Call::BeginAll => {
            begin::<W, B>(set, bus, g, true)?;
            first_lanes(Running, g.lanes)
        }
        Call::Look => look::<W, B>(set, bus, g, lanes)?,
        Call::Suspend => suspend::<W, B>(set, bus, g, lanes)?,
        Call::Resume => resume::<W, B>(set, bus, g, lanes)?,
        Call::Word => {
            program_word::<W, B>(set, bus, g, BESIDE, W::splat(0x5A))?;
            lanes
        }
    };
    Ok(now)
}

/// Makes the calls, one after another: each tells this in so many cycles.
pub fn makes<C: Made>(rt: &impl Abort, bank: &mut Bank<C>, rows: &[(Call, u64, Told)]) {
    let mut lanes = first_lanes(Finished, 2);
    for (call, cycles, told) in rows {
        let before = bank.cycles();
        let now = make_call::<u32, Bank<C>>(C::SET, bank, TWO_CHIPS, *call, lanes);
        let made = bank.cycles().wrapping_sub(before);
        assert_eq!(rt;
            now.map(|now| [now.lanes[0], now.lanes[1]]),
            *told,
            "{call:?}"
        );
        assert_eq!(rt; made, *cycles, "{call:?}");
        lanes = now.unwrap_or(lanes);
    }
}

pub const ON: Told = Ok([Running, Running]);

pub const HELD: Told = Ok([Suspended, Suspended]);

pub const DONE: Told = Ok([Finished, Finished]);

// A chip works for three reads of an erase. Set 0001 reads once a look, after the code that shows the
// status; set 0002 twice, and a third time where the first pair showed a toggle that had ended.
const INTEL_ERASES: [(Call, u64, Told); 5] = [
    (Call::Begin, 3, ON),
    (Call::Look, 2, ON),
    (Call::Look, 2, ON),
    (Call::Look, 2, ON),
    (Call::Look, 2, DONE),
];

const AMD_ERASES: [(Call, u64, Told); 3] = [
    (Call::Begin, 6, ON),
    (Call::Look, 2, ON),
    (Call::Look, 3, DONE),
];

const AMD_ERASES_ALL: [(Call, u64, Told); 3] = [
    (Call::BeginAll, 6, ON),
    (Call::Look, 2, ON),
    (Call::Look, 3, DONE),
];

// It takes one read more to be suspended, and has two left then. A lane that is held already costs one
// read of set 0001, two of set 0002.
const INTEL_SUSPENDS: [(Call, u64, Told); 7] = [
    (Call::Begin, 3, ON),
    (Call::Suspend, 5, HELD),
    (Call::Suspend, 4, HELD),
    (Call::Resume, 1, ON),
    (Call::Look, 2, ON),
    (Call::Look, 2, ON),
    (Call::Look, 2, DONE),
];

const AMD_SUSPENDS: [(Call, u64, Told); 6] = [
    (Call::Begin, 6, ON),
    (Call::Suspend, 5, HELD),
    (Call::Suspend, 4, HELD),
    (Call::Resume, 1, ON),
    (Call::Look, 2, ON),
    (Call::Look, 2, DONE),
];

// With one read left the suspend code comes too late.
const INTEL_LATE: [(Call, u64, Told); 4] = [
    (Call::Begin, 3, ON),
    (Call::Look, 2, ON),
    (Call::Look, 2, ON),
    (Call::Suspend, 5, DONE),
];

const AMD_LATE: [(Call, u64, Told); 3] = [
    (Call::Begin, 6, ON),
    (Call::Look, 2, ON),
    (Call::Suspend, 5, DONE),
];

// A word of the block is programmed first, and is ones in the end.
fn erases<C: Made>(rt: &impl Abort, alloc: Global, rows: &[(Call, u64, Told)]) -> Result<(), Fail> {
    let mut bank = two_chips::<C>(alloc, None, None)?;
    assert!(rt; program_word(C::SET, &mut bank, TWO_CHIPS, 7, 0).is_ok());
    makes(rt, &mut bank, rows);
    assert!(rt; settle(C::SET, &mut bank, TWO_CHIPS, first_lanes(Finished, 2)).is_ok());
    reads(rt, &mut bank, 7, 0xFFFF_FFFF);
    Ok(())
}

#[test]
fn a_block_is_erased_and_suspended(rt: HostRuntime) -> Result<(), Fail> {
    for rows in [&INTEL_ERASES[..], &INTEL_SUSPENDS[..], &INTEL_LATE[..]] {
        erases::<Intel>(&rt, rt.alloc(), rows)?;
    }
    for rows in [
        &AMD_ERASES[..],
        &AMD_ERASES_ALL[..],
        &AMD_SUSPENDS[..],
        &AMD_LATE[..],
    ] {
        erases::<Amd>(&rt, rt.alloc(), rows)?;
    }
    Ok(())
}

// Lane 1 has a weak place in the block. It ends at the same look as lane 0.
const WEAK: Told = Ok([Finished, Broken]);

const INTEL_BREAKS: [(Call, u64, Told); 6] = [
    (Call::Begin, 3, ON),
    (Call::Look, 2, ON),
    (Call::Look, 2, ON),
    (Call::Look, 2, ON),
    (Call::Look, 2, WEAK),
    (Call::Suspend, 4, WEAK),
];

const AMD_BREAKS: [(Call, u64, Told); 4] = [
    (Call::Begin, 6, ON),
    (Call::Look, 2, ON),
    (Call::Look, 3, WEAK),
    (Call::Suspend, 4, WEAK),
];

#[test]
fn a_weak_lane_breaks_off(rt: HostRuntime) -> Result<(), Fail> {
    makes(
        &rt,
        &mut two_chips::<Intel>(rt.alloc(), Some(1), None)?,
        &INTEL_BREAKS,
    );
    makes(
        &rt,
        &mut two_chips::<Amd>(rt.alloc(), Some(1), None)?,
        &AMD_BREAKS,
    );
    Ok(())
}

// Lane 1 never ends. A suspend gives it up after 20 polls.
const HALF: Told = Ok([Finished, Running]);

const STUCK: Told = Err(Halt::Stuck { lane: 1 });

const INTEL_STICKS: [(Call, u64, Told); 6] = [
    (Call::Begin, 3, ON),
    (Call::Look, 2, ON),
    (Call::Look, 2, ON),
    (Call::Look, 2, ON),
    (Call::Look, 2, HALF),
    (Call::Suspend, 22, STUCK),
];

const AMD_STICKS: [(Call, u64, Told); 5] = [
    (Call::Begin, 6, ON),
    (Call::Look, 2, ON),
    (Call::Look, 2, ON),
    (Call::Look, 2, HALF),
    (Call::Suspend, 41, STUCK),
];

#[test]
fn a_stuck_lane_runs_on(rt: HostRuntime) -> Result<(), Fail> {
    makes(
        &rt,
        &mut two_chips::<Intel>(rt.alloc(), None, Some(1))?,
        &INTEL_STICKS,
    );
    makes(
        &rt,
        &mut two_chips::<Amd>(rt.alloc(), None, Some(1))?,
        &AMD_STICKS,
    );
    Ok(())
}
