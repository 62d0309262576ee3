//! Calls of eight callers, as numbers draw them, on banks of either set and of each
//! wiring: one legal history each.
use crate::beside::{Beside, Call};
use crate::images::{
    Image, WeakPlace, amd_table, byte_mode, four, intel_table, load, ones, rising, unequal, weak,
    whole_erase, with,
};
use nor_array::Reply;
use nor_bus::SimBank;
use nor_cell::Chip;
use nor_cell::Device::{X8, X16, X16Byte};
use nor_image::with_bank;
use nor_word::BusWord;
use std::alloc::Global;
use std::process::Abort;
use std::test::Fail;

const CALLS: u32 = 300;

#[derive(Drop)]
struct Draw {
    state: u64,
}

impl Draw {
    // A number below this one, which isn't 0.
    fn below(&mut self, end: u32) -> u32 {
        self.state = self
            .state
            .wrapping_mul(6_364_136_223_846_793_005)
            .wrapping_add(1_442_695_040_888_963_407);
        let drawn = u32::try_from(self.state >> 33).unwrap_or(0);
        drawn.checked_rem(end).unwrap_or(0)
    }

    fn byte(&mut self) -> u8 {
        self.below(256).to_le_bytes()[0]
    }

    fn call(&mut self, size: u32, blocks: u32) -> Call {
        let kind = self.below(60);
        let at = self.below(size);
        let block = self.below(blocks);
        match kind {
            0..12 => Call::Read(at, self.below(65)),
            12..22 => Call::Fill(at, self.below(40), self.byte()),
            22..26 => Call::Open(block % 4),
            26 => Call::OpenAll,
            27..45 => Call::Poll,
            45..47 => Call::Lock(block),
            47..57 => Call::Unlock(block % 4),
            57..59 => Call::IsLocked(block),
            _ => Call::Cut(self.below(400), self.byte()),
        }
    }
}

fn goes_on<W: BusWord, C: Chip + Drop>(
    rt: &impl Abort,
    alloc: Global,
    image: &Image,
    bus: SimBank<W, C>,
    seed: u64,
) -> Result<(), Fail> {
    let mut beside = Beside::start(rt, alloc, image, bus)?;
    let size = beside.bank.size();
    let blocks = beside.bank.found().map.blocks();
    let mut draw = Draw { state: seed };
    let (mut owner, mut closed, mut is_off) = (1, 0_u32, false);
    for _ in 0..CALLS {
        let caller = draw.byte() % 8 + 1;
        let (caller, call) = match draw.call(size, blocks) {
            _ if is_off => (caller, Call::PowerOn),
            Call::Poll => (owner, Call::Poll),
            call => (caller, call),
        };
        let (reply, _) = beside.makes(rt, caller, call)?;
        match reply {
            Reply::Opened => owner = caller,
            Reply::Erased => closed = closed.saturating_add(1),
            _ => {}
        }
        is_off = matches!(&reply, Reply::Halted(_));
    }
    assert!(rt; closed > 0, "no erase was ended");
    beside.agrees(rt)
}

fn goes(rt: &impl Abort, alloc: Global, image: &Image, seed: u64) -> Result<(), Fail> {
    with_bank!(load(alloc, image)?, bus => goes_on(rt, alloc, image, bus, seed))
}

#[test]
fn eight_callers_mix_their_calls_on_set_1(rt: HostRuntime) -> Result<(), Fail> {
    let alloc = rt.alloc();
    goes(&rt, alloc, &rising(), 1)?;
    goes(&rt, alloc, &unequal(), 2)?;
    goes(&rt, alloc, &weak(), 3)?;
    let four_of_bytes = ones(4, X8, with(intel_table(), &[(0x28, 0)]));
    goes(&rt, alloc, &four_of_bytes, 4)?;
    let two_in_byte_mode = ones(2, X16Byte, with(intel_table(), &[(0x28, 2), (0x3A, 0)]));
    goes(&rt, alloc, &two_in_byte_mode, 5)?;
    let two_of_bytes = ones(2, X8, with(intel_table(), &[(0x28, 0)]));
    goes(&rt, alloc, &two_of_bytes, 6)
}

#[test]
fn eight_callers_mix_their_calls_on_set_2(rt: HostRuntime) -> Result<(), Fail> {
    let alloc = rt.alloc();
    goes(&rt, alloc, &four(), 1)?;
    goes(
        &rt,
        alloc,
        &ones(1, X16, with(amd_table(), &[(0x37, 1)])),
        2,
    )?;
    let never_suspends = with(amd_table(), &[(0x37, 0), (0x28, 0)]);
    goes(&rt, alloc, &ones(1, X8, never_suspends), 3)?;
    let place = 0x404;
    let weak_lane = Image {
        weak: Some(WeakPlace { lane: 1, place }),
        ..ones(4, X16Byte, with(amd_table(), &[(0x28, 2)]))
    };
    goes(&rt, alloc, &weak_lane, 4)?;
    let paces = unequal().paces;
    let whole = Image {
        paces,
        ..whole_erase()
    };
    goes(&rt, alloc, &whole, 5)?;
    goes(&rt, alloc, &byte_mode(), 6)
}
