//! Tables of calls by several callers, and of what each is told.
use crate::beside::{Beside, Call};
use crate::images::{Image, load};
use nor_array::Halted::Stuck;
use nor_array::Reply::{self, Halted};
use nor_bus::SimBank;
use nor_cell::Chip;
use nor_image::with_bank;
use nor_word::BusWord;
use std::alloc::Global;
use std::process::Abort;
use std::test::Fail;

/// A caller, its call and the reply, and the data of a read or what stood where it is uncertain.
pub type Row = (u8, Call, Reply, &'static [u8]);

/// What a halt by lane 1 is told.
pub const STUCK: Reply = Halted(Stuck { lane: 1 });

/// A poll of caller 1 that finds a lane at work.
pub const POLLED: Row = (1, Call::Poll, Reply::NotYet, &[]);

/// The last poll of caller 1.
pub const CLOSED: Row = (1, Call::Poll, Reply::Erased, &[]);

fn goes_on<W: BusWord, C: Chip + Drop>(
    rt: &impl Abort,
    alloc: Global,
    image: &Image,
    bus: SimBank<W, C>,
    rows: &[Row],
    counts: &[(u32, u32)],
) -> Result<(), Fail> {
    let mut beside = Beside::start(rt, alloc, image, bus)?;
    for (k, (caller, call, reply, data)) in rows.iter().enumerate() {
        let (told, bytes) = beside.makes(rt, *caller, *call)?;
        assert_eq!(rt; told, *reply, "row {k} {call:?}");
        if let Call::Read(_, _) = call {
            assert!(rt;
                told != Reply::Done || bytes.as_slice() == *data,
                "row {k} {call:?}"
            );
        } else {
            assert!(rt;
                data.is_empty() || bytes.as_slice() == *data,
                "row {k} {call:?}"
            );
        }
        beside.agrees(rt)?;
    }
    let chips = beside.bank.bus().chips();
    assert_eq!(rt; chips.len(), counts.len());
    for (lane, (chip, (suspends, erases))) in chips.iter().zip(counts).enumerate() {
        assert_eq!(rt; chip.cells().suspends, *suspends, "lane {lane}");
        assert_eq!(rt; chip.cells().erases, *erases, "lane {lane}");
    }
    Ok(())
}

/// The calls of a bank just powered on, and at their end each lane's suspends and erases.
pub fn goes(
    rt: &impl Abort,
    alloc: Global,
    image: &Image,
    rows: &[Row],
    counts: &[(u32, u32)],
) -> Result<(), Fail> {
    with_bank!(load(alloc, image)?, bus => goes_on(rt, alloc, image, bus, rows, counts))
}
