//! Steps that an array goes through.
use nor_array::{
    Bytes, Consts, Entry, Halted, Op, PlainArray, Reply, admits, apply, bytes_of, make_bytes, plain,
};
use nor_cell::{NoMemory, Span};
use nor_region::{Region, block_map};
use std::alloc::Global;
use std::process::Abort;
use std::test::Fail;

/// A call of caller 1, or of the bank where it is its own.
#[derive(Clone, Copy)]
pub(super) enum Call {
    Read(u32, u32),
    Program(u32, &'static [u8]),
    Erase(u32),
    EraseAll,
    /// By this caller.
    Poll(u8),
    Lock(u32),
    Unlock(u32),
    IsLocked(u32),
    Arm(u32),
    PowerOn,
}

/// The bytes of a step are so many of 0xA5, and then the given ones.
#[derive(Clone, Copy)]
pub(super) enum Step {
    /// The array admits this entry, and goes on as it says.
    Goes(Call, Reply, usize, &'static [u8]),
    /// The array admits this entry or not, and stays as it is.
    Fits(Call, Reply, usize, &'static [u8], bool),
    /// The array admits that the call failed from one place up to another, or not.
    Fails(Call, u32, u32, usize, &'static [u8], bool),
    /// This reply is admitted with no bytes, and neither another one nor a byte with it.
    Only(Call, Reply),
    /// The byte at a place.
    Holds(usize, u8),
}

/// What power-on does to the locks, and which erases are offered.
#[derive(Clone, Copy)]
pub(super) struct Offer {
    locks: bool,
    keeps: bool,
    chip_erase: bool,
}

pub(super) const KEPT_LOCKS: Offer = Offer {
    locks: true,
    keeps: true,
    chip_erase: true,
};

pub(super) const SET_LOCKS: Offer = Offer {
    locks: true,
    keeps: false,
    chip_erase: false,
};

pub(super) const NO_LOCKS: Offer = Offer {
    locks: false,
    keeps: false,
    chip_erase: false,
};

const OTHERS: [Reply; 22] = [
    Reply::Done,
    Reply::Opened,
    Reply::Erased,
    Reply::Bit(false),
    Reply::Bit(true),
    Reply::OutOfRange,
    Reply::TooLong,
    Reply::Busy { block: 1 },
    Reply::Busy { block: 2 },
    Reply::Occupied { block: 1 },
    Reply::Occupied { block: 2 },
    Reply::Locked { block: 0 },
    Reply::Locked { block: 1 },
    Reply::NoLocks,
    Reply::NoChipErase,
    Reply::Nothing,
    Reply::NotYet,
    Reply::Failed {
        from: 0x404,
        to: 0x406,
        lanes: 1,
    },
    Reply::Halted(Halted::Off { after: 7 }),
    Reply::Halted(Halted::Off { after: 8 }),
    Reply::Halted(Halted::Stuck { lane: 0 }),
    Reply::Halted(Halted::Stuck { lane: 1 }),
];

// Eight blocks of 1,024 bytes of 0xFF, with a weak device word in block 1. At the opening each lock stands as told.
fn array(alloc: Global, offer: Offer, locked: bool) -> Result<PlainArray, Fail> {
    let region = Region {
        count: 8,
        size: 1024,
    };
    let word = Span {
        from: 0x404,
        len: 2,
    };
    let consts = Consts {
        map: block_map(&[region], false, 8192)?,
        has_locks: offer.locks,
        locked: vec![in alloc; locked; 8]?,
        keeps: offer.keeps,
        has_chip_erase: offer.chip_erase,
        weak: vec![in alloc; word]?,
    };
    Ok(plain(alloc, &[0xFF; 8192], consts)?)
}

impl Call {
    fn caller(self) -> u8 {
        match self {
            Call::Arm(_) | Call::PowerOn => 0,
            Call::Poll(caller) => caller,
            _ => 1,
        }
    }

    fn op(self, alloc: Global) -> Result<Op, NoMemory> {
        Ok(match self {
            Call::Read(at, len) => Op::Read { at, len },
            Call::Program(at, new) => Op::Program {
                at,
                new: make_bytes(alloc, new)?,
            },
            Call::Erase(block) => Op::EraseOpen { block },
            Call::EraseAll => Op::EraseAll,
            Call::Poll(_) => Op::Poll,
            Call::Lock(block) => Op::Lock { block },
            Call::Unlock(block) => Op::Unlock { block },
            Call::IsLocked(block) => Op::IsLocked { block },
            Call::Arm(after) => Op::Arm { after, mask: 0 },
            Call::PowerOn => Op::PowerOn,
        })
    }

    fn entry(
        self,
        alloc: Global,
        reply: Reply,
        fill: usize,
        last: &[u8],
    ) -> Result<Entry, NoMemory> {
        let mut bytes = vec![in alloc; 0xA5; fill]?;
        bytes.extend_from_slice(last)?;
        Ok(Entry {
            caller: self.caller(),
            op: self.op(alloc)?,
            reply,
            bytes: Bytes::from_vec(bytes),
        })
    }
}

fn has_only(
    rt: &impl Abort,
    alloc: Global,
    array: &PlainArray,
    call: Call,
    reply: Reply,
) -> Result<(), NoMemory> {
    let told = call.entry(alloc, reply, 0, &[])?;
    assert!(rt; admits(array, &told), "{reply:?}");
    let mut changed = told.clone()?;
    assert!(rt; changed == told);
    for other in OTHERS {
        changed.reply = other;
        assert!(rt;
            other == reply || !admits(array, &changed),
            "{reply:?} and {other:?}"
        );
    }
    changed.reply = reply;
    changed.bytes = make_bytes(alloc, &[0])?;
    assert!(rt; !admits(array, &changed), "{reply:?} with a byte");
    Ok(())
}

/// Takes a new array through the steps.
pub(super) fn goes_through(
    rt: &impl Abort,
    alloc: Global,
    offer: Offer,
    locked: bool,
    steps: &[Step],
) -> Result<(), Fail> {
    let mut array = array(alloc, offer, locked)?;
    for (k, step) in steps.iter().enumerate() {
        match *step {
            Step::Goes(call, reply, fill, last) => {
                let told = call.entry(alloc, reply, fill, last)?;
                assert!(rt; admits(&array, &told), "step {k}");
                apply(&mut array, &told);
            }
            Step::Fits(call, reply, fill, last, fits) => {
                let told = call.entry(alloc, reply, fill, last)?;
                assert_eq!(rt; admits(&array, &told), fits, "step {k}");
            }
            Step::Fails(call, from, to, fill, last, fits) => {
                let failed = Reply::Failed { from, to, lanes: 1 };
                let told = call.entry(alloc, failed, fill, last)?;
                assert_eq!(rt; admits(&array, &told), fits, "step {k}");
            }
            Step::Only(call, reply) => has_only(rt, alloc, &array, call, reply)?,
            Step::Holds(at, byte) => {
                assert_eq!(rt; bytes_of(&array).get(at).copied(), Some(byte), "step {k}");
            }
        }
    }
    Ok(())
}
