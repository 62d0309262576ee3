//! A bank beside the plain array that it stands for: each call is an entry that the array admits,
//! and then the chips hold what the array does.
ghost use Rattle.std.specs.Prelude.{IfOk, IsTrue};
ghost use Rattle.nor_array.specs.Array.{lie_within};

use crate::images::{Image, byte_of};
use nor_array::{
    Bytes, Consts, Entry, Op, PlainArray, Reply, admits, apply, bytes_of, make_bytes, plain,
};
use nor_bank::Bank;
use nor_bus::SimBank;
use nor_cell::{Chip, Device, Geometry, Set, Span};
use nor_word::BusWord;
use std::alloc::{AllocError, Global};
use std::process::Abort;
use std::test::Fail;

/// A call of a bank.
#[derive(Clone, Copy, Debug)]
pub enum Call {
    /// So many bytes from a place on.
    Read(u32, u32),
    Program(u32, &'static [u8]),
    /// So many bytes, all the same.
    Fill(u32, u32, u8),
    Open(u32),
    OpenAll,
    Poll,
    Lock(u32),
    Unlock(u32),
    IsLocked(u32),
    /// Power is lost after so many cycles, by this mask.
    Cut(u32, u8),
    PowerOn,
}

/// Simulated chips as one bank.
pub type Chips<W, C> = Bank<W, SimBank<W, C>>;

/// A bank and its array.
#[derive(Drop)]
pub struct Beside<W: BusWord, C: Chip + Drop> {
    pub bank: Chips<W, C>,
    array: PlainArray,
    open: Option<Span>,
    halted: bool,
    alloc: Global,
}

// Where a byte of a lane's chip lies in the bank.
fn at_of(g: Geometry, lane: usize, place: usize) -> usize {
    let lanes = usize::from(g.lanes);
    match g.device {
        Device::X8 | Device::X16Byte => place.wrapping_mul(lanes).wrapping_add(lane),
        Device::X16 => {
            let unit = (place / 2).wrapping_mul(lanes).wrapping_add(lane);
            unit.wrapping_mul(2).wrapping_add(place % 2)
        }
    }
}

// The bytes of the bank, gathered from its chips.
fn gather<W: BusWord, C: Chip + Drop>(
    alloc: Global,
    bank: &Chips<W, C>,
) -> Result<Vec<u8>, AllocError> {
    let g = bank.found().geometry;
    let mut bytes = vec![in alloc; 0; bank.size() as usize]?;
    for (lane, chip) in bank.bus().chips().iter().enumerate() {
        for (place, byte) in chip.cells().bytes.iter().enumerate() {
            if let Some(there) = bytes.get_mut(at_of(g, lane, place)) {
                *there = *byte;
            }
        }
    }
    Ok(bytes)
}

// So many bytes from a place on.
fn push_range(bytes: &mut Vec<u8>, from: &[u8], at: u32, len: usize) -> Result<(), AllocError> {
    for byte in from.iter().skip(at as usize).take(len) {
        bytes.push(*byte)?;
    }
    Ok(())
}

// The bytes of the bank of a weak place.
fn weak_spans(alloc: Global, image: &Image, size: u32) -> Result<Vec<Span>, AllocError>
    ensures { IfOk result (λ spans. IsTrue (lie_within size spans.items)) }
{
    let Some(weak) = image.weak else {
        return Ok(Vec::new(alloc));
    };
    let len = match image.geometry.device {
        Device::X8 | Device::X16Byte => 1,
        Device::X16 => 2,
    };
    let at = at_of(image.geometry, usize::from(weak.lane), weak.place as usize);
    let from = u32::try_from(at).unwrap_or(0);
    if u64::from(size) < u64::from(from) + u64::from(len) {
        return Ok(Vec::new(alloc));
    }
    let spans = vec![in alloc; Span { from, len }]?;
    Ok(spans)
}

// The array that a bank just powered on stands for.
fn opening<W: BusWord, C: Chip + Drop>(
    rt: &impl Abort,
    alloc: Global,
    bank: &Chips<W, C>,
    image: &Image,
) -> Result<PlainArray, Fail> {
    let size = bank.size();
    let found = bank.found();
    let has_locks = found.query.has_locks();
    let is_intel = found.query.set == Set::Intel;
    let mut bytes = Vec::new(alloc);
    for at in 0..size {
        bytes.push(byte_of(image.content, at))?;
    }
    let consts = Consts {
        map: found.map.clone()?,
        has_locks,
        locked: vec![in alloc; has_locks && is_intel; found.map.blocks() as usize]?,
        keeps: has_locks && !is_intel,
        has_chip_erase: found.query.has_chip_erase(),
        weak: weak_spans(alloc, image, size)?,
    };
    assert!(rt; bytes.len() == size as usize);
    let array = plain(alloc, &bytes, consts)?;
    Ok(array)
}

impl<W: BusWord, C: Chip + Drop> Beside<W, C> {
    /// Starts a bank of an image.
    pub fn start(
        rt: &impl Abort,
        alloc: Global,
        image: &Image,
        bus: SimBank<W, C>,
    ) -> Result<Beside<W, C>, Fail> {
        let bank = match Bank::start(bus) {
            Ok(bank) => bank,
            Err((_bus, error)) => Err(error)?,
        };
        let array = opening(rt, alloc, &bank, image)?;
        Ok(Beside {
            bank,
            array,
            open: None,
            halted: false,
            alloc,
        })
    }

    /// The bus of the bank, as it is.
    pub fn stop(self) -> SimBank<W, C> {
        let Beside {
            bank,
            array: _array,
            open: _,
            halted: _,
            alloc: _,
        } = self;
        bank.stop()
    }

    // Makes the call: what it is told, and the call as the array sees it.
    fn tell(&mut self, caller: u8, call: Call, data: &mut Vec<u8>) -> Result<(Reply, Op), Fail> {
        let alloc = self.alloc;
        let bank = &mut self.bank;
        Ok(match call {
            Call::Read(at, len) => {
                *data = vec![in alloc; 0xA5; len as usize]?;
                (bank.read(caller, at, data), Op::Read { at, len })
            }
            Call::Program(at, from) => {
                let new = make_bytes(alloc, from)?;
                (bank.program(caller, at, from), Op::Program { at, new })
            }
            Call::Fill(at, len, byte) => {
                let from = vec![in alloc; byte; len as usize]?;
                let reply = bank.program(caller, at, &from);
                let new = Bytes::from_vec(from);
                (reply, Op::Program { at, new })
            }
            Call::Open(block) => (bank.erase_open(caller, block), Op::EraseOpen { block }),
            Call::OpenAll => (bank.erase_all(caller), Op::EraseAll),
            Call::Poll => (bank.poll(caller), Op::Poll),
            Call::Lock(block) => (bank.lock(caller, block), Op::Lock { block }),
            Call::Unlock(block) => (bank.unlock(caller, block), Op::Unlock { block }),
            Call::IsLocked(block) => (bank.is_locked(caller, block), Op::IsLocked { block }),
            Call::Cut(after, mask) => (bank.arm(after, mask), Op::Arm { after, mask }),
            Call::PowerOn => (bank.power_on(), Op::PowerOn),
        })
    }

    // What a first halt leaves of what was under erase, and of the call's own work.
    fn push_left(&self, left: &mut Vec<u8>, call: Call, held: &[u8]) -> Result<(), AllocError> {
        if let Some(span) = self.open {
            push_range(left, held, span.from, span.len as usize)?;
        }
        match call {
            Call::Program(at, new) => push_range(left, held, at, new.len()),
            Call::Fill(at, len, _) => push_range(left, held, at, len as usize),
            Call::Lock(block) | Call::Unlock(block) => {
                for chip in self.bank.bus().chips().iter().take(1) {
                    let locked = chip.cells().locks.get(block as usize).copied();
                    left.push(u8::from(locked.unwrap_or(false)))?;
                }
                Ok(())
            }
            _ => Ok(()),
        }
    }

    // The bytes of an entry: a read's data, and what stands where it is uncertain.
    fn entry_bytes(&self, call: Call, reply: Reply, data: Vec<u8>) -> Result<Vec<u8>, AllocError> {
        let mut bytes = Vec::new(self.alloc);
        match (reply, call) {
            (Reply::Done, Call::Read(_, _)) => return Ok(data),
            (Reply::Failed { from, to, .. }, _) => {
                let held = gather(self.alloc, &self.bank)?;
                push_range(&mut bytes, &held, from, to.saturating_sub(from) as usize)?;
            }
            (Reply::Halted(_), _) if !self.halted => {
                let held = gather(self.alloc, &self.bank)?;
                self.push_left(&mut bytes, call, &held)?;
            }
            _ => {}
        }
        Ok(bytes)
    }

    // Remembers what is under erase, and whether power is on.
    fn keep(&mut self, call: Call, reply: Reply) {
        let map = &self.bank.found().map;
        match (reply, call) {
            (Reply::Opened, Call::Open(block)) if block < map.blocks() => {
                self.open = Some(map.span(block));
            }
            (Reply::Opened, _) => {
                let len = self.bank.size();
                self.open = Some(Span { from: 0, len });
            }
            (Reply::Erased | Reply::Failed { .. }, Call::Poll) => self.open = None,
            (Reply::Halted(_), _) => {
                self.open = None;
                self.halted = true;
            }
            (Reply::Done, Call::PowerOn) => self.halted = false,
            _ => {}
        }
    }

    /// The chips hold the array's bytes outside what is under erase.
    pub fn agrees(&self, rt: &impl Abort) -> Result<(), Fail> {
        let bytes = bytes_of(&self.array);
        let mut held = gather(self.alloc, &self.bank)?;
        if let Some(span) = self.open {
            for at in span.from..span.from.saturating_add(span.len) {
                if let Some(there) = held.get_mut(at as usize) {
                    *there = bytes.get(at as usize).copied().unwrap_or(0);
                }
            }
        }
        assert!(rt; held.as_slice() == bytes);
        Ok(())
    }

    /// Makes a call, whose entry the array admits: the reply, and the data of a read that is done.
    pub fn makes(
        &mut self,
        rt: &impl Abort,
        caller: u8,
        call: Call,
    ) -> Result<(Reply, Vec<u8>), Fail> {
        let mut data = Vec::new(self.alloc);
        let (reply, op) = self.tell(caller, call, &mut data)?;
        let bytes = self.entry_bytes(call, reply, data)?;
        let caller = match call {
            Call::Cut(_, _) | Call::PowerOn => 0,
            _ => caller,
        };
        let entry = Entry {
            caller,
            op,
            reply,
            bytes: Bytes::from_vec(bytes),
        };
        assert!(rt; admits(&self.array, &entry), "{call:?} {reply:?}");
        apply(&mut self.array, &entry);
        self.keep(call, reply);
        Ok((reply, entry.bytes.into_vec()))
    }
}
