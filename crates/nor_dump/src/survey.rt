//! What a drawing shows of a bank.
ghost use Rattle.std.specs.Prelude.{◌≡◌, ◌≤◌, ◌<◌, ◌+◌, ◌*◌, ◌^◌, ◌==◌, ◌&&◌, ◌∷◌, [], length, take, drop, slice_index, nat_le, nat_lt, Bool, IfOk, IfErr};
ghost use Rattle.std.specs.List.{list_any};
ghost use Rattle.nor_bus.specs.Bus.{chip_at, lanes_of};
ghost use Rattle.nor_cell.specs.Table.{set_of};
ghost use Rattle.nor_image.specs.Image.{IsCause};
ghost use Rattle.nor_image.specs.Loaded.{bus_of, loaded_width};
ghost use Rattle.nor_dump.specs.Survey.{is_erased, erased_units, erased_in, is_locked_in, is_weak_in, blocks_in, bar_of, AreBars, blocks_per, stuck_at, end_of, IsTold, IsSurveyOf};

use crate::dumping::loaded_of;
use nor_bus::{Bus, SimBank};
use nor_cell::{Cells, Chip, Device, NoMemory, Set, Span, set_of, unit_len};
use nor_image::{ImageError, Loaded};
use nor_word::BusWord;
use std::alloc::Global;
use std::cmp::min;

/// Blocks that follow each other, and what is told of them together.
#[derive(Clone, Copy, Debug, PartialEq, Eq)]
pub struct Bar {
    /// The number of the first.
    pub first: usize,
    /// How many there are.
    pub blocks: usize,
    /// The first byte of a chip that they have, and how many they have.
    pub from: u64,
    pub len: u64,
    /// How many units of all lanes have all bits set.
    pub erased: u64,
    /// Whether one of them is locked in some lane.
    pub locked: bool,
    /// Whether a lane has a weak place in them.
    pub weak: bool,
}

/// What is told of a bank.
#[derive(Drop)]
pub struct Survey {
    /// The bytes of a bus word.
    pub width: u8,
    pub lanes: u8,
    pub device: Device,
    pub set: Set,
    /// The bytes of a chip.
    pub size: u64,
    /// Which of four lanes are stuck.
    pub stuck: [bool; 4],
    /// The blocks of lane 0's chip.
    pub blocks: usize,
    /// How many of them a bar has, but for the last, which has the rest.
    pub per: usize,
    /// At most 512.
    pub bars: Vec<Bar>,
}

fn is_set(cells: &Cells, at: u64) -> bool
    ensures { result ≡ (slice_index cells.now.bytes.items at == 255) }
{
    match cells.bytes.get(at as usize) {
        Some(byte) => *byte == 0xFF,
        None => false,
    }
}

// Whether a unit has all bits set.
fn is_erased(cells: &Cells, unit: u64) -> bool
    requires { unit ≤ 2 ^ 35 }
    ensures { result ≡ is_erased cells.now.device cells.now.bytes.items unit }
{
    match cells.device {
        Device::X16 => is_set(cells, 2 * unit) && is_set(cells, 2 * unit + 1),
        _ => is_set(cells, unit),
    }
}

// How many units of a chip have all bits set.
fn erased_units(cells: &Cells, from: u64, units: u64) -> u64
    requires from { from ≤ 2 ^ 33 }
    requires units { units ≤ 2 ^ 33 }
    ensures value { result ≡ erased_units cells.now.device cells.now.bytes.items from units }
    ensures few { result ≤ 2 ^ 33 }
{
    let mut count = 0;
    for k in 0..units {
        if is_erased(cells, from + k) {
            count += 1;
        }
    }
    count
}

// How many units of all lanes have all bits set.
fn erased_in<W: BusWord, C: Chip + Drop>(bank: &SimBank<W, C>, from: u64, units: u64) -> u64
    requires from { from ≤ 2 ^ 33 }
    requires units { units ≤ 2 ^ 33 }
    ensures { result ≡ erased_in bank.now.lanes from units (lanes_of bank.now) }
{
    let mut count = 0;
    for lane in 0..bank.chips().len() as u8 {
        count += erased_units(bank.chip(lane).cells(), from, units);
    }
    count
}

// Whether one of some blocks of a chip is locked.
fn has_locked(cells: &Cells, first: usize, blocks: usize) -> bool
    ensures { result ≡ list_any (λ (l : Bool). l) (take blocks (drop first cells.now.locks.items)) }
{
    cells
        .locks
        .iter()
        .skip(first)
        .take(blocks)
        .any(|lock| *lock)
}

fn is_locked_in<W: BusWord, C: Chip + Drop>(
    bank: &SimBank<W, C>,
    first: usize,
    blocks: usize,
) -> bool
    ensures { result ≡ is_locked_in bank.now.lanes first blocks (lanes_of bank.now) }
{
    let mut locked = false;
    for lane in 0..bank.chips().len() as u8 {
        let here = has_locked(bank.chip(lane).cells(), first, blocks);
        locked = locked || here;
    }
    locked
}

// Whether a chip has a weak place between two.
fn has_weak(cells: &Cells, from: u64, to: u64) -> bool
    ensures { result ≡ list_any (λ p. nat_le from p && nat_lt p to) cells.now.weak.items }
{
    cells.weak.iter().any(|place| from <= u64::from(*place) && u64::from(*place) < to)
}

fn is_weak_in<W: BusWord, C: Chip + Drop>(bank: &SimBank<W, C>, from: u64, to: u64) -> bool
    ensures { result ≡ is_weak_in bank.now.lanes from to (lanes_of bank.now) }
{
    let mut weak = false;
    for lane in 0..bank.chips().len() as u8 {
        let here = has_weak(bank.chip(lane).cells(), from, to);
        weak = weak || here;
    }
    weak
}

// The last byte of a block, and one more.
fn end_of(span: Span) -> u64
    ensures value { result ≡ end_of span }
    ensures few { result ≤ 2 ^ 33 }
{
    u64::from(span.from) + u64::from(span.len)
}

// The bar that begins with a block.
fn bar_from<W: BusWord, C: Chip + Drop>(bank: &SimBank<W, C>, per: usize, first: usize) -> Bar
    requires some { 0 < per }
    requires first { first < length (blocks_in bank.now.lanes) }
    ensures { result ≡ bar_of bank.now.lanes per first }
{
    let cells = bank.chip(0).cells();
    let blocks = min(per, cells.blocks.len() - first);
    let from = u64::from(cells.blocks[first].from);
    let last = cells.blocks[first + blocks - 1];
    let to = end_of(last);
    let len = to.saturating_sub(from);
    let unit = unit_len(cells.device) as u64;
    Bar {
        first,
        blocks,
        from,
        len,
        erased: erased_in(bank, from / unit, len / unit),
        locked: is_locked_in(bank, first, blocks),
        weak: is_weak_in(bank, from, to),
    }
}

// All bars, of so many blocks each.
fn bars<W: BusWord, C: Chip + Drop>(
    alloc: Global,
    bank: &SimBank<W, C>,
    total: usize,
    per: usize,
) -> Result<Vec<Bar>, NoMemory>
    requires total { total ≡ length (blocks_in bank.now.lanes) }
    requires some { 0 < per }
    requires few { total + per < 2 ^ 64 }
    ensures { IfOk result (λ bars. AreBars bank.now.lanes per bars.items) }
{
    let mut bars = Vec::new(alloc);
    let mut first = 0;
    while first < total {
        bars.push(bar_from(bank, per, first))?;
        first += per;
    }
    Ok(bars)
}

// Whether a lane is stuck; no lane that isn't there is.
fn is_stuck<W: BusWord, C: Chip + Drop>(bank: &SimBank<W, C>, lane: u8) -> bool
    ensures { result ≡ stuck_at bank.now.lanes lane }
{
    usize::from(lane) < bank.chips().len() && bank.chip(lane).cells().stuck
}

fn survey_bank<W: BusWord, C: Chip + Drop>(
    alloc: Global,
    bank: &SimBank<W, C>,
    width: u8,
) -> Result<Survey, NoMemory>
    ensures { IfOk result (IsTold width bank.now.lanes) }
{
    // Every bus says that its chips fill its word.
    let _ = bank.units();
    let cells = bank.chip(0).cells();
    let blocks = cells.blocks.len();
    let per = blocks.saturating_sub(1) / 512 + 1;
    Ok(Survey {
        width,
        lanes: bank.chips().len() as u8,
        device: cells.device,
        set: set_of(&cells.table),
        size: cells.bytes.len() as u64,
        stuck: [
            is_stuck(bank, 0),
            is_stuck(bank, 1),
            is_stuck(bank, 2),
            is_stuck(bank, 3),
        ],
        blocks,
        per,
        bars: bars(alloc, bank, blocks, per)?,
    })
}

fn survey_loaded(alloc: Global, loaded: &Loaded) -> Result<Survey, NoMemory>
    ensures { IfOk result (IsTold (loaded_width loaded.now) (bus_of loaded.now).lanes) }
{
    match loaded {
        Loaded::Intel8(bank) => survey_bank(alloc, bank, 1),
        Loaded::Intel16(bank) => survey_bank(alloc, bank, 2),
        Loaded::Intel32(bank) => survey_bank(alloc, bank, 4),
        Loaded::Intel64(bank) => survey_bank(alloc, bank, 8),
        Loaded::Amd8(bank) => survey_bank(alloc, bank, 1),
        Loaded::Amd16(bank) => survey_bank(alloc, bank, 2),
        Loaded::Amd32(bank) => survey_bank(alloc, bank, 4),
        Loaded::Amd64(bank) => survey_bank(alloc, bank, 8),
    }
}

/// What a drawing shows of the bank that a file stands for: what the bank is, and bars of its blocks, at most 512,
/// with what is erased, locked and weak in each. The error is that of [`read_image`].
pub fn survey_of(alloc: Global, file: Vec<u8>) -> Result<Survey, ImageError>
    ensures survey { IfOk result (IsSurveyOf file.items) }
    ensures few { IfOk result (λ survey. length survey.bars.items ≤ 512) }
    ensures refused { IfErr result (IsCause file.items) }
{
    let loaded = loaded_of(alloc, file)?;
    Ok(survey_loaded(alloc, &loaded)?)
}
