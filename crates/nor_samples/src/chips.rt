//! Banks of chips of eight blocks, made of their cells, with nothing locked.
ghost use Rattle.std.specs.Prelude.{◌≡◌, ◌<◌, ◌≤◌, IsTrue, IfOk, length, map};
ghost use Rattle.std.specs.List.{All};
ghost use Rattle.nor_cell.specs.Ranges.{are_blocks, is_ascending_below, begin_units};
ghost use Rattle.nor_cell.specs.Wiring.{is_wiring};
ghost use Rattle.nor_samples.specs.Alike.{IsAlike};

use crate::tables::{suspend_table, table, whole_table};
use nor_amd::Amd;
use nor_bus::SimBank;
use nor_cell::{CellParts, Cells, Chip, Device, Geometry, NoMemory, Set, Span, make_cells};
use nor_intel::Intel;
use nor_word::BusWord;
use std::alloc::{AllocError, Global};

const CHIP_SIZE: usize = 8192;

const BLOCK: u32 = 1024;

/// The place at which a weak chip breaks off.
pub const WEAK_PLACE: u32 = 4;

/// A simulated chip of either set that can be made of its cells.
pub trait Made: Chip + Drop {
    const SET: Set;

    fn made(cells: Cells) -> Self
        ensures device { (Self.state result).part.device ≡ cells.device }
        ensures size { length (Self.state result).cells ≡ length cells.bytes.items };
}

impl Made for Intel {
    const SET: Set = Set::Intel;

    fn made(cells: Cells) -> Intel {
        Intel::new(cells)
    }
}

impl Made for Amd {
    const SET: Set = Set::Amd;

    fn made(cells: Cells) -> Amd {
        Amd::new(cells)
    }
}

/// How the chips of a bank suspend an erase.
#[derive(Clone, Copy)]
pub struct Suspending {
    /// After how many reads.
    pub pace: u8,
    /// Whether they program while an erase is held.
    pub programs: bool,
}

// After how many reads an erase is suspended where nothing else is asked for.
const PACE: u8 = 1;

/// What the chips of a bank are. Their cells are ones.
#[derive(Clone, Copy)]
pub struct Setup {
    pub geometry: Geometry,
    /// How many reads a word shows working.
    pub pace: u32,
    pub weak_lane: Option<u8>,
    pub stuck_lane: Option<u8>,
}

fn weak_places(alloc: Global, device: Device, is_weak: bool) -> Result<Vec<u32>, AllocError>
    ensures ascending { IfOk result (λ v. IsTrue (is_ascending_below 8192 v.items)) }
    ensures units { IfOk result (λ v. IsTrue (begin_units device v.items)) }
    ensures few { IfOk result (λ v. length v.items ≤ 256) }
{
    if !is_weak {
        return Ok(Vec::new(alloc));
    }
    let places = vec![in alloc; WEAK_PLACE]?;
    Ok(places)
}

fn block(from: u32) -> Span
    ensures { result ≡ record { from = from; len = 1024 } }
{
    Span { from, len: BLOCK }
}

fn eight_blocks(alloc: Global) -> Result<Vec<Span>, AllocError>
    ensures { IfOk result (λ v. IsTrue (are_blocks 8192 v.items)) }
{
    let blocks = vec![in alloc;
        block(0),
        block(0x400),
        block(0x800),
        block(0xC00),
        block(0x1000),
        block(0x1400),
        block(0x1800),
        block(0x1C00),
    ]?;
    Ok(blocks)
}

fn cells_of(
    alloc: Global,
    setup: Setup,
    table: [u8; 512],
    pace: u8,
    lane: u8,
) -> Result<Cells, NoMemory>
    requires { pace ≤ 16 }
    ensures device { IfOk result (λ cells. cells.device ≡ setup.geometry.device) }
    ensures size { IfOk result (λ cells. length cells.bytes.items ≡ 8192) }
{
    let device = setup.geometry.device;
    let cells = make_cells(
        alloc,
        CellParts {
            device,
            table,
            bytes: vec![in alloc; 0xFF; CHIP_SIZE]?,
            weak: weak_places(alloc, device, setup.weak_lane == Some(lane))?,
            stuck: setup.stuck_lane == Some(lane),
            pace_program: setup.pace,
            pace_erase: 3,
            pace_suspend: pace,
            suspends: 0,
            erases: 0,
            blocks: eight_blocks(alloc)?,
            locks: Vec::new(alloc),
        },
    )?;
    Ok(cells)
}

fn make_chips<C: Made>(
    alloc: Global,
    setup: Setup,
    table: [u8; 512],
    pace: u8,
) -> Result<Vec<C>, NoMemory>
    requires { pace ≤ 16 }
    ensures count { IfOk result (λ chips. length (map C.state chips.items) ≡ setup.geometry.lanes) }
    ensures alike { IfOk result (λ chips. All (IsAlike setup.geometry.device) (map C.state chips.items)) }
{
    let mut chips = Vec::new(alloc);
    for lane in 0..setup.geometry.lanes {
        chips.push(C::made(cells_of(alloc, setup, table, pace, lane)?))?;
    }
    Ok(chips)
}

#[tactic(auto, using(crate::proofs::Wired::are_bank))]
fn make_bank_of<W: BusWord, C: Made>(
    alloc: Global,
    setup: Setup,
    table: [u8; 512],
    pace: u8,
) -> Result<SimBank<W, C>, NoMemory>
    requires wiring { IsTrue (is_wiring W.WIDTH setup.geometry.lanes setup.geometry.device) }
    requires pace { pace ≤ 16 }
{
    let chips = make_chips::<C>(alloc, setup, table, pace)?;
    Ok(SimBank::new(setup.geometry.device, chips))
}

/// A bank of such chips, just powered on. They suspend an erase after one read, for reads alone.
pub fn make_bank<W: BusWord, C: Made>(
    alloc: Global,
    setup: Setup,
) -> Result<SimBank<W, C>, NoMemory>
    requires { IsTrue (is_wiring W.WIDTH setup.geometry.lanes setup.geometry.device) }
{
    make_bank_of::<W, C>(alloc, setup, table(setup.geometry.device, C::SET), PACE)
}

/// The same of chips that suspend an erase so.
pub fn make_suspending_bank<W: BusWord, C: Made>(
    alloc: Global,
    setup: Setup,
    suspending: Suspending,
) -> Result<SimBank<W, C>, NoMemory>
    requires wiring { IsTrue (is_wiring W.WIDTH setup.geometry.lanes setup.geometry.device) }
    requires pace { suspending.pace ≤ 16 }
{
    let table = suspend_table(setup.geometry.device, C::SET, suspending.programs);
    make_bank_of::<W, C>(alloc, setup, table, suspending.pace)
}

/// The same of chips that offer all that their set can. Those of set 0001 have every block locked.
pub fn make_whole_bank<W: BusWord, C: Made>(
    alloc: Global,
    setup: Setup,
) -> Result<SimBank<W, C>, NoMemory>
    requires { IsTrue (is_wiring W.WIDTH setup.geometry.lanes setup.geometry.device) }
{
    make_bank_of::<W, C>(alloc, setup, whole_table(C::SET), PACE)
}
