//! The bank of a drill.
ghost use Rattle.std.specs.Prelude.{◌≡◌, ◌≤◌, IfOk, None};
ghost use Rattle.nor_cell.specs.Cells.{chip_of};
ghost use Rattle.nor_cell.specs.Power.{powered};
ghost use Rattle.nor_cell.specs.Ranges.{IsChip};
ghost use Rattle.nor_bus.specs.Driven.{AllLanes};
ghost use Rattle.nor_image.specs.Loaded.{bus_of, loaded_width};
ghost use Rattle.nor_probe.specs.Probed.{refusal};
ghost use Rattle.nor_run.specs.Scripts.{IsJustLoaded, HasLetters};
ghost use Rattle.nor_drill.specs.Making.{AreDrillParts, IsDrillBank};
ghost use Rattle.nor_drill.specs.Drill.{all_ones, eight_blocks, drill_set, drill_chip, drill_chips};

use crate::tables::table_of;
use nor_amd::Amd;
use nor_bus::SimBank;
use nor_cell::{CellParts, Cells, Chip, Device, NoMemory, Set, Span, make_cells};
use nor_image::Loaded;
use nor_intel::Intel;
use std::alloc::Global;

const CHIP_SIZE: usize = 8192;

const BLOCK: u32 = 1024;

// How many reads a word, an erase and the suspend of one show working.
#[derive(Clone, Copy)]
struct Paces {
    program: u32,
    erase: u32,
    suspend: u8,
}

// The paces of both lanes.
const LOW: Paces = Paces {
    program: 3,
    erase: 40,
    suspend: 2,
};

const HIGH: Paces = Paces {
    program: 5,
    erase: 90,
    suspend: 4,
};

fn drill_set(n: u32) -> Set
    ensures { result ≡ drill_set n }
{
    if n % 2 == 0 { Set::Intel } else { Set::Amd }
}

fn block(from: u32) -> Span
    ensures { result ≡ record { from = from; len = 1024 } }
{
    Span { from, len: BLOCK }
}

fn eight_blocks(alloc: Global) -> Result<Vec<Span>, NoMemory>
    ensures { IfOk result (λ blocks. blocks.items ≡ eight_blocks) }
{
    let blocks = vec![in alloc;
        block(0),
        block(0x400),
        block(0x800),
        block(0xC00),
        block(0x1000),
        block(0x1400),
        block(0x1800),
        block(0x1C00),
    ]?;
    Ok(blocks)
}

#[tactic(auto, unfolding(crate::specs::Drill::all_ones))]
fn all_ones(alloc: Global) -> Result<Vec<u8>, NoMemory>
    ensures { IfOk result (λ bytes. bytes.items ≡ all_ones) }
{
    vec![in alloc; 0xFF; CHIP_SIZE]
}

fn parts_of(alloc: Global, set: Set, paces: Paces) -> Result<CellParts, NoMemory>
    ensures { IfOk result (AreDrillParts set paces.program paces.erase paces.suspend) }
{
    let bytes = all_ones(alloc)?;
    let blocks = eight_blocks(alloc)?;
    Ok(CellParts {
        device: Device::X16,
        table: table_of(set),
        bytes,
        weak: Vec::new(alloc),
        stuck: false,
        pace_program: paces.program,
        pace_erase: paces.erase,
        pace_suspend: paces.suspend,
        suspends: 0,
        erases: 0,
        blocks,
        locks: Vec::new(alloc),
    })
}

fn cells_of(alloc: Global, set: Set, paces: Paces) -> Result<Cells, NoMemory>
    requires { paces.suspend ≤ 16 }
    ensures { IfOk result (λ cells.
        powered (chip_of set cells) ≡ drill_chip set paces.program paces.erase paces.suspend) }
{
    let parts = parts_of(alloc, set, paces)?;
    let cells = make_cells(alloc, parts)?;
    Ok(cells)
}

// What a chip keeps is in range.
fn look_at<C: Chip>(chip: &C)
    ensures { IsChip (C.state chip.now) }
{
    let _cells = chip.cells();
}

// Two chips of set 0001 side by side.
#[tactic(auto, using(crate::proofs::Banks::are_wired))]
fn intel_bank(alloc: Global, low: Intel, high: Intel) -> Result<Loaded, NoMemory>
    requires low { low ≡ drill_chip Set.Intel 3 40 2 }
    requires high { high ≡ drill_chip Set.Intel 5 90 4 }
    ensures { IfOk result (IsDrillBank Set.Intel) }
{
    look_at(&low);
    look_at(&high);
    let chips = vec![in alloc; low, high]?;
    Ok(Loaded::Intel32(SimBank::new(Device::X16, chips)))
}

// Two chips of set 0002.
#[tactic(auto, using(crate::proofs::Banks::are_wired))]
fn amd_bank(alloc: Global, low: Amd, high: Amd) -> Result<Loaded, NoMemory>
    requires low { low ≡ drill_chip Set.Amd 3 40 2 }
    requires high { high ≡ drill_chip Set.Amd 5 90 4 }
    ensures { IfOk result (IsDrillBank Set.Amd) }
{
    look_at(&low);
    look_at(&high);
    let chips = vec![in alloc; low, high]?;
    Ok(Loaded::Amd32(SimBank::new(Device::X16, chips)))
}

fn bank_of(alloc: Global, set: Set) -> Result<Loaded, NoMemory>
    ensures { IfOk result (IsDrillBank set) }
{
    let low = cells_of(alloc, set, LOW)?;
    let high = cells_of(alloc, set, HIGH)?;
    match set {
        Set::Intel => intel_bank(alloc, Intel::new(low), Intel::new(high)),
        Set::Amd => amd_bank(alloc, Amd::new(low), Amd::new(high)),
    }
}

/// The bank of a drill, just powered on: it can be run as one that was loaded, and probing accepts it.
pub fn drill_bank(alloc: Global, n: u32) -> Result<Loaded, NoMemory>
    ensures width { IfOk result (λ loaded. loaded_width loaded ≡ 4) }
    ensures chips { IfOk result (λ loaded. (bus_of loaded).lanes ≡ drill_chips n) }
    ensures loaded { IfOk result (λ loaded. IsJustLoaded 4 (bus_of loaded)) }
    ensures accepted { IfOk result (λ loaded. refusal 4 (bus_of loaded).lanes ≡ None) }
    ensures letters { IfOk result (λ loaded. AllLanes HasLetters (bus_of loaded)) }
{
    let loaded = bank_of(alloc, drill_set(n))?;
    Ok(loaded)
}
