//! What a bank that is made has other than all banks.
ghost use Rattle.std.specs.Prelude.{◌≡◌, ◌≤◌, length, IfOk, IsTrue};
ghost use Rattle.std.specs.List.{list_all};
ghost use Rattle.nor_cell.specs.Ranges.{is_ascending_below, begin_units};
ghost use Rattle.nor_dump.specs.Changes.{paces_of as last_paces, weak_at, weak_of, sticks, is_stuck as has_stuck, is_in, is_weak_list, fit_weak, change_error};

use nor_cell::{Device, Geometry, NoMemory, unit_len};
use std::alloc::Global;

/// How many status reads show a program and an erase working, and a suspend pending (0 to 16).
#[derive(Clone, Copy, Debug, PartialEq, Eq)]
pub struct Paces {
    pub program: u32,
    pub erase: u32,
    pub suspend: u8,
}

/// Something that a bank has other than all banks.
#[derive(Clone, Copy, Debug, PartialEq, Eq)]
pub enum Change {
    /// The paces of all lanes; the last that are given count.
    Pace(Paces),
    /// A place, in bytes of the lane's chip, at which programming and erasing break off.
    Weak { lane: u8, place: u32 },
    /// No program and no erase of the lane's chip ends.
    Stuck { lane: u8 },
}

/// Why a bank can't have some changes.
#[derive(Clone, Copy, Debug, PartialEq, Eq)]
pub enum ChangeError {
    /// The suspend pace is above 16.
    BadPace,
    /// A lane isn't in the bank.
    BadLane,
    /// The weak places of a lane are more than 256, don't ascend, or one isn't the first byte of a unit of
    /// the chip.
    BadWeak,
}

/// The paces of all lanes: 2, 4 and 2 where none are given.
pub fn paces_of(changes: &[Change]) -> Paces
    ensures { result ≡ last_paces changes.now }
{
    let mut paces = Paces {
        program: 2,
        erase: 4,
        suspend: 2,
    };
    for change in changes {
        if let Change::Pace(new) = change {
            paces = *new;
        }
    }
    paces
}

fn weak_at(lane: u8, change: Change) -> Option<u32>
    ensures { result ≡ weak_at lane change }
{
    match change {
        Change::Weak { lane: of, place } if of == lane => Some(place),
        _ => None,
    }
}

/// The weak places of a lane.
pub fn weak_of(alloc: Global, lane: u8, changes: &[Change]) -> Result<Vec<u32>, NoMemory>
    ensures { IfOk result (λ places. places.items ≡ weak_of lane changes.now) }
{
    changes
        .iter()
        .filter_map(|change| weak_at(lane, *change))
        .collect(alloc)
}

fn sticks(lane: u8, change: Change) -> bool
    ensures { result ≡ sticks lane change }
{
    match change {
        Change::Stuck { lane: of } => of == lane,
        _ => false,
    }
}

/// Whether a lane is stuck.
pub fn is_stuck(lane: u8, changes: &[Change]) -> bool
    ensures { result ≡ has_stuck lane changes.now }
{
    changes.iter().any(|change| sticks(lane, *change))
}

fn is_in(lanes: u8, change: Change) -> bool
    ensures { result ≡ is_in lanes change }
{
    match change {
        Change::Pace(_) => true,
        Change::Weak { lane, .. } => lane < lanes,
        Change::Stuck { lane } => lane < lanes,
    }
}

fn are_in(lanes: u8, changes: &[Change]) -> bool
    ensures { result ≡ list_all (is_in lanes) changes.now }
{
    changes.iter().all(|change| is_in(lanes, *change))
}

fn begin_units(device: Device, places: &[u32]) -> bool
    ensures { result ≡ begin_units device places.now }
{
    let unit = unit_len(device) as u32;
    places.iter().all(|place| *place % unit == 0)
}

fn is_ascending_below(size: u32, places: &[u32]) -> bool
    ensures { result ≡ is_ascending_below size places.now }
{
    match places {
        [] => true,
        [last] => *last < size,
        [first, rest @ ..] => *first < rest[0] && is_ascending_below(size, rest),
    }
}

fn is_weak_list(device: Device, size: u32, places: &[u32]) -> bool
    ensures { result ≡ is_weak_list device size places.now }
{
    places.len() <= 256 && is_ascending_below(size, places) && begin_units(device, places)
}

// Whether chips of so many bytes may have the weak places of each lane.
fn fit_weak(alloc: Global, g: Geometry, size: u32, changes: &[Change]) -> Result<bool, NoMemory>
    ensures { IfOk result (λ fit. fit ≡ fit_weak g.device size changes.now g.lanes) }
{
    let mut fit = true;
    for lane in 0..g.lanes {
        let places = weak_of(alloc, lane, changes)?;
        fit = fit && is_weak_list(g.device, size, &places);
    }
    Ok(fit)
}

/// What is wrong with changes of a bank whose chips have so many bytes: the first of a bad pace, a lane
/// that isn't there, and weak places that a chip can't have.
pub fn check(
    alloc: Global,
    g: Geometry,
    size: u32,
    changes: &[Change],
) -> Result<Option<ChangeError>, NoMemory>
    ensures { IfOk result (λ error. error ≡ change_error g size changes.now) }
{
    if paces_of(changes).suspend > 16 {
        return Ok(Some(ChangeError::BadPace));
    }
    if !are_in(g.lanes, changes) {
        return Ok(Some(ChangeError::BadLane));
    }
    if fit_weak(alloc, g, size, changes)? {
        Ok(None)
    } else {
        Ok(Some(ChangeError::BadWeak))
    }
}
