//! The array and its opening.
ghost use Rattle.std.specs.Prelude.{◌≡◌, length, IfOk, IsTrue};
ghost use Rattle.nor_region.specs.Map.{spans_of};
ghost use Rattle.nor_region.specs.Regions.{total_len};
ghost use Rattle.nor_array.specs.Array.{opening, lie_within};
ghost use Rattle.nor_array.specs.Consts.{constants};

use crate::{ArmedCut, OpenErase, Power};
use nor_cell::{NoMemory, Span};
use nor_region::BlockMap;
use std::alloc::Global;
use std::marker::Model;

/// What no call changes: the blocks, whether they have locks, how each lock stands at the opening,
/// whether power-on keeps the locks, whether all blocks can be erased at once, and the weak places
/// of the chips as bytes of the bank.
#[derive(Drop)]
pub struct Consts {
    pub map: BlockMap,
    pub has_locks: bool,
    pub locked: Vec<bool>,
    pub keeps: bool,
    pub has_chip_erase: bool,
    pub weak: Vec<Span>,
}

/// What a bank of chips is to its callers: bytes, a lock for each block, what is under erase with
/// its caller, power and the armed cut. Contracts see it as an `ArrayState`.
#[derive(Drop)]
pub struct PlainArray {
    pub(crate) bytes: Vec<u8>,
    pub(crate) locks: Vec<bool>,
    pub(crate) under: Option<OpenErase>,
    pub(crate) power: Power,
    pub(crate) armed: Option<ArmedCut>,
    pub(crate) consts: Consts,
}

impl Model for PlainArray {
    ghost use Rattle.nor_array.specs.Array.{ArrayState, IsArray};
    ghost use Rattle.nor_array.specs.Consts.{state_of};

    ghost Value = { ArrayState };

    ghost view = { λ a. state_of a.consts a.bytes.items a.locks.items a.under a.power a.armed };

    ghost invariant = { λ a. IsArray (state_of a.consts a.bytes.items a.locks.items a.under a.power a.armed) };
}

/// The array at its opening, with as many bytes as the map has, in which the weak spans lie, and
/// locks for its blocks. Power is on, no erase is under way and no cut is armed. It takes memory for
/// the bytes and the locks.
pub fn plain(alloc: Global, bytes: &[u8], consts: Consts) -> Result<PlainArray, NoMemory>
    requires size { length bytes.now ≡ total_len consts.map }
    requires weak { IsTrue (lie_within (length bytes.now) consts.weak.items) }
    requires locks { length consts.locked.items ≡ length (spans_of consts.map) }
    ensures { IfOk result (λ array. array ≡ opening (constants consts) bytes.now) }
{
    let _size = consts.map.size();
    let locks = consts.locked.as_slice().to_vec(alloc)?;
    Ok(PlainArray {
        bytes: bytes.to_vec(alloc)?,
        locks,
        under: None,
        power: Power::On,
        armed: None,
        consts,
    })
}

/// The array's bytes.
pub fn bytes_of(array: &PlainArray) -> &[u8]
    ensures { result.now ≡ (array.now).bytes }
{
    &array.bytes
}
