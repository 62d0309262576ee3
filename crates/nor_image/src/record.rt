ghost use Rattle.std.specs.Prelude.{◌≡◌, ◌<◌, ◌≤◌, ◌+◌, ◌^◌, length, IfOk, IsTrue};
ghost use Rattle.nor_cell.specs.Bits.{AreBytes};
ghost use Rattle.nor_cell.specs.Ranges.{is_chip_size, is_ascending_below, begin_units};
ghost use Rattle.nor_io.specs.Fields.{u32_at};
ghost use Rattle.nor_image.specs.Image.{any_field, bytes_at, number_fields, table_field, size_field, is_size_by};
ghost use Rattle.nor_image.specs.Image.{weak_field, weak_fields, weak_field_at, least_weak, is_weak_place};
ghost use Rattle.nor_image.specs.Image.{record_fields, refusal_of, first_refusal, version_of, device_of, machine_of};
ghost use Rattle.nor_image.specs.Image.{kept_before, table_in, size_in, weak_in};
ghost use Rattle.nor_image.specs.Reading.{Reads, ReadsField, MayRead, AreNumbers, AreStored};
ghost use Rattle.nor_image.specs.Reading.{kept_of_each, record_len};

use crate::ImageError;
use crate::blocks::blocks_of_table;
use crate::fields::{byte_up_to, bytes_field, check, u16_up_to, u32_field};
use crate::header::{Header, Version};
use crate::locks::{kept_locks, locks_len, read_locks, stored_count};
use crate::size::is_size_by;
use nor_bus::lane_bytes;
use nor_cell::{CellParts, Cells, Device, Set, make_cells, set_of};
use nor_io::field_u32;
use std::alloc::Global;

/// Where the record of lane 0 begins.
pub const FIRST_RECORD: usize = 12;

/// Where a record has its query table, behind the numbers that it says first.
pub const TABLE: usize = 20;

// Where a record has its chip's size.
const SIZE: usize = 532;

/// How long a record is without its weak places and cells.
pub const FIXED_PART: usize = 536;

/// What a lane's record says first.
#[derive(Clone, Copy)]
pub struct Numbers {
    pub pace_program: u32,
    pub pace_erase: u32,
    pub pace_suspend: u8,
    pub stuck: bool,
    pub weak_count: u16,
    pub suspends: u32,
    pub erases: u32,
}

fn read_numbers(file: &[u8], at: usize) -> Result<Numbers, ImageError>
    requires near { at ≤ 2 ^ 30 }
    ensures { Reads (first_refusal file.now (number_fields file.now at))
        (AreNumbers file.now at) result }
{
    Ok(Numbers {
        pace_program: u32_field(file, at)?,
        pace_erase: u32_field(file, at + 4)?,
        pace_suspend: byte_up_to(file, at + 8, 16)?,
        stuck: byte_up_to(file, at + 9, 1)? == 1,
        weak_count: u16_up_to(file, at + 10, 256)?,
        suspends: u32_field(file, at + 12)?,
        erases: u32_field(file, at + 16)?,
    })
}

fn read_table(file: &[u8], at: usize) -> Result<[u8; 512], ImageError>
    requires near { at ≤ 2 ^ 30 }
    ensures read { ReadsField file.now (table_field at) (table_in file.now at) result }
    ensures whole { IfOk result (λ _. at + 532 ≤ length file.now) }
{
    let mut table = [0; 512];
    table.copy_from_slice(bytes_field(file, at + TABLE, 512)?);
    Ok(table)
}

/// The set of all chips, which lane 0's table names.
pub fn machine_of(file: &[u8]) -> Set
    requires { 544 ≤ length file.now }
    ensures { result ≡ machine_of file.now }
{
    let mut table = [0; 512];
    table.copy_from_slice(&file[FIRST_RECORD + TABLE..FIRST_RECORD + SIZE]);
    set_of(&table)
}

// The size of a lane's chip, which is that of lane 0's chip.
fn read_size(file: &[u8], lane: u8, at: usize, table: &[u8; 512]) -> Result<u32, ImageError>
    requires near { at ≤ 2 ^ 30 }
    requires behind_header { 12 ≤ at }
    requires table { table.now ≡ table_in file.now at }
    ensures read { ReadsField file.now (size_field file.now lane at) (size_in file.now at) result }
    ensures sized { IfOk result (λ size. IsTrue (is_chip_size size)) }
    ensures fits { IfOk result (λ size. IsTrue (is_size_by table.now size)) }
    ensures same { IfOk result (λ size. size ≡ size_in file.now 12) }
{
    let size = u32_field(file, at + SIZE)?;
    check(is_size_by(table, size), at + SIZE)?;
    let first = field_u32(file, FIRST_RECORD + SIZE).unwrap();
    if size == first {
        Ok(size)
    } else {
        Err(ImageError::SizeDiffers { lane })
    }
}

// Whether this may be a weak place of a chip of so many bytes: it begins a unit of the device.
fn is_weak_place(device: Device, size: u32, least: u32, place: u32) -> bool
    ensures { result ≡ is_weak_place device size least place }
{
    place >= least && place % u32::from(lane_bytes(device)) == 0 && place < size
}

// Number `k` of the weak places, which is no less than `least`.
fn read_weak_place(
    file: &[u8],
    device: Device,
    at: usize,
    k: u16,
    size: u32,
    least: u32,
) -> Result<u32, ImageError>
    requires near { at ≤ 2 ^ 30 }
    requires device { device ≡ device_of file.now }
    requires size { size ≡ size_in file.now at }
    requires least { least ≡ least_weak file.now at k }
    ensures { Reads (refusal_of file.now (weak_field file.now at k))
        (λ place. (place ≡ u32_at file.now (weak_field_at at k))
        × IsTrue (is_weak_place device size least place)) result }
{
    let place_at = at + FIXED_PART + 4 * usize::from(k);
    let place = u32_field(file, place_at)?;
    check(is_weak_place(device, size, least, place), place_at)?;
    Ok(place)
}

// So many weak places of a chip of so many bytes, each above the one before.
fn read_weak(
    alloc: Global,
    file: &[u8],
    device: Device,
    at: usize,
    count: u16,
    size: u32,
) -> Result<Vec<u32>, ImageError>
    requires near { at ≤ 2 ^ 30 }
    requires device { device ≡ device_of file.now }
    requires size { size ≡ size_in file.now at }
    ensures read { MayRead (first_refusal file.now (weak_fields file.now at count))
        (λ weak. weak.items ≡ weak_in file.now at count) result }
    ensures count { IfOk result (λ weak. length weak.items ≡ count) }
    ensures ascending { IfOk result (λ weak. IsTrue (is_ascending_below size weak.items)) }
    ensures whole { IfOk result (λ weak. IsTrue (begin_units device weak.items)) }
{
    let mut weak = Vec::with_capacity(alloc, usize::from(count))?;
    let mut least = 0;
    for k in 0..count {
        let place = read_weak_place(file, device, at, k, size, least)?;
        weak.push(place)?;
        least = place + 1;
    }
    Ok(weak)
}

// The cells of a chip of so many bytes.
fn read_cells(alloc: Global, file: &[u8], at: usize, size: u32) -> Result<Vec<u8>, ImageError>
    requires near { at + size < 2 ^ 32 }
    ensures read { MayRead (refusal_of file.now (any_field at size))
        (λ cells. cells.items ≡ bytes_at file.now at size) result }
    ensures size { IfOk result (λ cells. length cells.items ≡ size) }
    ensures bytes { IfOk result (λ cells. AreBytes cells.items) }
{
    let bytes = bytes_field(file, at, size)?;
    Ok(bytes.to_vec(alloc)?)
}

/// How many bytes the record of a chip with these cells has.
pub fn record_len(version: Version, set: Set, cells: &Cells) -> usize
    ensures value { result ≡ record_len version set cells.now }
    ensures few { result ≤ 536 + 1024 + 4 + 2 ^ 27 + 2 ^ 63 }
{
    let locks = kept_locks(set, cells).len();
    FIXED_PART + 4 * cells.weak.len() + locks_len(version, locks) + cells.bytes.len()
}

/// The record of a lane, which begins at a place, behind those of the lanes before.
pub fn read_record(
    alloc: Global,
    file: &[u8],
    header: Header,
    lane: u8,
    before: &[Cells],
    at: usize,
) -> Result<Cells, ImageError>
    requires near { at ≤ 2 ^ 30 }
    requires behind_header { 12 ≤ at }
    requires version { header.version ≡ version_of file.now }
    requires device { header.geometry.device ≡ device_of file.now }
    requires before { kept_of_each (machine_of file.now) before.now ≡ kept_before file.now lane }
    ensures { MayRead (first_refusal file.now (record_fields file.now lane at))
        (AreStored file.now header.geometry.device at) result }
{
    let version = header.version;
    let device = header.geometry.device;
    let numbers = read_numbers(file, at)?;
    let table = read_table(file, at)?;
    let size = read_size(file, lane, at, &table)?;
    let weak = read_weak(alloc, file, device, at, numbers.weak_count, size)?;
    let blocks = blocks_of_table(alloc, &table, size)?;
    let set = machine_of(file);
    let count = stored_count(version, set, &table, blocks.len());
    let locks_at = at + FIXED_PART + 4 * usize::from(numbers.weak_count);
    let locks = read_locks(alloc, file, version, locks_at, before, set, count)?;
    let bytes = read_cells(alloc, file, locks_at + locks_len(version, count), size)?;
    let parts = CellParts {
        device,
        table,
        bytes,
        weak,
        stuck: numbers.stuck,
        pace_program: numbers.pace_program,
        pace_erase: numbers.pace_erase,
        pace_suspend: numbers.pace_suspend,
        suspends: numbers.suspends,
        erases: numbers.erases,
        blocks,
        locks,
    };
    Ok(make_cells(alloc, parts)?)
}
