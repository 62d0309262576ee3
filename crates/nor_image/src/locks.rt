//! The locks of a record: a file of version 2 has those that chips keep without power.
ghost use Rattle.std.specs.Prelude.{◌≡◌, ◌<◌, ◌≤◌, ◌+◌, ◌^◌, ◌==◌, length, slice_index};
ghost use Rattle.nor_query.specs.Derived.{keeps_locks, table_blocks};
ghost use Rattle.nor_cell.specs.Table.{has_locks};
ghost use Rattle.nor_image.specs.Image.{count_field, each_lock, is_agreed, is_lock_byte, kept_locks};
ghost use Rattle.nor_image.specs.Image.{lock_fields_of, locks_from, locks_len, stored_count};
ghost use Rattle.nor_image.specs.Image.{first_refusal, refusal_of, tested_field};
ghost use Rattle.nor_image.specs.Reading.{Reads, MayRead, kept_of_each};

use crate::ImageError;
use crate::fields::{byte_field, check, u32_field};
use crate::header::Version;
use nor_cell::{Cells, Set, has_locks};
use std::alloc::Global;

// Whether a chip of this set with this table keeps its locks without power.
fn keeps_locks(set: Set, table: &[u8; 512]) -> bool
    ensures { result ≡ keeps_locks set (has_locks table.now) }
{
    match set {
        Set::Intel => false,
        Set::Amd => has_locks(table),
    }
}

/// The locks that a chip with these cells keeps without power: all that it has, or none.
pub fn kept_locks(set: Set, cells: &Cells) -> &[bool]
    ensures { result.now ≡ kept_locks set cells.now.table cells.now.locks.items }
{
    if keeps_locks(set, &cells.table) {
        &cells.locks
    } else {
        &[]
    }
}

/// How many locks the record of a chip stores that has this table and so many blocks.
pub fn stored_count(version: Version, set: Set, table: &[u8; 512], blocks: usize) -> usize
    requires { blocks ≡ length (table_blocks table.now) }
    ensures { result ≡ stored_count version set table.now }
{
    match version {
        Version::One => 0,
        Version::Two if keeps_locks(set, table) => blocks,
        Version::Two => 0,
    }
}

/// How many bytes so many locks take in a record.
pub fn locks_len(version: Version, count: usize) -> usize
    requires { count < 2 ^ 63 }
    ensures { result ≡ locks_len version count }
{
    match version {
        Version::One => 0,
        Version::Two => 4 + count,
    }
}

// Whether none of these lanes, if it keeps so many locks, has another one as its number `k`.
fn is_agreed(before: &[Cells], set: Set, count: usize, k: usize, locked: bool) -> bool
    requires { k < count }
    ensures { result ≡ is_agreed (kept_of_each set before.now) count k locked }
{
    for cells in before {
        let locks = kept_locks(set, cells);
        if locks.len() == count && locks[k] != locked {
            return false;
        }
    }
    true
}

// The number of locks, which has to be this one.
fn read_count(file: &[u8], at: usize, count: usize) -> Result<(), ImageError>
    requires { at < 2 ^ 31 }
    ensures { Reads (refusal_of file.now (count_field file.now at count)) (λ _. Unit {0}) result }
{
    let found = u32_field(file, at)?;
    check(found as usize == count, at)
}

// Lock `k` of so many, behind these lanes.
fn read_lock(
    file: &[u8],
    at: usize,
    before: &[Cells],
    set: Set,
    count: usize,
    k: usize,
) -> Result<bool, ImageError>
    requires near { at < 2 ^ 31 }
    requires inside { k < count }
    ensures { let byte = slice_index file.now at in
        Reads (refusal_of file.now
        (tested_field at 1 (is_lock_byte (kept_of_each set before.now) count k byte)))
        (λ locked. locked ≡ (byte == 1)) result }
{
    let byte = byte_field(file, at)?;
    let locked = byte == 1;
    let valid = byte <= 1 && is_agreed(before, set, count, k, locked);
    check(valid, at)?;
    Ok(locked)
}

// So many locks from a place on.
fn read_each(
    alloc: Global,
    file: &[u8],
    at: usize,
    before: &[Cells],
    set: Set,
    count: usize,
) -> Result<Vec<bool>, ImageError>
    requires { at + count < 2 ^ 31 }
    ensures { MayRead (first_refusal file.now
        (each_lock file.now (kept_of_each set before.now) at count count))
        (λ locks. locks.items ≡ locks_from file.now at count) result }
{
    let mut locks = Vec::with_capacity(alloc, count)?;
    for k in 0..count {
        let locked = read_lock(file, at + k, before, set, count, k)?;
        locks.push(locked)?;
    }
    Ok(locks)
}

/// The locks of a record, which stand from a place on with their number before them. Each of them
/// has to be as in each lane before that keeps as many.
pub fn read_locks(
    alloc: Global,
    file: &[u8],
    version: Version,
    at: usize,
    before: &[Cells],
    set: Set,
    count: usize,
) -> Result<Vec<bool>, ImageError>
    requires near { at + 4 + count < 2 ^ 31 }
    requires none { version ≡ Version.One → count ≡ 0 }
    ensures { MayRead (first_refusal file.now
        (lock_fields_of version file.now (kept_of_each set before.now) at count))
        (λ locks. locks.items ≡ locks_from file.now (at + 4) count) result }
{
    match version {
        Version::One => Ok(Vec::new(alloc)),
        Version::Two => {
            read_count(file, at, count)?;
            read_each(alloc, file, at + 4, before, set, count)
        }
    }
}
