ghost use Rattle.std.specs.Prelude.{◌≡◌, ◌<◌, ◌≤◌, ◌+◌, ◌*◌, ◌^◌, length, IfOk};
ghost use Rattle.nor_cell.specs.Cells.{part_of};
ghost use Rattle.nor_bus.specs.Bus.{IsWired, lanes_of, lane as lane_state};
ghost use Rattle.nor_image.specs.Loaded.{bus_of, loaded_width};
ghost use Rattle.nor_image.specs.Written.{code_of_device, header_bytes, place_bytes, lock_bytes};
ghost use Rattle.nor_image.specs.Written.{bank_set, record_bytes, file_of, Stores};
ghost use Rattle.nor_image.specs.Writing.{numbers_of, record_of, Puts, HasNumbers, HasFields};
ghost use Rattle.nor_image.specs.Reading.{record_len};

use crate::header::{Version, magic_of};
use crate::locks::kept_locks;
use crate::record::{FIRST_RECORD, TABLE, record_len};
use crate::{Loaded, with_bank};
use nor_bus::{Bus, SimBank};
use nor_cell::{Cells, Chip, Device, NoMemory, Set, set_of};
use nor_word::BusWord;
use std::alloc::Global;

// Puts bytes at a place, and gives the place behind them.
fn put(file: &mut [u8], at: usize, bytes: &[u8]) -> usize
    requires { at + length bytes.now ≤ length file.old }
    ensures { Puts bytes.now at file.old file.new result }
{
    let end = at + bytes.len();
    file[at..end].copy_from_slice(bytes);
    end
}

fn code_of_device(device: Device) -> u8
    ensures { result ≡ code_of_device device }
{
    match device {
        Device::X8 => 0,
        Device::X16 => 1,
        Device::X16Byte => 2,
    }
}

fn put_header(file: &mut [u8], width: u8, device: Device, lanes: u8) -> usize
    requires { FIRST_RECORD ≤ length file.old }
    ensures { Puts (header_bytes Version.Two width device lanes) 0 file.old file.new result }
{
    let at = put(file, 0, &magic_of(Version::Two));
    put(file, at, &[width, code_of_device(device), lanes, 0])
}

// What a record says first.
fn put_numbers(file: &mut [u8], at: usize, cells: &Cells) -> usize
    requires { at + TABLE ≤ length file.old }
    ensures bits { HasNumbers (part_of Set.Intel cells.now) cells.now.suspends cells.now.erases }
    ensures numbers { Puts (numbers_of cells.now) at file.old file.new result }
{
    let at = put(file, at, &cells.pace_program.to_le_bytes());
    let at = put(file, at, &cells.pace_erase.to_le_bytes());
    let at = put(file, at, &[cells.pace_suspend, u8::from(cells.stuck)]);
    let at = put(file, at, &(cells.weak.len() as u16).to_le_bytes());
    let at = put(file, at, &cells.suspends.to_le_bytes());
    put(file, at, &cells.erases.to_le_bytes())
}

fn put_places(file: &mut [u8], at: usize, places: &[u32]) -> usize
    requires { at + 4 * length places.now ≤ length file.old }
    ensures { Puts (place_bytes places.now) at file.old file.new result }
{
    let mut at = at;
    for place in places {
        at = put(file, at, &place.to_le_bytes());
    }
    at
}

// The number of locks, and each of them.
fn put_locks(file: &mut [u8], at: usize, locks: &[bool]) -> usize
    requires { at + 4 + length locks.now ≤ length file.old }
    ensures { Puts (lock_bytes Version.Two locks.now) at file.old file.new result }
{
    let count = locks.len().to_le_bytes();
    let mut at = put(file, at, &count[..4]);
    for locked in locks {
        at = put(file, at, &[u8::from(*locked)]);
    }
    at
}

// The record of a chip with these cells.
fn put_cells(file: &mut [u8], at: usize, set: Set, cells: &Cells) -> usize
    requires { at + record_len Version.Two set cells.now ≤ length file.old }
    ensures bits { HasNumbers (part_of Set.Intel cells.now) cells.now.suspends cells.now.erases }
    ensures kept { Puts (record_of set cells.now) at file.old file.new result }
{
    let at = put_numbers(file, at, cells);
    let at = put(file, at, &cells.table);
    let at = put(file, at, &(cells.bytes.len() as u32).to_le_bytes());
    let at = put_places(file, at, &cells.weak);
    let at = put_locks(file, at, kept_locks(set, cells));
    put(file, at, &cells.bytes)
}

fn put_chip<C: Chip>(file: &mut [u8], at: usize, set: Set, chip: &C) -> usize
    requires { at + length (record_bytes Version.Two set (C.state chip.now)) ≤ length file.old }
    ensures fields { HasFields (C.state chip.now) }
    ensures bytes { Puts (record_bytes Version.Two set (C.state chip.now)) at file.old file.new result }
{
    put_cells(file, at, set, chip.cells())
}

// How many bytes the record of a chip has.
fn chip_len<C: Chip>(set: Set, chip: &C) -> usize
    ensures { result ≡ length (record_bytes Version.Two set (C.state chip.now)) }
{
    record_len(Version::Two, set, chip.cells())
}

// The device of all its chips.
fn device_of<W: BusWord, C: Chip + Drop>(bank: &SimBank<W, C>) -> Device
    requires { 0 < lanes_of bank.now }
    ensures { result ≡ (lane_state bank.now 0).part.device }
{
    bank.chip(0).cells().device
}

// The set that lane 0's table names: locks are stored as it keeps them.
fn bank_set<W: BusWord, C: Chip + Drop>(bank: &SimBank<W, C>) -> Set
    requires { 0 < lanes_of bank.now }
    ensures { result ≡ bank_set bank.now.lanes }
{
    set_of(&bank.chip(0).cells().table)
}

// How many lanes the bank has: as many as fill the bus.
fn lanes_of<W: BusWord, C: Chip + Drop>(bank: &SimBank<W, C>) -> u8
    ensures value { result ≡ lanes_of bank.now }
    ensures some { 0 < result }
    ensures few { result ≤ 4 }
    ensures wired { IsWired W.WIDTH bank.now }
{
    // Every bus says that its chips fill its word.
    let _ = bank.units();
    bank.chips().len() as u8
}

// How many bytes the file of a bank has, if a number of 64 bits can say it.
fn file_len<W: BusWord, C: Chip + Drop>(bank: &SimBank<W, C>) -> usize
    ensures { result < 2 ^ 63 → result ≡ length (file_of W.WIDTH bank.now.lanes) }
{
    let lanes = lanes_of(bank);
    let set = bank_set(bank);
    let mut len = FIRST_RECORD;
    for lane in 0..lanes {
        len = len.saturating_add(chip_len(set, bank.chip(lane)));
    }
    len
}

// Puts the file of a bank over the bytes of a slice.
fn fill<W: BusWord, C: Chip + Drop>(bank: &SimBank<W, C>, file: &mut [u8])
    requires { length file.old ≡ length (file_of W.WIDTH bank.now.lanes) }
    ensures file { file.new ≡ file_of W.WIDTH bank.now.lanes }
    ensures stands { Stores file.new W.WIDTH bank.now.lanes }
{
    let lanes = lanes_of(bank);
    let set = bank_set(bank);
    let mut at = put_header(file, W::WIDTH, device_of(bank), lanes);
    for lane in 0..lanes {
        at = put_chip(file, at, set, bank.chip(lane));
    }
}

fn write<W: BusWord, C: Chip + Drop>(
    alloc: Global,
    bank: &SimBank<W, C>,
) -> Result<Vec<u8>, NoMemory>
    ensures file { IfOk result (λ file. file.items ≡ file_of W.WIDTH bank.now.lanes) }
    ensures stands { IfOk result (λ file. Stores file.items W.WIDTH bank.now.lanes) }
{
    let mut file = vec![in alloc; 0; file_len(bank)]?;
    fill(bank, &mut file);
    Ok(file)
}

/// The file of a bank, of version 2. Modes and jobs aren't in it: it stands for the bank as it would
/// be just powered on, where the bank is one that a file can store, and its lanes agree on their
/// locks: its chips' set is the one that lane 0's table names, each chip's size and blocks are those
/// of its own table, and lanes that keep equally many locks without power have the same ones.
pub fn write_image(alloc: Global, bank: &Loaded) -> Result<Vec<u8>, NoMemory>
    ensures file { IfOk result (λ file.
        file.items ≡ file_of (loaded_width bank.now) (bus_of bank.now).lanes) }
    ensures stands { IfOk result (λ file.
        Stores file.items (loaded_width bank.now) (bus_of bank.now).lanes) }
{
    with_bank!(bank, bank => write(alloc, bank))
}

/// The same in place of the bytes of a slice, which has the file's length. It takes no memory.
pub fn fill_image(bank: &Loaded, file: &mut [u8])
    requires { length file.old
        ≡ length (file_of (loaded_width bank.now) (bus_of bank.now).lanes) }
    ensures file { file.new ≡ file_of (loaded_width bank.now) (bus_of bank.now).lanes }
    ensures stands { Stores file.new (loaded_width bank.now) (bus_of bank.now).lanes }
{
    with_bank!(bank, bank => fill(bank, file))
}
