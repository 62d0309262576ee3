//! Reads single fields of a query table.
ghost use Rattle.std.specs.Prelude.{◌≡◌, ◌<◌, ◌≤◌, ◌+◌, ◌*◌, slice_index, length, IsTrue};
ghost use Rattle.std.specs.List.{list_all};
ghost use Rattle.nor_cell.specs.Table.{field_16, extended_at, extended, set_of};
ghost use Rattle.nor_query.specs.Fields.{field_32, block_size, region_at, region_count, regions_of, extended_of, named_len};
ghost use Rattle.nor_query.specs.Valid.{is_table_region};

use crate::{Extended, place};
use arrayvec::ArrayVec;
use byteorder::{ByteOrder, LittleEndian};
use nor_cell::Set;
use nor_region::Region;

pub(crate) fn word_at(table: &[u8; 512], at: usize) -> u16
    requires { at + 2 ≤ 512 }
    ensures { result ≡ field_16 table.now at }
{
    LittleEndian::read_u16(&table[at..])
}

fn double_at(table: &[u8; 512], at: usize) -> u32
    requires { at + 4 ≤ 512 }
    ensures { result ≡ field_32 table.now at }
{
    LittleEndian::read_u32(&table[at..])
}

pub(crate) fn set_of(table: &[u8; 512]) -> Set
    ensures { result ≡ set_of table.now }
{
    if word_at(table, place::SET) == 2 {
        Set::Amd
    } else {
        Set::Intel
    }
}

// How long the part of the extended table is that has names.
pub(crate) fn named_len(set: Set) -> usize
    ensures value { result ≡ named_len set }
    ensures few { result ≤ 16 }
{
    match set {
        Set::Intel => place::INTEL_LEN,
        Set::Amd => place::AMD_LEN,
    }
}

// A block size in steps of 256 bytes, where 0 is 128 bytes.
fn block_size(steps: u16) -> u32
    ensures { result ≡ block_size steps }
{
    if steps == 0 {
        128
    } else {
        256 * u32::from(steps)
    }
}

fn region_at(table: &[u8; 512], at: usize) -> Region
    requires { at + 4 ≤ 512 }
    ensures region { result ≡ region_at table.now at }
    ensures ranges { IsTrue (is_table_region result) }
{
    Region {
        count: u32::from(word_at(table, at)) + 1,
        size: block_size(word_at(table, at + 2)),
    }
}

// The erase regions in the table's order.
pub(crate) fn regions_of(table: &[u8; 512]) -> ArrayVec<Region, 8>
    requires { region_count table.now ≤ 8 }
    ensures regions { result.items ≡ regions_of table.now }
    ensures ranges { IsTrue (list_all is_table_region result.items) }
    ensures count { length result.items ≡ region_count table.now }
{
    let mut regions = ArrayVec::new();
    for i in 0..usize::from(table[place::REGION_COUNT]) {
        regions.push(region_at(table, place::REGIONS + place::REGION_LEN * i));
    }
    regions
}

// What the extended table of a set says.
pub(crate) fn extended_of(set: Set, table: &[u8; 512]) -> Extended
    requires { extended_at table.now + named_len set ≤ 512 }
    ensures { result ≡ extended_of set table.now }
{
    let ext = usize::from(word_at(table, place::EXTENDED));
    match set {
        Set::Intel => Extended::Intel {
            features: double_at(table, ext + place::FEATURES),
            in_suspend: table[ext + place::IN_SUSPEND],
        },
        Set::Amd => Extended::Amd {
            suspend: table[ext + place::SUSPEND],
            protect: table[ext + place::PROTECT],
            boot: table[ext + place::BOOT],
        },
    }
}
