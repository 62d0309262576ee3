ghost use Rattle.std.specs.Prelude.{◌≡◌, ◌≢◌, ◌<◌, ◌≤◌, ◌+◌, ◌*◌, ℕ, List, length, slice_index, IsTrue, false};
ghost use Rattle.std.specs.List.{list_all};
ghost use Rattle.nor_cell.specs.Bits.{AreBytes};
ghost use Rattle.nor_query.specs.Fields.{field_32, region_at, regions_at, is_named_extended, named_len};
ghost use Rattle.nor_query.specs.Stands.{StandsFor};
ghost use Rattle.nor_query.specs.Valid.{IsValid, is_table_region, set_of_extended};
ghost use Rattle.nor_query.specs.Writing.{SameWithin, HeadReads, ExtendedReads, set_code};

use crate::{Extended, Query, place};
use nor_cell::Set;
use nor_region::Region;

/// The one table that stands for a valid query.
pub fn encode(q: &Query) -> [u8; 512]
    requires { IsValid q.now }
    ensures stands { StandsFor result q.now }
    ensures only { (table : List ℕ) → StandsFor table q.now → table ≡ result }
{
    let mut table = q.rest;
    put(&mut table, place::QRY, &head_of(q));
    put_regions(&mut table, &q.regions);
    put_extended(&mut table, usize::from(q.ext), q.minor, q.extended);
    table
}

// Writes bytes from a place on.
fn put(table: &mut [u8; 512], at: usize, bytes: &[u8])
    requires { at + length bytes.now ≤ 512 }
    ensures len { length table.new ≡ 512 }
    ensures bytes { AreBytes table.new }
    ensures inside { (k : ℕ) → k < length bytes.now
        → slice_index table.new (at + k) ≡ slice_index bytes.now k }
    ensures below { SameWithin 0 at table.old table.new }
    ensures above { SameWithin (at + length bytes.now) 512 table.old table.new }
{
    table[at..at + bytes.len()].copy_from_slice(bytes);
}

fn set_code(set: Set) -> u16
    ensures { result ≡ set_code set }
{
    match set {
        Set::Intel => 1,
        Set::Amd => 2,
    }
}

// `Q`, `R`, `Y` and the fields up to the number of regions.
fn head_of(q: &Query) -> [u8; 29]
    ensures { HeadReads result 0 q.now }
{
    let set = set_code(q.set).to_le_bytes();
    let ext = q.ext.to_le_bytes();
    let alt_set = q.alt_set.to_le_bytes();
    let alt_ext = q.alt_ext.to_le_bytes();
    let volts = q.volts;
    let times = q.times;
    let wires = q.interface.to_le_bytes();
    let buffer = q.buffer_log.to_le_bytes();
    let count = q.regions.len() as u8;
    [
        b'Q', b'R', b'Y', set[0], set[1], ext[0], ext[1], alt_set[0], alt_set[1], alt_ext[0],
        alt_ext[1], volts[0], volts[1], volts[2], volts[3], times[0], times[1], times[2], times[3],
        times[4], times[5], times[6], times[7], q.size_log, wires[0], wires[1], buffer[0],
        buffer[1], count,
    ]
}

// The number of blocks less one, and the block size in steps of 256 bytes, where 0 is 128 bytes.
fn region_bytes(region: Region) -> [u8; 4]
    requires { IsTrue (is_table_region region) }
    ensures { region_at result 0 ≡ region }
{
    let count = ((region.count - 1) as u16).to_le_bytes();
    let size = ((region.size / 256) as u16).to_le_bytes();
    [count[0], count[1], size[0], size[1]]
}

fn put_regions(table: &mut [u8; 512], regions: &[Region])
    requires few { length regions.now ≤ 8 }
    requires ranges { IsTrue (list_all is_table_region regions.now) }
    ensures len { length table.new ≡ 512 }
    ensures regions { regions_at table.new 0x2D (length regions.now) ≡ regions.now }
    ensures below { SameWithin 0 0x2D table.old table.new }
    ensures above { SameWithin (0x2D + 4 * length regions.now) 512 table.old table.new }
{
    for (i, region) in regions.iter().enumerate() {
        put(
            table,
            place::REGIONS + place::REGION_LEN * i,
            &region_bytes(*region),
        );
    }
}

// `P`, `R`, `I`, the version, and what the set's table says.
fn put_extended(table: &mut [u8; 512], ext: usize, minor: u8, extended: Extended)
    requires inside { ext + named_len (set_of_extended extended) ≤ 512 }
    requires minor { minor ≤ 5 }
    ensures len { length table.new ≡ 512 }
    ensures bytes { AreBytes table.new }
    ensures reads { ExtendedReads table.new ext minor extended }
    ensures below { SameWithin 0 ext table.old table.new }
    ensures free { (k : ℕ) → ext + k < 512
        → is_named_extended (set_of_extended extended) k ≡ false
        → slice_index table.new (ext + k) ≡ slice_index table.old (ext + k) }
{
    put(table, ext, &[b'P', b'R', b'I', b'1', b'0' + minor]);
    match extended {
        Extended::Intel {
            features,
            in_suspend,
        } => put_intel(table, ext, features, in_suspend),
        Extended::Amd {
            suspend,
            protect,
            boot,
        } => put_amd(table, ext, suspend, protect, boot),
    }
}

fn put_intel(table: &mut [u8; 512], ext: usize, features: u32, in_suspend: u8)
    requires { ext + 10 ≤ 512 }
    ensures len { length table.new ≡ 512 }
    ensures bytes { AreBytes table.new }
    ensures features { field_32 table.new (ext + 5) ≡ features }
    ensures in_suspend { slice_index table.new (ext + 9) ≡ in_suspend }
    ensures below { SameWithin 0 (ext + 5) table.old table.new }
    ensures above { SameWithin (ext + 10) 512 table.old table.new }
{
    put(table, ext + place::FEATURES, &features.to_le_bytes());
    table[ext + place::IN_SUSPEND] = in_suspend;
}

fn put_amd(table: &mut [u8; 512], ext: usize, suspend: u8, protect: u8, boot: u8)
    requires { ext + 16 ≤ 512 }
    ensures len { length table.new ≡ 512 }
    ensures bytes { AreBytes table.new }
    ensures suspend { slice_index table.new (ext + 6) ≡ suspend }
    ensures protect { slice_index table.new (ext + 9) ≡ protect }
    ensures boot { slice_index table.new (ext + 15) ≡ boot }
    ensures others { (at : ℕ) → at < 512 → at ≢ ext + 6 → at ≢ ext + 9 → at ≢ ext + 15
        → slice_index table.new at ≡ slice_index table.old at }
{
    table[ext + place::SUSPEND] = suspend;
    table[ext + place::PROTECT] = protect;
    table[ext + place::BOOT] = boot;
}
