ghost use Rattle.std.specs.Prelude.{◌≡◌, ◌<◌, ◌≤◌, ℕ, length, slice_index, if◌then◌else◌, IsTrue, IfOk, Ok, None};
ghost use Rattle.std.specs.List.{list_all};
ghost use Rattle.std.specs.Result.{result_err};
ghost use Rattle.nor_cell.specs.Table.{set_of};
ghost use Rattle.nor_query.specs.Checks.{first_error};
ghost use Rattle.nor_query.specs.Fields.{is_named, is_named_extended, bytes_at};
ghost use Rattle.nor_query.specs.Stands.{StandsFor};
ghost use Rattle.nor_query.specs.Valid.{IsValid, is_table_region};
ghost use Rattle.nor_query.specs.declared.query.Query.{Query};

use crate::check::check_table;
use crate::field::{extended_of, regions_of, set_of, word_at};
use crate::{Query, QueryError, place};
use nor_cell::Set;
use std::array;

/// What a chip says of itself in query mode: the low bytes of the device words 0x000 to 0x1FF. The
/// error is that of the first check that doesn't hold, in the order of `QueryKind`.
pub fn decode(table: &[u8; 512]) -> Result<Query, QueryError>
    ensures refused { result_err result ≡ first_error table.now }
    ensures stands { IfOk result (StandsFor table.now) }
    ensures only { (q : Query) → StandsFor table.now q → result ≡ Ok q }
    ensures valid { IfOk result IsValid }
{
    check_table(table)?;
    Ok(read_fields(table))
}

// The query that a table stands for, where each check holds.
fn read_fields(table: &[u8; 512]) -> Query
    requires { first_error table.now ≡ None }
    ensures stands { StandsFor table.now result }
    ensures ranges { IsTrue (list_all is_table_region result.regions.items) }
{
    let set = set_of(table);
    let ext = word_at(table, place::EXTENDED);
    let regions = regions_of(table);
    let rest = free_bytes(table, set, regions.len(), usize::from(ext));
    Query {
        set,
        ext,
        alt_set: word_at(table, place::ALTERNATE_SET),
        alt_ext: word_at(table, place::ALTERNATE_EXTENDED),
        volts: volts_of(table),
        times: times_of(table),
        size_log: table[place::SIZE],
        interface: word_at(table, place::INTERFACE),
        buffer_log: word_at(table, place::BUFFER),
        regions,
        minor: table[usize::from(ext) + place::MINOR] - b'0',
        extended: extended_of(set, table),
        rest,
    }
}

fn volts_of(table: &[u8; 512]) -> [u8; 4]
    ensures { result ≡ bytes_at table.now 0x1B 4 }
{
    array::from_fn(|i| table[place::VOLTS + i])
}

fn times_of(table: &[u8; 512]) -> [u8; 8]
    ensures { result ≡ bytes_at table.now 0x1F 8 }
{
    array::from_fn(|i| table[place::TIMES + i])
}

// Whether a byte has a name.
pub(crate) fn is_named(set: Set, regions: usize, ext: usize, at: usize) -> bool
    requires regions { regions ≤ 8 }
    ensures { result ≡ is_named set regions ext at }
{
    let in_head = place::QRY <= at && at < place::REGIONS + place::REGION_LEN * regions;
    in_head || ext <= at && is_named_extended(set, at - ext)
}

fn is_named_extended(set: Set, at: usize) -> bool
    ensures { result ≡ is_named_extended set at }
{
    match set {
        Set::Intel => at < place::INTEL_LEN,
        Set::Amd => at <= place::MINOR
            || matches!(at, place::SUSPEND | place::PROTECT | place::BOOT),
    }
}

// The bytes that no field names, and 0 in the place of the others.
fn free_bytes(table: &[u8; 512], set: Set, regions: usize, ext: usize) -> [u8; 512]
    requires { regions ≤ 8 }
    ensures len { length result ≡ 512 }
    ensures bytes { (at : ℕ) → at < 512
        → slice_index result at ≡ (if is_named set regions ext at then 0 else slice_index table.now at) }
{
    let mut rest = *table;
    for at in 0..rest.len() {
        if is_named(set, regions, ext, at) {
            rest[at] = 0;
        }
    }
    rest
}
