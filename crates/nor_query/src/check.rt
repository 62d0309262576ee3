//! The checks of a query table, in groups.
ghost use Rattle.std.specs.Prelude.{◌≡◌, ◌≤◌, ◌<◌, ◌+◌, ◌*◌, ◌==◌, ◌||◌, ◌∷◌, [], Bool, length, slice_index as nth, IsTrue, OnOk};
ghost use Rattle.std.specs.Result.{result_err};
ghost use Rattle.nor_cell.specs.Table.{field_8, extended_at};
ghost use Rattle.nor_query.specs.Checks.{check, shows, first_of, is_within, head_checks, extended_checks, sum_check, has_place, first_error};
ghost use Rattle.nor_query.specs.Fields.{region_count};

use crate::field::{named_len, regions_of, set_of, word_at};
use crate::{QueryError, QueryKind, place};
use nor_region::{MAX_REGIONS, total_len};

// An error where something doesn't hold.
fn check(holds: bool, at: usize, kind: QueryKind) -> Result<(), QueryError>
    requires { at < 65536 }
    ensures error { result_err result ≡ first_of (check holds at kind ∷ []) }
    ensures passed { OnOk result (IsTrue holds) }
{
    if holds {
        Ok(())
    } else {
        Err(QueryError {
            at: at as u16,
            kind,
        })
    }
}

// Three letters stand at a place.
fn check_letters(
    table: &[u8; 512],
    at: usize,
    letters: [u8; 3],
    kind: QueryKind,
) -> Result<(), QueryError>
    requires { at + 3 ≤ 512 }
    ensures { result_err result ≡ first_of (
        shows table.now at (nth letters 0) kind
        ∷ shows table.now (at + 1) (nth letters 1) kind
        ∷ shows table.now (at + 2) (nth letters 2) kind
        ∷ []) }
{
    check(table[at] == letters[0], at, kind)?;
    check(table[at + 1] == letters[1], at + 1, kind)?;
    check(table[at + 2] == letters[2], at + 2, kind)
}

fn is_set(word: u16) -> bool
    ensures { result ≡ (word == 1 || word == 2) }
{
    word == 1 || word == 2
}

fn is_within(low: u8, high: u8, byte: u8) -> bool
    ensures { result ≡ is_within low high byte }
{
    low <= byte && byte <= high
}

// `Q`, `R`, `Y`, the set, the size, the interface and the number of regions.
fn check_head(table: &[u8; 512]) -> Result<(), QueryError>
    ensures { result_err result ≡ first_of (head_checks table.now) }
{
    check_letters(table, place::QRY, *b"QRY", QueryKind::NoQry)?;
    let set = word_at(table, place::SET);
    check(is_set(set), place::SET, QueryKind::UnknownSet(set))?;
    let size = table[place::SIZE];
    check(
        is_within(12, 27, size),
        place::SIZE,
        QueryKind::BadSize(size),
    )?;
    let interface = word_at(table, place::INTERFACE);
    check(
        interface <= 2,
        place::INTERFACE,
        QueryKind::BadInterface(interface),
    )?;
    let count = table[place::REGION_COUNT];
    check(count != 0, place::REGION_COUNT, QueryKind::NoRegions)?;
    check(
        usize::from(count) <= MAX_REGIONS,
        place::REGION_COUNT,
        QueryKind::TooManyRegions(count),
    )
}

// Whether the extended table lies behind the regions and in the table.
fn has_place(table: &[u8; 512]) -> bool
    ensures { result ≡ has_place table.now }
{
    let ext = usize::from(word_at(table, place::EXTENDED));
    let regions_end = place::REGIONS + place::REGION_LEN * usize::from(table[place::REGION_COUNT]);
    regions_end <= ext && ext + named_len(set_of(table)) <= place::TABLE_LEN
}

// The place of the extended table, `P`, `R`, `I`, and the version.
fn check_extended(table: &[u8; 512]) -> Result<(), QueryError>
    ensures { result_err result ≡ first_of (extended_checks table.now) }
{
    check(has_place(table), place::EXTENDED, QueryKind::BadExtended)?;
    let ext = usize::from(word_at(table, place::EXTENDED));
    check_letters(table, ext, *b"PRI", QueryKind::BadExtended)?;
    let major = table[ext + place::MAJOR];
    check(major == b'1', ext + place::MAJOR, QueryKind::UnknownVersion)?;
    let minor = table[ext + place::MINOR];
    check(
        is_within(b'0', b'5', minor),
        ext + place::MINOR,
        QueryKind::UnknownVersion,
    )
}

// The regions have as many bytes as the chip.
fn check_sum(table: &[u8; 512]) -> Result<(), QueryError>
    requires regions { region_count table.now ≤ 8 }
    requires size { field_8 table.now 0x27 ≤ 27 }
    ensures { result_err result ≡ first_of (sum_check table.now ∷ []) }
{
    let sum = total_len(&regions_of(table));
    let size = 1 << table[place::SIZE];
    check(
        sum == size,
        place::REGIONS,
        QueryKind::SizeMismatch { sum, size },
    )
}

// All checks, in their order.
pub(crate) fn check_table(table: &[u8; 512]) -> Result<(), QueryError>
    ensures { result_err result ≡ first_error table.now }
{
    check_head(table)?;
    check_extended(table)?;
    check_sum(table)
}
