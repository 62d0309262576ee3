//! The query table in a file.
ghost use Rattle.std.specs.Prelude.{◌≡◌, ◌*◌, ◌+◌, length, slice_index, IfOk, Some, None, if◌then◌else◌};
ghost use Rattle.std.specs.Option.{option_map};
ghost use Rattle.std.specs.Result.{result_err};
ghost use Rattle.nor_query.specs.Checks.{first_error};
ghost use Rattle.nor_dump.specs.Table.{table_of as table_in, table_error, low_bytes, are_low};

use nor_query::{QueryError, decode};

/// Why a file has no query table.
#[derive(Clone, Copy, Debug, PartialEq, Eq)]
pub enum TableError {
    /// It has neither 512 nor 1,024 bytes, but so many.
    Length(usize),
    /// It has 1,024 bytes, and a high one of a word isn't 0.
    HighByte,
    /// The table is refused.
    Query(QueryError),
}

// The low bytes of 512 words, where the high ones are 0.
fn narrow(words: &[u8; 1024]) -> Option<[u8; 512]>
    ensures { result ≡ (if are_low words.now then Some (low_bytes words.now) else None) }
{
    let mut table = [0; 512];
    for n in 0..table.len() {
        if words[2 * n + 1] != 0 {
            return None;
        }
        table[n] = words[2 * n];
    }
    Some(table)
}

fn accepted(table: [u8; 512]) -> Result<[u8; 512], TableError>
    ensures table { IfOk result (λ t. t ≡ table) }
    ensures accepted { IfOk result (λ t. first_error t ≡ None) }
    ensures refused { result_err result ≡ option_map TableError.Query (first_error table) }
{
    match decode(&table) {
        Ok(_) => Ok(table),
        Err(error) => Err(TableError::Query(error)),
    }
}

/// The query table of 512 bytes that a file has, or the low bytes of its 512 words of two bytes. The
/// error is the first of a wrong length, a high byte that isn't 0, and what `decode` refuses.
pub fn table_of(file: &[u8]) -> Result<[u8; 512], TableError>
    ensures table { IfOk result (λ table. table ≡ table_in file.now) }
    ensures accepted { IfOk result (λ table. first_error table ≡ None) }
    ensures refused { result_err result ≡ table_error file.now }
{
    if file.len() == 512 {
        let mut table = [0; 512];
        table.copy_from_slice(file);
        return accepted(table);
    }
    if file.len() != 1024 {
        return Err(TableError::Length(file.len()));
    }
    let mut words = [0; 1024];
    words.copy_from_slice(file);
    match narrow(&words) {
        Some(table) => accepted(table),
        None => Err(TableError::HighByte),
    }
}
