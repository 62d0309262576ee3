//! The query table of a flash chip (JEDEC JESD68, "Common Flash Interface").
//!
//! A chip in query mode shows 512 bytes that say what it is: its command set, size, times, write
//! buffer and erase regions, and in an extended table what its set offers. `decode` checks every
//! field that a driver relies on, in a stated order, and names the first that is out of range.
//! `encode` writes the table back, byte for byte: the bytes that no field names are kept.
//!
//! `specs/Stands.antt` says what table stands for what query, `specs/Checks.antt` the checks in
//! their order, and `specs/Valid.antt` which queries a table can stand for. What a query says
//! beyond its fields (suspend, locks, limits) is proved to be what a chip with the table does, in
//! the words of `nor_cell`.
//!
//! It takes no memory, and stands on `nor_region`, `nor_cell`, `arrayvec` and `byteorder`.
#![tactic(auto)]

mod check;
mod decoding;
mod derived;
mod encoding;
mod error;
mod field;
mod place;
mod query;
mod valid;

pub use decoding::decode;
pub use encoding::encode;
pub use error::{QueryError, QueryKind};
pub use nor_cell::{SuspendKind, Work};
pub use query::{Extended, Query};
