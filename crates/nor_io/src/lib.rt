//! What norbank reads and writes outside of its chips: a shelf of named files, a sink for text and for
//! bytes as hex text, and the little-endian fields of a file.
//!
//! A [`Shelf`] may tell its files, and a [`Sink`] the bytes that it has taken; each counts its
//! faults. Their contracts then say exactly what a call reads or changes, and that a fault is
//! answered only where the count rose. [`MemShelf`] and [`MemSink`] tell everything and fail at the
//! calls that they are told to. [`FsShelf`] and [`StdSink`] stand over the files of the system and
//! over standard output: they keep the same contracts, but what lies outside of the process isn't
//! told, so of its content nothing is claimed.
//!
//! It stands on `byteorder` for the fields, on `hex` for hex text, and on std.
#![tactic(auto)]

mod calls;
mod fields;
mod fs_shelf;
mod hex_text;
mod mem_shelf;
mod mem_sink;
mod shelf;
mod sink;
mod std_sink;

pub use fields::{field_u16, field_u32};
pub use fs_shelf::FsShelf;
pub use hex_text::put_hex;
pub use mem_shelf::MemShelf;
pub use mem_sink::MemSink;
pub use shelf::{LoadError, MAX_FILE, NoMemory, SaveError, Shelf};
pub use sink::{Sink, SinkError};
pub use std_sink::StdSink;
