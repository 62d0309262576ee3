//! The bank file: the header, and then one record for each lane's chip. Numbers are little-endian.
//!
//! | Place | Bytes | Header |
//! |---|---|---|
//! | 0 | 8 | `NORBANK1` or `NORBANK2`, which tells the version |
//! | 8 | 1 | width of the bus in bytes: 1, 2, 4 or 8 |
//! | 9 | 1 | device: 0 X8, 1 X16, 2 X16Byte |
//! | 10 | 1 | lanes, so that the three are one of the nine wirings |
//! | 11 | 1 | 0 |
//!
//! | Within | Bytes | Record, the first at place 12 |
//! |---|---|---|
//! | 0 | 4 | program pace |
//! | 4 | 4 | erase pace |
//! | 8 | 1 | suspend pace, 0 to 16 |
//! | 9 | 1 | stuck, 0 or 1 |
//! | 10 | 2 | number n of weak places, 0 to 256 |
//! | 12 | 4 | how often an erase was suspended |
//! | 16 | 4 | how many erases there were |
//! | 20 | 512 | query table |
//! | 532 | 4 | size in bytes: a power of two from 2^12 to 2^27, and that of the table where it gives one |
//! | 536 | 4n | weak places: strictly ascending, each at a unit's first byte, below the size |
//! | 536 + 4n | 4 | version 2: number k of locks |
//! | 540 + 4n | k | version 2: a byte for each lock, 1 where it is set, else 0 |
//! | then | size | cells |
//!
//! All chips have lane 0's size, and are of the set that lane 0's table names. k is the number of
//! blocks where that is set 0002, which keeps locks without power, and the lane's table is one that
//! is accepted and offers locks; else it is 0. Lanes with equally many locks have the same ones.
//! Modes and jobs aren't stored: a bank that is loaded was just powered on, which sets all locks of
//! a chip of set 0001 that offers them. One of set 0002 that offers them has the locks of its record,
//! and in version 1 none set; any other chip has none set.
//!
//! [`read_image`] answers such a bank exactly where the file is well formed, and else the first
//! refusal, field by field, at its place. [`write_image`] and [`fill_image`] give the file of a bank,
//! of version 2. Reading that file gives the bank again, just powered on, where a file can store it:
//! each chip's size and blocks are those of its table, its set is the one that lane 0's table names,
//! and lanes that keep equally many locks have the same ones. A file that was read is the bank's file
//! in its own version, byte by byte.
//!
//! `specs/Image.antt` has the format as the list of a file's fields, each with its place, its length
//! and what its value is refused with, and the chip that a record stores. `specs/Written.antt` has
//! the file of a bank, byte by byte. That both agree is proved in `proofs/Storing.antt` and
//! `proofs/Unique.antt`; the clauses of the three calls say it. Each step of the reader is proved
//! against the fields that it reads, each step of the writer against the bytes that it puts.
//!
//! A [`Loaded`] bank is one of eight kinds, by its chips' set and the width of its bus. What is to
//! be done with any of them is written once, over the bus's word and the chip, and called by
//! [`with_bank!`].
//!
//! It stands on nor_cell, nor_intel and nor_amd for the chips, nor_query and nor_region for their
//! blocks, nor_bus for the bank, and nor_io for fields.
#![tactic(auto)]

mod blocks;
mod error;
mod fields;
mod header;
mod loaded;
mod locks;
mod read;
mod record;
mod size;
mod write;

pub use error::ImageError;
pub use loaded::Loaded;
pub use read::read_image;
pub use write::{fill_image, write_image};
