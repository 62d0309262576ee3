//! A script on a bank of NOR chips.
//!
//! Each line of a script is one call of the bank, or an erase that is begun and polled to its end. Its entries
//! are handed over at once, so no history is held: a call makes one; an erase one where it wasn't opened, else
//! that of the opening and that of the poll that ended it. `run_lines` does so on a started bank, with any
//! [`Taker`] of entries; a sink is one, and takes them as the lines of a report. `run_image` begins with a bank
//! that was just loaded from a file: it probes, runs, puts the counters, and writes the bank over the bytes of the
//! file to save.
//! Promised is that the output has then taken the report of entries that answer the lines, and that the
//! file is the bank's; and that, where the chips' tables begin with `QRY`, the entries are one legal history
//! of the plain array, which opens with the bank's bytes and locks, and the file has, outside what is under erase,
//! the array's bytes after it. What a race shares with a run stands here too: the bank is begun by `start_bank`,
//! the report ended by `put_end`. It stands on nor_bank for the calls, on nor_script for lines and texts, and on
//! nor_image for the file.
#![tactic(auto)]

mod bank;
mod counters;
mod error;
mod image;
mod lines;
mod taker;

pub use bank::{of_put, put_end, start_bank};
pub use error::RunError;
pub use image::run_image;
pub use lines::{Ran, ran_on, run_lines};
pub use taker::{Taker, hand_over};
