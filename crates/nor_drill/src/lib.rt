//! The drill: a bank and a script that are made of a number, and a summary of what was answered.
//!
//! The bank has two chips of 16 bits and 8 KiB side by side, all ones and just powered on, of set 0001 where
//! the number is even, else of set 0002. The script unlocks all blocks, and then has 4,096 lines of four callers,
//! which are drawn from the number: [`drill_bank`] and [`drill_lines`] give exactly those of `specs/Drill.antt`.
//! A [`Tally`] takes the entries of the run and counts each under its word; [`put_summary`] puts exactly the text
//! of `specs/Summary.antt`.
//!
//! It stands on nor_cell, nor_intel, nor_amd, nor_bus and nor_image for the bank, on nor_script for the
//! lines, on nor_run for what takes entries, and on nor_io for the sink.
#![tactic(auto)]

mod bank;
mod drilled;
mod drilling;
mod laws;
mod script;
mod sum;
mod summary;
mod tables;
mod tally;

pub use bank::drill_bank;
pub use drilled::{DrillError, Drilled};
pub use drilling::drill;
pub use laws::tallies_count;
pub use script::drill_lines;
pub use sum::sum_of;
pub use summary::put_summary;
pub use tally::Tally;
