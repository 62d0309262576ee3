//! Sample banks for the trials of other crates: query tables, bank files of every wiring, and chips made
//! of their cells.
//!
//! It promises nothing of a driver. Its calls say of the banks that they make only what a caller must
//! show of a bank.
#![tactic(auto)]

mod chips;
mod files;
mod tables;

pub use chips::{
    Made, Setup, Suspending, WEAK_PLACE, make_bank, make_suspending_bank, make_whole_bank,
};
pub use files::{WIRINGS, Wiring, first_bytes, load, load_tables};
pub use tables::{table, whole_table};
