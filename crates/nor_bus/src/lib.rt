//! A bus of one, two or four chips side by side, which loses power where it was told to.
//!
//! `Bus` is all that a driver sees of a bank: read and write cycles of whole bus words, in which
//! each chip takes or answers its own lane; whether power is on; and how many cycles reached the
//! chips or failed. A cycle fails exactly where power is off or the armed cut is due, and the cycle
//! that meets the cut cuts every chip first. `SimBank` is that bus over any chips that are a `Chip`, and
//! cuts each by the armed mask.
//!
//! `write_code`, `write_word` and `read_word` are the cycles as a driver's crates use them: what each
//! lane does is one equation or relation of its own chip's states.
//!
//! It stands on nor_cell, for the chips, and on nor_word, for the words.
#![tactic(auto)]

mod bank;
mod bus;
mod chips;
mod driven;

pub use bank::{SimBank, lane_bytes};
pub use bus::{Armed, Bus, Off};
pub use driven::{read_word, write_code, write_word};
