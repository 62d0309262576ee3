//! Words of a bus of 1, 2, 4 or 8 bytes, and the lanes in them.
//!
//! A word is its bytes, the lowest first: `BusWord` says so once for all four widths, and every
//! contract above sees a word as that list. A lane is one chip's part of the word: one byte, or two
//! with the low byte first. It stands on nothing but the standard library.
#![tactic(auto)]

mod lane;
mod word;

pub use lane::{lane_get, lane_put};
pub use word::BusWord;
