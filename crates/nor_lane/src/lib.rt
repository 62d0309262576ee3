//! Lanes and places: how chips lie side by side on a bus word, and where a byte of the bank lies in
//! them.
//!
//! One, two or four chips share the bus, each with a lane of one or two bytes. Their device words
//! take turns in the bank: this is the interleave. [`split`] gives the lane and the chip's byte of a
//! byte of the bank, [`join`] the way back, both exactly by that definition. [`candidates`] are the
//! nine wirings in the order in which a driver tries them, and [`pad`] fills up a partial bus word
//! so that programming it changes nothing else.
//!
//! No call is refused. The lemmas of `proofs/` are for the crates above: `Places` on bytes and
//! places by plain numbers, `Geometries` on candidates and wirings. It stands on `nor_word` for the
//! bus word, on `nor_cell` for devices and places, and on `arrayvec`.
#![tactic(auto)]

mod interleave;
mod partial;
mod wirings;

pub use interleave::{join, split};
pub use partial::pad;
pub use wirings::candidates;
