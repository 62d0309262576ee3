//! What a bank is, as text: the lines of `norbank show`, and why probing refuses a bank.
//!
//! `show_text` gives exactly the lines that `specs/Lines.antt` defines of a bus width, a wiring, a
//! query table and a map of erase regions. `QueryText` and `difference_text` print as
//! `specs/Refusals.antt` defines. Numbers are decimal, identifiers and places of the table hex.
//!
//! It stands on nor_query for the query table, on nor_region for the map, and on nor_cell for the
//! names of devices and sets.
#![tactic(auto)]

mod lines;
mod names;
mod refusals;

pub use lines::show_text;
pub use names::{DeviceName, HexByte, HexWord, SetName, SuspendName, YesOrNo};
pub use refusals::{KindText, QueryText, difference_text};
