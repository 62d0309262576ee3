//! Finds what a bank is: how its chips are wired, what their query tables say, and its blocks (JESD68,
//! the query command).
//!
//! For each wiring that the bus word allows, in order, `probe` resets the chips, asks for the query
//! table at both addresses at which a chip may listen, and looks for `QRY` in every lane of that
//! wiring. It takes the first wiring that shows it, reads the table of all lanes at once, each byte
//! once, and leaves every chip showing its array.
//!
//! What it answers depends on the chips alone, whatever they are: `found_geometry` in
//! `specs/Found.antt` is the wiring that is found, `refusal` in `specs/Probed.antt` the first thing
//! that is wrong, and `IsFoundOn` there what is found where nothing is. Where the chips are what
//! their tables say, `specs/WellWired.antt`, that is the bank's own wiring and what every table says.
//!
//! It works over any bus, takes no memory, and stands on nor_bus for the cycles, on nor_lane for
//! the wirings, and on nor_query and nor_region for the table and its blocks.
#![tactic(auto)]

mod asking;
mod error;
mod find;
mod probing;
mod showing;
mod tables;

pub use error::ProbeError;
pub use probing::{Found, probe};
