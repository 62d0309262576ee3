//! A simulated chip of command set 0001, Intel extended.
//!
//! A chip takes its commands by write cycles and shows the answer of its mode at read cycles:
//! - `0xFF` shows the array again, `0x90` the identifiers (register 2 of a block: whether it is
//!   locked), `0x98` the query table, `0x70` the status register. `0x50` clears the register.
//! - `0x40` or `0x10`, and then a unit's data at the unit, programs it. `0xE8`, the number of units
//!   less one, the units with their data, and `0xD0` programs a buffer load: units that follow
//!   each other in one page and block.
//! - `0x20`, and then `0xD0` in a block, erases it. While an erase runs `0xB0` suspends it, and
//!   `0xD0` lets it go on.
//! - `0x60`, and then `0x01` or `0xD0` in a block, locks or unlocks it. Power-on locks all blocks.
//!
//! The status register: bit 7 ready, 6 an erase is suspended, 5 erase error, 4 program error, 1 the
//! block was locked. Bits 5 and 4 together are a command sequence error.
//!
//! Each cycle of `Intel` is a step of nor_cell's definitions of this set, and no cycle is refused. What
//! both sets share is nor_cell's `Machine`; here are the codes, the steps and what reads show.
#![tactic(auto)]

mod chip;
mod commands;
mod shown;

pub use chip::Intel;
