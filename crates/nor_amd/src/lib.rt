//! A simulated chip of command set 0002, AMD standard.
//!
//! A chip takes its commands by write cycles and shows the answer of its mode at read cycles. Most
//! commands begin with two unlock cycles, `0xAA` at the first command address and `0x55` at the
//! second, which are units `0x555` and `0x2AA`, and `0xAAA` and `0x555` in byte mode. Then come:
//! - `0xA0` at the first address, and a unit's data at the unit, which programs it. `0x25` in a
//!   block, the number of units less one, the units with their data, and `0x29` program a buffer
//!   load: units that follow each other in one page and block.
//! - `0x80` at the first address, both unlock cycles again, and `0x30` in a block, which erases it.
//!   While an erase runs `0xB0` suspends it, and `0x30` lets it go on. With `0x10` at the first
//!   address in place of `0x30` all blocks are erased at once, where the table gives a time for it.
//!   Such an erase isn't suspended.
//! - `0xE0` at the first address, which shows the locks (DYB bits) of the blocks: 0 where a block
//!   is locked, 1 where it isn't. There `0xA0`, and then `0x00` or `0x01` in a block, locks or
//!   unlocks it, and `0x90`, and then `0x00`, leaves. Locks outlive a loss of power.
//!
//! `0x98` at unit `0x55` (`0xAA` in byte mode) shows the query table, and there `0xF0` the array.
//!
//! A read of a chip at work shows its status. In a program bit 7 is the complement of the datum's;
//! bit 6 toggles at each read; in an erase bit 3 is set and bit 2 toggles too. A job that broke off
//! shows the same with bit 5, until `0xF0`. An aborted buffer load shows bit 1, until both unlock
//! cycles and `0xF0` at the first address. In a block whose erase is suspended bit 7 is set and
//! bit 2 toggles. A program or an erase of a locked block does nothing, and nothing tells it; so
//! does an erase of all blocks where one of them is locked.
//!
//! Each cycle of `Amd` is a step of nor_cell's definitions of this set, and no cycle is refused. What
//! both sets share is nor_cell's `Machine`; here are the codes, the steps and what reads show.
#![tactic(auto)]

mod addresses;
mod chip;
mod commands;
mod locks;
mod shown;
mod toggles;

pub use chip::Amd;
