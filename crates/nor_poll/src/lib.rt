//! Polls of a bank: what each of its lanes is at; and the calls of both command sets.
//!
//! A poll reads the bus and tells of each lane whether it works, is ready, holds a suspended erase
//! or broke off. It tells the truth of each lane by itself, whatever the others do: `Told` and `ToldAt`
//! in `specs/Told.antt` say which, by the state of the lane's chip after the poll. A lane is told to
//! work only where its job had reads left at the poll's first read, or the chip is stuck.
//!
//! `status_poll` is the poll of set 0001, whose chips show their status register. `toggle_poll` and
//! `data_poll` are those of set 0002, whose chips show bits that toggle, and the complement of a bit of
//! the datum: `specs/Toggles.antt` says what they ask of a chip. `poll` makes any of them, or one of an
//! erase of set 0001, which looks past the error of a program. `wait_ready` polls until no lane works.
//!
//! The calls of both command sets stand here once, with the set as a parameter: `program_word`,
//! `program_buffer`, `reset`, `settle`, `erase_start`, `erase_look`, `suspend`, `resume`, `lock`, `unlock` and
//! `is_locked`; set 0002 alone has `erase_all_start`. `cycles_of` is the table of their command cycles, but
//! for those that resume an erase, and `write_command` writes them. What a call makes of a
//! lane is one record in `specs/Word.antt`, `Buffer.antt`, `Rest.antt`, `Erase.antt`, `Suspend.antt`,
//! `Resume.antt` or `Lock.antt`; what the state of a lane under erase says of its chip is `LaneIs` in
//! `specs/UnderErase.antt`; `specs/Reads.antt` says what any number of reads make of a chip,
//! `specs/Losing.antt` what a call that is given up leaves.
//!
//! It works over any bus, and stands on nor_bus for the cycles and on nor_word for the lanes of a
//! word.
#![tactic(auto)]

mod broken;
mod buffer;
mod codes;
mod data;
mod erase;
mod lanes;
mod locks;
mod look;
mod polling;
mod readings;
mod rest;
mod resuming;
mod status;
mod suspending;
mod toggle;
mod wait;
mod watch;
mod word;

pub use broken::broken_lanes;
pub use buffer::program_buffer;
pub use codes::{Command, Cycle, To, write_command};
pub use data::data_poll;
pub use erase::{erase_all_start, erase_look, erase_start};
pub use lanes::{Halt, LaneSet, LaneState, Lanes};
pub use locks::{is_locked, lock, unlock};
pub use polling::{Polling, poll};
pub use rest::{reset, settle};
pub use resuming::resume;
pub use status::status_poll;
pub use suspending::suspend;
pub use toggle::toggle_poll;
pub use wait::wait_ready;
pub use watch::{Broke, Seen, Watch};
pub use word::program_word;
