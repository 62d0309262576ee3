//! Scripts and reports: the commands that a bank is run with, and what it answered.
//!
//! A script's text is split at newlines. Its lines are numbered from 1; empty lines and those that
//! begin with `#` are skipped. Every other line has bytes from 0x20 to 0x7E alone, and one space
//! between its fields. A caller K is a number from 1 to 8.
//!
//! | Line | Call |
//! |---|---|
//! | `K read ADDR LEN` | read |
//! | `K program ADDR HEX` | program |
//! | `K erase BLOCK` | an erase is opened and polled to its end |
//! | `K open BLOCK`, `K poll` | the two parts of an erase |
//! | `K lock BLOCK`, `K unlock BLOCK`, `K locked BLOCK` | a block's lock is set, cleared, read |
//! | `cut AFTER MASK` | power is lost after so many more bus cycles |
//! | `reboot` | power-on |
//!
//! A number is 1 to 10 decimal digits, or `0x` and 1 to 8 hex digits of either case, below 2^32; a
//! mask is at most 255. HEX is an even number of hex digits, at least two, or `-` for no bytes. A
//! script for callers that race has no `open`, `poll` or `reboot`, and its cuts stand before the
//! first caller's line.
//!
//! [`parse_script`] answers exactly what `specs/Script.antt` and `specs/Grammar.antt` define on the
//! bytes: the command lines, or what is wrong with the first bad line, by the first check that fails.
//! [`put_entry`] and [`put_totals`] put exactly the text that `specs/Report.antt` defines of an entry
//! and of the chips' counters; where the sink fails, a first part of it was put.
//! `specs/Answering.antt` says when a history answers a script, run or raced.
//!
//! It stands on nor_array for calls, replies and entries, and on nor_io for the sink.
#![tactic(auto)]

mod command;
mod error;
mod field;
mod laws;
mod line;
mod number;
mod report;
mod script;
mod text;
mod verb;

pub use error::{LineKind, ScriptError};
pub use laws::{scripts_are_answered_line_by_line, texts_say_scripts};
pub use line::{Line, Word};
pub use number::parse_number;
pub use report::{put_entry, put_totals};
pub use script::{MAX_LINES, Script, parse_script};
