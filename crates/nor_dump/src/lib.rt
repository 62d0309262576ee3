//! A bank's file made of a dump of its bytes and a query table, and the dump taken out again.
//!
//! [`table_of`] reads a query table, [`check`] says whether a bank may have other paces, weak places and
//! stuck lanes than all banks, and [`make_bank`] gives the bank's file of version 2. [`dump`] gives the
//! bytes of a file's bank in the order of its addresses, [`lane_table`] a lane's query table.
//!
//! `specs/Made.antt` says which chips the bank that is made has, each byte of them by its address in the
//! bank; that the dump of the file is the dump that it was made of is a clause of `make_bank`. The work on
//! a bank is linear in its size. At most two times its bytes are held: the dump and the chips, and then the
//! chips and the file.
//!
//! It stands on nor_image for the file, on nor_query for the table, on nor_lane for the place of each byte,
//! and on nor_bus, nor_intel and nor_amd for the chips.
#![tactic(auto)]

mod bank;
mod changes;
mod dumping;
mod lanes;
mod survey;
mod table;

pub use bank::make_bank;
pub use changes::{Change, ChangeError, Paces, check};
pub use dumping::{dump, lane_table};
pub use lanes::chip_len;
pub use survey::{Bar, Survey, survey_of};
pub use table::{TableError, table_of};
