//! Trials of query tables, of both simulated chips, and of the files of their banks. It has tests only.
//!
//! Tables of rows go through the public calls: tables of parts that exist, bus cycles that take a chip through
//! each of its commands, and files that are refused or written again.
#![tactic(auto)]

#[cfg(test)]
mod chips;
#[cfg(test)]
mod images;
#[cfg(test)]
mod queries;
#[cfg(test)]
mod shows;
#[cfg(test)]
mod tables;
