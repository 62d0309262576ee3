//! Trials of the crates on which all others stand: files and output, bus words and lanes, cells and blocks.
//! It has tests only.
//!
//! Tables of rows go through their public calls. What a clause says of every value, a row shows of one.
#![tactic(auto)]

#[cfg(test)]
mod cells;
#[cfg(test)]
mod io;
#[cfg(test)]
mod lanes;
#[cfg(test)]
mod regions;
#[cfg(test)]
mod words;
