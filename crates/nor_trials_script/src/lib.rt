//! Trials of scripts and of the plain array. It has tests only.
//!
//! Tables of rows go through their public calls. What a clause says of every value, a row shows of one.
#![tactic(auto)]

#[cfg(test)]
mod arrays;
#[cfg(test)]
mod scripts;
