//! Trials of probing over all nine wirings, and of power that goes and comes back. It has tests only.
//!
//! They show what no clause of one crate says alone: that the wiring that a bank file was made with is
//! the one that is found, and no other, and in how many cycles; what a bank is refused with; that every
//! failed cycle is counted once, and that a cut leaves what its mask says.
#![tactic(auto)]

#[cfg(test)]
mod cuts;
#[cfg(test)]
mod refusals;
#[cfg(test)]
mod wirings;
