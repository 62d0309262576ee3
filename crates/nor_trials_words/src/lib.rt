//! Trials of words that are programmed, and of blocks that are erased and locked, by the calls of either
//! command set. It has tests only.
//!
//! They show what no clause says: in how many cycles a call is made, what a loss of power at each cycle of
//! a program or an erase leaves, and what is told of a weak lane and of a stuck one.
#![tactic(auto)]

#[cfg(test)]
mod buffers;
#[cfg(test)]
mod erases;
#[cfg(test)]
mod held;
#[cfg(test)]
mod locks;
#[cfg(test)]
mod polls;
#[cfg(test)]
mod words;
