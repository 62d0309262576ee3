//! Trials of whole banks of both sets. It has tests only.
//!
//! They show what no clause says: what a bank answers to the callers of worked examples, in how
//! many cycles, and what a loss of power at each cycle leaves. Each call is compared with the plain
//! array.
#![tactic(auto)]

#[cfg(test)]
mod beside;
#[cfg(test)]
mod cuts;
#[cfg(test)]
mod cycles;
#[cfg(test)]
mod faults;
#[cfg(test)]
mod images;
#[cfg(test)]
mod mixed;
#[cfg(test)]
mod rows;
#[cfg(test)]
mod turns;
#[cfg(test)]
mod words;
