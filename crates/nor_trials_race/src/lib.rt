//! Trials of callers that share a bank, in threads of their own, and of the lock under which they do. It has
//! tests only.
//!
//! They show what no clause says: that workers run beside each other, and in what order a gate lets them.
#![tactic(auto)]

#[cfg(test)]
mod erases;
#[cfg(test)]
mod races;
#[cfg(test)]
mod turns;
#[cfg(test)]
mod using;
