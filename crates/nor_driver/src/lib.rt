//! A bank that several callers share, each in a thread of its own.
//!
//! The bank lies under the ticket lock of nor_turn. Each call of the [`Driver`] waits for a turn,
//! makes one call of the bank in it, enters what it did, and gives the turn on. Where the bank answers
//! that its chips still work, or that another block is under erase, the turn is given on without an
//! entry, and the call is made again in a later one. So the calls of all callers stand in one history,
//! which is legal for the plain array that the bank stood for at first, and the bank stands for the
//! array after it: `StandsFrom` in `specs/Fronts.antt`. That a turn comes is promised by no clause.
//!
//! An erase is two calls, one that opens it and one that closes it. The caller that opened it closes it, and
//! no other. Between the two, others read, program and lock.
//!
//! A [`Caller`] is the right to call, under a number. What it has seen of the history begins with all
//! that it had seen before, and ends with its last call: `Called` in `specs/Callers.antt` says it of
//! every call. A caller may be split off another, and folded in again.
#![tactic(auto)]

mod call;
mod caller;
mod driver;
mod erasing;
mod held;
mod locking;
mod ranges;
mod waiting;

pub use caller::{Answer, Caller};
pub use driver::{Driver, NoMemory};
pub use held::Held;
