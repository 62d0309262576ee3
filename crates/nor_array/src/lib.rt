//! The plain NOR array: what a bank of NOR flash chips is to its callers.
//!
//! This is what a reader must believe; everything else is proved against it. It is one list of bytes
//! and one list of whole calls, and knows no lanes at work, command codes, status bits, polls of
//! chips or turns. The definitions of `specs/`:
//! - `Array`: what an array is, and its opening. It has bytes, a lock for each block, what is
//!   under erase with its caller, power, and the cut that was armed.
//! - `After`: what an entry, which is a call with its reply, makes of an array.
//! - `Needs`: what each call needs, the one table that the next two go by.
//! - `Refusals`: the replies that the array and the call alone decide, in their order.
//! - `Admits`: which entries an array admits, and so which bytes a loss of power, a stuck chip or a
//!   weak place may leave.
//! - `Legal`: which histories a bank may have, by its geometry, its buffers, what it can do while an
//!   erase is suspended, and its stuck lanes.
//! - `Laws`: what these definitions imply, proved on the calls of `laws.rt`.
//!
//! `plain`, `admits` and `apply` are the definitions as code, for tests: the opening exactly, true
//! exactly where an entry is admitted, and the array after it exactly. Contracts see `Bytes` as a
//! list and `PlainArray` as an `ArrayState`. Memory is taken by `make_bytes`, `plain` and clones.
//!
//! It stands on `nor_region` for the block map, and on `nor_cell` for spans and what programming may
//! leave of a byte.
#![tactic(auto)]

mod admit;
mod array;
mod bytes;
mod bytes_edits;
mod change;
mod entry;
mod laws;
mod needs;
mod program;
mod refuse;
mod state;

pub use admit::admits;
pub use array::{Consts, PlainArray, bytes_of, plain};
pub use bytes::{Bytes, make_bytes};
pub use change::apply;
pub use entry::{Entry, Halted, Op, Reply};
pub use laws::{
    calls_are_answered, entries_change_what_they_name, halts_have_a_cause,
    histories_grow_at_the_end,
};
pub use needs::{
    CallNeeds, Chance, Reach, erase_all_call, erase_call, lock_call, program_call, read_call,
};
pub use refuse::{MAX_LEN, while_open};
pub use state::{ArmedCut, OpenErase, Power, Target};
