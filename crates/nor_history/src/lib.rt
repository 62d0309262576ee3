//! Histories of a bank: what the calls that were made of it, one behind the other, have made together.
//!
//! `Makes` in `specs/Histories.antt` says of one call what the bank promises of any; `Leads` says that
//! entries are a legal history of the plain array, and led a bank that stood for it to one that stands
//! for the array after them. `Bounded` in `specs/Bounds.antt` says how much its calls may ask of the chips: an erase
//! isn't closed before its chips can have been read so often, few calls have to wait for it, and a cut comes neither
//! before the calls can have made so many cycles, nor behind more words read. Whoever makes calls, in one thread or in
//! many, adds them up by the laws here.
//! It stands on nor_bank, and makes no call itself.
#![tactic(auto)]

mod laws;

pub use laws::{
    a_call_is_a_history, a_call_keeps_the_bounds, a_history_behind_another_is_one,
    calls_behind_others_keep_them,
};
