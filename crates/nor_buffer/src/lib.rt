//! A sink over a sink, which holds bytes back and passes many on at once.
//!
//! A [`Buffered`] has taken what its inner sink has taken and what it holds: it is a sink as any other, and
//! puts up to 8 KiB by one call. An [`Output`] is a sink that can be asked to pass on all that it holds; what
//! has come out of it is a first part of what it has taken, and all of it after a `flush` that worked.
//!
//! It stands on nor_io for the sink, and on `arrayvec` for what is held.
#![tactic(auto)]

mod buffered;
mod output;
mod was;

pub use buffered::Buffered;
pub use output::Output;
