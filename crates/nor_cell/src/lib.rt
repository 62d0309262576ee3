//! A NOR flash chip as a model: what it is made of, what its command set does at each bus cycle,
//! and what a loss of power leaves.
//!
//! The definitions of `specs/` are what every other crate is proved against:
//! - `Chip`: the state of a chip. `Ranges`: what holds of every chip.
//! - `Table`: what the query table offers, read straight from its bytes.
//! - `Look`: how jobs run and end, for both sets. `Power`: what a cut leaves, and power-on.
//! - `Intel` and `Amd`: the machines of sets 0001 and 0002. A read is a relation of the old state,
//!   the answer and the new state, as cells may end in several ways; a write is a function.
//!   `Shown` and `Loads`: what both sets show alike, and how both take a buffer load.
//! - `Between`: a chip between two commands, of either set.
//! - `Steps`: a chip of either set at a cycle. `Wiring`: where a byte of a bank lies in its chips.
//! - `Machine`: the state that a simulated chip stands for. `Simulated`: what the simulated chips
//!   leave where a chip may leave several things.
//!
//! The trait `Chip` is what a bus asks of a chip. `Machine` is a simulated chip of either set as
//! far as both are alike: cells, a job that runs, a suspended erase, a buffer load, and what a
//! look, the suspend and resume codes, a cut and power-on make of them. Each set's own crate adds
//! its commands and what its reads show. It stands on the standard library and `arrayvec`.
#![tactic(auto)]

mod addresses;
mod bits;
mod blocks;
mod buffer_cut;
mod cells;
mod chip;
mod device;
mod ends;
mod geometry;
mod loads;
mod machine;
mod make;
mod reads;
mod state;
mod table;

pub use addresses::{first_address, second_address};
pub use bits::{is_between, unit_len};
pub use blocks::block;
pub use buffer_cut::cut_in_a_load;
pub use cells::{CellParts, Cells, NoMemory};
pub use chip::Chip;
pub use device::{Device, Set, Span, SuspendKind, Work};
pub use geometry::{BadGeometry, Geometry, make_geometry};
pub use machine::Machine;
pub use make::make_cells;
pub use reads::register;
pub use state::{EraseTarget, Failure, HeldErase, NextStep, RunningJob, ShownMode, StatusFlags};
pub use table::{
    amd_suspend, buffer_units, buffer_units_of, can_program_suspended, can_suspend, chip_erase_of,
    has_bit, has_locks, intel_suspend, left_at_start, most_reads, set_of, suspend_kind,
};
