//! A worked example of the definitions, as a theorem: power is lost in a buffer load.
ghost use Rattle.nor_cell.specs.BufferCut.{BeforeConfirm, AfterConfirm, SimulatedIsAllowed, ReadsCells};

/// A cut before the confirm of a buffer load changes no cell. One after it leaves bits between ones
/// and the data in the units that were loaded, the byte that a simulated chip leaves among them,
/// and no other cell changes. Locks are set again, and reads show the cells.
pub fn cut_in_a_load()
    ensures before { BeforeConfirm }
    ensures after { AfterConfirm }
    ensures simulated { SimulatedIsAllowed }
    ensures read { ReadsCells }
{}
