//! Laws of the definitions, as theorems.
ghost use Rattle.nor_drill.specs.Summary.{TalliesCount};

/// A tally that has taken the entries of a history has their counts.
pub fn tallies_count()
    ensures { TalliesCount }
{}
