//! What holds of every history.
ghost use Rattle.nor_history.specs.Laws.{HistoriesFollow, OneCallKeepsBounds, OneCallLeads, StepsFollow};

/// A call of a bank that stands for an array is a history of its one entry.
pub fn a_call_is_a_history()
    ensures { OneCallLeads }
{}

/// A history that follows another makes one with it.
pub fn a_history_behind_another_is_one()
    ensures { HistoriesFollow }
{}

/// A call keeps the bounds on work, waiting, and a cut.
pub fn a_call_keeps_the_bounds()
    ensures { OneCallKeepsBounds }
{}

/// Calls behind others keep them.
pub fn calls_behind_others_keep_them()
    ensures { StepsFollow }
{}
