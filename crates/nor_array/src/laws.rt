//! Laws of the definitions, as theorems: by them a reader sees that they say what is meant.
ghost use Rattle.nor_array.specs.Laws.{EveryCallHasAnAnswer, RefusalsAreDecided, EntriesKeepArrays};
ghost use Rattle.nor_array.specs.Laws.{EntriesKeepTheRest, EntriesOnlyClear, LegalByTheLast, HaltsHaveACause};

/// Every call has an answer that the array admits, in every state. What the array and the call alone
/// decide has one reply, and no bytes.
pub fn calls_are_answered()
    ensures answered { EveryCallHasAnAnswer }
    ensures decided { RefusalsAreDecided }
{}

/// An admitted entry makes an array of an array, and changes nothing but what it names. Outside the
/// block under erase it sets no bit.
pub fn entries_change_what_they_name()
    ensures arrays { EntriesKeepArrays }
    ensures rest { EntriesKeepTheRest }
    ensures clears { EntriesOnlyClear }
{}

/// A history is legal exactly where its front is, and its last entry is admitted after it and agrees
/// with the facts.
pub fn histories_grow_at_the_end()
    ensures { LegalByTheLast }
{}

/// A bank halts only where a cut is armed or a lane is stuck: a legal history from an array with power
/// on and no cut armed, that arms none, on a bank with no stuck lane, has no halt.
pub fn halts_have_a_cause()
    ensures { HaltsHaveACause }
{}
