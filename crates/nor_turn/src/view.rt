//! What the lock's table knows of a pass.
use std::collections::LinkedList;

/// What the table knows of one pass. No value of it is made: it exists in the rule alone, so its
/// numbers have no bound.
pub(crate) struct View<V, E> {
    /// The value that the lock was made with. A pass that was joined into another has none.
    pub(crate) opening: Option<V>,
    pub(crate) share: u64,
    pub(crate) room: u64,
    /// The number of its ticket among all that were drawn, counted without end.
    pub(crate) ticket: Option<u64>,
    pub(crate) has_turn: bool,
    /// While it has the turn, the history.
    pub(crate) turn_front: LinkedList<(LinkedList<u64>, E)>,
    pub(crate) looks: u64,
    pub(crate) last: u64,
    pub(crate) name: LinkedList<u64>,
    pub(crate) splits: u64,
    /// The names of the passes that were joined into it.
    pub(crate) taken: LinkedList<LinkedList<u64>>,
    pub(crate) seen: LinkedList<(LinkedList<u64>, E)>,
    // From a join to the look that follows it: the names of the pass and of the one that it took
    // in, and what each of them had seen.
    pub(crate) mine: LinkedList<LinkedList<u64>>,
    pub(crate) my_front: LinkedList<(LinkedList<u64>, E)>,
    pub(crate) theirs: LinkedList<LinkedList<u64>>,
    pub(crate) their_front: LinkedList<(LinkedList<u64>, E)>,
}
