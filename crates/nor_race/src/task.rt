//! A line that a worker runs, with what is noted of it.
use nor_driver::Answer;

/// A line of a script, by its place there, with room for what its calls are answered: of its own call,
/// with the data of a read that is done, and of the poll that closed its erase.
#[derive(Drop)]
pub(crate) struct Task {
    pub(crate) line: u32,
    pub(crate) answer: Answer,
    pub(crate) bytes: Vec<u8>,
    pub(crate) close: Option<Answer>,
}
