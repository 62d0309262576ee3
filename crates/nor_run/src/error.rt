use nor_io::SinkError;
use nor_probe::ProbeError;

/// Why a script wasn't run, or not to its end.
#[derive(Clone, Copy, Debug, PartialEq, Eq)]
pub enum RunError {
    /// Probing refuses the bank.
    Probe(ProbeError),
    /// A race wanted memory, before its first line.
    NoMemory,
    /// The report wasn't put whole.
    Put(SinkError),
}
