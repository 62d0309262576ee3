ghost use Rattle.std.specs.Prelude.{◌≡◌, ◌≤◌, IsErrOf};
ghost use Rattle.nor_io.specs.Files.{SinkState};
ghost use Rattle.nor_io.specs.Puts.{PutsText};
ghost use Rattle.nor_io.specs.declared.sink.SinkError.{SinkError};

use std::alloc::AllocError;

/// Why a sink didn't take all bytes.
#[derive(Clone, Copy, Debug, PartialEq, Eq)]
pub enum SinkError {
    /// The bytes couldn't be written. The sink's count of faults has risen.
    Fault,
    /// Memory ran out.
    NoMemory,
}

impl From<AllocError> for SinkError {
    ghost from_gives = { λ _ e. e ≡ SinkError.NoMemory };

    fn from(_e: AllocError) -> SinkError {
        SinkError::NoMemory
    }
}

/// Takes bytes, one piece after another.
pub trait Sink {
    /// The bytes taken so far, where the sink tells them, and how often a piece could not be written.
    ghost state: { Self → SinkState };

    /// The count of faults. It never falls, and stays at its last value.
    fn faults(&self) -> u64
        ensures { result ≡ (state self.now).faults };

    /// Takes all of the bytes.
    ///
    /// `Fault` comes only where the count of faults rose, or stands at its last value, and then a
    /// first part of the bytes was taken. After `NoMemory` nothing was.
    fn put(&mut self, bytes: &[u8]) -> Result<(), SinkError>
        ensures puts { PutsText bytes.now (state self.old) (state self.new) result }
        ensures same { IsErrOf result SinkError.NoMemory
            → (state self.new).taken ≡ (state self.old).taken }
        ensures later { (state self.old).faults ≤ (state self.new).faults };
}
