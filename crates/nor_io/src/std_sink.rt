ghost use Rattle.std.specs.Prelude.{◌≡◌, None};

use crate::{Sink, SinkError};
use std::io;
use std::io::Write;
use std::marker::Model;

/// A sink over a writer, as standard output is. It tells no content, so contracts see its count of
/// faults alone.
#[derive(Drop)]
pub struct StdSink<W: Write + Drop> {
    out: W,
    faults: u64,
}

impl<W: Write + Drop> Model for StdSink<W> {
    ghost use Rattle.std.specs.Prelude.{ℕ};

    ghost Value = { ℕ };

    ghost view = { λ sink. sink.faults };
}

impl<W: Write + Drop> StdSink<W> {
    /// A sink over the writer.
    pub fn new(out: W) -> Self
        ensures { result ≡ 0 }
    {
        StdSink { out, faults: 0 }
    }
}

impl<W: Write + Drop> Sink for StdSink<W> {
    ghost state = { λ count. record { taken = None; faults = count } };

    fn faults(&self) -> u64 {
        self.faults
    }

    /// A writer that takes nothing of a piece has failed, and so has one that can't be flushed.
    fn put(&mut self, bytes: &[u8]) -> Result<(), SinkError> {
        if write_whole(&mut self.out, bytes).is_err() {
            self.faults = self.faults.saturating_add(1);
            return Err(SinkError::Fault);
        }
        Ok(())
    }
}

// Writes all of the bytes, and leaves none in a buffer.
fn write_whole<W: Write>(out: &mut W, bytes: &[u8]) -> io::Result<()> {
    out.write_all(bytes)?;
    out.flush()
}
