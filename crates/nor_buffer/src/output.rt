//! A sink that holds back.
ghost use Rattle.std.specs.Prelude.{◌≡◌, ◌≤◌, ℕ, List, [], Option, IsOk};
ghost use Rattle.nor_io.specs.Files.{SinkState};
ghost use Rattle.nor_io.specs.Memory.{sink_state};
ghost use Rattle.nor_io.specs.Puts.{PutsText};
ghost use Rattle.nor_buffer.specs.Held.{IsFirst, IsFirst-same};

use nor_io::{MemSink, Sink, SinkError};

/// A sink that may hold back bytes that it has taken, until it is asked to pass them on.
pub trait Output: Sink {
    /// What has come out of it, where it tells that.
    ghost out: { Self → Option (List ℕ) };

    /// Passes on all that it holds. What it has taken stays as it is.
    ///
    /// `Fault` comes only where the count of faults rose, or stands at its last value. After an error what it
    /// held has come out in part.
    fn flush(&mut self) -> Result<(), SinkError>
        ensures puts { PutsText [] (Self.state self.old) (Self.state self.new) result }
        ensures emptied { IsOk result → out self.new ≡ (Self.state self.new).taken }
        ensures later { (Self.state self.old).faults ≤ (Self.state self.new).faults };

    /// What has come out is a first part of what it has taken.
    ghost first: { (k : Self) → IsFirst (out k) (Self.state k).taken };
}

impl Output for MemSink {
    ghost out = { λ k. (sink_state k).taken };

    ghost first = { λ k. IsFirst-same (sink_state k).taken };

    /// It holds nothing back.
    fn flush(&mut self) -> Result<(), SinkError> {
        Ok(())
    }
}
