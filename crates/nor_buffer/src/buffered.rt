//! A sink that puts many bytes at once.
ghost use Rattle.std.specs.Prelude.{◌≡◌, ◌≤◌, true, false};
ghost use Rattle.std.proofs.Props.{props};
ghost use Rattle.nor_io.specs.Files.{SinkState, Rose};
ghost use Rattle.nor_buffer.specs.Held.{IsFirst, with_held};

use crate::output::Output;
use crate::was::Was;
use arrayvec::ArrayVec;
use nor_io::{Sink, SinkError};

/// How many bytes are held at most.
pub const CAPACITY: usize = 8192;

/// A sink over a sink, which holds back up to 8 KiB and puts them by one call. After a fault of the inner sink
/// in what was held it puts nothing more, and each call that would fails too.
#[derive(Drop)]
pub struct Buffered<K: Sink + Drop> {
    inner: K,
    held: ArrayVec<u8, 8192>,
    // How often the inner sink failed, or was found to have failed.
    faults: u64,
    failed: bool,
    // The inner sink before what is held was put.
    was: Was<K>,
    ghost first: { IsFirst (K.state inner).taken (with_held (K.state was.value).taken held.items) } by { Prim.hlevel props },
    ghost sound: { failed ≡ false → (K.state inner).taken ≡ (K.state was.value).taken } by { Prim.hlevel props },
    ghost later: { (K.state was.value).faults ≤ (K.state inner).faults },
    ghost cause: { failed ≡ true → Rose (K.state was.value).faults (K.state inner).faults } by { Prim.hlevel props },
}

impl<K: Sink + Drop> Buffered<K> {
    ghost use Rattle.std.specs.Prelude.{[], ◌+◌, length, IsOk, IsErrOf};
    ghost use Rattle.nor_io.specs.Files.{Appends};
    ghost use Rattle.nor_io.specs.Puts.{PutsText};
    ghost use Rattle.nor_io.specs.declared.sink.SinkError.{SinkError};
    ghost use Rattle.arrayvec.specs.ArrayVec.{array_vec_len};
    ghost use Rattle.nor_buffer.specs.Held.{holding};

    /// A buffer over the sink, which holds nothing.
    #[tactic(auto, using(crate::proofs::Buffering::held_none, crate::proofs::Buffering::first_held))]
    pub fn new(inner: K) -> Buffered<K>
        ensures taken { with_held (K.state result.was.value).taken result.held.items ≡ (K.state inner).taken }
        ensures faults { result.faults ≡ (K.state inner).faults }
        ensures out { (K.state result.inner).taken ≡ (K.state inner).taken }
    {
        let faults = inner.faults();
        let was = Was::shown(&inner);
        Buffered {
            inner,
            held: ArrayVec::new(),
            faults,
            failed: false,
            was,
        }
    }

    // Counts a fault.
    fn fault(&mut self) -> SinkError
        ensures fault { result ≡ SinkError.Fault }
        ensures was { self.new.was.value ≡ self.old.was.value }
        ensures held { self.new.held ≡ self.old.held }
        ensures inner { self.new.inner ≡ self.old.inner }
        ensures rose { Rose self.old.faults self.new.faults }
        ensures later { self.old.faults ≤ self.new.faults }
    {
        self.faults = self.faults.saturating_add(1);
        SinkError::Fault
    }

    // Holds bytes for which there is room.
    #[tactic(auto, using(crate::proofs::Buffering::held_more, crate::proofs::Buffering::first_more))]
    fn hold(&mut self, bytes: &[u8])
        requires { array_vec_len self.old.held + length bytes.now ≤ 8192 }
        ensures puts { Appends (with_held (K.state self.old.was.value).taken self.old.held.items) bytes.now
            (with_held (K.state self.new.was.value).taken self.new.held.items) }
        ensures faults { self.new.faults ≡ self.old.faults }
    {
        self.held.try_extend_from_slice(bytes).unwrap();
    }

    // Puts what is held by one call. After a fault nothing more is put.
    fn pass(&mut self) -> Result<(), SinkError>
        ensures same { with_held (K.state self.new.was.value).taken self.new.held.items
            ≡ with_held (K.state self.old.was.value).taken self.old.held.items }
        ensures empty { IsOk result → self.new.held.items ≡ [] }
        ensures sound { IsOk result → self.new.failed ≡ false }
        ensures fault { IsErrOf result SinkError.Fault → Rose self.old.faults self.new.faults }
        ensures later { self.old.faults ≤ self.new.faults }
        ensures cause { IsErrOf result SinkError.Fault
            → Rose (K.state self.old.was.value).faults (K.state self.new.inner).faults }
        ensures inner { (K.state self.old.inner).faults ≤ (K.state self.new.inner).faults }
        ensures was { (K.state self.old.was.value).faults ≤ (K.state self.new.was.value).faults }
    {
        if self.failed {
            return Err(self.fault());
        }
        if self.held.is_empty() {
            return Ok(());
        }
        match self.inner.put(self.held.as_slice()) {
            Ok(()) => {
                self.was = Was::shown(&self.inner);
                self.held.clear();
                Ok(())
            }
            Err(SinkError::Fault) => {
                self.failed = true;
                self.faults = self.faults.saturating_add(1);
                Err(SinkError::Fault)
            }
            Err(SinkError::NoMemory) => Err(SinkError::NoMemory),
        }
    }

    // Puts bytes past an empty buffer.
    fn put_through(&mut self, bytes: &[u8]) -> Result<(), SinkError>
        requires empty { self.old.held.items ≡ [] }
        requires sound { self.old.failed ≡ false }
        ensures puts { PutsText bytes.now
            (holding (K.state self.old.was.value) self.old.held.items self.old.faults)
            (holding (K.state self.new.was.value) self.new.held.items self.new.faults) result }
        ensures same { IsErrOf result SinkError.NoMemory
            → with_held (K.state self.new.was.value).taken self.new.held.items
            ≡ with_held (K.state self.old.was.value).taken self.old.held.items }
        ensures later { self.old.faults ≤ self.new.faults }
        ensures cause { IsErrOf result SinkError.Fault
            → Rose (K.state self.old.was.value).faults (K.state self.new.inner).faults }
    {
        let put = self.inner.put(bytes);
        self.was = Was::shown(&self.inner);
        if matches!(put, Err(SinkError::Fault)) {
            self.faults = self.faults.saturating_add(1);
        }
        put
    }

    // Takes bytes where nothing is held.
    fn put_first(&mut self, bytes: &[u8]) -> Result<(), SinkError>
        requires empty { self.old.held.items ≡ [] }
        requires sound { self.old.failed ≡ false }
        ensures puts { PutsText bytes.now
            (holding (K.state self.old.was.value) self.old.held.items self.old.faults)
            (holding (K.state self.new.was.value) self.new.held.items self.new.faults) result }
        ensures same { IsErrOf result SinkError.NoMemory
            → with_held (K.state self.new.was.value).taken self.new.held.items
            ≡ with_held (K.state self.old.was.value).taken self.old.held.items }
        ensures later { self.old.faults ≤ self.new.faults }
        ensures cause { IsErrOf result SinkError.Fault
            → Rose (K.state self.old.was.value).faults (K.state self.new.inner).faults }
    {
        if bytes.len() > CAPACITY {
            return self.put_through(bytes);
        }
        self.hold(bytes);
        Ok(())
    }
}

impl<K: Sink + Drop> Sink for Buffered<K> {
    ghost use Rattle.std.specs.Prelude.{IsErrOf};
    ghost use Rattle.nor_io.specs.Puts.{PutsText};
    ghost use Rattle.nor_io.specs.declared.sink.SinkError.{SinkError};
    ghost use Rattle.nor_buffer.specs.Held.{holding};

    ghost state = { λ b. holding (K.state b.was.value) b.held.items b.faults };

    fn faults(&self) -> u64 {
        self.faults
    }

    /// The trait's contract. Moreover `Fault` comes only where the count of the inner sink has risen since the
    /// buffer was last emptied.
    fn put(&mut self, bytes: &[u8]) -> Result<(), SinkError>
        ensures puts { PutsText bytes.now
            (holding (K.state self.old.was.value) self.old.held.items self.old.faults)
            (holding (K.state self.new.was.value) self.new.held.items self.new.faults) result }
        ensures same { IsErrOf result SinkError.NoMemory
            → with_held (K.state self.new.was.value).taken self.new.held.items
            ≡ with_held (K.state self.old.was.value).taken self.old.held.items }
        ensures later { self.old.faults ≤ self.new.faults }
        ensures cause { IsErrOf result SinkError.Fault
            → Rose (K.state self.old.was.value).faults (K.state self.new.inner).faults }
    {
        if bytes.len() <= CAPACITY - self.held.len() {
            self.hold(bytes);
            return Ok(());
        }
        self.pass()?;
        self.put_first(bytes)
    }
}

impl<K: Sink + Drop> Output for Buffered<K> {
    ghost use Rattle.std.specs.Prelude.{[], IsOk, IsErrOf};
    ghost use Rattle.nor_io.specs.Puts.{PutsText};
    ghost use Rattle.nor_io.specs.declared.sink.SinkError.{SinkError};
    ghost use Rattle.nor_buffer.specs.Held.{holding};

    ghost out = { λ b. (K.state b.inner).taken };

    ghost first = { λ b. b.first };

    /// The trait's contract. Moreover `Fault` comes only where the count of the inner sink has risen since the
    /// buffer was last emptied.
    fn flush(&mut self) -> Result<(), SinkError>
        ensures puts { PutsText []
            (holding (K.state self.old.was.value) self.old.held.items self.old.faults)
            (holding (K.state self.new.was.value) self.new.held.items self.new.faults) result }
        ensures emptied { IsOk result → (K.state self.new.inner).taken
            ≡ with_held (K.state self.new.was.value).taken self.new.held.items }
        ensures later { self.old.faults ≤ self.new.faults }
        ensures cause { IsErrOf result SinkError.Fault
            → Rose (K.state self.old.was.value).faults (K.state self.new.inner).faults }
    {
        self.pass()
    }
}
