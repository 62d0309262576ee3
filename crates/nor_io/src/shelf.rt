ghost use Rattle.std.specs.Prelude.{◌≡◌, ◌≤◌, ◌^◌, OnOk, OnErr, IfOk, IsErrOf, vec_len};
ghost use Rattle.nor_io.specs.Files.{ShelfState, Rose, HasFile, IsAbsent, IsTooLarge, Saves};
ghost use Rattle.nor_io.specs.declared.shelf.LoadError.{LoadError};
ghost use Rattle.nor_io.specs.declared.shelf.SaveError.{SaveError};

use std::alloc::{AllocError, Global};

/// Memory ran out.
pub type NoMemory = AllocError;

/// The most bytes that a loaded file has.
pub const MAX_FILE: usize = 1 << 30;

/// Why a file wasn't loaded.
#[derive(Clone, Copy, Debug, PartialEq, Eq)]
pub enum LoadError {
    /// There is no file of this name.
    Absent,
    /// The file couldn't be read. The shelf's count of faults has risen.
    ReadFault,
    /// The file has more than [`MAX_FILE`] bytes.
    TooLarge,
    /// Memory ran out.
    NoMemory,
}

impl From<AllocError> for LoadError {
    ghost from_gives = { λ _ e. e ≡ LoadError.NoMemory };

    fn from(_e: AllocError) -> LoadError {
        LoadError::NoMemory
    }
}

/// Why a file wasn't saved.
#[derive(Clone, Copy, Debug, PartialEq, Eq)]
pub enum SaveError {
    /// The file couldn't be written. The shelf's count of faults has risen.
    WriteFault,
    /// Memory ran out.
    NoMemory,
}

impl From<AllocError> for SaveError {
    ghost from_gives = { λ _ e. e ≡ SaveError.NoMemory };

    fn from(_e: AllocError) -> SaveError {
        SaveError::NoMemory
    }
}

/// Files by their names.
pub trait Shelf {
    /// The bytes under each name, where the shelf tells them, and how often a load or a save has
    /// failed, for another reason than a missing or too large file or want of memory.
    ghost state: { Self → ShelfState };

    /// The count of faults. It never falls, and stays at its last value.
    fn faults(&self) -> u64
        ensures { result ≡ (state self.now).faults };

    /// The bytes under the name, at most [`MAX_FILE`] of them. No file changes.
    ///
    /// `Absent` comes only where a told shelf has no such name, `TooLarge` only where its file has
    /// more than `MAX_FILE` bytes (and such a file never comes as `Ok`), and `ReadFault` only where
    /// the count of faults rose, or stands at its last value.
    fn load(&mut self, alloc: Global, name: &str) -> Result<Vec<u8>, LoadError>
        ensures found { IfOk result (λ v. HasFile (state self.old).files name.now v.items) }
        ensures small { IfOk result (λ v. vec_len v ≤ 2 ^ 30) }
        ensures absent { IsErrOf result LoadError.Absent
            → IsAbsent (state self.old).files name.now }
        ensures too_large { IsErrOf result LoadError.TooLarge
            → IsTooLarge (state self.old).files name.now }
        ensures fault { IsErrOf result LoadError.ReadFault
            → Rose (state self.old).faults (state self.new).faults }
        ensures later { (state self.old).faults ≤ (state self.new).faults }
        ensures same { (state self.new).files ≡ (state self.old).files };

    /// Puts the bytes under the name. Every other name keeps what it has.
    ///
    /// `WriteFault` comes only where the count of faults rose, or stands at its last value. After an
    /// error a told shelf is as it was.
    fn save(&mut self, name: &str, bytes: &[u8]) -> Result<(), SaveError>
        ensures ok { OnOk result
            (Saves (state self.old).files name.now bytes.now (state self.new).files) }
        ensures err { OnErr result ((state self.new).files ≡ (state self.old).files) }
        ensures fault { IsErrOf result SaveError.WriteFault
            → Rose (state self.old).faults (state self.new).faults }
        ensures later { (state self.old).faults ≤ (state self.new).faults };
}
