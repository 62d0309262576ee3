ghost use Rattle.std.specs.Prelude.{◌≡◌, ◌≤◌, ◌^◌, ◌↔◌, ℕ, List, None, Some, IfOk, OnOk, OnErr, IsErrOf, vec_len};
ghost use Rattle.nor_io.specs.Files.{Rose, HasFile, IsAbsent, IsTooLarge, Puts, Saves};
ghost use Rattle.nor_io.specs.Calls.{IsFresh, IsDue, CountsCall};
ghost use Rattle.nor_io.specs.Memory.{files_of, shelf_calls, shelf_state};

use crate::calls::Calls;
use crate::{LoadError, MAX_FILE, NoMemory, SaveError, Shelf};
use std::alloc::Global;
use std::collections::BTreeMap;

/// A shelf in memory. It tells its files, and fails at the calls that it is told to.
#[derive(Drop)]
pub struct MemShelf {
    alloc: Global,
    files: BTreeMap<String, Vec<u8>>,
    calls: Calls,
}

impl MemShelf {
    /// An empty shelf. Its calls of `load` and `save` are counted together from 0, and those whose
    /// numbers stand in `fail` fail with a fault.
    pub fn new(alloc: Global, fail: &[u32]) -> Result<MemShelf, NoMemory>
        ensures empty { IfOk result (λ s. (name : List ℕ) → files_of s name ≡ None) }
        ensures fresh { IfOk result (λ s. IsFresh (shelf_calls s) fail.now) }
    {
        Ok(MemShelf {
            alloc,
            files: BTreeMap::new(alloc),
            calls: Calls::new(alloc, fail)?,
        })
    }

    /// Puts the bytes under the name, and leaves all other names. It isn't counted as a call.
    pub fn hold(&mut self, name: &str, bytes: &[u8]) -> Result<(), NoMemory>
        ensures ok { OnOk result (Puts (files_of self.old) name.now bytes.now (files_of self.new)) }
        ensures err { OnErr result (files_of self.new ≡ files_of self.old) }
        ensures uncounted { shelf_calls self.new ≡ shelf_calls self.old }
    {
        let name = String::from_str(self.alloc, name)?;
        let bytes = bytes.to_vec(self.alloc)?;
        self.files.insert(name, bytes)?;
        Ok(())
    }
}

impl Shelf for MemShelf {
    ghost state = { shelf_state };

    fn faults(&self) -> u64 {
        self.calls.faults()
    }

    /// The trait's contract. Moreover `ReadFault` comes exactly at the calls that are to fail.
    fn load(&mut self, alloc: Global, name: &str) -> Result<Vec<u8>, LoadError>
        ensures found { IfOk result (λ v. HasFile (shelf_state self.old).files name.now v.items) }
        ensures small { IfOk result (λ v. vec_len v ≤ 2 ^ 30) }
        ensures absent { IsErrOf result LoadError.Absent
            → IsAbsent (shelf_state self.old).files name.now }
        ensures too_large { IsErrOf result LoadError.TooLarge
            → IsTooLarge (shelf_state self.old).files name.now }
        ensures fault { IsErrOf result LoadError.ReadFault
            → Rose (shelf_state self.old).faults (shelf_state self.new).faults }
        ensures later { (shelf_state self.old).faults ≤ (shelf_state self.new).faults }
        ensures same { (shelf_state self.new).files ≡ (shelf_state self.old).files }
        ensures due { IsErrOf result LoadError.ReadFault ↔ IsDue (shelf_calls self.old) }
        ensures counted { CountsCall (shelf_calls self.old) (shelf_calls self.new) }
    {
        if self.calls.fails() {
            return Err(LoadError::ReadFault);
        }
        let Some(bytes) = self.files.get(name) else {
            return Err(LoadError::Absent);
        };
        if bytes.len() > MAX_FILE {
            return Err(LoadError::TooLarge);
        }
        Ok(bytes.to_vec(alloc)?)
    }

    /// The trait's contract. Moreover `WriteFault` comes exactly at the calls that are to fail.
    fn save(&mut self, name: &str, bytes: &[u8]) -> Result<(), SaveError>
        ensures ok { OnOk result
            (Saves (shelf_state self.old).files name.now bytes.now (shelf_state self.new).files) }
        ensures err { OnErr result ((shelf_state self.new).files ≡ (shelf_state self.old).files) }
        ensures fault { IsErrOf result SaveError.WriteFault
            → Rose (shelf_state self.old).faults (shelf_state self.new).faults }
        ensures later { (shelf_state self.old).faults ≤ (shelf_state self.new).faults }
        ensures due { IsErrOf result SaveError.WriteFault ↔ IsDue (shelf_calls self.old) }
        ensures counted { CountsCall (shelf_calls self.old) (shelf_calls self.new) }
    {
        if self.calls.fails() {
            return Err(SaveError::WriteFault);
        }
        self.hold(name, bytes)?;
        Ok(())
    }
}
