ghost use Rattle.std.specs.Prelude.{◌≡◌, ◌≤◌, ◌^◌, None, IfOk, vec_len};

use crate::{LoadError, MAX_FILE, NoMemory, SaveError, Shelf};
use std::alloc::Global;
use std::fs::OpenFile;
use std::io::{ErrorKind, Read, Write};
use std::marker::Model;
use std::rt::Files;
use std::{fs, io};

/// The files of the system, where a name is a path. It tells no content, so contracts see its count
/// of faults alone.
#[derive(Drop)]
pub struct FsShelf<'a, R: Files + AllocGlobal> {
    rt: &'a R,
    faults: u64,
}

impl<'a, R: Files + AllocGlobal> Model for FsShelf<'a, R> {
    ghost use Rattle.std.specs.Prelude.{ℕ};

    ghost Value = { ℕ };

    ghost view = { λ shelf. shelf.faults };
}

impl<'a, R: Files + AllocGlobal> FsShelf<'a, R> {
    /// A shelf over the runtime's files.
    pub fn new(rt: &'a R) -> Self
        ensures { result ≡ 0 }
    {
        FsShelf { rt, faults: 0 }
    }
}

impl<'a, R: Files + AllocGlobal> Shelf for FsShelf<'a, R> {
    ghost state = { λ count. record { files = None; faults = count } };

    fn faults(&self) -> u64 {
        self.faults
    }

    /// A directory or a file that can't be read is a fault, and so is a path with a byte 0.
    fn load(&mut self, alloc: Global, name: &str) -> Result<Vec<u8>, LoadError> {
        let loaded = load_path(self.rt, alloc, name);
        if let Err(LoadError::ReadFault) = loaded {
            self.faults = self.faults.saturating_add(1);
        }
        loaded
    }

    /// Writes the file `NAME.new`, down to the disk, and renames it to `NAME`, so that `NAME` never
    /// has a part of the bytes. After an error `NAME.new` is removed where that can be.
    fn save(&mut self, name: &str, bytes: &[u8]) -> Result<(), SaveError> {
        let new_name = new_path(self.rt.alloc(), name)?;
        if replace_file(self.rt, name, new_name.as_str(), bytes).is_err() {
            self.faults = self.faults.saturating_add(1);
            return Err(SaveError::WriteFault);
        }
        Ok(())
    }
}

fn new_path(alloc: Global, path: &str) -> Result<String, NoMemory> {
    format!(in alloc; "{path}.new")
}

fn load_path<R: Files>(rt: &R, alloc: Global, path: &str) -> Result<Vec<u8>, LoadError>
    ensures { IfOk result (λ v. vec_len v ≤ 2 ^ 30) }
{
    match fs::open(rt, path) {
        Ok(file) => read_file(alloc, file),
        Err(e) if e.kind() == ErrorKind::NotFound => Err(LoadError::Absent),
        Err(_) => Err(LoadError::ReadFault),
    }
}

// Reads an open file to its end. The system's word on its size saves time, but may be wrong.
fn read_file<F: Read + OpenFile + Drop>(alloc: Global, file: F) -> Result<Vec<u8>, LoadError>
    ensures { IfOk result (λ v. vec_len v ≤ 2 ^ 30) }
{
    let size = file.metadata().map_or(0, |metadata| metadata.len());
    if size > MAX_FILE as u64 {
        return Err(LoadError::TooLarge);
    }
    // The byte more is for the read that finds the end.
    let mut bytes = Vec::with_capacity(alloc, size as usize + 1)?;
    match file.take(MAX_FILE as u64 + 1).read_to_end(&mut bytes) {
        Ok(_) if bytes.len() > MAX_FILE => Err(LoadError::TooLarge),
        Ok(_) => Ok(bytes),
        Err(e) if e.kind() == ErrorKind::OutOfMemory => Err(LoadError::NoMemory),
        Err(_) => Err(LoadError::ReadFault),
    }
}

fn replace_file<R: Files>(rt: &R, path: &str, new_path: &str, bytes: &[u8]) -> io::Result<()> {
    let file = fs::create(rt, new_path)?;
    let mut done = write_file(file, bytes);
    if done.is_ok() {
        done = fs::rename(rt, new_path, path);
    }
    if done.is_err() {
        let _ = fs::remove_file(rt, new_path);
    }
    done
}

fn write_file<F: Write + OpenFile + Drop>(mut file: F, bytes: &[u8]) -> io::Result<()> {
    file.write_all(bytes)?;
    file.sync_all()
}
