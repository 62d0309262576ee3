//! The notes of a whole race.
ghost use Rattle.std.specs.Prelude.{◌≡◌, ◌<◌, length, slice_get, Some};
ghost use Rattle.nor_race.specs.Noted.{NoteView};

use crate::note::Note;
use nor_array::Reply;
use std::marker::Model;

/// What is printed of the entries of a history, in their order: contracts see the list of the notes, and
/// the note at place `k` is that of the entry at position `k`.
#[derive(Drop)]
pub struct Notes {
    // of the cuts, which come first
    pub(crate) cuts: Vec<Note>,
    // of what the workers made
    pub(crate) raced: Vec<Note>,
}

impl Model for Notes {
    ghost use Rattle.std.specs.Prelude.{List, ◌++◌};
    ghost use Rattle.nor_race.specs.Noted.{NoteView};

    ghost Value = { List NoteView };

    ghost view = { λ n. n.cuts.items ++ n.raced.items };
}

impl Notes {
    /// How many there are.
    pub fn count(&self) -> u64
        ensures { result ≡ length self.now }
    {
        self.cuts.len() as u64 + self.raced.len() as u64
    }

    /// The note of the entry at position `k`.
    pub fn note(&self, k: u64) -> &Note
        requires { k < length self.now }
        ensures { slice_get self.now k ≡ Some result.now }
    {
        let cuts = self.cuts.len() as u64;
        if k < cuts {
            &self.cuts[k as usize]
        } else {
            &self.raced[(k - cuts) as usize]
        }
    }

    /// The place of its line in the script, counted from 0.
    pub fn line(&self, k: u64) -> u32
        requires { k < length self.now }
        ensures { (note : NoteView) → slice_get self.now k ≡ Some note → result ≡ note.line }
    {
        self.note(k).line
    }

    /// Whether it is the poll that closes the erase of its line.
    pub fn closes(&self, k: u64) -> bool
        requires { k < length self.now }
        ensures { (note : NoteView) → slice_get self.now k ≡ Some note → result ≡ note.closes }
    {
        self.note(k).closes
    }

    /// Its reply.
    pub fn reply(&self, k: u64) -> Reply
        requires { k < length self.now }
        ensures { (note : NoteView) → slice_get self.now k ≡ Some note → result ≡ note.reply }
    {
        self.note(k).reply
    }

    /// The data of a read that is done. Of any other reply the bytes say nothing.
    pub fn bytes(&self, k: u64) -> &[u8]
        requires { k < length self.now }
        ensures { (note : NoteView) → slice_get self.now k ≡ Some note → result.now ≡ note.bytes }
    {
        self.note(k).bytes.as_slice()
    }
}
