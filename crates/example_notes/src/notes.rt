//! Notes, in memory.
ghost use Rattle.std.specs.Prelude.{◌≡◌, ◌+◌, IfOk, OnOk};
ghost use Rattle.example_notes.specs.Notes.{Removes, Writes, note_at};

use bytes::Bytes;
use std::alloc::AllocError;
use std::collections::BTreeMap;

/// A note: a JSON text, and the number of the change that wrote it.
#[derive(Drop)]
pub struct Note {
    /// The text.
    pub text: Bytes,
    /// The number of the change.
    pub version: u64,
    /// The series of the change: with its number it is the entity tag.
    pub series: u64,
}

/// Notes by their numbers, and how often they changed.
#[derive(Drop)]
pub struct Notes {
    /// The notes.
    pub by_id: BTreeMap<u64, Note>,
    /// The number of changes.
    pub changes: u64,
    /// A number at random, which tells these changes from those of other connections.
    pub series: u64,
}

impl Notes {
    /// Copies the note with a number. `Ok(None)` if there is none. Fails only if an allocation
    /// fails.
    pub fn get(&self, id: u64) -> Result<Option<Note>, AllocError>
        ensures { IfOk result (λ note. note ≡ note_at self.now id) }
    {
        match self.by_id.get(&id) {
            Some(note) => Ok(Some(Note {
                text: note.text.clone()?,
                version: note.version,
                series: note.series,
            })),
            None => Ok(None),
        }
    }

    // The number of the next change.
    fn next(&self) -> Result<u64, AllocError>
        ensures { IfOk result (λ version. version ≡ self.now.changes + 1) }
    {
        match self.changes.checked_add(1) {
            Some(version) => Ok(version),
            None => Err(AllocError),
        }
    }

    /// Writes the note with a number, and returns the number of the change.
    pub fn write(&mut self, id: u64, text: Bytes) -> Result<u64, AllocError>
        ensures writes { OnOk result (Writes self.old id text self.new) }
        ensures version { IfOk result (λ version. version ≡ self.old.changes + 1) }
    {
        let version = self.next()?;
        let series = self.series;
        self.by_id.insert(
            id,
            Note {
                text,
                version,
                series,
            },
        )?;
        self.changes = version;
        Ok(version)
    }

    /// Adds a note, and returns its number, which is that of the change.
    pub fn add(&mut self, text: Bytes) -> Result<u64, AllocError>
        ensures writes { OnOk result (Writes self.old (self.old.changes + 1) text self.new) }
        ensures id { IfOk result (λ id. id ≡ self.old.changes + 1) }
    {
        let id = self.next()?;
        self.write(id, text)
    }

    /// Removes the note with a number.
    pub fn remove(&mut self, id: u64) -> Result<(), AllocError>
        ensures { OnOk result (Removes self.old id self.new) }
    {
        let version = self.next()?;
        self.by_id.remove(&id);
        self.changes = version;
        Ok(())
    }
}
