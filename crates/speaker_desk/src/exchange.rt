//! What operators commanded, for a log.

use crate::note::{Note, is_command};
use std::alloc::Global;
use std::cell::Cell;

/// What operators commanded since it was taken last, as a desk and a log share it.
#[derive(Drop)]
pub struct Exchange {
    alloc: Global,
    notes: Cell<Vec<Note>>,
}

impl Exchange {
    /// Nothing was commanded.
    pub fn new(alloc: Global) -> Exchange {
        Exchange {
            alloc,
            notes: Cell::new(Vec::new(alloc)),
        }
    }

    /// This line was answered so. Where it asks only for a table, or there is no memory for it, it is left out.
    pub(crate) fn note(&self, line: &[u8], answer: &[u8]) {
        if !is_command(line) {
            return;
        }
        let mut notes = self.take();
        if let Ok(note) = Note::of(self.alloc, line, answer) {
            let _kept = notes.push(note);
        }
        let _none = self.notes.replace(notes);
    }

    /// What was commanded, which is kept no longer.
    pub fn take(&self) -> Vec<Note> {
        self.notes.replace(Vec::new(self.alloc))
    }
}
