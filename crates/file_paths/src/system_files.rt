//! What opens files at their paths, and the files of the system.
ghost use Rattle.std.specs.Prelude.{◌≡◌, List, ℕ, IfErr, IfOk, Option, ⊤};
ghost use Rattle.std.specs.declared.io.Error.{Error as IoError};
ghost use Rattle.file_paths.specs.OpenedFiles.{IsTextAt};

use crate::file_at::{FileAt, open_at};
use std::alloc::AllocGlobal;
use std::io::{self, Read};
use std::rt::Files;

/// What opens files at their paths, to be read. One who is handed some, whichever they are, can say of a text that it is that of a
/// file at a path only of a file that was opened there.
pub trait OpensFiles {
    // A file that was opened at the path had this text, as far as it is known.
    ghost opened: { List ℕ → Option (List ℕ) → Type 0 };

    // No file was opened at the path, for this.
    ghost refused: { List ℕ → IoError → Type 0 };

    /// A file that was opened.
    type File: Read + Drop;

    /// The file at the path.
    fn open(&self, path: &str) -> io::Result<Self::File>
        ensures file { IfOk result (λ file. opened path.now (Self.File.remaining file)) }
        ensures error { IfErr result (refused path.now) };
}

/// The files of the system.
#[derive(Drop)]
pub struct SystemFiles<'a, R: Files + AllocGlobal> {
    rt: &'a R,
}

impl<'a, R: Files + AllocGlobal> SystemFiles<'a, R> {
    /// Those of this runtime.
    pub fn new(rt: &'a R) -> Self {
        SystemFiles { rt }
    }
}

impl<'a, R: Files + AllocGlobal> OpensFiles for SystemFiles<'a, R> {
    ghost opened = { IsTextAt };

    ghost refused = { λ path error. ⊤ };

    type File = FileAt<R::File>;

    fn open(&self, path: &str) -> io::Result<FileAt<R::File>>
        ensures path { IfOk result (λ file. file.path ≡ path.now) }
        ensures file { IfOk result (λ file. IsTextAt path.now file.text) }
        ensures error { IfErr result (λ _. ⊤) }
    {
        open_at(self.rt, path)
    }
}
