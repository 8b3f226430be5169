//! The call of the system that opens a file, and a note of its path.
//!
//! This module does nothing else, and no other one writes such a note. That the file is the one to which the path leads, and that
//! what it holds is what one held that had the same stamp, is trusted, beside the toolchain.
ghost use Rattle.std.specs.Prelude.{◌≡◌, IfOk, IfSome, None};
ghost use Rattle.file_paths.specs.OpenedFiles.{HasRested};

use crate::steady::{Stamp, Steady, stamp_of};
use std::alloc::AllocGlobal;
use std::fs::{self, OpenFile};
use std::io::{self, ErrorKind, Read};
use std::marker::Model;
use std::rt::{Clock, Files};
use std::time::SystemTime;

/// A file that was opened at a path, to be read.
#[derive(Drop)]
pub struct FileAt<F: Read> {
    path: String,
    file: F,
    // Its stamp when it was opened, and the same where it is known again by it.
    opened: Option<Stamp>,
    stamp: Option<Stamp>,
}

impl<F: Read> Model for FileAt<F> {
    ghost use Rattle.std.specs.Prelude.{string_bytes};
    ghost use Rattle.file_paths.specs.OpenedFiles.{OpenedFile};

    ghost Value = { OpenedFile };

    ghost view = { λ opened. record { path = string_bytes opened.path; text = F.remaining opened.file; stamp = opened.stamp } };
}

/// The file at the path, which isn't known again. What is neither a file nor a folder isn't opened (`InvalidInput`): a pipe would
/// wait for one who writes.
pub fn open_at<R: Files + AllocGlobal>(rt: &R, path: &str) -> io::Result<FileAt<R::File>>
    ensures path { IfOk result (λ opened. opened.path ≡ path.now) }
    ensures stamp { IfOk result (λ opened. opened.stamp ≡ None) }
{
    open_in(rt, path, 0)
}

/// The same, known again by its stamp where it has rested by the system's clock.
pub fn open_stamped_at<R: Files + Clock + AllocGlobal>(
    rt: &R,
    path: &str,
) -> io::Result<FileAt<R::File>>
    ensures { IfOk result (λ opened. opened.path ≡ path.now) }
{
    let second = match SystemTime::UNIX_EPOCH.elapsed(rt) {
        Ok(since) => since.as_secs(),
        Err(_) => 0,
    };
    open_in(rt, path, second)
}

// The file at the path, opened in this second since 1970 or later.
fn open_in<R: Files + AllocGlobal>(rt: &R, path: &str, second: u64) -> io::Result<FileAt<R::File>>
    ensures path { IfOk result (λ opened. opened.path ≡ path.now) }
    ensures rested { IfOk result (λ opened. IfSome opened.stamp (HasRested second)) }
{
    if may_wait(rt, path) {
        return Err(io::Error::from(ErrorKind::InvalidInput));
    }
    let file = fs::open(rt, path)?;
    let opened = stamp_of(&file);
    Ok(FileAt {
        path: String::from_str(rt.alloc(), path)?,
        file,
        opened,
        stamp: rested(opened, second),
    })
}

// The stamp of a file that has rested.
fn rested(stamp: Option<Stamp>, second: u64) -> Option<Stamp>
    ensures { IfSome result (HasRested second) }
{
    match stamp {
        Some(stamp) if stamp.has_rested(second) => Some(stamp),
        _ => None,
    }
}

// Whether a pipe, a socket or a device is at the path.
fn may_wait<R: Files>(rt: &R, path: &str) -> bool {
    match fs::metadata(rt, path) {
        Ok(metadata) => !metadata.is_file() && !metadata.is_dir(),
        Err(_) => false,
    }
}

impl<F: Read> Read for FileAt<F> {
    ghost remaining = { λ opened. opened.text };

    fn read(&mut self, buf: &mut [u8]) -> io::Result<usize> {
        self.file.read(buf)
    }
}

impl<F: Read + OpenFile> Steady for FileAt<F> {
    ghost stamp = { λ opened. opened.stamp };

    // By its size and the time at which it was written: those of the file that was opened, also where another one stands at its
    // path by now.
    fn has_changed(&self) -> bool {
        match (stamp_of(&self.file), self.opened) {
            (Some(now), Some(opened)) => !now.is_written_as(opened),
            (None, None) => false,
            _ => true,
        }
    }

    fn stamp(&self) -> Option<Stamp> {
        self.stamp
    }
}
