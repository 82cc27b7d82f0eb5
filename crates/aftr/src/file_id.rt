//! Which files are the same.

use std::fs::File;
use std::io;
use std::os::unix::fs::MetadataExt;

/// What tells one regular file from another, whatever path leads to it: its device and its number there.
#[derive(Clone, Copy, Debug, PartialEq, Eq)]
pub struct FileId {
    device: u64,
    number: u64,
}

impl FileId {
    /// What this file is known by, or `None` where it is no regular file: a terminal or a pipe can't be spoilt.
    pub fn of(file: &File) -> io::Result<Option<FileId>> {
        let found = file.metadata()?;
        if !found.is_file() {
            return Ok(None);
        }
        Ok(Some(FileId {
            device: found.dev(),
            number: found.ino(),
        }))
    }
}
