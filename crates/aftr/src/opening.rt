//! How the log and the outlet are opened, so that no slip of the words spoils a file.

use crate::file_id::FileId;
use aftr_engine::LogUse;
use std::fs::{File, OpenOptions, TryLockError};
use std::io;
use std::io::ErrorKind;
use std::path::Path;
use std::rt::Files;

/// Opens a log. A command that only reads it opens it for reading alone, makes nothing, and takes no lock: the log's gates make
/// every moment of a log that is being written a log.
///
/// A command that writes it makes it where it is missing, with no byte, and holds the only lock on it until it ends. It fails
/// where another command holds that lock. A file without a byte was just made, and its folder is synced before anything is done
/// with it: without that a power cut could take the file away.
pub fn open_log(rt: &impl Files<File = File>, path: &str, log_use: LogUse) -> io::Result<File> {
    match log_use {
        LogUse::Reads => File::open(rt, path),
        LogUse::Writes => open_to_write(rt, path),
    }
}

fn open_to_write(rt: &impl Files<File = File>, path: &str) -> io::Result<File> {
    let log = OpenOptions::new()
        .read(true)
        .write(true)
        .create(true)
        .open(rt, path)?;
    lock(&log)?;
    if log.metadata()?.len() == 0 {
        sync_folder(rt, path)?;
    }
    Ok(log)
}

// Takes the only lock, without waiting for another who holds it.
fn lock(file: &File) -> io::Result<()> {
    match file.try_lock() {
        Ok(()) => Ok(()),
        Err(TryLockError::WouldBlock) => Err(io::Error::from(ErrorKind::WouldBlock)),
        Err(TryLockError::Error(error)) => Err(error),
    }
}

fn sync_folder(rt: &impl Files<File = File>, path: &str) -> io::Result<()> {
    let folder = match Path::new(path).parent() {
        Some(folder) if !folder.as_str().is_empty() => folder.as_str(),
        _ => ".",
    };
    File::open(rt, folder)?.sync_all()
}

/// What opening an outlet came to.
#[derive(Drop)]
pub enum Outlet {
    /// The file, which is empty.
    Open(File),
    /// It is one of the other files, and nothing was done to it.
    Shared,
    /// It can't be opened.
    Missing,
}

/// Opens an outlet, which is made where it is missing and else starts empty, unless it is one of the other files.
pub fn open_outlet(rt: &impl Files<File = File>, path: &str, others: &[FileId]) -> Outlet {
    match open_unshared(rt, path, others) {
        Ok(Some(file)) => Outlet::Open(file),
        Ok(None) => Outlet::Shared,
        Err(_) => Outlet::Missing,
    }
}

// The file, emptied, or `None` where it is one of the others.
fn open_unshared(
    rt: &impl Files<File = File>,
    path: &str,
    others: &[FileId],
) -> io::Result<Option<File>> {
    let outlet = OpenOptions::new().write(true).create(true).open(rt, path)?;
    if let Some(id) = FileId::of(&outlet)? {
        if others.contains(&id) {
            return Ok(None);
        }
        outlet.set_len(0)?;
    }
    Ok(Some(outlet))
}
