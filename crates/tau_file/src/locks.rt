//! Locks of files, against other processes.
use std::fs::File;

/// How a file that is open is kept from the other processes that have it open.
pub trait FileLocks<F> {
    /// Takes a shared lock: while it is had, no other process has an exclusive one. Whether it was had.
    fn share(&self, file: &F) -> bool;

    /// Takes an exclusive lock in the place of the shared one: while it is had, no other process has a lock. Whether it was
    /// had, and what was read under the shared lock still stands.
    fn own(&self, file: &F) -> bool;
}

/// No locks: no other process has the files.
#[derive(Clone, Copy)]
pub struct Unlocked;

impl<F> FileLocks<F> for Unlocked {
    fn share(&self, _file: &F) -> bool {
        true
    }

    fn own(&self, _file: &F) -> bool {
        true
    }
}

/// The locks of the system. They bind all that ask for them, and go with the process, however it ends.
#[derive(Clone, Copy)]
pub struct SystemLocks;

impl FileLocks<File> for SystemLocks {
    fn share(&self, file: &File) -> bool {
        file.try_lock_shared().is_ok()
    }

    // The system lets go of the one lock before it takes the other. A process that owned the file in between has written at
    // its end, so the length shows it.
    fn own(&self, file: &File) -> bool {
        match len_of(file) {
            Some(len) => file.try_lock().is_ok() && len_of(file) == Some(len),
            None => false,
        }
    }
}

// The length, if the system tells it.
fn len_of(file: &File) -> Option<u64> {
    match file.metadata() {
        Ok(found) => Some(found.len()),
        Err(_) => None,
    }
}
