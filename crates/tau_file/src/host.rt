// A file of the system as a disk.
ghost use Rattle.std.specs.Prelude.{◌≡◌, ◌≤◌, [], false};
ghost use Rattle.tau_disk.specs.Disk.{Rose};
ghost use Rattle.tau_disk.specs.Left.{may_leave_each};

use crate::locks::{FileLocks, Unlocked};
use std::alloc::{AllocError, Global};
use std::fs::{OpenFile, OpenOptions};
use std::io::{Read, Seek, SeekFrom, Write};
use std::rt::Files;
use tau_disk::{Disk, Failed};

/// The file of a stream, `stream-JJ.log` with two decimal digits, or of a slot for checkpoints, `checkpoint-S.log`, in the
/// working directory. It is opened, or created, at the first call. Its first sync syncs the directory too. What it holds is
/// told to no contract.
///
/// With locks, a shared one is taken as it is opened, and an exclusive one at its first write or sync. A call that can't have
/// its lock fails. If that is the exclusive one, all later calls fail too, since another process may since have written over
/// what was read.
#[derive(Drop)]
pub struct HostFile<R: Files + Drop, L: Drop = Unlocked> {
    rt: R,
    alloc: Global,
    locks: L,
    name: Name,
    file: Option<R::File>,
    hold: Hold,
    // Whether the folder was synced since the file was opened.
    is_entered: bool,
    faults: u64,
}

// Of what it is the file.
#[derive(Clone, Copy)]
enum Name {
    // Of the stream with this number.
    Stream(u8),
    // Of this slot.
    Slot(u8),
}

// How the file is held, once it is open.
#[derive(Clone, Copy, PartialEq, Eq)]
enum Hold {
    // With others that read it.
    Shared,
    // Alone.
    Owned,
    // No more: it was not had alone.
    Lost,
}

impl<R: Files + Drop> HostFile<R> {
    /// The file of stream `j`, not opened yet, without locks.
    pub fn of_stream(rt: R, alloc: Global, j: u8) -> HostFile<R> {
        HostFile::named(rt, alloc, Name::Stream(j))
    }

    /// The file of this slot for checkpoints, not opened yet, without locks.
    pub fn of_checkpoint(rt: R, alloc: Global, slot: u8) -> HostFile<R> {
        HostFile::named(rt, alloc, Name::Slot(slot))
    }

    fn named(rt: R, alloc: Global, name: Name) -> HostFile<R> {
        HostFile {
            rt,
            alloc,
            locks: Unlocked,
            name,
            file: None,
            hold: Hold::Shared,
            is_entered: false,
            faults: 0,
        }
    }

    /// The same file with these locks, not opened yet.
    pub fn locked<L: FileLocks<R::File> + Drop>(self, locks: L) -> HostFile<R, L> {
        HostFile {
            rt: self.rt,
            alloc: self.alloc,
            locks,
            name: self.name,
            file: None,
            hold: Hold::Shared,
            is_entered: false,
            faults: self.faults,
        }
    }
}

impl<R: Files + Drop, L: FileLocks<R::File> + Drop> HostFile<R, L> {
    // Opens it under a shared lock, if it is not open. If that fails, no file is there for the call that follows.
    fn open(&mut self)
        ensures { self.new.faults ≡ self.old.faults }
    {
        if self.file.is_some() || self.hold == Hold::Lost {
            return;
        }
        match name_of(self.alloc, self.name) {
            Ok(name) => {
                let mut options = OpenOptions::new();
                options.read(true).write(true).create(true);
                match options.open(&self.rt, name.as_str()) {
                    Ok(file) => self.share(file),
                    Err(_) => {}
                }
            }
            Err(_) => {}
        }
    }

    // Keeps the file, if the shared lock is had.
    fn share(&mut self, file: R::File)
        ensures { self.new.faults ≡ self.old.faults }
    {
        if self.locks.share(&file) {
            self.file = Some(file);
        }
    }

    // Opens it, if it is not open, and has it alone. If that fails, no file is there for the call that follows.
    fn own(&mut self)
        ensures { self.new.faults ≡ self.old.faults }
    {
        self.open();
        if self.hold != Hold::Shared {
            return;
        }
        let Some(file) = &self.file else {
            return;
        };
        if self.locks.own(file) {
            self.hold = Hold::Owned;
        } else {
            self.hold = Hold::Lost;
            self.file = None;
        }
    }

    // Syncs the folder, once: until then a loss of power may take a file away that was created in it, synced or not.
    fn enter(&mut self) -> bool
        ensures { self.new.faults ≡ self.old.faults }
    {
        if !self.is_entered {
            self.is_entered = sync_folder(&self.rt);
        }
        self.is_entered
    }

    // Counts a failed call.
    fn fail(&mut self) -> Failed
        ensures rose { Rose self.old.faults self.new.faults }
        ensures later { self.old.faults ≤ self.new.faults }
    {
        self.faults = self.faults.saturating_add(1);
        Failed
    }
}

// The name of the file.
fn name_of(alloc: Global, name: Name) -> Result<String, AllocError> {
    match name {
        Name::Stream(j) => format!(in alloc; "stream-{j:02}.log"),
        Name::Slot(slot) => format!(in alloc; "checkpoint-{slot}.log"),
    }
}

// The length, if the system tells it.
fn len_of<F: OpenFile>(file: &mut Option<F>) -> Option<u64> {
    match file {
        Some(file) => match file.metadata() {
            Ok(found) => Some(found.len()),
            Err(_) => None,
        },
        None => None,
    }
}

// Fills the whole buffer.
fn read_from<F: Read + Seek>(file: &mut Option<F>, at: u64, buf: &mut [u8]) -> bool {
    match file {
        Some(file) => file.seek(SeekFrom::Start(at)).is_ok() && file.read_exact(buf).is_ok(),
        None => false,
    }
}

// Writes all the bytes.
fn write_to<F: Write + Seek>(file: &mut Option<F>, at: u64, bytes: &[u8]) -> bool {
    match file {
        Some(file) => file.seek(SeekFrom::Start(at)).is_ok() && file.write_all(bytes).is_ok(),
        None => false,
    }
}

// Waits until the device holds what was written.
fn sync_of<F: OpenFile>(file: &mut Option<F>) -> bool {
    match file {
        Some(file) => file.sync_all().is_ok(),
        None => false,
    }
}

// Waits until the device holds what the working directory names.
fn sync_folder<R: Files>(rt: &R) -> bool {
    let mut options = OpenOptions::new();
    options.read(true);
    match options.open(rt, ".") {
        Ok(folder) => folder.sync_all().is_ok(),
        Err(_) => false,
    }
}

impl<R: Files + Drop, L: FileLocks<R::File> + Drop> Disk for HostFile<R, L> {
    ghost tells = { ⊥ };

    ghost seen = { λ _. [] };

    ghost may_leave = { λ _ _. Unit {0} };

    ghost moment = { λ _. 0 };

    ghost may_leave_since = { λ _ _ _. Unit {0} };

    ghost faults = { λ file. file.faults };

    ghost number = { λ _. 0 };

    ghost fails = { λ _ _. false };

    ghost short = { λ _. false };

    ghost image = { λ _ _. [] };

    ghost keeps = { λ _ _. false };

    ghost cut = { λ _. false };

    ghost seen_now = { λ _ _. tt };

    ghost leaves_each = { may_leave_each ⊥ (λ _ _. Unit {0}) (λ _ _. []) (λ _ _ _. tt) };

    ghost counts_now = { λ _ _ _ _ _. tt };

    ghost only_now = { λ _ _ _. tt };

    fn len(&mut self) -> Result<u64, Failed> {
        self.open();
        match len_of(&mut self.file) {
            Some(n) => Ok(n),
            None => Err(self.fail()),
        }
    }

    fn read_at(&mut self, at: u64, buf: &mut [u8]) -> Result<(), Failed> {
        self.open();
        if read_from(&mut self.file, at, buf) {
            return Ok(());
        }
        Err(self.fail())
    }

    fn write_at(&mut self, at: u64, bytes: &[u8]) -> Result<(), Failed> {
        self.own();
        if write_to(&mut self.file, at, bytes) {
            return Ok(());
        }
        Err(self.fail())
    }

    fn sync(&mut self) -> Result<(), Failed> {
        self.own();
        if !sync_of(&mut self.file) {
            return Err(self.fail());
        }
        if self.enter() {
            return Ok(());
        }
        Err(self.fail())
    }
}
