use crate::acts::{Act, do_acts};
use std::alloc::{Alloc, Allocator, Global};
use std::fs::{File, Files, Metadata, OpenFile, OpenOptions};
use std::io::{Empty, ErrorKind, Read, Seek, SeekFrom, Write};
use std::process::Abort;
use std::test::*;
use std::{fs, io};
use tau_disk::Disk;
use tau_file::{FileLocks, HostFile, SystemLocks};

#[test]
fn a_file_gives_what_was_written(rt: HostRuntime) -> Result<(), Fail> {
    let alloc = rt.alloc();
    let mut disk = HostFile::of_stream(rt.clone()?, alloc, 7);
    disk.write_at(0, b"abcdef")?;
    disk.sync()?;
    disk.write_at(2, b"XY")?;
    let mut bytes = [0u8; 6];
    disk.read_at(0, &mut bytes)?;
    assert_eq!(rt; &bytes, b"abXYef");
    let size = disk.len()?;
    assert!(rt; size >= 6);
    assert!(rt; disk.read_at(size, &mut bytes).is_err());
    fs::remove_file(&rt, "stream-07.log")?;
    Ok(())
}

/// Writes bytes into the file of a slot, and reads them by another opening.
fn goes_through_slot<R: Files + Clone + Drop>(
    rt: &R,
    alloc: Global,
    slot: u8,
) -> Result<[u8; 3], Fail> {
    let mut disk = HostFile::of_checkpoint(rt.clone()?, alloc, slot);
    disk.write_at(0, &[slot, 5, 6])?;
    disk.sync()?;
    let mut again = HostFile::of_checkpoint(rt.clone()?, alloc, slot);
    let mut bytes = [0u8; 3];
    again.read_at(0, &mut bytes)?;
    Ok(bytes)
}

/// There is a file of this name with these bytes, which is removed then.
fn had_file<R: Files + Alloc + Abort>(rt: &R, name: &str, wanted: &[u8]) -> Result<(), Fail> {
    let bytes = fs::read(rt, name)?;
    assert!(rt; bytes.as_slice() == wanted, "{name}");
    fs::remove_file(rt, name)?;
    Ok(())
}

#[test]
fn each_slot_has_a_file_of_its_own(rt: HostRuntime) -> Result<(), Fail> {
    let first = goes_through_slot(&rt, rt.alloc(), 0)?;
    let second = goes_through_slot(&rt, rt.alloc(), 1)?;
    assert!(rt; first == [0, 5, 6] && second == [1, 5, 6]);
    // (both are there, each by its name)
    had_file(&rt, "checkpoint-0.log", &[0, 5, 6])?;
    had_file(&rt, "checkpoint-1.log", &[1, 5, 6])
}

/// The file of this stream, as another process has it: by an opening of its own.
fn locked_file<R: Files<File = File> + Clone + Drop>(
    rt: &R,
    alloc: Global,
    j: u8,
) -> Result<HostFile<R, SystemLocks>, Fail> {
    let file = HostFile::of_stream(rt.clone()?, alloc, j);
    Ok(file.locked(SystemLocks))
}

// The calls of two openings of one file. It is read by the other: from there on all calls of the first one fail.
static READ_TOGETHER: [(usize, Act); 4] = [
    (0, Act::Len(Some(0))),
    (1, Act::Len(Some(0))),
    (0, Act::Writes(&[1], false)),
    (1, Act::Writes(&[2], true)),
];

// Those of a third one, which can't read what the second one writes.
static BESIDE_A_WRITER: [(usize, Act); 3] = [
    (2, Act::Len(None)),
    (2, Act::Writes(&[3], false)),
    (1, Act::Syncs(true)),
];

// Those of the first and the third one, once the second one is gone.
static AFTER_A_WRITER: [(usize, Act); 4] = [
    (0, Act::Len(None)),
    (0, Act::Syncs(false)),
    (1, Act::Len(Some(1))),
    (1, Act::Syncs(true)),
];

#[test]
fn a_file_is_read_together_and_written_alone(rt: HostRuntime) -> Result<(), Fail> {
    let alloc = rt.alloc();
    let mut files = Vec::new(alloc);
    files.push(locked_file(&rt, alloc, 8)?)?;
    files.push(locked_file(&rt, alloc, 8)?)?;
    do_acts(&rt, files.as_mut_slice(), &READ_TOGETHER);
    files.push(locked_file(&rt, alloc, 8)?)?;
    do_acts(&rt, files.as_mut_slice(), &BESIDE_A_WRITER);
    assert!(rt; files.len() == 3);
    drop(files.remove(1));
    do_acts(&rt, files.as_mut_slice(), &AFTER_A_WRITER);
    fs::remove_file(&rt, "stream-08.log")?;
    Ok(())
}

// Locks that can't be had.
#[derive(Clone, Copy)]
struct NoLocks;

impl<F> FileLocks<F> for NoLocks {
    fn share(&self, _file: &F) -> bool {
        false
    }

    fn own(&self, _file: &F) -> bool {
        false
    }
}

static FAILS: [(usize, Act); 3] = [
    (0, Act::Len(None)),
    (0, Act::Writes(&[1], false)),
    (0, Act::Syncs(false)),
];

#[test]
fn a_file_without_its_lock_fails(rt: HostRuntime) -> Result<(), Fail> {
    let mut disk = HostFile::of_stream(NoFolder, rt.alloc(), 7).locked(NoLocks);
    let mut bytes = [0u8; 1];
    assert!(rt; disk.read_at(0, &mut bytes).is_err());
    let mut disks = Vec::new(rt.alloc());
    disks.push(disk)?;
    do_acts(&rt, disks.as_mut_slice(), &FAILS);
    Ok(())
}

// A system whose files take every byte, and of which the directory can't be synced.
#[derive(Drop)]
struct NoFolder;

#[derive(Drop)]
struct Taking {
    is_folder: bool,
}

fn refused() -> io::Error {
    io::Error::from(ErrorKind::Unsupported)
}

impl Read for Taking {
    fn read(&mut self, _buf: &mut [u8]) -> io::Result<usize> {
        Ok(0)
    }
}

impl Write for Taking {
    fn write(&mut self, buf: &[u8]) -> io::Result<usize> {
        Ok(buf.len())
    }

    fn flush(&mut self) -> io::Result<()> {
        Ok(())
    }
}

impl Seek for Taking {
    fn seek(&mut self, _pos: SeekFrom) -> io::Result<u64> {
        Ok(0)
    }
}

impl OpenFile for Taking {
    fn metadata(&self) -> io::Result<Metadata> {
        Err(refused())
    }

    fn set_len(&self, _size: u64) -> io::Result<()> {
        Err(refused())
    }

    fn sync_all(&self) -> io::Result<()> {
        if self.is_folder {
            return Err(refused());
        }
        Ok(())
    }

    fn sync_data(&self) -> io::Result<()> {
        Ok(())
    }
}

impl Files for NoFolder {
    type File = Taking;

    type Dir = Empty;

    fn open_file(&self, _how: &OpenOptions, path: &str) -> io::Result<Taking> {
        Ok(Taking {
            is_folder: path == ".",
        })
    }

    fn open_dir(&self, _path: &str) -> io::Result<Empty> {
        Err(refused())
    }

    fn metadata(&self, _path: &str) -> io::Result<Metadata> {
        Err(refused())
    }

    fn symlink_metadata(&self, _path: &str) -> io::Result<Metadata> {
        Err(refused())
    }

    fn copy(&self, _from: &str, _to: &str) -> io::Result<u64> {
        Err(refused())
    }

    fn rename(&self, _from: &str, _to: &str) -> io::Result<()> {
        Err(refused())
    }

    fn remove_file(&self, _path: &str) -> io::Result<()> {
        Err(refused())
    }

    fn create_dir(&self, _path: &str) -> io::Result<()> {
        Err(refused())
    }

    fn remove_dir(&self, _path: &str) -> io::Result<()> {
        Err(refused())
    }

    fn remove_dir_all<B: Allocator>(&self, _alloc: B, _path: &str) -> io::Result<()> {
        Err(refused())
    }
}

static NO_SYNCS: [(usize, Act); 3] = [
    (0, Act::Writes(b"abc", true)),
    (0, Act::Syncs(false)),
    (0, Act::Syncs(false)),
];

#[test]
fn a_sync_without_the_directory_fails(rt: HostRuntime) -> Result<(), Fail> {
    let mut disks = Vec::new(rt.alloc());
    disks.push(HostFile::of_stream(NoFolder, rt.alloc(), 7))?;
    do_acts(&rt, disks.as_mut_slice(), &NO_SYNCS);
    Ok(())
}
