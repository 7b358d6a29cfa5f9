//! What is done with disks, one call after another, and what must come of it.
use std::process::Abort;
use tau_disk::Disk;

/// A call of a disk, and what comes of it.
#[derive(Clone, Copy)]
pub(crate) enum Act {
    /// It is so long, if the call does not fail.
    Len(Option<u64>),
    /// These bytes are written at its front, and whether that is done.
    Writes(&'static [u8], bool),
    /// It is synced, and whether that is done.
    Syncs(bool),
}

fn writes<D: Disk>(disk: &mut D, bytes: &[u8]) -> bool {
    if bytes.len() > 1_000 {
        return false;
    }
    disk.write_at(0, bytes).is_ok()
}

fn syncs<D: Disk>(disk: &mut D) -> bool {
    disk.sync().is_ok()
}

fn len_of<D: Disk>(disk: &mut D) -> Option<u64> {
    disk.len().ok()
}

/// Whether this comes of the call.
fn comes<D: Disk>(disk: &mut D, act: &Act) -> bool {
    match act {
        Act::Len(wanted) => len_of(disk) == *wanted,
        Act::Writes(bytes, wanted) => writes(disk, bytes) == *wanted,
        Act::Syncs(wanted) => syncs(disk) == *wanted,
    }
}

/// Makes the call.
pub(crate) fn does<D: Disk>(rt: &impl Abort, disk: &mut D, act: &Act) {
    assert!(rt; comes(disk, act));
}

/// Makes calls of these disks, each of the one in its place.
pub(crate) fn do_acts<D: Disk>(rt: &impl Abort, disks: &mut [D], acts: &[(usize, Act)]) {
    for (i, (place, act)) in acts.iter().enumerate() {
        assert!(rt; *place < disks.len());
        assert!(rt; comes(&mut disks[*place], act), "act {i}");
    }
}
