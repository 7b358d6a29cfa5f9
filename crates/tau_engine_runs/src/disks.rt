//! The disks of scenes: what they hold, which of their calls fail, and what is seen of them.
use crate::spell::{image_of, number_of, numbers_of, put_bytes};
use std::alloc::Global;
use std::process::Abort;
use tau_disk::{MemDisk, Tear};
use tau_engine::DISKS;

// The disk in this place holds this.
fn put_disk(disks: &mut Vec<MemDisk>, place: u64, disk: MemDisk) -> bool {
    match disks.get_mut(place as usize) {
        Some(it) => {
            *it = disk;
            true
        }
        None => false,
    }
}

// The image of the disk in this place.
fn image_at<R: Abort>(rt: &R, disks: &[MemDisk], place: u64) -> Option<Vec<u8>> {
    let disk = disks.get(place as usize)?;
    Some(disk.image(Tear::Old).expect(rt, "memory"))
}

// New disks.
fn begin<R: Abort>(rt: &R, alloc: Global, disks: &mut Vec<MemDisk>) -> bool {
    disks.clear();
    for _ in 0..DISKS {
        let disk = MemDisk::new(alloc, &[]).expect(rt, "memory");
        disks.push(disk).expect(rt, "memory");
    }
    true
}

// A disk that holds an image.
fn hold<R: Abort>(rt: &R, alloc: Global, text: &str, disks: &mut Vec<MemDisk>, rest: &str) -> bool {
    let Some((place, spelled)) = number_of(rest) else {
        return false;
    };
    let Some(image) = image_of(rt, alloc, text, spelled) else {
        return false;
    };
    let disk = MemDisk::of_image(alloc, &image).expect(rt, "memory");
    put_disk(disks, place, disk)
}

// A new disk of which these calls fail.
fn fail<R: Abort>(rt: &R, alloc: Global, disks: &mut Vec<MemDisk>, rest: &str) -> bool {
    let Some((place, spelled)) = number_of(rest) else {
        return false;
    };
    let Some(calls) = numbers_of(rt, alloc, spelled) else {
        return false;
    };
    let disk = MemDisk::new(alloc, &calls).expect(rt, "memory");
    put_disk(disks, place, disk)
}

// A new disk on which all stops at this call.
fn stop<R: Abort>(rt: &R, alloc: Global, disks: &mut Vec<MemDisk>, rest: &str) -> bool {
    let Some((place, spelled)) = number_of(rest) else {
        return false;
    };
    let Ok(call) = spelled.parse::<u32>() else {
        return false;
    };
    let disk = MemDisk::stopping(alloc, call, true).expect(rt, "memory");
    put_disk(disks, place, disk)
}

// The image with these bytes in place of those from one place to another.
fn changed<R: Abort>(
    rt: &R,
    alloc: Global,
    text: &str,
    image: &[u8],
    rest: &str,
) -> Option<MemDisk> {
    let (from, rest) = number_of(rest)?;
    let (past, spelled) = number_of(rest)?;
    let mut other = Vec::from_slice(alloc, image.get(..from as usize)?).expect(rt, "memory");
    if !put_bytes(rt, alloc, text, spelled, 0, &mut other) {
        return None;
    }
    other
        .extend_from_slice(image.get(past as usize..)?)
        .expect(rt, "memory");
    Some(MemDisk::of_image(alloc, &other).expect(rt, "memory"))
}

// The disk in this place holds other bytes in place of some of its image.
fn change<R: Abort>(
    rt: &R,
    alloc: Global,
    text: &str,
    disks: &mut Vec<MemDisk>,
    rest: &str,
) -> bool {
    let Some((place, rest)) = number_of(rest) else {
        return false;
    };
    let Some(image) = image_at(rt, disks, place) else {
        return false;
    };
    match changed(rt, alloc, text, &image, rest) {
        Some(disk) => put_disk(disks, place, disk),
        None => false,
    }
}

// What a stop leaves of all disks.
fn tear<R: Abort>(rt: &R, alloc: Global, disks: &mut Vec<MemDisk>, rest: &str) -> bool {
    let tear = match rest {
        "old" => Tear::Old,
        "new" => Tear::New,
        "torn" => Tear::Torn,
        _ => return false,
    };
    for disk in disks.iter_mut() {
        let image = disk.image(tear).expect(rt, "memory");
        *disk = MemDisk::of_image(alloc, &image).expect(rt, "memory");
    }
    true
}

// The disk in this place has had so many calls.
fn had(disks: &[MemDisk], rest: &str) -> bool {
    let Some((place, rest)) = number_of(rest) else {
        return false;
    };
    match disks.get(place as usize) {
        Some(disk) => rest.parse::<u64>() == Ok(disk.calls()),
        None => false,
    }
}

// The disk in this place holds this image.
fn held<R: Abort>(rt: &R, alloc: Global, text: &str, disks: &[MemDisk], rest: &str) -> bool {
    let Some((place, spelled)) = number_of(rest) else {
        return false;
    };
    let Some(wanted) = image_of(rt, alloc, text, spelled) else {
        return false;
    };
    let Some(disk) = disks.get(place as usize) else {
        return false;
    };
    disk.image(Tear::Old).expect(rt, "memory").as_slice() == wanted.as_slice()
}

// The image of the disk in this place has these bytes, which begin so many bytes before its end.
fn ends_with<R: Abort>(
    rt: &R,
    alloc: Global,
    text: &str,
    disks: &[MemDisk],
    rest: &str,
) -> Option<bool> {
    let (place, rest) = number_of(rest)?;
    let (back, spelled) = number_of(rest)?;
    let image = image_at(rt, disks, place)?;
    let mut wanted = Vec::new(alloc);
    if !put_bytes(rt, alloc, text, spelled, 0, &mut wanted) {
        return None;
    }
    let from = image.len().checked_sub(back as usize)?;
    Some(image.get(from..)?.starts_with(wanted.as_slice()))
}

// No disk was called.
fn is_idle(disks: &[MemDisk]) -> bool {
    for disk in disks {
        if disk.calls() != 0 {
            return false;
        }
    }
    true
}

/// Does what the word says with the disks, if it is one of them.
pub(crate) fn prepare<R: Abort>(
    rt: &R,
    alloc: Global,
    text: &str,
    disks: &mut Vec<MemDisk>,
    word: &str,
    rest: &str,
) -> Option<bool> {
    Some(match word {
        "new" => begin(rt, alloc, disks),
        "disk" => hold(rt, alloc, text, disks, rest),
        "failing" => fail(rt, alloc, disks, rest),
        "stopping" => stop(rt, alloc, disks, rest),
        "change" => change(rt, alloc, text, disks, rest),
        "tear" => tear(rt, alloc, disks, rest),
        _ => return None,
    })
}

/// Whether what the word says of the disks is so, if it says something of them.
pub(crate) fn look_at_disks<R: Abort>(
    rt: &R,
    alloc: Global,
    text: &str,
    disks: &[MemDisk],
    word: &str,
    rest: &str,
) -> Option<bool> {
    match word {
        "had" => Some(had(disks, rest)),
        "held" => Some(held(rt, alloc, text, disks, rest)),
        "last" => ends_with(rt, alloc, text, disks, rest),
        "idle" => Some(is_idle(disks)),
        _ => None,
    }
}
