//! What disks hold, and how many calls they have had, by the facts that end a scene: `calls` with a number for each disk; `old` or
//! `new` with a disk and the bytes of what a stop leaves of it; and `held` with how many bytes of content the old, the new and the
//! torn image of the first disk hold.
use crate::digits::{bytes_of, is};
use std::alloc::Global;
use std::process::Abort;
use tau_block::contents_of;
use tau_disk::{MemDisk, Tear};

/// How many bytes of content what a stop leaves of a disk holds.
fn content_of(alloc: Global, disk: &MemDisk, tear: Tear) -> Option<u64> {
    let image = disk.image(tear).ok()?;
    let content = contents_of(alloc, image.as_slice(), 0).ok()?;
    Some(content.bytes.len() as u64)
}

fn have_calls(disks: &[MemDisk], words: &str) -> Option<bool> {
    let mut given = words.split(' ');
    for disk in disks {
        if !is(given.next(), disk.calls()) {
            return Some(false);
        }
    }
    Some(given.next().is_none())
}

fn are_held(alloc: Global, disk: &MemDisk, words: &str) -> Option<bool> {
    let mut given = words.split(' ');
    for tear in [Tear::Old, Tear::New, Tear::Torn] {
        if !is(given.next(), content_of(alloc, disk, tear)?) {
            return Some(false);
        }
    }
    Some(given.next().is_none())
}

fn is_image(alloc: Global, disks: &[MemDisk], words: &str, tear: Tear) -> Option<bool> {
    let (number, digits) = words.split_once(' ').unwrap_or((words, ""));
    let image = disks.get(number.parse::<usize>().ok()?)?.image(tear).ok()?;
    Some(image.as_slice() == bytes_of(alloc, digits)?.as_slice())
}

fn holds(alloc: Global, disks: &[MemDisk], fact: &str) -> Option<bool> {
    let (word, rest) = fact.split_once(' ')?;
    match word {
        "calls" => have_calls(disks, rest),
        "held" => are_held(alloc, disks.first()?, rest),
        "old" => is_image(alloc, disks, rest, Tear::Old),
        "new" => is_image(alloc, disks, rest, Tear::New),
        _ => None,
    }
}

/// Each of these facts holds.
pub(crate) fn all_hold(
    rt: &impl Abort,
    alloc: Global,
    disks: &[MemDisk],
    facts: &str,
    scene: &str,
) {
    for fact in facts.split(", ") {
        assert!(rt;
            holds(alloc, disks, fact) == Some(true),
            "{fact}, after {scene}"
        );
    }
}
