//! Scenes of runs that open two streams. A scene makes two disks, `disk` with an image that is synced, and `unsynced` with a call
//! that is to fail, or 0, and an image that call 1 wrote. It compares what opening tells, `open` with a format and declarations,
//! after it how many calls the disks have had, `calls`, and what a stop leaves of one, `old` of what is synced and `new` of all
//! that was written; or why a run would not go on, `cause` with declarations and the lengths of the images: no test has an image of
//! 2^60 bytes, so they are handed in.

use crate::names::bytes_of;
use std::alloc::Global;
use std::process::Abort;
use tau_base::{Format, MAX_CATALOGUE};
use tau_begin::open_run;
use tau_core::Opening;
use tau_disk::{Disk, MemDisk, Tear};
use tau_open::close_streams;
use tau_scan::{LogCause, LogFault, ScanRefusal, scan};

/// A disk that holds these bytes.
fn synced(alloc: Global, words: &str) -> Option<MemDisk> {
    let image = bytes_of(alloc, words)?;
    MemDisk::of_image(alloc, image.as_slice()).ok()
}

/// A disk to which these bytes were written by its first call, and of which this call fails.
fn unsynced(alloc: Global, text: &str) -> Option<MemDisk> {
    let (call, words) = text.split_once(' ')?;
    let image = bytes_of(alloc, words)?;
    if image.len() > 1000 {
        return None;
    }
    let mut disk = MemDisk::new(alloc, &[call.parse::<u32>().ok()?]).ok()?;
    disk.write_at(0, image.as_slice()).ok()?;
    Some(disk)
}

/// Whether a text says these numbers.
fn says(text: &str, numbers: &[u64]) -> Option<bool> {
    let mut words = text.split(' ');
    for number in numbers {
        if words.next()?.parse::<u64>().ok()? != *number {
            return Some(false);
        }
    }
    Some(words.next().is_none())
}

/// Whether a run begins so: the floor, the ends and the anchors of the streams, and how many rows there are.
fn begins(alloc: Global, opening: &Opening, text: &str) -> Option<bool> {
    let mut numbers = Vec::from_slice(alloc, opening.floor.as_slice()).ok()?;
    numbers.extend_from_slice(opening.ends.as_slice()).ok()?;
    for count in opening.anchors.as_slice() {
        numbers.push(u64::from(*count)).ok()?;
    }
    numbers.push(opening.rows.rows().len() as u64).ok()?;
    says(text, numbers.as_slice())
}

/// Whether this is the cause, and its stream the first number.
fn is_fault(fault: LogFault, wanted: &str) -> Option<bool> {
    let (word, text) = wanted.split_once(' ')?;
    let stream = u64::from(fault.stream);
    match (word, fault.cause) {
        ("declared", LogCause::Declared { at }) => says(text, &[stream, u64::from(at)]),
        ("long", LogCause::Long { length }) => says(text, &[stream, length]),
        ("last", LogCause::Last) => says(text, &[stream]),
        ("format", LogCause::Format { asked, found }) => {
            says(text, &[stream, u64::from(asked), u64::from(found)])
        }
        _ => None,
    }
}

/// Whether this is the refusal.
fn is_refusal(refusal: ScanRefusal, wanted: &str) -> Option<bool> {
    match refusal {
        ScanRefusal::Failed { stream } => {
            says(wanted.strip_prefix("failed ")?, &[u64::from(stream)])
        }
        ScanRefusal::Bad(fault) => is_fault(fault, wanted),
        ScanRefusal::NoMemory => None,
    }
}

/// Opens a run of two streams and closes them again. Whether this is told.
fn opens(disks: &mut Vec<MemDisk>, alloc: Global, text: &str, wanted: &str) -> Option<bool> {
    let (number, words) = text.split_once(' ')?;
    let format = match number {
        "1" => Format::One,
        "2" => Format::Two,
        _ => return None,
    };
    let text = bytes_of(alloc, words)?;
    if disks.len() < 2 || text.len() > MAX_CATALOGUE {
        return None;
    }
    match open_run(alloc, disks, 2, format, text.as_slice()) {
        Ok((opening, writers)) => {
            close_streams(disks, writers);
            begins(alloc, &opening, wanted.strip_prefix("begins ")?)
        }
        Err(refusal) => is_refusal(refusal, wanted),
    }
}

/// Whether each disk has had so many calls.
fn have_had(disks: &[MemDisk], text: &str) -> Option<bool> {
    let mut words = text.split(' ');
    for disk in disks {
        if words.next()?.parse::<u64>().ok()? != disk.calls() {
            return Some(false);
        }
    }
    Some(words.next().is_none())
}

/// Whether a stop leaves these bytes of the disk in this place.
fn leaves(alloc: Global, disks: &[MemDisk], tear: Tear, place: &str, words: &str) -> Option<bool> {
    let disk = disks.get(place.parse::<usize>().ok()?)?;
    let image = disk.image(tear).ok()?;
    Some(image.as_slice() == bytes_of(alloc, words)?.as_slice())
}

/// Whether a run does not go on from the log of the disks for this cause.
fn is_cause(disks: &mut [MemDisk], alloc: Global, text: &str, wanted: &str) -> Option<bool> {
    let (words, second) = text.rsplit_once(' ')?;
    let (words, first) = words.rsplit_once(' ')?;
    let sizes = [first.parse::<u64>().ok()?, second.parse::<u64>().ok()?];
    let text = bytes_of(alloc, words)?;
    if disks.len() != 2 || text.len() > MAX_CATALOGUE {
        return None;
    }
    let log = scan(alloc, disks, Some(Format::One)).ok()?;
    if log.streams.as_slice().len() != 2 {
        return None;
    }
    match log.begins_fault(text.as_slice(), &sizes) {
        None => Some(wanted == "none"),
        Some(fault) => is_fault(fault, wanted),
    }
}

/// Whether what a line compares is so.
fn is_so(disks: &mut Vec<MemDisk>, alloc: Global, what: &str, wanted: &str) -> Option<bool> {
    let (word, rest) = what.split_once(' ').unwrap_or((what, ""));
    match word {
        "open" => opens(disks, alloc, rest, wanted),
        "calls" => have_had(disks.as_slice(), wanted),
        "old" => leaves(alloc, disks.as_slice(), Tear::Old, rest, wanted),
        "new" => leaves(alloc, disks.as_slice(), Tear::New, rest, wanted),
        "cause" => is_cause(disks.as_mut_slice(), alloc, rest, wanted),
        _ => None,
    }
}

/// Does what a line says that compares nothing.
fn prepare(disks: &mut Vec<MemDisk>, alloc: Global, line: &str) -> Option<bool> {
    let (word, rest) = line.split_once(' ')?;
    match word {
        "#" => {}
        "disk" => disks.push(synced(alloc, rest)?).ok()?,
        "unsynced" => disks.push(unsynced(alloc, rest)?).ok()?,
        _ => return None,
    }
    Some(true)
}

/// Plays a scene, which compares something.
fn play_scene<R: Abort>(rt: &R, disks: &mut Vec<MemDisk>, alloc: Global, scene: &str) {
    let mut compares = false;
    for line in scene.lines() {
        let good = match line.split_once(" = ") {
            Some((what, wanted)) => {
                compares = true;
                is_so(disks, alloc, what, wanted)
            }
            None => prepare(disks, alloc, line),
        };
        assert!(rt; good == Some(true), "{line}");
    }
    assert!(rt; compares, "{scene}");
}

/// Plays all scenes of a text, between which there are empty lines.
pub fn play<R: Abort>(rt: &R, alloc: Global, text: &str) {
    for scene in text.split("\n\n") {
        let mut disks = Vec::new(alloc);
        play_scene(rt, &mut disks, alloc, scene);
    }
}
