//! How streams are opened, on disks that fail, hold something or are new, and how they are closed again, by the lines of a scene,
//! which `= ` and the facts of the disks end:
//!
//! - `disks` with a number for each puts disks, of each of which this call fails, or none at 0; `holds` puts one that holds these bytes.
//! - `open` opens so many of them and closes them again: it `failed` with a stream, a disk was `filled`, with its stream and length, or
//!   they were `made`: how many streams, where the content of the last one ends, and how many disks were left meanwhile.
use crate::digits::{bytes_of, is};
use crate::disks::all_hold;
use std::alloc::Global;
use std::process::Abort;
use std::test::*;
use tau_disk::MemDisk;
use tau_open::{OpenRefusal, close_streams, open_streams};

/// Whether words are these numbers.
fn are(words: &str, numbers: &[u64]) -> Option<bool> {
    let mut given = words.split(' ');
    for number in numbers {
        if !is(given.next(), *number) {
            return Some(false);
        }
    }
    Some(given.next().is_none())
}

fn is_refusal(refusal: OpenRefusal, wanted: &str) -> Option<bool> {
    match refusal {
        OpenRefusal::Failed { stream } => are(
            wanted.strip_prefix("failed ")?,
            &[u64::from(stream)],
        ),
        OpenRefusal::NotEmpty { stream, length } => {
            are(
                wanted.strip_prefix("filled ")?,
                &[u64::from(stream), length],
            )
        }
        OpenRefusal::NoMemory => None,
    }
}

/// Whether opening the first disks as streams, and closing them again, gives this.
fn opens(alloc: Global, disks: &mut Vec<MemDisk>, words: &str) -> Option<bool> {
    let (number, wanted) = words.split_once(' ')?;
    let n = number.parse::<u8>().ok()?;
    if n > 16 || usize::from(n) > disks.len() {
        return None;
    }
    match open_streams(alloc, disks, n, b"table a\n") {
        Ok(writers) => {
            let durable = match writers.last() {
                Some(writer) => writer.durable(),
                None => 0,
            };
            let counts = [writers.len() as u64, durable, disks.len() as u64];
            close_streams(disks, writers);
            are(wanted.strip_prefix("made ")?, &counts)
        }
        Err(refusal) => is_refusal(refusal, wanted),
    }
}

fn puts_disks(alloc: Global, disks: &mut Vec<MemDisk>, words: &str) -> Option<bool> {
    for word in words.split(' ') {
        let disk = MemDisk::new(alloc, &[word.parse::<u32>().ok()?]).ok()?;
        disks.push(disk).ok()?;
    }
    Some(true)
}

fn puts_holding(alloc: Global, disks: &mut Vec<MemDisk>, digits: &str) -> Option<bool> {
    let image = bytes_of(alloc, digits)?;
    disks
        .push(MemDisk::of_image(alloc, image.as_slice()).ok()?)
        .ok()?;
    Some(true)
}

fn does(alloc: Global, disks: &mut Vec<MemDisk>, line: &str) -> Option<bool> {
    let (word, rest) = line.split_once(' ').unwrap_or((line, ""));
    match word {
        "#" => Some(true),
        "disks" => puts_disks(alloc, disks, rest),
        "holds" => puts_holding(alloc, disks, rest),
        "open" => opens(alloc, disks, rest),
        _ => None,
    }
}

fn play_scene(rt: &impl Abort, alloc: Global, scene: &str) {
    let (acts, facts) = scene.split_once("\n= ").unwrap_or((scene, "no facts"));
    let mut disks = Vec::new(alloc);
    for line in acts.lines() {
        assert!(rt; does(alloc, &mut disks, line) == Some(true), "{line}");
    }
    all_hold(rt, alloc, disks.as_slice(), facts, scene);
}

fn play(rt: &impl Abort, alloc: Global, text: &str) {
    for scene in text.split("\n\n") {
        play_scene(rt, alloc, scene);
    }
}

/// Each disk is asked its length first, the lowest first, and then the streams are made, with six calls each.
static OPENINGS: &str = "\
# The lowest disk that holds bytes is named, and all of them stay.
holds
holds 616263
holds 61626364
holds 6162636465
open 3 filled 1 3
= calls 1 1 1 0, old 0, old 1 616263, old 2 61626364, old 3 6162636465

# Two streams, the second one's content ended at 13, and two disks were left. All come back in order.
holds
holds
holds 616263
holds 61626364
open 2 made 2 13 2
= calls 7 7 0 0, old 0 5441555255532d4c4f472d31 0002 0000 01 0000000d 04 0000000d 7461626c6520610a 00, old 1 5441555255532d4c4f472d31 0002 0001 01 0000000d 04 0000000d 7461626c6520610a 00, old 2 616263, old 3 61626364

# Sixteen new disks. No disk was left meanwhile.
disks 0 0 0 0 0 0 0 0 0 0 0 0 0 0 0 0
open 16 made 16 13 0
= calls 7 7 7 7 7 7 7 7 7 7 7 7 7 7 7 7, old 0 5441555255532d4c4f472d31 0010 0000 01 0000000d 04 0000000d 7461626c6520610a 00, old 1 5441555255532d4c4f472d31 0010 0001 01 0000000d 04 0000000d 7461626c6520610a 00, old 2 5441555255532d4c4f472d31 0010 0002 01 0000000d 04 0000000d 7461626c6520610a 00, old 3 5441555255532d4c4f472d31 0010 0003 01 0000000d 04 0000000d 7461626c6520610a 00, old 4 5441555255532d4c4f472d31 0010 0004 01 0000000d 04 0000000d 7461626c6520610a 00, old 5 5441555255532d4c4f472d31 0010 0005 01 0000000d 04 0000000d 7461626c6520610a 00, old 6 5441555255532d4c4f472d31 0010 0006 01 0000000d 04 0000000d 7461626c6520610a 00, old 7 5441555255532d4c4f472d31 0010 0007 01 0000000d 04 0000000d 7461626c6520610a 00, old 8 5441555255532d4c4f472d31 0010 0008 01 0000000d 04 0000000d 7461626c6520610a 00, old 9 5441555255532d4c4f472d31 0010 0009 01 0000000d 04 0000000d 7461626c6520610a 00, old 10 5441555255532d4c4f472d31 0010 000a 01 0000000d 04 0000000d 7461626c6520610a 00, old 11 5441555255532d4c4f472d31 0010 000b 01 0000000d 04 0000000d 7461626c6520610a 00, old 12 5441555255532d4c4f472d31 0010 000c 01 0000000d 04 0000000d 7461626c6520610a 00, old 13 5441555255532d4c4f472d31 0010 000d 01 0000000d 04 0000000d 7461626c6520610a 00, old 14 5441555255532d4c4f472d31 0010 000e 01 0000000d 04 0000000d 7461626c6520610a 00, old 15 5441555255532d4c4f472d31 0010 000f 01 0000000d 04 0000000d 7461626c6520610a 00";

#[test]
fn what_comes_of_openings(rt: HostRuntime) {
    play(&rt, rt.alloc(), OPENINGS);
}

/// Each call of each disk fails in turn, where one, two or three streams are opened. Of the last disk the call is one that is not made.
static FAILING: &str = "\
disks 1 0 0 0
open 1 failed 0
= calls 1 0 0 0

disks 2 0 0 0
open 1 failed 0
= calls 2 0 0 0

disks 3 0 0 0
open 1 failed 0
= calls 3 0 0 0

disks 4 0 0 0
open 1 failed 0
= calls 4 0 0 0

disks 5 0 0 0
open 1 failed 0
= calls 5 0 0 0

disks 6 0 0 0
open 1 failed 0
= calls 6 0 0 0

disks 7 0 0 0
open 1 failed 0
= calls 7 0 0 0

disks 1 0 0 0
open 2 failed 0
= calls 1 0 0 0

disks 2 0 0 0
open 2 failed 0
= calls 2 1 0 0

disks 3 0 0 0
open 2 failed 0
= calls 3 1 0 0

disks 4 0 0 0
open 2 failed 0
= calls 4 1 0 0

disks 5 0 0 0
open 2 failed 0
= calls 5 1 0 0

disks 6 0 0 0
open 2 failed 0
= calls 6 1 0 0

disks 7 0 0 0
open 2 failed 0
= calls 7 1 0 0

disks 0 1 0 0
open 2 failed 1
= calls 1 1 0 0

disks 0 2 0 0
open 2 failed 1
= calls 7 2 0 0

disks 0 3 0 0
open 2 failed 1
= calls 7 3 0 0

disks 0 4 0 0
open 2 failed 1
= calls 7 4 0 0

disks 0 5 0 0
open 2 failed 1
= calls 7 5 0 0

disks 0 6 0 0
open 2 failed 1
= calls 7 6 0 0

disks 0 7 0 0
open 2 failed 1
= calls 7 7 0 0

disks 1 0 0 0
open 3 failed 0
= calls 1 0 0 0

disks 2 0 0 0
open 3 failed 0
= calls 2 1 1 0

disks 3 0 0 0
open 3 failed 0
= calls 3 1 1 0

disks 4 0 0 0
open 3 failed 0
= calls 4 1 1 0

disks 5 0 0 0
open 3 failed 0
= calls 5 1 1 0

disks 6 0 0 0
open 3 failed 0
= calls 6 1 1 0

disks 7 0 0 0
open 3 failed 0
= calls 7 1 1 0

disks 0 1 0 0
open 3 failed 1
= calls 1 1 0 0

disks 0 2 0 0
open 3 failed 1
= calls 7 2 1 0

disks 0 3 0 0
open 3 failed 1
= calls 7 3 1 0

disks 0 4 0 0
open 3 failed 1
= calls 7 4 1 0

disks 0 5 0 0
open 3 failed 1
= calls 7 5 1 0

disks 0 6 0 0
open 3 failed 1
= calls 7 6 1 0

disks 0 7 0 0
open 3 failed 1
= calls 7 7 1 0

disks 0 0 1 0
open 3 failed 2
= calls 1 1 1 0

disks 0 0 2 0
open 3 failed 2
= calls 7 7 2 0

disks 0 0 3 0
open 3 failed 2
= calls 7 7 3 0

disks 0 0 4 0
open 3 failed 2
= calls 7 7 4 0

disks 0 0 5 0
open 3 failed 2
= calls 7 7 5 0

disks 0 0 6 0
open 3 failed 2
= calls 7 7 6 0

disks 0 0 7 0
open 3 failed 2
= calls 7 7 7 0

disks 0 8 0 0
open 2 made 2 13 2
= calls 7 7 0 0";

#[test]
fn each_call_fails_in_turn(rt: HostRuntime) {
    play(&rt, rt.alloc(), FAILING);
}
