//! Images that were tampered with: the log of a stream of one, in which these bytes are set from a place on, or which is cut; the
//! cause that is found, and where the bad record starts.
use crate::digits::bytes_of;
use std::alloc::Global;
use std::test::*;
use tau_block::{ImageRefusal, contents_of};
use tau_record::{RecordRefusal, decode};

/// The log of a stream of one: the catalogue of `table a`, and the data record of `put a 1 5`.
static LOG: &str = "5441555255532d4c4f472d31 0001 0000 01 0000000d 04 0000000d 7461626c6520610a \
    01 00000028 01 00000028 0000000000000001 00000000 0000 0001 0000 0000000000000001 01 0000000000000005 00";

/// 0 where it is good, the number of an image's cause, or 10 and the number of a record's; and where the bad record starts.
fn found(alloc: Global, image: &[u8]) -> Option<(u8, u64)> {
    let content = match contents_of(alloc, image, 0) {
        Ok(content) => content,
        Err(ImageRefusal::Bad(fault)) => return Some((fault as u8, 0)),
        Err(ImageRefusal::NoMemory) => return None,
    };
    match decode(alloc, 1, content.bytes.as_slice()) {
        Ok(_) => Some((0, 0)),
        Err(RecordRefusal::Bad(fault)) => Some((10 + fault.cause as u8, fault.at)),
        Err(RecordRefusal::NoMemory) => None,
    }
}

/// Sets bytes from a place on.
fn set(image: &mut [u8], from: &str, bytes: &[u8]) -> Option<()> {
    let mut at = from.parse::<usize>().ok()?;
    for byte in bytes {
        if at >= image.len() {
            return None;
        }
        image[at] = *byte;
        at = at.wrapping_add(1);
    }
    Some(())
}

/// Whether the log that was changed so reads so.
fn reads(alloc: Global, line: &str) -> Option<bool> {
    let (how, wanted) = line.split_once(" = ")?;
    let (word, rest) = how.split_once(' ').unwrap_or((how, ""));
    let mut image = bytes_of(alloc, LOG)?;
    match word {
        "cut" => image.truncate(rest.parse::<usize>().ok()?),
        _ => set(
            image.as_mut_slice(),
            word,
            bytes_of(alloc, rest)?.as_slice(),
        )?,
    }
    let (cause, at) = wanted.split_once(' ')?;
    let given = (cause.parse::<u8>().ok()?, at.parse::<u64>().ok()?);
    Some(found(alloc, image.as_slice())? == given)
}

static HOSTILE: &str = "\
0 = 0 0
0 00 = 1 0
12 0011 = 2 0
14 0001 = 3 0
17 00000000 = 4 0
21 01 = 12 0
39 09 = 12 13
40 00000029 = 11 13
40 00000027 = 13 13
44 0000000000000000 = 16 13
52 00000001 = 14 13
58 0000 = 16 13
70 03 = 16 13
cut 34 = 4 0";

#[test]
fn hostile_images(rt: HostRuntime) {
    for line in HOSTILE.lines() {
        assert!(rt; reads(rt.alloc(), line) == Some(true), "{line}");
    }
}
