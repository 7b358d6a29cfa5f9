//! Scenes: what is done, ` = `, and what comes of it, a line each. A line that begins with `#` says in words what the next
//! ones show.
use crate::logs::{is_contained, is_scanned};
use crate::reports::{acks, reports, shows};
use std::alloc::Global;
use std::process::Abort;

/// Whether the numbers are those of a text, between commas.
pub(crate) fn are_numbers(numbers: &[u64], text: &str) -> bool {
    let mut count = 0;
    for word in text.split(',') {
        if count >= numbers.len() || word.parse::<u64>().ok() != Some(numbers[count]) {
            return false;
        }
        count += 1;
    }
    count == numbers.len()
}

/// Whether the bytes are those of a text, in which `/` stands for the end of a line; `-` for none.
pub(crate) fn are_lines(bytes: &[u8], text: &str) -> bool {
    if text == "-" {
        return bytes.is_empty();
    }
    let signs = text.as_bytes();
    if bytes.len() != signs.len() {
        return false;
    }
    for (byte, sign) in bytes.iter().zip(signs.iter()) {
        let wanted = if *sign == b'/' { b'\n' } else { *sign };
        if *byte != wanted {
            return false;
        }
    }
    true
}

/// Whether a scene goes as its line says.
fn goes(alloc: Global, line: &str) -> bool {
    let Some((done, told)) = line.split_once(" = ") else {
        return false;
    };
    match done.split_once(' ') {
        Some(("scan", given)) => is_scanned(alloc, given, told),
        Some(("contents", given)) => is_contained(alloc, given, told),
        Some(("report", given)) => reports(alloc, given, told),
        Some(("show", given)) => shows(alloc, given, told),
        Some(("ack", given)) => acks(alloc, given, told),
        _ => false,
    }
}

/// Plays each scene.
pub(crate) fn play(rt: &impl Abort, alloc: Global, scenes: &str) {
    let mut is_empty = true;
    for line in scenes.lines() {
        if line.is_empty() || line.starts_with('#') {
            continue;
        }
        assert!(rt; goes(alloc, line), "{line}");
        is_empty = false;
    }
    assert!(rt; !is_empty);
}
