//! Logs that are read, and what is told of each.
ghost use Rattle.std.specs.Prelude.{◌≡◌, ◌≤◌, IsTrue, Some};
ghost use Rattle.tau_base.specs.Modes.{most_streams};

use crate::images::{put_disks, put_image};
use crate::play::{are_lines, are_numbers};
use crate::reports::tables_of;
use std::alloc::Global;
use tau_base::{Format, most_streams};
use tau_block::{Content, ImageFault};
use tau_disk::MemDisk;
use tau_model::Tables;
use tau_record::{RecordCause, RecordFault};
use tau_report::{put_recovery, recover_text};
use tau_scan::{Judge, Log, LogCause, LogFault, ScanRefusal, scan, scan_contents};

/// The format that is asked, or `any`.
fn asked_of(word: &str) -> Option<Option<Format>> {
    match word {
        "any" => Some(None),
        "1" => Some(Some(Format::One)),
        "2" => Some(Some(Format::Two)),
        _ => None,
    }
}

/// Whether so many streams are streams of the format that is asked, or of any.
fn has_room(asked: Option<Format>, count: usize) -> bool
    ensures { IsTrue result → (f : _) → asked ≡ Some f → count ≤ most_streams f }
{
    match asked {
        None => true,
        Some(format) => count <= most_streams(format),
    }
}

fn image_cause(word: &str) -> Option<ImageFault> {
    match word {
        "BadMagic" => Some(ImageFault::BadMagic),
        "BadCount" => Some(ImageFault::BadCount),
        "BadIndex" => Some(ImageFault::BadIndex),
        "OpenGateWithoutBlock" => Some(ImageFault::OpenGateWithoutBlock),
        _ => None,
    }
}

fn record_cause(word: &str) -> Option<RecordCause> {
    match word {
        "Short" => Some(RecordCause::Short),
        "BadKind" => Some(RecordCause::BadKind),
        "BadLength" => Some(RecordCause::BadLength),
        "BadAnchor" => Some(RecordCause::BadAnchor),
        "BadMask" => Some(RecordCause::BadMask),
        "BadBody" => Some(RecordCause::BadBody),
        _ => None,
    }
}

/// A cause that has two numbers.
fn cause_of_two(word: &str, first: u8, second: u32) -> Option<LogCause> {
    match word {
        "Format" => Some(LogCause::Format {
            asked: first,
            found: u8::try_from(second).ok()?,
        }),
        "Count" => Some(LogCause::Count {
            asked: u16::from(first),
            found: u16::try_from(second).ok()?,
        }),
        "Catalogue" => Some(LogCause::Catalogue {
            with: first,
            at: second,
        }),
        "Epoch" => Some(LogCause::Epoch {
            with: first,
            number: second,
        }),
        _ => None,
    }
}

/// A cause: that of an image alone, that of a record with its place, any other with two numbers.
fn cause_of(text: &str) -> Option<LogCause> {
    let mut words = text.split(' ');
    match (words.next(), words.next(), words.next(), words.next()) {
        (Some(word), None, _, _) => Some(LogCause::Image(image_cause(word)?)),
        (Some(word), Some(at), None, _) => Some(LogCause::Body(RecordFault {
            at: at.parse::<u64>().ok()?,
            cause: record_cause(word)?,
        })),
        (Some(word), Some(first), Some(second), None) => {
            cause_of_two(word, first.parse::<u8>().ok()?, second.parse::<u32>().ok()?)
        }
        _ => None,
    }
}

/// Why there is no log: `failed`, a stream, or `bad`, a stream and a cause.
fn refusal_of(told: &str) -> Option<ScanRefusal> {
    let (word, rest) = told.split_once(' ')?;
    if word == "failed" {
        let stream = rest.parse::<u8>().ok()?;
        return Some(ScanRefusal::Failed { stream });
    }
    if word != "bad" {
        return None;
    }
    let (stream, cause) = rest.split_once(' ')?;
    Some(ScanRefusal::Bad(LogFault {
        stream: stream.parse::<u8>().ok()?,
        cause: cause_of(cause)?,
    }))
}

/// Which of the first records of a stream are taken, a sign each.
fn takes(log: &Log, stream: u8, signs: &str) -> bool {
    for (index, sign) in signs.chars().enumerate() {
        if sign != '+' && sign != '-' || log.taken(stream, index) != (sign == '+') {
            return false;
        }
    }
    !signs.is_empty()
}

/// The vector against which the records of the epoch with this number are judged.
fn judges(alloc: Global, log: &Log, number: u32, positions: &str) -> bool {
    match Judge::of(alloc, log) {
        Ok(judge) => are_numbers(judge.vector(number).as_slice(), positions),
        Err(_) => false,
    }
}

fn is_recovered(alloc: Global, log: &Log, tables: &Tables, text: &str) -> bool {
    match recover_text(alloc, log, tables) {
        Ok(found) => are_lines(found.as_slice(), text),
        Err(_) => false,
    }
}

/// The same after a line that was there.
fn is_put(alloc: Global, log: &Log, tables: &Tables, text: &str) -> bool {
    let Ok(mut found) = Vec::from_slice(alloc, b"base 1\n") else {
        return false;
    };
    if put_recovery(alloc, &mut found, log, tables).is_err() {
        return false;
    }
    match found.as_slice().strip_prefix(b"base 1\n") {
        Some(rest) => are_lines(rest, text),
        None => false,
    }
}

/// What recovery tells of a log, where redoing it gives these rows.
fn recovers(alloc: Global, log: &Log, rows: &str, text: &str) -> bool {
    match tables_of(alloc, rows) {
        Some(tables) => is_recovered(alloc, log, &tables, text)
            && is_put(alloc, log, &tables, text),
        None => false,
    }
}

/// What is told of one stream, or of an epoch.
fn tells_of(alloc: Global, log: &Log, word: &str, number: u32, rest: &str) -> bool {
    match (word, u8::try_from(number)) {
        ("judges", _) => judges(alloc, log, number, rest),
        ("takes", Ok(stream)) => takes(log, stream, rest),
        _ => false,
    }
}

fn tells(alloc: Global, log: &Log, told: &str) -> bool {
    match told.split_once(' ') {
        None => told == "log",
        Some(("ends", ends)) => are_numbers(log.elv.as_slice(), ends),
        Some(("tables", count)) => count.parse::<usize>() == Ok(log.declarations.tables.len()),
        Some(("recovers", rest)) => match rest.split_once(" > ") {
            Some((rows, text)) => recovers(alloc, log, rows, text),
            None => false,
        },
        Some((word, rest)) => match rest.split_once(' ') {
            Some((number, rest)) => match number.parse::<u32>() {
                Ok(number) => tells_of(alloc, log, word, number, rest),
                Err(_) => false,
            },
            None => false,
        },
    }
}

fn tells_all(alloc: Global, log: &Log, told: &str) -> bool {
    for one in told.split("; ") {
        if !tells(alloc, log, one) {
            return false;
        }
    }
    true
}

/// Whether this is found in disks when a format is asked that has room for them, or none.
fn finds(alloc: Global, disks: &mut [MemDisk], asked: Option<Format>, told: &str) -> bool {
    if disks.is_empty() || disks.len() > 32 || !has_room(asked, disks.len()) {
        return false;
    }
    match scan(alloc, disks, asked) {
        Ok(log) => tells_all(alloc, &log, told),
        Err(refusal) => refusal_of(told) == Some(refusal),
    }
}

fn is_found(alloc: Global, asked: &str, images: &str, told: &str) -> bool {
    let Some(asked) = asked_of(asked) else {
        return false;
    };
    let mut disks = Vec::new(alloc);
    put_disks(alloc, &mut disks, images) && finds(alloc, disks.as_mut_slice(), asked, told)
}

/// Whether this is told of a log, with each format that is asked.
pub(crate) fn is_scanned(alloc: Global, given: &str, told: &str) -> bool {
    let Some((asked, images)) = given.split_once(' ') else {
        return false;
    };
    for format in asked.split(',') {
        if !is_found(alloc, format, images, told) {
            return false;
        }
    }
    true
}

/// Whether a stream of two has this content: the format of a born one, where the closed gate stands, and the bytes.
fn is_content(alloc: Global, content: &Content, text: &str) -> bool {
    let mut words = text.split(':');
    let (Some(format), Some(gate), Some(image), None) = (
        words.next(),
        words.next(),
        words.next(),
        words.next(),
    ) else {
        return false;
    };
    let (format, count) = match format {
        "-" => (None, None),
        "1" => (Some(Format::One), Some(2)),
        "2" => (Some(Format::Two), Some(2)),
        _ => return false,
    };
    let mut bytes = Vec::new(alloc);
    put_image(&mut bytes, image)
        && content.format == format
        && content.count == count
        && gate.parse::<u64>() == Ok(content.gate_at)
        && content.bytes.as_slice() == bytes.as_slice()
}

fn are_contents(alloc: Global, contents: &[Content], text: &str) -> bool {
    let mut count = 0;
    for word in text.split(',') {
        if count >= contents.len() || !is_content(alloc, &contents[count], word) {
            return false;
        }
        count += 1;
    }
    count == contents.len()
}

/// Where the streams end, and what each holds.
fn holds(alloc: Global, log: &Log, contents: &[Content], told: &str) -> bool {
    match told.split_once("; each ") {
        Some((ends, each)) => tells(alloc, log, ends) && are_contents(alloc, contents, each),
        None => false,
    }
}

fn reads(alloc: Global, disks: &mut [MemDisk], asked: Option<Format>, told: &str) -> bool {
    if disks.is_empty() || disks.len() > 16 {
        return false;
    }
    match scan_contents(alloc, disks, asked) {
        Ok((log, contents)) => holds(alloc, &log, contents.as_slice(), told),
        Err(_) => false,
    }
}

fn is_read(alloc: Global, asked: &str, images: &str, told: &str) -> bool {
    let Some(asked) = asked_of(asked) else {
        return false;
    };
    let mut disks = Vec::new(alloc);
    put_disks(alloc, &mut disks, images) && reads(alloc, disks.as_mut_slice(), asked, told)
}

/// Whether a log has these contents, with each format that is asked.
pub(crate) fn is_contained(alloc: Global, given: &str, told: &str) -> bool {
    let Some((asked, images)) = given.split_once(' ') else {
        return false;
    };
    for format in asked.split(',') {
        if !is_read(alloc, format, images, told) {
            return false;
        }
    }
    true
}
