//! Rows of texts, and what is read of each: a row is a line.
use std::alloc::{AllocError, Global};
use std::process::Abort;
use tau_text::{TextRefusal, Workload, parse_declarations, parse_workload, print_workload};

// Puts a character of a text as it is spelled in a row.
fn put(text: &mut String, spelled: char, number: u32) -> Result<(), AllocError> {
    match spelled {
        '¶' => text.push('\n'),
        '№' => write!(text, "{number}"),
        other => text.push(other),
    }
}

// Puts a part of a text for the time with this number.
fn put_part(rt: &impl Abort, text: &mut String, part: &str, number: u32) {
    for spelled in part.chars() {
        put(text, spelled, number).expect(rt, "memory");
    }
}

// Puts a part of a text so many times, each with its number.
fn put_numbered(rt: &impl Abort, text: &mut String, part: &str, times: u32) {
    for number in 0..times {
        put_part(rt, text, part, number);
    }
}

// Puts a part of a text so many times.
fn put_times(rt: &impl Abort, alloc: Global, text: &mut String, part: &str, times: u32) {
    let mut once = String::new(alloc);
    put_part(rt, &mut once, part, 0);
    for _ in 0..times {
        text.push_str(once.as_str()).expect(rt, "memory");
    }
}

// Puts a text in parts: a number says how many times the part behind it stands there.
fn put_text(rt: &impl Abort, alloc: Global, text: &mut String, parts: &str) {
    let mut times = 1;
    for part in parts.split('|') {
        match part.parse::<u32>() {
            Ok(number) => times = number,
            Err(_) => {
                if part.contains('№') {
                    put_numbered(rt, text, part, times);
                } else {
                    put_times(rt, alloc, text, part, times);
                }
                times = 1;
            }
        }
    }
}

// A text after these lines, and with these behind it.
fn text_of(rt: &impl Abort, alloc: Global, front: &str, parts: &str, back: &str) -> String {
    let mut text = String::new(alloc);
    put_text(rt, alloc, &mut text, front);
    put_text(rt, alloc, &mut text, parts);
    put_text(rt, alloc, &mut text, back);
    text
}

// The line of a refusal and the number of its cause.
fn place_of(refusal: &TextRefusal) -> (u32, u8) {
    match refusal {
        TextRefusal::NoMemory => (0, 10),
        TextRefusal::Bad(fault) => (fault.line, fault.cause.number()),
    }
}

/// The first bad line of a text and the number of the cause; 0 and 0 of a good text.
pub fn outcome(alloc: Global, text: &[u8]) -> (u32, u8) {
    match parse_workload(alloc, text) {
        Ok(_) => (0, 0),
        Err(refusal) => place_of(&refusal),
    }
}

// The same for a text that is to be the canonical text of declarations.
fn outcome_of_declarations(alloc: Global, text: &[u8]) -> (u32, u8) {
    match parse_declarations(alloc, text) {
        Ok(_) => (0, 0),
        Err(refusal) => place_of(&refusal),
    }
}

// Whether this is told: `good`, or the line and the number of the cause.
fn is_place(place: (u32, u8), told: &str) -> bool {
    match told.split_once(' ') {
        Some((line, cause)) => {
            line.parse::<u32>().ok() == Some(place.0) && cause.parse::<u8>().ok() == Some(place.1)
        }
        None => told == "good" && place == (0, 0),
    }
}

// Whether what is read of a text is told so.
fn is_read(alloc: Global, text: &[u8], told: &str) -> bool {
    match told.strip_prefix("declarations ") {
        Some(told) => is_place(outcome_of_declarations(alloc, text), told),
        None => is_place(outcome(alloc, text), told),
    }
}

// Whether a text is as long as is told behind `of`, and what is read of it is told so.
fn is_told(alloc: Global, text: &[u8], told: &str) -> bool {
    match told.split_once(" of ") {
        Some((read, long)) => {
            long.parse::<usize>().ok() == Some(text.len()) && is_read(alloc, text, read)
        }
        None => is_read(alloc, text, told),
    }
}

/// Whether a workload is printed as this.
pub fn is_printed(alloc: Global, load: &Workload, text: &str) -> bool {
    match print_workload(alloc, load) {
        Ok(found) => found.as_slice() == text.as_bytes(),
        Err(_) => false,
    }
}

// Whether a text is read, and what it means is printed as this.
fn becomes(alloc: Global, text: &str, printed: &str) -> bool {
    match parse_workload(alloc, text.as_bytes()) {
        Ok(load) => is_printed(alloc, &load, printed),
        Err(_) => false,
    }
}

// Whether a text becomes what is spelled so, after the same lines.
fn becomes_spelled(rt: &impl Abort, alloc: Global, text: &str, front: &str, printed: &str) -> bool {
    let wanted = text_of(rt, alloc, front, printed, "");
    becomes(alloc, text, wanted.as_str())
}

// Whether what is told of a text between these lines is so, and what it is printed as.
fn is_so(
    rt: &impl Abort,
    alloc: Global,
    around: (&str, &str),
    parts: &str,
    told: &str,
    printed: Option<&str>,
) -> bool {
    let text = text_of(rt, alloc, around.0, parts, around.1);
    match printed {
        None => is_told(alloc, text.as_str().as_bytes(), told),
        Some(printed) => {
            told == "good" && becomes_spelled(rt, alloc, text.as_str(), around.0, printed)
        }
    }
}

// Whether a row is so.
fn is_row(rt: &impl Abort, alloc: Global, around: (&str, &str), row: &str) -> bool {
    let Some((told, text)) = row.split_once(':') else {
        return false;
    };
    match text.split_once('¦') {
        None => is_so(rt, alloc, around, text, told, None),
        Some((text, printed)) => is_so(rt, alloc, around, text, told, Some(printed)),
    }
}

/// Reads the text of each row, between the lines `around`. What a row says:
///
///     good:TEXT                         the text is read as a workload
///     LINE CAUSE:TEXT                   this line is its first bad one, and this the number of the cause
///     good:TEXT¦PRINTED                 it is read, and what it means is printed as this, after the same lines
///     declarations good:TEXT            it is the canonical text of declarations
///     declarations LINE CAUSE:TEXT      it is not
///
/// with `of N` before the `:` where the text has so many bytes. In a text `¶` ends a line, and a number between `|` says how many
/// times the part behind it stands there; `№` is which time it is, from 0.
pub fn play(rt: &impl Abort, alloc: Global, around: (&str, &str), rows: &str) {
    for row in rows.split('\n') {
        assert!(rt; is_row(rt, alloc, around, row), "{row}");
    }
}
