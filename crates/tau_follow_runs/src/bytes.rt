//! Bytes in words: spelled by hand, or those of a content.
use crate::contents::content;
use std::alloc::AllocError;

/// A number; `cut` is the one that is given.
pub fn number(word: &str, cut: usize) -> Option<usize> {
    if word == "cut" {
        return Some(cut);
    }
    word.parse::<usize>().ok()
}

// Puts the bytes of hexadecimal digits, between which there may be spaces.
fn put_digits(bytes: &mut Vec<u8>, digits: &str) -> bool {
    let mut high: Option<u8> = None;
    for c in digits.chars() {
        if c == ' ' {
            continue;
        }
        let Some(digit) = c.to_digit(16) else {
            return false;
        };
        let low = digit as u8;
        match high {
            None => high = Some(low),
            Some(first) => {
                if bytes.push((first << 4) | low).is_err() {
                    return false;
                }
                high = None;
            }
        }
    }
    high.is_none()
}

/// Puts the content with this name.
pub fn put_content(bytes: &mut Vec<u8>, name: &str) -> bool {
    match content(name) {
        Some(digits) => put_digits(bytes, digits),
        None => false,
    }
}

// Keeps those bytes from an index on that stand before another one.
fn keep(bytes: &mut Vec<u8>, from: Option<usize>, to: Option<usize>) -> bool {
    match (from, to) {
        (Some(from), Some(to)) if from <= to && to <= bytes.len() => {
            bytes.truncate(to);
            bytes.drain(..from);
            true
        }
        _ => false,
    }
}

// Puts a part of a content: from which byte on, before which, and the name.
fn put_part(bytes: &mut Vec<u8>, spelled: &str, cut: usize) -> bool {
    let mut words = spelled.split(' ');
    match (words.next(), words.next(), words.next(), words.next()) {
        (Some(from), Some(to), Some(name), None) => {
            put_content(bytes, name) && keep(bytes, number(from, cut), number(to, cut))
        }
        _ => false,
    }
}

// Puts the start of the record of a call of one stream, of this length, whose number and row have one word.
fn put_head(bytes: &mut Vec<u8>, length: u8, number: u64, row: u64) -> Result<(), AllocError> {
    bytes.extend_from_slice(&[1, 0, 0, 0, length])?;
    bytes.extend_from_slice(&number.to_be_bytes())?;
    bytes.extend_from_slice(&[0, 0, 0, 0, 0, 0, 0, 1, 0, 0])?;
    bytes.extend_from_slice(&row.to_be_bytes())
}

// Puts the record of a call that writes this into a row: a number, or `none` if the row is deleted.
fn put_write(bytes: &mut Vec<u8>, number: u64, row: u64, value: &str) -> bool {
    if value == "none" {
        return put_head(bytes, 32, number, row).is_ok() && bytes.push(0).is_ok();
    }
    match value.parse::<u64>() {
        Ok(value) => {
            put_head(bytes, 40, number, row).is_ok()
                && bytes.push(1).is_ok()
                && bytes.extend_from_slice(&value.to_be_bytes()).is_ok()
        }
        Err(_) => false,
    }
}

// Puts the record of a call in words: its number, the row, and what it writes there.
fn put_call(bytes: &mut Vec<u8>, call: &str) -> bool {
    let mut words = call.split(',');
    match (words.next(), words.next(), words.next(), words.next()) {
        (Some(number), Some(row), Some(value), None) => {
            match (number.parse::<u64>(), row.parse::<u64>()) {
                (Ok(number), Ok(row)) => put_write(bytes, number, row, value),
                _ => false,
            }
        }
        _ => false,
    }
}

// Puts the records of these calls.
fn put_calls(bytes: &mut Vec<u8>, calls: &str) -> bool {
    for call in calls.split(' ') {
        if !put_call(bytes, call) {
            return false;
        }
    }
    true
}

/// Puts bytes in words: `bytes` and their digits, `calls` and what these write, `all` and the name of a content, or `part` of one.
pub fn put_spelled(bytes: &mut Vec<u8>, spelled: &str, cut: usize) -> bool {
    match spelled.split_once(' ') {
        Some(("bytes", digits)) => put_digits(bytes, digits),
        Some(("calls", calls)) => put_calls(bytes, calls),
        Some(("all", name)) => put_content(bytes, name),
        Some(("part", part)) => put_part(bytes, part, cut),
        _ => spelled == "bytes",
    }
}
