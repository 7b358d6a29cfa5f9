//! Contents in words: spelled by hand, or of records that are encoded.
use crate::words::{call_of, put_digits, value_of, vector_of};
use std::alloc::Global;
use tau_base::{Key, Lv, NoMemory};
use tau_record::{
    encode_anchor, encode_catalogue, encode_command, encode_command_wide, encode_epoch,
    encode_written, encode_written_wide,
};

/// Records: a name, in words what it is, and its bytes as hexadecimal digits.
static RECORDS: &str = "\
catalogue | the catalogue record of `table a` | 04 0000000d 7461626c6520610a
written | the record of call 1, which puts 5 into row 1 | \
    01 00000028 0000000000000001 00000000 0000 0001 0000 0000000000000001 01 0000000000000005
wide-written | the same record in format 2 | \
    01 0000002a 0000000000000001 00000000 00000000 0001 0000 0000000000000001 01 0000000000000005
wide-command | the same call as a command record in format 2 | \
    02 00000033 0000000000000001 00000000 00000000 0000 03 01 0000000000000000 01 0000000000000001 01 0000000000000005
epoch | epoch 1 of two streams, which then held 13 and 61 bytes | 05 00000019 00000001 000000000000000d 000000000000003d
high-written | the record of call 1 with the vector `two-high` above no anchor | \
    01 0000003a 0000000000000001 00000000 80010000 000000000000000d 000000000000003d 0001 0000 0000000000000001 01 0000000000000005
anchored-written | the record of call 1 with the vector `ends-raised` above the anchor `ends` | \
    01 00000032 0000000000000001 00000001 80000000 000000000000005a 0001 0000 0000000000000001 01 0000000000000005
same-written | the record of call 1 with the vector of that anchor | \
    01 0000002a 0000000000000001 00000001 00000000 0001 0000 0000000000000001 01 0000000000000005
";

/// The digits of the record with this name, or the digits that they are.
fn digits_of(text: &str) -> &str {
    for line in RECORDS.lines() {
        if let Some((name, rest)) = line.split_once(" | ") {
            if name == text {
                return rest.split_once(" | ").unwrap_or(("", text)).1;
            }
        }
    }
    text
}

/// Puts what was encoded last.
fn put(bytes: &mut Vec<u8>, record: Result<Vec<u8>, NoMemory>) -> bool {
    match record {
        Ok(record) => bytes.extend_from_slice(record.as_slice()).is_ok(),
        Err(_) => false,
    }
}

/// Puts 8 bytes for each of the first so many positions last.
fn put_positions(bytes: &mut Vec<u8>, positions: &[u64], count: usize) -> bool {
    for (j, position) in positions.iter().enumerate() {
        if j < count && bytes.extend_from_slice(&position.to_be_bytes()).is_err() {
            return false;
        }
    }
    true
}

/// Puts other bytes in the place of those from a place on.
fn change(bytes: &mut [u8], from: usize, others: &[u8]) -> bool {
    for (i, byte) in others.iter().enumerate() {
        let at = from.saturating_add(i);
        if at >= bytes.len() {
            return false;
        }
        bytes[at] = *byte;
    }
    !others.is_empty()
}

/// The same of digits, after the place.
fn change_digits(alloc: Global, bytes: &mut [u8], text: &str) -> bool {
    let Some((from, digits)) = text.split_once(':') else {
        return false;
    };
    let mut others = Vec::new(alloc);
    match from.parse::<usize>() {
        Ok(from) => put_digits(&mut others, digits) && change(bytes, from, others.as_slice()),
        Err(_) => false,
    }
}

fn put_catalogue(alloc: Global, bytes: &mut Vec<u8>, digits: &str) -> bool {
    let mut text = Vec::new(alloc);
    put_digits(&mut text, digits)
        && text.len() <= 32_768
        && put(bytes, encode_catalogue(alloc, text.as_slice()))
}

fn put_epoch(alloc: Global, bytes: &mut Vec<u8>, text: &str) -> bool {
    let Some((number, positions)) = text.split_once(':') else {
        return false;
    };
    match (number.parse::<u32>(), vector_of(positions)) {
        (Ok(number), Some(vector)) if 1 <= number => {
            put(bytes, encode_epoch(alloc, number, &vector))
        }
        _ => false,
    }
}

/// A call, the number of its anchor, its vector and that of the anchor, in format 2 or in format 1.
type Head<'a> = (u64, u32, &'a Lv, &'a Lv, bool);

/// A record of one write.
fn put_write(alloc: Global, bytes: &mut Vec<u8>, head: Head<'_>, value: &str) -> bool {
    let (call, named, dep, anchor, is_wide) = head;
    if call == 0 || dep.width() != anchor.width() || !dep.covers(anchor) {
        return false;
    }
    let Some(value) = value_of(value) else {
        return false;
    };
    let writes = [(Key { table: 0, row: 1 }, value)];
    if is_wide {
        return put(
            bytes,
            encode_written_wide(alloc, call, named, dep, anchor, &writes),
        );
    }
    dep.width() <= 16
        && put(
            bytes,
            encode_written(alloc, call, named, dep, anchor, &writes),
        )
}

/// The record of a call that puts a value into row 1: the call, its vector, the number and the vector of the anchor, and the value.
fn put_written(alloc: Global, bytes: &mut Vec<u8>, is_wide: bool, text: &str) -> bool {
    let mut words = text.splitn(5, ':');
    let (Some(call), Some(dep), Some(named)) = (words.next(), words.next(), words.next()) else {
        return false;
    };
    let (Some(anchor), Some(value)) = (words.next(), words.next()) else {
        return false;
    };
    let (Ok(call), Ok(named)) = (call.parse::<u64>(), named.parse::<u32>()) else {
        return false;
    };
    match (vector_of(dep), vector_of(anchor)) {
        (Some(dep), Some(anchor)) => {
            put_write(alloc, bytes, (call, named, &dep, &anchor, is_wide), value)
        }
        _ => false,
    }
}

/// The record of call 1, of this procedure with these arguments, above no anchor.
fn put_command(alloc: Global, bytes: &mut Vec<u8>, is_wide: bool, text: &str) -> bool {
    let zero = Lv::zero(2);
    let Some(call) = call_of(text) else {
        return false;
    };
    if !zero.covers(&zero) {
        return false;
    }
    if is_wide {
        return put(bytes, encode_command_wide(alloc, 1, 0, &zero, &zero, &call));
    }
    put(bytes, encode_command(alloc, 1, 0, &zero, &zero, &call))
}

/// Puts a part of a content last: digits, the name of a record, or what is encoded; or changes what is there.
fn put_part(alloc: Global, bytes: &mut Vec<u8>, part: &str) -> bool {
    let Some((word, text)) = part.split_once(':') else {
        return put_digits(bytes, digits_of(part));
    };
    match (word, vector_of(text)) {
        ("catalogue", _) => put_catalogue(alloc, bytes, text),
        ("epoch", _) => put_epoch(alloc, bytes, text),
        ("write", _) => put_written(alloc, bytes, false, text),
        ("wide-write", _) => put_written(alloc, bytes, true, text),
        ("command", _) => put_command(alloc, bytes, false, text),
        ("wide-command", _) => put_command(alloc, bytes, true, text),
        ("change", _) => change_digits(alloc, bytes.as_mut_slice(), text),
        ("anchor", Some(vector)) => put(bytes, encode_anchor(alloc, &vector)),
        ("positions", Some(vector)) => put_positions(bytes, vector.as_slice(), 32),
        ("first-31", Some(vector)) => put_positions(bytes, vector.as_slice(), 31),
        _ => false,
    }
}

/// Puts the parts of a content last, one after another.
pub(crate) fn put_all(alloc: Global, bytes: &mut Vec<u8>, text: &str) -> bool {
    for part in text.split(" + ") {
        if !put_part(alloc, bytes, part) {
            return false;
        }
    }
    true
}
